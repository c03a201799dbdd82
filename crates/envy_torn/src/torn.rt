// A file in memory that a crash tears. It keeps what it held at first and every call, so that what a crash at any
// moment might have left can be told from what it is.
ghost use Rattle.std.specs.Prelude.{◌≡◌, ◌≤◌, ℕ, List, [], ◌∷◌, ◌++◌, true, false, IfOk, length, take};
ghost use Rattle.envy_torn.specs.Calls.{seen_after, written};

use crate::Dice;
use crate::call::{Call, add_call, follow};
use crate::drawn::{cut_some, mix, tear, write_anew};
use envy_device::{Device, DeviceFailed, Made, Record, ReplaceError, Replaceable, SecondFailed};
use std::alloc::{AllocError, Global};
use std::mem;

/// A file in memory, whose calls fail from a planned one on.
#[derive(Drop)]
pub struct TornFile {
    alloc: Global,
    bytes: Vec<u8>,
    // the second file
    second: Vec<u8>,
    first: Vec<u8>,
    pub(crate) calls: Vec<Call>,
    // how many calls there were when the last sync succeeded
    synced: usize,
    pub(crate) failed: bool,
    // how many calls can still succeed, and how many of those on the second file
    left: usize,
    second_left: usize,
    // whether it is trusted to be written byte by byte
    bytewise: bool,
    // the calls on the second file that failed
    hindrances: Record,
    ghost seen: { bytes.items ≡ seen_after calls.items first.items },
    ghost synced_before: { synced ≤ length calls.items },
}

impl TornFile {
    ghost use Rattle.std.specs.Prelude.{◌⊎◌, ◌+◌, IfSome};
    ghost use Rattle.envy_device.specs.Device.{Only};
    ghost use Rattle.envy_torn.specs.Calls.{seen_by};
    ghost use Rattle.envy_torn.specs.Torn.{file_bytes, file_second, file_calls, file_bytewise, file_failed, file_outcome, Kept, Noted, Finished, Unwritten};

    /// A file with these bytes, all of them on the disk. So many calls succeed, and every later one fails. It may be one
    /// that is trusted to be written byte by byte.
    pub fn new(
        alloc: Global,
        bytes: Vec<u8>,
        left: usize,
        bytewise: bool,
    ) -> Result<TornFile, AllocError>
        ensures bytes { IfOk result (λ file. file_bytes file ≡ bytes.items) }
        ensures bytewise { IfOk result (λ file. file_bytewise file ≡ bytewise) }
        ensures durable { IfOk result (λ file. Only (file_bytes file) (file_outcome file)) }
        ensures works { IfOk result (λ file. file_failed file ≡ false) }
    {
        let first = bytes.to_vec(alloc)?;
        Ok(TornFile {
            alloc,
            bytes,
            second: Vec::new(alloc),
            first,
            calls: Vec::new(alloc),
            synced: 0,
            failed: false,
            left,
            second_left: usize::MAX,
            bytewise,
            hindrances: Record::new(),
        })
    }

    /// So many calls on the second file succeed from now on, and every later one fails. The file itself stays as it is.
    pub fn fail_second(&mut self, left: usize)
        ensures kept { Kept self.old self.new }
        ensures bytes { file_bytes self.new ≡ file_bytes self.old }
        ensures failed { file_failed self.new ≡ file_failed self.old }
    {
        self.second_left = left;
    }

    /// The bytes of the file.
    pub fn bytes(&self) -> &[u8]
        ensures { result.now ≡ file_bytes self.now }
    {
        &self.bytes
    }

    /// What a crash at this moment leaves, drawn: each write since the last sync is done, lost or torn, to any bytes or, where
    /// the file is trusted to be written byte by byte, to bytes that were there and bytes that were written.
    pub fn crash(&self, alloc: Global, dice: &mut Dice) -> Result<Vec<u8>, AllocError> {
        let synced = self.synced.min(self.calls.len());
        let mut seen = self.first.to_vec(alloc)?;
        for call in &self.calls[..synced] {
            follow(&mut seen, call)?;
        }
        let mut disk = seen.to_vec(alloc)?;
        for call in &self.calls[synced..] {
            self.leave(&mut disk, call, dice)?;
        }
        Ok(disk)
    }

    // Does a call since the last sync in part, as a crash may leave it.
    fn leave(&self, disk: &mut Vec<u8>, call: &Call, dice: &mut Dice) -> Result<(), AllocError> {
        match call {
            Call::Write { at, bytes } | Call::BadWrite { at, bytes } => {
                self.lose(disk, *at, bytes, dice)?
            }
            Call::Cut { len } | Call::BadCut { len } => cut_some(disk, *len, dice),
            Call::Sync => {}
            Call::Replace { bytes } => write_anew(disk, bytes)?,
            Call::BadReplace { bytes } => {
                if dice.below(2) == 0 {
                    write_anew(disk, bytes)?;
                }
            }
        }
        Ok(())
    }

    // Does a write in part, as a crash may leave it.
    fn lose(
        &self,
        disk: &mut Vec<u8>,
        at: usize,
        bytes: &[u8],
        dice: &mut Dice,
    ) -> Result<(), AllocError> {
        if at > disk.len() {
            return Ok(());
        }
        if self.bytewise {
            mix(disk, at, bytes, dice)
        } else {
            tear(disk, at, bytes, dice)
        }
    }

    // Whether this call may succeed.
    fn may_pass(&mut self) -> bool
        ensures kept { Kept self.old self.new }
        ensures second { file_second self.new ≡ file_second self.old }
        ensures failed { self.new.failed ≡ self.old.failed }
        ensures passes { result ≡ true → self.new.failed ≡ false }
        ensures planned { result ≡ true → self.old.left ≡ self.new.left + 1 }
        ensures refuses { result ≡ false → (self.old.failed ≡ true) ⊎ (self.old.left ≡ 0) }
    {
        if self.failed || self.left == 0 {
            return false;
        }
        self.left -= 1;
        true
    }

    // Whether this call on the second file may succeed.
    fn second_may_pass(&mut self) -> bool
        ensures kept { Kept self.old self.new }
        ensures bytes { file_bytes self.new ≡ file_bytes self.old }
        ensures second { file_second self.new ≡ file_second self.old }
        ensures failed { self.new.failed ≡ self.old.failed }
    {
        if self.second_left == 0 {
            return false;
        }
        self.second_left -= 1;
        true
    }

    // The bytes again, and the file with them, where this write may succeed and there is memory.
    fn planned_write(&mut self, at: usize, bytes: &[u8]) -> Option<(Vec<u8>, Vec<u8>)>
        requires { at ≤ length (file_bytes self.old) }
        ensures kept { Kept self.old self.new }
        ensures failed { self.new.failed ≡ self.old.failed }
        ensures passes { IfSome result (λ both. (self.new.failed ≡ false) × (both.0.items ≡ bytes.now)
            × (both.1.items ≡ written (file_bytes self.old) at bytes.now)) }
    {
        if !self.may_pass() {
            return None;
        }
        overwritten(self.alloc, &self.bytes, at, bytes).ok()
    }

    // The file cut to a length, where this cut may succeed and there is memory.
    fn planned_cut(&mut self, len: usize) -> Option<Vec<u8>>
        requires { len ≤ length (file_bytes self.old) }
        ensures kept { Kept self.old self.new }
        ensures failed { self.new.failed ≡ self.old.failed }
        ensures passes { IfSome result (λ next. (self.new.failed ≡ false)
            × (next.items ≡ take len (file_bytes self.old))) }
    {
        if !self.may_pass() {
            return None;
        }
        self.bytes[..len].to_vec(self.alloc).ok()
    }

    // The second file twice, where it may take the first one's place and there is memory.
    fn planned_replace(&mut self) -> Option<(Vec<u8>, Vec<u8>)>
        ensures kept { Kept self.old self.new }
        ensures second { file_second self.new ≡ file_second self.old }
        ensures failed { self.new.failed ≡ self.old.failed }
        ensures passes { IfSome result (λ both. (self.new.failed ≡ false) × (both.0.items ≡ file_second self.old)
            × (both.1.items ≡ file_second self.old)) }
    {
        if !self.may_pass() {
            return None;
        }
        twice(self.alloc, &self.second).ok()
    }

    // Notes a call that makes the file these bytes.
    fn finish(&mut self, call: Call, next: Vec<u8>) -> Result<(), DeviceFailed>
        requires { next.items ≡ seen_by call (file_bytes self.old) }
        ensures { Finished call self.old result self.new }
    {
        if !add_call(&mut self.calls, call) {
            self.failed = true;
            return Err(DeviceFailed);
        }
        self.bytes = next;
        Ok(())
    }

    // Notes a call that failed, where there is memory for it.
    fn fail(&mut self, call: Call)
        requires { (seen : List ℕ) → seen_by call seen ≡ seen }
        ensures call { Noted call self.old self.new ⊎ Kept self.old self.new }
        ensures failed { self.new.failed ≡ true }
    {
        self.failed = true;
        add_call(&mut self.calls, call);
    }

    // Notes a write that failed, where there is memory for it.
    fn fail_write(&mut self, at: usize, bytes: &[u8])
        ensures call { Unwritten at bytes.now self.old self.new }
        ensures failed { self.new.failed ≡ true }
    {
        match bytes.to_vec(self.alloc) {
            Ok(copy) => self.fail(Call::BadWrite { at, bytes: copy }),
            Err(_) => self.failed = true,
        }
    }
}

// The bytes, two times.
fn twice(alloc: Global, bytes: &[u8]) -> Result<(Vec<u8>, Vec<u8>), AllocError>
    ensures { IfOk result (λ both. (both.0.items ≡ bytes.now) × (both.1.items ≡ bytes.now)) }
{
    Ok((bytes.to_vec(alloc)?, bytes.to_vec(alloc)?))
}

// The bytes again, and a file with them at this offset.
fn overwritten(
    alloc: Global,
    file: &[u8],
    at: usize,
    bytes: &[u8],
) -> Result<(Vec<u8>, Vec<u8>), AllocError>
    requires { at ≤ length file.now }
    ensures { IfOk result (λ both. (both.0.items ≡ bytes.now) × (both.1.items ≡ written file.now at bytes.now)) }
{
    let mut next = file[..at].to_vec(alloc)?;
    next.extend_from_slice(bytes)?;
    if bytes.len() < file.len() - at {
        next.extend_from_slice(&file[at + bytes.len()..])?;
    }
    Ok((bytes.to_vec(alloc)?, next))
}

impl Device for TornFile {
    ghost use Rattle.envy_torn.specs.Torn.{file_bytes, file_calls, file_outcome, file_left, file_synced, file_syncs, file_failed, file_hindered, file_bytewise, counts_now_lem, only_now_lem, synced_before_lem};

    ghost seen = { file_bytes };

    ghost may_leave = { file_outcome };

    ghost moment = { λ file. length (file_calls file) };

    ghost left_since = { file_left };

    ghost synced = { file_synced };

    ghost syncs = { file_syncs };

    ghost has_failed = { file_failed };

    ghost hindered = { file_hindered };

    ghost bytewise = { file_bytewise };

    ghost counts_now = { counts_now_lem };

    ghost only_now = { only_now_lem };

    ghost synced_before = { synced_before_lem };

    fn is_bytewise(&self) -> bool {
        self.bytewise
    }

    fn write_at(&mut self, at: usize, bytes: &[u8]) -> Result<(), DeviceFailed> {
        match self.planned_write(at, bytes) {
            Some((copy, next)) => self.finish(Call::Write { at, bytes: copy }, next),
            None => {
                self.fail_write(at, bytes);
                Err(DeviceFailed)
            }
        }
    }

    fn cut(&mut self, len: usize) -> Result<(), DeviceFailed> {
        match self.planned_cut(len) {
            Some(next) => self.finish(Call::Cut { len }, next),
            None => {
                self.fail(Call::BadCut { len });
                Err(DeviceFailed)
            }
        }
    }

    fn sync(&mut self) -> Result<(), DeviceFailed> {
        if !self.may_pass() {
            self.failed = true;
            return Err(DeviceFailed);
        }
        if !add_call(&mut self.calls, Call::Sync) {
            self.failed = true;
            return Err(DeviceFailed);
        }
        self.synced = self.calls.len();
        Ok(())
    }
}

impl Replaceable for TornFile {
    ghost use Rattle.envy_torn.specs.Torn.{file_second};

    ghost second = { file_second };

    // each call on the second file that fails is noted
    ghost goes_on = { λ file. Unit };

    fn begin_second(&mut self) -> Result<(), SecondFailed> {
        if !self.second_may_pass() || !self.may_pass() {
            self.hindrances = self.hindrances.and(&Made::BeginFailed);
            return Err(SecondFailed);
        }
        self.second = Vec::new(self.alloc);
        Ok(())
    }

    fn write_second(&mut self, bytes: &[u8]) -> Result<(), SecondFailed> {
        let size = bytes.len();
        if !self.second_may_pass() || !self.may_pass() {
            self.hindrances = self.hindrances.and(&Made::AppendFailed { size });
            return Err(SecondFailed);
        }
        if self.second.extend_from_slice(bytes).is_err() {
            self.hindrances = self.hindrances.and(&Made::AppendFailed { size });
            return Err(SecondFailed);
        }
        Ok(())
    }

    fn replace(&mut self) -> Result<(), ReplaceError> {
        if !self.second_may_pass() {
            self.hindrances = self.hindrances.and(&Made::SecondNotReplaced);
            return Err(ReplaceError::Second);
        }
        match self.planned_replace() {
            Some((copy, next)) => {
                self.finish(Call::Replace { bytes: copy }, next)?;
                self.synced = self.calls.len();
                Ok(())
            }
            None => {
                let bytes = mem::replace(&mut self.second, Vec::new(self.alloc));
                self.fail(Call::BadReplace { bytes });
                Err(ReplaceError::Failed)
            }
        }
    }
}
