// A journal is made, or read again once a crash may have cut it short.
ghost use Rattle.std.specs.Prelude.{◌≡◌, ◌≢◌, ◌⊎◌, ◌+◌, ◌-◌, ◌<◌, ◌≤◌, ◌^◌, ◌++◌, ◌∷◌, [], List, ℕ, false, true, IsTrue, length, max, min, take, drop, replicate, IfOk, IfErr, OnOk, OnErr};
ghost use Rattle.std.specs.List.{All};
ghost use Rattle.envy_base.specs.State.{State};
ghost use Rattle.envy_device.specs.Device.{Only, LeavesOnly};
ghost use Rattle.envy_journal.specs.Content.{content_of, blank, holds, HasMisfit, IsWithin};
ghost use Rattle.envy_journal.specs.Found.{IsDamaged, IsEnd, IsMended, ReadsAlike};
ghost use Rattle.envy_journal.specs.Head.{HasHead, StandsFor, IsUnmade, IsNewOrUnmade, head_bytes};
ghost use Rattle.envy_journal.specs.Held.{most_held};
ghost use Rattle.envy_journal.specs.Journal.{kept, done, IsAtRest};
ghost use Rattle.envy_journal.specs.Log.{HasRuns};
ghost use Rattle.envy_journal.specs.Reading.{operations, IsUnbroken, Leads};
ghost use Rattle.envy_journal.specs.Version.{version};
ghost use Rattle.envy_journal.specs.declared.open_error.OpenError.TheVariants.{Memory, Failed, Misfit as OpenMisfit, Damaged};

use crate::head::{HEAD, VERSION};
use crate::journaled::Journaled;
use crate::log::{Log, MOST_HELD, mend};
use crate::new_journal::make;
use crate::operation::{CLOSED, PROGRAM_SIZE};
use crate::replay::{Unread, replay_file};
use crate::steady::Steady;
use envy_device::{Device, DeviceFailed, ReplaceError, Replaceable};
use std::alloc::Global;

/// Why a journal wasn't made or opened.
#[derive(Clone, Copy, Debug, PartialEq, Eq)]
pub enum OpenError {
    /// Memory ran out.
    Memory,
    /// The device failed.
    Failed,
    /// The second file, in which a journal is made, couldn't be made. The file is as it was.
    Second,
    /// An operation of the file is none of the board's shape.
    Misfit,
    /// The file is damaged: a batch breaks off at this byte.
    Damaged(usize),
}

// Whether bytes are zeros alone.
fn are_zeros(bytes: &[u8]) -> bool
    ensures zeros { result ≡ true → bytes.now ≡ replicate (length bytes.now) 0 }
    ensures others { result ≡ false → bytes.now ≢ replicate (length bytes.now) 0 }
{
    let mut at = 0;
    while at < bytes.len() {
        if bytes[at] != CLOSED {
            return false;
        }
        at += 1;
    }
    true
}

// Mends the end of a file whose first bytes count, and answers how long it is then: a closed gate and zeros alone follow
// them. Where they do already no byte is written. It may crash too.
fn settle<D: Device>(device: &mut D, bytes: &[u8], end: usize) -> Result<usize, DeviceFailed>
    requires bytes { bytes.now ≡ D.seen device.old }
    requires durable { Only (D.seen device.old) (D.may_leave device.old) }
    requires end { IsEnd end bytes.now }
    ensures mended { IfOk result (λ size. IsMended end size (D.seen device.old) (D.seen device.new)) }
    ensures short { IfOk result (λ size. size ≤ length bytes.now + 1) }
    ensures still { end < length bytes.now → drop end bytes.now ≡ replicate (length bytes.now - end) 0
        → D.seen device.new ≡ D.seen device.old }
    ensures durable { OnOk result (Only (D.seen device.new) (D.may_leave device.new)) }
    ensures synced { OnOk result (D.synced device.new ≡ D.moment device.new) }
    ensures failed { OnErr result (IsTrue (D.has_failed device.new)) }
    ensures any_moment { LeavesOnly D.moment D.left_since device.old device.new
        (ReadsAlike end (D.seen device.old)) }
{
    if end < bytes.len() && are_zeros(&bytes[end..]) {
        device.sync()?;
        Ok(bytes.len())
    } else {
        mend(device, end, &[CLOSED])?;
        Ok(end + 1)
    }
}

/// Opens a journal whose operations were done on a board, once it is known how many bytes of the file count. So many bytes
/// of operations are held back between writes, 263 of them at least and 1 MiB at most. It may crash too, at any moment, and
/// then the file stands for the same operations. An `Err` gives the device back.
pub fn open_at<B: Steady + Drop, D: Device + Drop>(
    alloc: Global,
    board: B,
    mut device: D,
    bytes: &[u8],
    end: usize,
    room: usize,
) -> Result<Journaled<B, D>, (OpenError, D)>
    requires bytes { bytes.now ≡ D.seen device }
    // After a restart, what is read is what is on the disk.
    requires durable { Only (D.seen device) (D.may_leave device) }
    requires head { HasHead (B.state board).shape bytes.now }
    requires content { content_of (B.state board) ≡ holds (B.state board).shape (operations bytes.now) }
    requires end { IsEnd end bytes.now }
    ensures alive { IfOk result (λ j. (j.dead ≡ false) × (j.in_doubt ≡ false)) }
    ensures room { IfOk result (λ j. length j.log.buffer.items ≡ max 263 (min room most_held)) }
    // the file is no longer than it was, but for a gate, and stays as it is where zeros alone follow what counts
    ensures short { IfOk result (λ j. length (D.seen j.log.device) ≤ length bytes.now + 1) }
    ensures still { end < length bytes.now → drop end bytes.now ≡ replicate (length bytes.now - end) 0
        → IfOk result (λ j. D.seen j.log.device ≡ bytes.now) }
    ensures kept { IfOk result (λ j. kept D.seen j.log ≡ operations bytes.now) }
    ensures done { IfOk result (λ j. done D.seen j.log ≡ operations bytes.now) }
    ensures board { IfOk result (λ j. j.board ≡ board) }
    ensures any_moment { IfOk result (λ j.
        LeavesOnly D.moment D.left_since device j.log.device (StandsFor (B.state board).shape (operations bytes.now))) }
    ensures any_moment_err { IfErr result (λ e.
        LeavesOnly D.moment D.left_since device e.1 (StandsFor (B.state board).shape (operations bytes.now))) }
    ensures cause { IfErr result (λ e. ((e.0 ≡ Failed) × IsTrue (D.has_failed e.1)) ⊎ ((e.0 ≡ Memory) × (e.1 ≡ device))) }
{
    let buffer = match vec![in alloc; 0; room.clamp(PROGRAM_SIZE + 2, MOST_HELD)] {
        Ok(buffer) => buffer,
        Err(_) => return Err((OpenError::Memory, device)),
    };
    match settle(&mut device, bytes, end) {
        Ok(size) => Ok(begun(board, device, buffer, end, size, bytes[8] == VERSION)),
        Err(DeviceFailed) => Err((OpenError::Failed, device)),
    }
}

/// Opens a journal that a crash may have left, on a blank board of its sizes: does its operations and then opens it, as
/// `open_at` does. A file that is refused for what it holds isn't touched.
pub fn open<B: Steady + Drop, D: Device + Drop>(
    alloc: Global,
    mut board: B,
    device: D,
    bytes: &[u8],
    room: usize,
) -> Result<Journaled<B, D>, (OpenError, D)>
    requires bytes { bytes.now ≡ D.seen device }
    // After a restart, what is read is what is on the disk.
    requires durable { Only (D.seen device) (D.may_leave device) }
    requires blank { content_of (B.state board) ≡ blank (B.state board).shape }
    requires head { HasHead (B.state board).shape bytes.now }
    ensures alive { IfOk result (λ j. (j.dead ≡ false) × (j.in_doubt ≡ false)) }
    ensures room { IfOk result (λ j. length j.log.buffer.items ≡ max 263 (min room most_held)) }
    // the file is no longer than it was, but for a gate
    ensures short { IfOk result (λ j. length (D.seen j.log.device) ≤ length bytes.now + 1) }
    // a journal with an operation that is none of the board's shape is refused for it, and for nothing else
    ensures within { IfOk result (λ _. All (IsWithin (B.state board).shape) (operations bytes.now)) }
    ensures within_err { IfErr result (λ e.
        e.0 ≢ OpenMisfit → All (IsWithin (B.state board).shape) (operations bytes.now)) }
    // and one that is damaged is refused for that: what a crash leaves is never
    ensures unbroken { IfOk result (λ _. IsUnbroken bytes.now) }
    ensures damaged { IfErr result (λ e. (place : ℕ) → e.0 ≡ Damaged place
        → IsDamaged place bytes.now × (e.1 ≡ device)) }
    ensures kept { IfOk result (λ j. kept D.seen j.log ≡ operations bytes.now) }
    ensures done { IfOk result (λ j. done D.seen j.log ≡ operations bytes.now) }
    ensures shape { IfOk result (λ j. (B.state j.board).shape ≡ (B.state board).shape) }
    ensures content { IfOk result (λ j.
        content_of (B.state j.board) ≡ holds (B.state board).shape (operations bytes.now)) }
    ensures any_moment { IfOk result (λ j.
        LeavesOnly D.moment D.left_since device j.log.device (StandsFor (B.state board).shape (operations bytes.now))) }
    // of a file that was refused for what it holds nothing else is left
    ensures any_moment_err { IfErr result (λ e. (e.1 ≡ device)
        ⊎ LeavesOnly D.moment D.left_since device e.1 (StandsFor (B.state board).shape (operations bytes.now))) }
    ensures misfit { IfErr result (λ e. e.0 ≡ OpenMisfit
        → HasMisfit (B.state board).shape (operations bytes.now) × (e.1 ≡ device)) }
    ensures failed { IfErr result (λ e. e.0 ≡ Failed → IsTrue (D.has_failed e.1)) }
    ensures memory { IfErr result (λ e. e.0 ≡ Memory → e.1 ≡ device) }
{
    match replay_file(&mut board, bytes) {
        Ok(end) => open_at(alloc, board, device, bytes, end, room),
        Err(Unread::Misfit) => Err((OpenError::Misfit, device)),
        Err(Unread::Damaged(place)) => Err((OpenError::Damaged(place), device)),
    }
}

/// Makes a journal of a blank board in an empty file. It may crash too, at any moment, and then the file is empty, or a
/// journal without operations. An `Err` gives the device back.
pub fn create<B: Steady + Drop, D: Replaceable + Drop>(
    alloc: Global,
    board: B,
    mut device: D,
    room: usize,
) -> Result<Journaled<B, D>, (OpenError, D)>
    requires durable { Only (D.seen device) (D.may_leave device) }
    requires blank { content_of (B.state board) ≡ blank (B.state board).shape }
    requires unmade { IsUnmade (D.seen device) }
    ensures alive { IfOk result (λ j. (j.dead ≡ false) × (j.in_doubt ≡ false)) }
    ensures room { IfOk result (λ j. length j.log.buffer.items ≡ max 263 (min room most_held)) }
    // the file is a head and a closed gate, and no more
    ensures file { IfOk result (λ j. D.seen j.log.device ≡ head_bytes version (B.state board).shape ++ 0 ∷ []) }
    ensures kept { IfOk result (λ j. kept D.seen j.log ≡ []) }
    ensures done { IfOk result (λ j. done D.seen j.log ≡ []) }
    ensures board { IfOk result (λ j. j.board ≡ board) }
    ensures any_moment { IfOk result (λ j.
        LeavesOnly D.moment D.left_since device j.log.device (IsNewOrUnmade (B.state board).shape)) }
    ensures any_moment_err { IfErr result (λ e.
        LeavesOnly D.moment D.left_since device e.1 (IsNewOrUnmade (B.state board).shape)) }
    ensures misfit { IfErr result (λ e. e.0 ≢ OpenMisfit) }
    ensures damaged { IfErr result (λ e. (place : ℕ) → e.0 ≢ Damaged place) }
    ensures failed { IfErr result (λ e. e.0 ≡ Failed → IsTrue (D.has_failed e.1)) }
    ensures memory { IfErr result (λ e. e.0 ≡ Memory → e.1 ≡ device) }
{
    let buffer = match vec![in alloc; 0; room.clamp(PROGRAM_SIZE + 2, MOST_HELD)] {
        Ok(buffer) => buffer,
        Err(_) => return Err((OpenError::Memory, device)),
    };
    match make(&mut device, &board.shape()) {
        Ok(()) => Ok(begun(board, device, buffer, HEAD, HEAD + 1, true)),
        Err(ReplaceError::Second) => Err((OpenError::Second, device)),
        Err(ReplaceError::Failed) => Err((OpenError::Failed, device)),
    }
}

// A journal whose file, of this length, ends with a closed gate and zeros.
fn begun<B: Steady + Drop, D: Device + Drop>(
    board: B,
    device: D,
    buffer: Vec<u8>,
    gate: usize,
    size: usize,
    runs: bool,
) -> Journaled<B, D>
    requires at_rest { IsAtRest D.seen D.may_leave D.moment D.synced device gate }
    requires size { length (D.seen device) ≡ size }
    requires room { 263 ≤ length buffer.items }
    requires few { length buffer.items ≤ most_held }
    requires head { HasHead (B.state board).shape (take gate (D.seen device)) }
    requires leads { Leads false 33 (take gate (D.seen device)) (operations (take gate (D.seen device))) false }
    requires content { content_of (B.state board)
        ≡ holds (B.state board).shape (operations (take gate (D.seen device))) }
    requires runs { runs ≡ true → HasRuns (take gate (D.seen device)) }
    ensures alive { (result.dead ≡ false) × (result.in_doubt ≡ false) }
    ensures board { result.board ≡ board }
    ensures device { result.log.device ≡ device }
    ensures room { result.log.buffer ≡ buffer }
    ensures kept { kept D.seen result.log ≡ operations (take gate (D.seen device)) }
    ensures done { done D.seen result.log ≡ operations (take gate (D.seen device)) }
{
    let log = Log {
        device,
        buffer,
        used: 0,
        gate,
        end: gate + 1,
        size,
        zeros: 0,
        latest: 0,
        runs,
        second: 0,
    };
    Journaled {
        board,
        log,
        dead: false,
        in_doubt: false,
        next: 0,
    }
}
