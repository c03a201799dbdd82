// Puts of words in a row are held as one run: its place, and its words.
ghost use Rattle.std.specs.Prelude.{◌≡◌, ◌+◌, ◌<◌, ◌≤◌, ◌∷◌, ◌++◌, [], true, false, length, OnOk};
ghost use Rattle.envy_device.specs.Device.{LeavesOnly};
ghost use Rattle.envy_journal.specs.Joining.{Gains, IsLengthened, IsNext};
ghost use Rattle.envy_journal.specs.declared.operation.Operation.TheVariants.{Put};

use crate::fault::SyncError;
use crate::log::Log;
use crate::operation::{MOST_WORDS, Operation, number_at, words_of_tag, write_word};
use envy_device::Device;

// Whether the operation at a place of a buffer, which is the last of those in use, is a put or a run to which a put of this
// word can be joined.
fn is_next(buffer: &[u8], used: usize, at: usize, w: u32) -> bool
    requires { used ≤ length buffer.now }
    ensures { result ≡ true → IsNext w at used buffer.now }
{
    if at >= used {
        return false;
    }
    let words = words_of_tag(buffer[at]);
    if words == 0 || words >= MOST_WORDS {
        return false;
    }
    if used - at != 5 + 8 * words {
        return false;
    }
    number_at(buffer, at + 1) as usize + words == w as usize
}

// Joins a word to the put or the run at a place of a buffer, which is the last operation of those in use.
fn lengthen_in(buffer: &mut [u8], used: usize, at: usize, _w: u32, v: u64)
    requires next { IsNext _w at used buffer.old }
    requires room { used + 8 ≤ length buffer.old }
    ensures longer { IsLengthened at used v buffer.old buffer.new }
    ensures room { length buffer.new ≡ length buffer.old }
{
    let words = words_of_tag(buffer[at]);
    buffer[at] = 129 + words as u8;
    write_word(buffer, used, v);
}

// The same in the buffer of a log.
fn lengthen(buffer: &mut Vec<u8>, used: usize, at: usize, _w: u32, v: u64)
    requires next { IsNext _w at used buffer.old.items }
    requires room { used + 8 ≤ length buffer.old.items }
    ensures longer { IsLengthened at used v buffer.old.items buffer.new.items }
    ensures room { length buffer.new.items ≡ length buffer.old.items }
{
    lengthen_in(buffer, used, at, _w, v);
}

impl<D: Device> Log<D> {
    ghost use Rattle.envy_journal.specs.Log.{Begins, Fits, IsCounted, IsSound, IsTied, HasCause, kept_bytes, held_bytes};
    ghost use Rattle.envy_journal.specs.Reading.{bytes_of};

    // Whether a put of this word can be joined to the buffer's latest operation.
    fn can_join(&self, w: u32) -> bool
        ensures runs { result ≡ true → self.now.runs ≡ true }
        ensures room { result ≡ true → self.now.used + 9 < length self.now.buffer.items }
        ensures next { result ≡ true → IsNext w self.now.latest self.now.used self.now.buffer.items }
    {
        self.runs
            && self.buffer.len() - self.used > 9
            && is_next(&self.buffer, self.used, self.latest, w)
    }

    // Joins a word to the buffer's latest operation, which is a run then.
    fn join(&mut self, w: u32, v: u64)
        requires sound { IsSound D.seen D.may_leave D.left_since D.synced self.old }
        requires counted { IsCounted D.seen D.may_leave D.bytewise self.old }
        requires next { IsNext w self.old.latest self.old.used self.old.buffer.items }
        requires room { self.old.used + 9 < length self.old.buffer.items }
        ensures sound { IsSound D.seen D.may_leave D.left_since D.synced self.new }
        ensures counted { IsCounted D.seen D.may_leave D.bytewise self.new }
        ensures kept { kept_bytes D.seen self.new ≡ kept_bytes D.seen self.old }
        ensures gains { Gains (Put w v) (held_bytes D.seen self.old) (held_bytes D.seen self.new) }
        ensures device { self.new.device ≡ self.old.device }
        ensures room { length self.new.buffer.items ≡ length self.old.buffer.items }
    {
        lengthen(&mut self.buffer, self.used, self.latest, w, v);
        self.used += 8;
    }

    /// Adds a put behind the closed gate. If the operation before it puts the words just before this one, and the head
    /// says that the log may have runs, the two are held as one run.
    pub(crate) fn append_put(&mut self, w: u32, v: u64) -> Result<(), SyncError>
        requires sound { IsSound D.seen D.may_leave D.left_since D.synced self.old }
        requires counted { IsCounted D.seen D.may_leave D.bytewise self.old }
        requires room { 263 ≤ length self.old.buffer.items }
        ensures ok { OnOk result (IsSound D.seen D.may_leave D.left_since D.synced self.new
            × Gains (Put w v) (held_bytes D.seen self.old) (held_bytes D.seen self.new)) }
        ensures alone { self.old.runs ≡ false
            → OnOk result (held_bytes D.seen self.new ≡ held_bytes D.seen self.old ++ bytes_of (Put w v)) }
        ensures counted { OnOk result (IsCounted D.seen D.may_leave D.bytewise self.new) }
        ensures kept { kept_bytes D.seen self.new ≡ kept_bytes D.seen self.old }
        ensures tied { IsTied D.seen D.left_since D.synced self.new }
        ensures cause { HasCause D.seen D.has_failed false self.new result }
        ensures room { length self.new.buffer.items ≡ length self.old.buffer.items }
        // no call is made on the file while there is room
        ensures waits { Fits (Put w v) self.old → self.new.device ≡ self.old.device }
        ensures syncs { D.syncs self.new.device ≡ D.syncs self.old.device }
        ensures hindered { D.hindered self.new.device ≡ D.hindered self.old.device }
        // A crash at any moment of the call leaves the kept bytes and the closed gate.
        ensures any_moment { LeavesOnly D.moment D.left_since self.old.device self.new.device
            (Begins (kept_bytes D.seen self.old ++ 0 ∷ [])) }
    {
        if self.can_join(w) {
            self.join(w, v);
            return Ok(());
        }
        self.append(&Operation::Put { w, v })
    }
}
