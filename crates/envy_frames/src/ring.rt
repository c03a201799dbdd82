ghost use Rattle.std.specs.Prelude.{◌≡◌, ◌<◌, ◌≤◌, [], ◌∷◌, ◌++◌, length, drop, IfSome, slice_get, if◌then◌else◌};
ghost use Rattle.std.specs.List.{filter};
ghost use Rattle.circular_buffer.specs.Buffer.{buffer};
ghost use Rattle.envy_frames.specs.Order.{IsUnheld, is_other};
ghost use Rattle.envy_frames.specs.Entries.{AreStamped, IsLiveFirst, WereKept, is_live, is_kept, held_in};

use crate::Held;
use crate::entry::Entry;
use circular_buffer::HeapCircularBuffer;

/// A page that is put into a frame which isn't held becomes the newest. Stale entries leave where there is
/// no room.
pub fn append(entries: &mut HeapCircularBuffer<Entry>, stamps: &[u32], held: Held)
    requires stamped { AreStamped entries.old stamps.now }
    requires frame { held.frame < length stamps.now }
    requires unheld { IsUnheld (held_in stamps.now entries.old.items) held.frame }
    requires few { length (held_in stamps.now entries.old.items) < entries.old.capacity }
    ensures stamped { AreStamped entries.new stamps.now }
    ensures held { held_in stamps.now entries.new.items ≡ held_in stamps.now entries.old.items ++ held ∷ [] }
    ensures live { IsLiveFirst stamps.now entries.old.items → IsLiveFirst stamps.now entries.new.items }
    ensures capacity { entries.new.capacity ≡ entries.old.capacity }
{
    make_room(entries, stamps, held.frame);
    let stamp = stamps[held.frame as usize];
    let _newest = entries.try_push_back(Entry { held, stamp });
}

/// The entries of a frame go stale: all that it has, and all that it had.
pub fn make_stale(entries: &mut HeapCircularBuffer<Entry>, stamps: &mut Vec<u32>, frame: u32)
    requires stamped { AreStamped entries.old stamps.old.items }
    requires frame { frame < length stamps.old.items }
    ensures stamped { AreStamped entries.new stamps.new.items }
    ensures held { held_in stamps.new.items entries.new.items
        ≡ filter (is_other frame) (held_in stamps.old.items entries.old.items) }
    ensures capacity { entries.new.capacity ≡ entries.old.capacity }
    ensures long { length stamps.new.items ≡ length stamps.old.items }
{
    let stamp = stamps[frame as usize];
    if stamp == u32::MAX {
        // The stamps begin anew, and no entry may have one that comes again.
        pack(entries, stamps, frame);
        stamps[frame as usize] = 0;
        return;
    }
    stamps[frame as usize] = stamp + 1;
}

/// Stale entries leave the front.
pub fn drop_stale(entries: &mut HeapCircularBuffer<Entry>, stamps: &[u32])
    requires stamped { AreStamped entries.old stamps.now }
    ensures stamped { AreStamped entries.new stamps.now }
    ensures held { held_in stamps.now entries.new.items ≡ held_in stamps.now entries.old.items }
    ensures live { IsLiveFirst stamps.now entries.new.items }
    ensures capacity { entries.new.capacity ≡ entries.old.capacity }
{
    while let Some(oldest) = entries.front().copied() {
        if stamps[oldest.held.frame as usize] == oldest.stamp {
            return;
        }
        let _stale = entries.pop_front();
    }
}

/// Where the ring is full the stale entries leave it.
fn make_room(entries: &mut HeapCircularBuffer<Entry>, stamps: &[u32], frame: u32)
    requires stamped { AreStamped entries.old stamps.now }
    requires unheld { IsUnheld (held_in stamps.now entries.old.items) frame }
    requires few { length (held_in stamps.now entries.old.items) < entries.old.capacity }
    ensures kept { WereKept stamps.now entries.old.items entries.new.items }
    ensures room { length entries.new.items < entries.new.capacity }
    ensures capacity { entries.new.capacity ≡ entries.old.capacity }
{
    if !entries.is_full() {
        return;
    }
    pack(entries, stamps, frame);
}

/// The live entries of all other frames stay, in their order.
fn pack(entries: &mut HeapCircularBuffer<Entry>, stamps: &[u32], frame: u32)
    requires stamped { AreStamped entries.old stamps.now }
    ensures { entries.new ≡ buffer (filter (is_kept stamps.now frame) entries.old.items) entries.old.capacity }
{
    // A ring has no removal from the middle: each entry is taken from the front once, and put back.
    for _turn in 0..entries.len() {
        rotate(entries, stamps, frame);
    }
}

/// The first entry becomes the last, or leaves where it is stale or of the frame.
fn rotate(entries: &mut HeapCircularBuffer<Entry>, stamps: &[u32], frame: u32)
    requires fits { length entries.old.items ≤ entries.old.capacity }
    requires below { IfSome (slice_get entries.old.items 0) (λ e. e.held.frame < length stamps.now) }
    ensures items { IfSome (slice_get entries.old.items 0)
        (λ e. entries.new.items ≡ drop 1 entries.old.items ++ (if is_kept stamps.now frame e then e ∷ [] else [])) }
    ensures capacity { entries.new.capacity ≡ entries.old.capacity }
{
    if let Some(entry) = entries.pop_front() {
        let stamp = stamps[entry.held.frame as usize];
        if entry.held.frame != frame && stamp == entry.stamp {
            let _put_back = entries.try_push_back(entry);
        }
    }
}
