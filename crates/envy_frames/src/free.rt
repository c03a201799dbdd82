ghost use Rattle.std.specs.Prelude.{◌≡◌, ◌<◌, ◌≤◌, ◌^◌, length, map, All, vec_capacity};
ghost use Rattle.envy_frames.specs.Order.{others_of};

use crate::entry::Entry;
use circular_buffer::HeapCircularBuffer;

// Makes the stack those frames of which the ring has no entry.
pub fn free_others(free: &mut Vec<u32>, marks: &mut Vec<bool>, entries: &HeapCircularBuffer<Entry>)
    requires below { All (λ e. e.held.frame < length marks.old.items) entries.now.items }
    requires few { length marks.old.items < 2 ^ 32 }
    requires room { length marks.old.items ≤ vec_capacity free.old }
    ensures free { free.new.items ≡ others_of (map (λ e. e.held) entries.now.items) (length marks.old.items) }
    ensures room { vec_capacity free.old ≤ vec_capacity free.new }
    ensures marks { length marks.new.items ≡ length marks.old.items }
{
    marks.fill(false);
    for entry in entries.iter() {
        marks[entry.held.frame as usize] = true;
    }
    free.clear();
    for (frame, held) in marks.iter().enumerate() {
        if !*held {
            let _room = free.push(frame as u32);
        }
    }
}
