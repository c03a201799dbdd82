ghost use Rattle.std.specs.Prelude.{◌≡◌, ◌≤◌, [], length, map, IsOk, OnOk, IsTrue};
ghost use Rattle.circular_buffer.specs.Buffer.{buffer};
ghost use Rattle.envy_soundness.specs.Sound.{IsSound};
ghost use Rattle.envy_map.specs.Fields.{chart};
ghost use Rattle.envy_frames.specs.Agreement.{held_by_default};
ghost use Rattle.envy_frames.specs.Entries.{AreHomes, unstamped};

use crate::entry::Entry;
use crate::{Held, default_home};
use circular_buffer::HeapCircularBuffer;
use envy_base::{Board, Off, Place};
use envy_map::place;

// Appends the pages whose places are frames, in rising order, each with its default home, which is noted
// under its frame. Their stamps are 0.
pub fn hold_named<B: Board>(
    entries: &mut HeapCircularBuffer<Entry>,
    homes: &mut Vec<u32>,
    board: &B,
) -> Result<(), Off>
    requires on { IsTrue (B.state board.now).on }
    requires sound { IsSound (chart (B.state board.now)) }
    requires room { (B.state board.now).shape.frames ≤ entries.old.capacity }
    requires homes { length homes.old.items ≡ (B.state board.now).shape.frames }
    requires empty { entries.old.items ≡ [] }
    ensures done { IsOk result }
    ensures held { OnOk result
        (entries.new
        ≡ buffer (map unstamped (held_by_default (B.state board.now).shape (chart (B.state board.now)).fields.places))
        entries.old.capacity) }
    ensures homes { OnOk result
        (AreHomes homes.new.items
        (held_by_default (B.state board.now).shape (chart (B.state board.now)).fields.places)) }
    ensures long { length homes.new.items ≡ length homes.old.items }
{
    let shape = board.shape();
    for page in 0..shape.pages {
        if let Place::Frame(frame) = place(board, page)? {
            let home = default_home(&shape, page);
            homes[frame as usize] = home;
            let held = Held { frame, page, home };
            let _room = entries.try_push_back(Entry { held, stamp: 0 });
        }
    }
    Ok(())
}
