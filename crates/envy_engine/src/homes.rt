ghost use Rattle.std.specs.Prelude.{◌≡◌, ◌-◌, ◌<◌, ℕ, false, Some, IfOk, OnErr};
ghost use Rattle.envy_map.specs.Fields.{chart, place as place_of};
ghost use Rattle.envy_frames.specs.Agreement.{IsElsewhere};
ghost use Rattle.envy_engine.specs.Agreement.{Ready};
ghost use Rattle.envy_engine.specs.Storing.{IsHome};
ghost use Rattle.envy_base.specs.Shape.{positions_of};

use crate::parts::Parts;
use envy_base::{Board, Job, Off, Place};
use envy_frames::default_home;
use envy_map::job;

/// The home of a page that leaves a place, which isn't a frame.
pub fn home_of<B: Board>(board: &B, parts: &Parts, page: u32, from: Place) -> Result<u32, Off>
    requires ready { Ready (chart (B.state board.now)) parts.now }
    requires page { page < (B.state board.now).shape.pages }
    requires here { place_of (chart (B.state board.now)).fields page ≡ Some from }
    requires elsewhere { IsElsewhere (Some from) }

    ensures home { IfOk result (IsHome (B.state board.now).shape (chart (B.state board.now)).fields page from) }
    ensures within { IfOk result (λ home. home < positions_of (B.state board.now).shape) }
    ensures off { OnErr result ((B.state board.now).on ≡ false) }
{
    let shape = board.shape();
    match from {
        Place::Absent => Ok(default_home(&shape, page)),
        Place::Row(row) => {
            let segment = row / shape.rows;
            if segment != parts.space.spare() {
                return Ok(parts.space.position_of(segment));
            }
            match job(board)? {
                Job::Switch(v) => Ok(parts.space.position_of(v)),
                _ => unreachable!(),
            }
        }
        Place::Frame(_) => unreachable!(),
    }
}
