ghost use Rattle.std.specs.Prelude.{◌≡◌, ◌-◌, ◌<◌};
ghost use Rattle.envy_base.specs.Shape.{IsShape, positions_of};
ghost use Rattle.envy_frames.specs.Agreement.{default_home};

use envy_base::{Shape, positions_of};

/// The home of a page that was absent, and of each held page after a restart: the positions are
/// shared out among the pages in order.
pub fn default_home(shape: &Shape, page: u32) -> u32
    requires shape { IsShape shape.now }
    requires page { page < shape.now.pages }
    ensures value { result ≡ default_home shape.now page }
    ensures position { result < positions_of shape.now }
{
    (page as u64 * positions_of(shape) as u64 / shape.pages as u64) as u32
}
