ghost use Rattle.std.specs.Prelude.{◌≡◌, is_some};
ghost use Rattle.envy_places.specs.Places.{held};

use crate::each::on_each;
use envy_base::Board;
use envy_memory::Memory;

/// A place that may hold a memory, by what the memory stands over.
#[derive(Drop)]
pub enum MemoryPlace<R: Board, F: Board, S: Board> {
    /// Regions of memory that a program gives, as of a file that it maps.
    Regions(Option<Memory<R>>),
    /// A file that a program serves: the words outlive the machine.
    File(Option<Memory<F>>),
    /// A board in memory that can be made to fail.
    Simulated(Option<Memory<S>>),
}

/// Whether a place holds a memory.
pub fn is_open<R: Board, F: Board, S: Board>(place: &MemoryPlace<R, F, S>) -> bool
    ensures { result ≡ is_some (held place.now) }
{
    on_each!(place, slot => slot.is_some())
}
