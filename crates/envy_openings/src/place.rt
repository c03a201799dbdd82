ghost use Rattle.std.specs.Prelude.{◌≡◌, None};
ghost use Rattle.std.specs.Option.{ForSome};
ghost use Rattle.envy_openings.specs.Faultless.{IsFaultless, IsFlawless, IsSteady};
ghost use Rattle.envy_places.specs.Places.{AreAlike, held};

use envy_base::Board;
use envy_bench::CalmBoard;
use envy_memory::Memory;
use envy_places::MemoryPlace;
use envy_portfile::PortFile;
use envy_region::{BorrowedBoard, OwnedBoard};
use envy_synced::Kept;

/// A place for a memory over regions of a program's, in a file that it serves, or over a board that can be made to fail.
pub type Place = MemoryPlace<BorrowedBoard<'static>, Kept<OwnedBoard, PortFile>, CalmBoard>;

/// A place that holds no memory.
pub fn empty() -> Place
    ensures { held result ≡ None }
{
    MemoryPlace::Regions(None)
}

// Ends a memory, whatever board it stands over.
fn close_slot<B: Board + Drop>(slot: &mut Option<Memory<B>>)
    ensures { slot.new ≡ None }
{
    drop(slot.take());
}

/// Ends a memory. The place stays one for boards of its kind.
pub fn close<R: Board + Drop, F: Board + Drop, S: Board + Drop>(place: &mut MemoryPlace<R, F, S>)
    ensures closed { held place.new ≡ None }
    ensures alike { AreAlike place.old place.new }
{
    match place {
        MemoryPlace::Regions(slot) => close_slot(slot),
        MemoryPlace::File(slot) => close_slot(slot),
        MemoryPlace::Simulated(slot) => close_slot(slot),
    }
}

// What the board of a memory over regions says.
#[inline(always)]
fn steady(slot: &Option<Memory<BorrowedBoard<'static>>>)
    ensures { ForSome slot.now IsSteady }
{
    if let Some(memory) = slot {
        let _board = memory.board();
    }
}

// What the board of a memory in a file says.
#[inline(always)]
fn flawless(slot: &Option<Memory<Kept<OwnedBoard, PortFile>>>)
    ensures { ForSome slot.now IsFlawless }
{
    if let Some(memory) = slot {
        let _board = memory.board();
    }
}

/// What regions and files promise of their boards. It changes nothing.
#[inline(always)]
pub fn faultless(place: &MemoryPlace<BorrowedBoard<'static>, Kept<OwnedBoard, PortFile>, CalmBoard>)
    ensures { IsFaultless place.now }
{
    match place {
        MemoryPlace::Regions(slot) => steady(slot),
        MemoryPlace::File(slot) => flawless(slot),
        MemoryPlace::Simulated(_) => {}
    }
}
