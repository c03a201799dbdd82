ghost use Rattle.std.specs.Prelude.{◌≡◌, ◌⊎◌, [], List, ℕ, false, IfOk, IfErr};
ghost use Rattle.envy_array.specs.Array.{zeros};
ghost use Rattle.envy_device.specs.Device.{Only};
ghost use Rattle.envy_journal.specs.Content.{blank, content_of};
ghost use Rattle.envy_journal.specs.Head.{IsUnmade};
ghost use Rattle.envy_journal.specs.Reading.{operations};
ghost use Rattle.envy_begun.specs.Beginning.{HasBegun, HasStopped, IsStopped};
ghost use Rattle.envy_begun.specs.Left.{Leaves, StaysNew};
ghost use Rattle.envy_meaning.specs.Stands.{Stands};
ghost use Rattle.envy_map.specs.Fields.{Chart, chart};
ghost use Rattle.envy_synced.specs.Disk.{CrashLeaves, IsLast, IsSynced};
ghost use Rattle.envy_memory.specs.Formats.{IsFresh, IsStarted};

use crate::open_fault::OpenFault;
use crate::refusal::{unformatted, unopened};
use envy_base::Off;
use envy_device::{Device, Replaceable};
use envy_journal::{Steady, create};
use envy_memory::Memory;
use envy_policy::Setup;
use envy_synced::{Kept, close};
use std::alloc::Global;

/// So many bytes of operations are held back between writes of the file.
pub(crate) const ROOM: usize = 65536;

// Gives the file under a board back, and how many bytes of operations were held back from it.
pub(crate) fn closed<B: Steady + Drop, D: Device>(kept: Kept<B, D>) -> (D, usize)
    ensures stopped { (⟦<Kept<B, D> as envy_base::Board>⟧.state kept).on ≡ false
        → HasStopped D.seen D.has_failed result.1 result.0 }
    ensures leaves { CrashLeaves (D.left_since result.0) (D.moment result.0)
        (chart (⟦<Kept<B, D> as envy_base::Board>⟧.state kept)) }
{
    let _device = kept.device();
    let journal = kept.into_journal();
    let held = journal.held();
    (journal.close(), held)
}

// Brings a memory that was just made to the disk.
fn sync_first<B: Steady + Drop, D: Replaceable>(
    mut memory: Memory<Kept<B, D>>,
    _setup: Setup,
) -> Result<Memory<Kept<B, D>>, (OpenFault, D)>
    requires stands { Stands memory.chart (zeros _setup.shape.pages _setup.shape.shadows) }
    requires begins { IsStarted _setup memory }
    requires fresh { IsFresh memory.chart }
    requires shape { memory.chart.shape ≡ _setup.shape }
    ensures begun { IfOk result (HasBegun _setup (zeros _setup.shape.pages _setup.shape.shadows)) }
    ensures fresh { IfOk result (λ memory. IsSynced memory.chart × IsFresh memory.chart) }
    ensures failed { IfErr result (λ e. IsStopped D.seen D.has_failed e.0 e.1) }
    // where nothing was done in the journal before
    ensures left { (was : Chart) → IsSynced was → (file : List ℕ) → IsLast was memory.chart
        → operations was.notes.last.bytes ≡ []
        → IfErr result (λ e. Leaves D.left_since D.moment e.1 (StaysNew e.0 _setup.shape file)) }
{
    match memory.sync() {
        Ok(()) => Ok(memory),
        Err(Off) => {
            let (device, held) = close(memory);
            Err((OpenFault::Failed(held), device))
        }
    }
}

/// Makes a memory of zeros over a board that was just made or opened, and brings it to the disk.
pub(crate) fn make_memory<B: Steady + Drop, D: Replaceable>(
    alloc: Global,
    kept: Kept<B, D>,
    setup: Setup,
) -> Result<Memory<Kept<B, D>>, (OpenFault, D)>
    requires shape { (⟦<Kept<B, D> as envy_base::Board>⟧.state kept).shape ≡ setup.shape }
    ensures begun { IfOk result (HasBegun setup (zeros setup.shape.pages setup.shape.shadows)) }
    ensures fresh { IfOk result (λ memory. IsSynced memory.chart × IsFresh memory.chart) }
    ensures failed { IfErr result (λ e. IsStopped D.seen D.has_failed e.0 e.1) }
    // where nothing was done in the journal before
    ensures left { IsSynced (chart (⟦<Kept<B, D> as envy_base::Board>⟧.state kept)) → (file : List ℕ)
        → operations (⟦<Kept<B, D> as envy_base::Board>⟧.state kept).notes.last.bytes ≡ []
        → IfErr result (λ e. Leaves D.left_since D.moment e.1 (StaysNew e.0 setup.shape file)) }
{
    match Memory::format(alloc, kept, setup) {
        Ok(memory) => sync_first(memory, setup),
        Err((kept, fault)) => {
            let (device, held) = closed(kept);
            Err(unformatted(fault, held, device))
        }
    }
}

/// Makes a journal in an empty file, and a memory of zeros in it, which is on the disk then.
pub fn begin_new<B: Steady + Drop, D: Replaceable + Drop>(
    alloc: Global,
    board: B,
    device: D,
    setup: Setup,
) -> Result<Memory<Kept<B, D>>, (OpenFault, D)>
    requires durable { Only (D.seen device) (D.may_leave device) }
    requires blank { content_of (B.state board) ≡ blank (B.state board).shape }
    requires unmade { IsUnmade (D.seen device) }
    requires shape { (B.state board).shape ≡ setup.shape }
    ensures begun { IfOk result (HasBegun setup (zeros setup.shape.pages setup.shape.shadows)) }
    ensures fresh { IfOk result (λ memory. IsSynced memory.chart × IsFresh memory.chart) }
    ensures failed { IfErr result (λ e. IsStopped D.seen D.has_failed e.0 e.1) }
    // a crash leaves the empty file, or a journal in which nothing was done, unless the file failed behind that
    ensures left { IfErr result (λ e.
        Leaves D.left_since D.moment e.1 (λ file. IsUnmade file ⊎ StaysNew e.0 setup.shape [] file)) }
{
    let journal = match create(alloc, board, device, ROOM) {
        Ok(journal) => journal,
        Err((error, device)) => return Err(unopened(error, device)),
    };
    make_memory(alloc, Kept::new(journal), setup)
}
