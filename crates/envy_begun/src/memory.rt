// A memory in a file is made or taken up, by what the file holds.
ghost use Rattle.std.specs.Prelude.{◌≡◌, false, IfOk, IfErr, IsTrue, Ok};
ghost use Rattle.envy_array.specs.Array.{Array};
ghost use Rattle.envy_begun.specs.Beginning.{HasBegun, HasOperationsOf};
ghost use Rattle.envy_begun.specs.Left.{Leaves, Stays};
ghost use Rattle.envy_begun.specs.Plans.{BeginsAs, BeginsOn, Plans};
ghost use Rattle.envy_begun.specs.Unserved.{Causes};
ghost use Rattle.envy_device.specs.Device.{Only};
ghost use Rattle.envy_journal.specs.Content.{blank, content_of};
ghost use Rattle.envy_policy.specs.Setup.{checked};
ghost use Rattle.envy_synced.specs.Disk.{IsCompact};

use crate::file_contents::FileContents;
use crate::found_journal::{begin_again, begin_blank};
use crate::new_memory::begin_new;
use crate::open_fault::OpenFault;
use envy_args::KeepOptions;
use envy_device::Replaceable;
use envy_journal::Steady;
use envy_memory::Memory;
use envy_policy::Setup;
use envy_synced::Kept;
use std::alloc::Global;

/// The memory in a file, over a blank board of its sizes. A journal that is there is compacted first, where the options
/// say so.
pub fn begin<B: Steady + Drop, D: Replaceable + Drop>(
    alloc: Global,
    board: B,
    device: D,
    options: &KeepOptions,
    bytes: &[u8],
    setup: Setup,
    holding: FileContents,
) -> Result<Memory<Kept<B, D>>, (OpenFault, D)>
    requires bytes { D.seen device ≡ bytes.now }
    requires durable { Only (D.seen device) (D.may_leave device) }
    requires blank { content_of (B.state board) ≡ blank (B.state board).shape }
    requires shape { (B.state board).shape ≡ setup.shape }
    requires plans { Plans holding options.now bytes.now setup }
    requires checks { checked setup ≡ Ok tt }
    ensures begun { IfOk result (λ memory. (array : Array) × BeginsAs holding bytes.now setup array
        × HasBegun setup array memory) }
    // on the board that the operations of the file make, taken up, or on a fresh one
    ensures board { IfOk result (λ memory. BeginsOn holding bytes.now memory.chart) }
    // where that was asked for, the journal is no longer than a snapshot, and else it has the operations that it had
    ensures compacted { holding ≡ FileContents.Written → IsTrue options.now.compact
        → IfOk result (λ memory. IsCompact memory.chart) }
    ensures same { holding ≡ FileContents.Written → options.now.compact ≡ false
        → IfOk result (λ memory. HasOperationsOf bytes.now memory.chart) }
    // what a crash leaves of the file, by what it held
    ensures left { IfErr result (λ e.
        Leaves D.left_since D.moment e.1 (Stays holding e.0 setup.shape bytes.now)) }
    ensures failed { IfErr result (λ e. Causes D.seen D.has_failed options.now bytes.now device e.1 e.0) }
{
    match holding {
        FileContents::Unmade => begin_new(alloc, board, device, setup),
        FileContents::Blank => begin_blank(alloc, board, device, bytes, setup),
        FileContents::Written => {
            begin_again(alloc, board, device, bytes, setup, options.compact)
        }
    }
}
