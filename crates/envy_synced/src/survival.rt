ghost use Rattle.std.specs.Prelude.{◌≡◌, ◌+◌, ◌^◌, ◌<◌, ◌≤◌, length, false, IsTrue};
ghost use Rattle.envy_journal.specs.Held.{most_held};
ghost use Rattle.envy_synced.specs.Disk.{CrashLeaves};

use crate::Kept;
use envy_device::Device;
use envy_journal::Steady;
use envy_memory::Memory;

/// The device under a memory, and what a crash of the machine has left of its file.
pub fn device<B: Steady, D: Device>(memory: &Memory<Kept<B, D>>) -> &D
    ensures { CrashLeaves (D.left_since result.now) (D.moment result.now) memory.now.chart }
{
    memory.board().device()
}

/// Gives the device under a memory back, of which holds what `device` says, and how many bytes of operations were held
/// back from it. Where power is off the device has failed, or the file is at the end of its range.
pub fn close<B: Steady + Drop, D: Device>(memory: Memory<Kept<B, D>>) -> (D, usize)
    ensures leaves { CrashLeaves (D.left_since result.0) (D.moment result.0) memory.chart }
    ensures ended { memory.chart.on ≡ false → length (D.seen result.0) + result.1 < 2 ^ 60
        → IsTrue (D.has_failed result.0) }
    ensures few { result.1 ≤ most_held }
{
    let kept = memory.into_board();
    let _device = kept.device();
    let journal = kept.into_journal();
    let held = journal.held();
    (journal.close(), held)
}
