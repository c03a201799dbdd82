// Why no memory began in a file, and the file. A crash leaves of it what it might have left before.
ghost use Rattle.std.specs.Prelude.{◌≡◌, ◌≢◌, ◌⊎◌, ◌≤◌, ℕ, List};
ghost use Rattle.envy_begun.specs.Beginning.{IsStopped};
ghost use Rattle.envy_begun.specs.declared.open_fault.OpenFault.TheVariants.{Failed};
ghost use Rattle.envy_journal.specs.declared.open_error.OpenError.TheVariants.{Failed as OpenFailed};
ghost use Rattle.envy_memory.specs.declared.faults.AttachFault.TheVariants.{Off as AttachOff};
ghost use Rattle.envy_memory.specs.declared.faults.FormatFault.TheVariants.{Off as FormatOff};

use crate::open_fault::OpenFault;
use envy_device::{Device, DeviceFailed};
use envy_journal::OpenError;
use envy_memory::{AttachFault, FormatFault};

/// A second file couldn't be made beside one that works: a sync asks that.
pub(crate) fn no_second<D: Device>(mut device: D) -> (OpenFault, D)
    ensures stopped { IsStopped D.seen D.has_failed result.0 result.1 }
    ensures time { D.moment device ≤ D.moment result.1 }
    ensures left { (t : ℕ) (c : List ℕ) → t ≤ D.moment device → D.left_since result.1 t c → D.left_since device t c }
{
    match device.sync() {
        Ok(()) => (OpenFault::NotMade, device),
        Err(DeviceFailed) => (OpenFault::Failed(0), device),
    }
}

// Want of memory, which is told of a file that works: a sync asks it.
fn want_of_memory<D: Device>(mut device: D) -> (OpenFault, D)
    ensures stopped { IsStopped D.seen D.has_failed result.0 result.1 }
    ensures time { D.moment device ≤ D.moment result.1 }
    ensures left { (t : ℕ) (c : List ℕ) → t ≤ D.moment device → D.left_since result.1 t c → D.left_since device t c }
{
    match device.sync() {
        Ok(()) => (OpenFault::Memory, device),
        Err(DeviceFailed) => (OpenFault::Failed(0), device),
    }
}

/// Why a journal wasn't made, or wasn't opened once it was read, and the file.
pub(crate) fn unopened<D: Device>(error: OpenError, device: D) -> (OpenFault, D)
    ensures says { ((error ≡ OpenFailed) × (result.0 ≡ Failed 0) × (result.1 ≡ device))
        ⊎ ((error ≢ OpenFailed) × IsStopped D.seen D.has_failed result.0 result.1) }
    ensures time { D.moment device ≤ D.moment result.1 }
    ensures left { (t : ℕ) (c : List ℕ) → t ≤ D.moment device → D.left_since result.1 t c → D.left_since device t c }
{
    match error {
        OpenError::Failed => (OpenFault::Failed(0), device),
        OpenError::Second => no_second(device),
        _ => want_of_memory(device),
    }
}

/// Why a memory wasn't attached to a board that was audited, and the file under it.
pub(crate) fn unattached<D: Device>(fault: AttachFault, held: usize, device: D) -> (OpenFault, D)
    ensures says { ((fault ≡ AttachOff) × (result.0 ≡ Failed held) × (result.1 ≡ device))
        ⊎ ((fault ≢ AttachOff) × IsStopped D.seen D.has_failed result.0 result.1) }
    ensures time { D.moment device ≤ D.moment result.1 }
    ensures left { (t : ℕ) (c : List ℕ) → t ≤ D.moment device → D.left_since result.1 t c → D.left_since device t c }
{
    match fault {
        AttachFault::Off => (OpenFault::Failed(held), device),
        _ => want_of_memory(device),
    }
}

/// Why a memory wasn't formatted on a board, and the file under it.
pub(crate) fn unformatted<D: Device>(fault: FormatFault, held: usize, device: D) -> (OpenFault, D)
    ensures says { ((fault ≡ FormatOff) × (result.0 ≡ Failed held) × (result.1 ≡ device))
        ⊎ ((fault ≢ FormatOff) × IsStopped D.seen D.has_failed result.0 result.1) }
    ensures time { D.moment device ≤ D.moment result.1 }
    ensures left { (t : ℕ) (c : List ℕ) → t ≤ D.moment device → D.left_since result.1 t c → D.left_since device t c }
{
    match fault {
        FormatFault::Off => (OpenFault::Failed(held), device),
        _ => want_of_memory(device),
    }
}
