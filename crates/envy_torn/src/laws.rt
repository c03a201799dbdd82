ghost use Rattle.std.specs.Prelude.{◌≡◌, ◌≤◌, ℕ, List, length};
ghost use Rattle.envy_device.specs.Device.{Torn};
ghost use Rattle.envy_torn.specs.Calls.{written};

/// While bytes are written to a file that isn't trusted to be written byte by byte, a crash may leave it with any other bytes
/// of the same length in their place. So no reader can take those for made that were written and synced there, and take none
/// for made that never were: a log whose batches lie where only their lengths tell has to sync their bytes before anything
/// says that they count.
pub fn a_torn_write_may_leave_other_bytes()
    ensures { (file : List ℕ) (at : ℕ) (bytes other : List ℕ) → at ≤ length file → length other ≡ length bytes
        → Torn at (length bytes) file (written file at other) }
{}
