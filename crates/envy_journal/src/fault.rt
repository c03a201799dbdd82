use envy_device::DeviceFailed;

/// Why operations weren't brought to the disk. The board is off from then on: open the file again.
#[derive(Clone, Copy, Debug, PartialEq, Eq)]
pub enum SyncError {
    /// The device failed.
    Failed,
    /// The file would grow past 2^60 bytes.
    Full,
    /// An earlier call had failed.
    Ended,
}

impl From<DeviceFailed> for SyncError {
    ghost use Rattle.envy_journal.specs.declared.fault.SyncError.TheVariants.{Failed};
    ghost use Rattle.std.specs.Prelude.{◌≡◌};

    ghost from_gives = { λ _ e. e ≡ Failed };

    fn from(_: DeviceFailed) -> Self {
        SyncError::Failed
    }
}
