ghost use Rattle.std.specs.Prelude.{◌≡◌, false};
ghost use Rattle.envy_device.specs.Calls.{is_failure};
ghost use Rattle.envy_device.specs.Noted.{call_of};
ghost use Rattle.envy_portfile.specs.Orders.{behind_of, done_of, failed_of, header_of, number_of, place_of};

use envy_device::Made;

/// What is ordered of a file.
#[derive(Clone, Copy, Drop)]
pub(crate) enum Order<'a> {
    /// Write these bytes at this offset.
    Write { at: usize, bytes: &'a [u8] },
    /// Cut the file to this size.
    Cut { size: usize },
    /// Bring the file to the disk.
    Sync,
    /// Begin a second file, with no bytes.
    Begin,
    /// Write these bytes after those of the second file.
    Append { bytes: &'a [u8] },
    /// Bring the second file to the disk, and put it in the file's place.
    Replace,
}

impl Order<'_> {
    // The number that stands for the call.
    fn number(&self) -> u64
        ensures { result ≡ number_of self.now }
    {
        match self {
            Order::Write { .. } => 1,
            Order::Cut { .. } => 2,
            Order::Sync => 3,
            Order::Begin => 4,
            Order::Append { .. } => 5,
            Order::Replace => 6,
        }
    }

    // The offset, or the size that the file is cut to.
    fn place(&self) -> usize
        ensures { result ≡ place_of self.now }
    {
        match *self {
            Order::Write { at, bytes: _ } => at,
            Order::Cut { size } => size,
            _ => 0,
        }
    }

    /// The bytes that follow.
    pub(crate) fn behind(&self) -> &[u8]
        ensures { result.now ≡ behind_of self.now }
    {
        match *self {
            Order::Write { at: _, bytes } => bytes,
            Order::Append { bytes } => bytes,
            _ => &[],
        }
    }

    /// What stands in front of them: three numbers of 8 bytes, the lowest first. They are the call, the offset or the size
    /// that the file is cut to, and how many bytes follow.
    pub(crate) fn header(&self) -> [u8; 24]
        ensures { result ≡ header_of self.now }
    {
        let mut bytes = [0; 24];
        bytes[..8].copy_from_slice(&self.number().to_le_bytes());
        bytes[8..16].copy_from_slice(&(self.place() as u64).to_le_bytes());
        bytes[16..].copy_from_slice(&(self.behind().len() as u64).to_le_bytes());
        bytes
    }
}

/// The call that it is, where it was carried out.
pub(crate) fn done<'a>(order: &Order<'a>) -> Made<'a>
    ensures call { call_of result ≡ done_of order.now }
    ensures works { is_failure (call_of result) ≡ false }
{
    match *order {
        Order::Write { at, bytes } => Made::Wrote { at, bytes },
        Order::Cut { size } => Made::CutTo { size },
        Order::Sync => Made::Synced,
        Order::Begin => Made::Began,
        Order::Append { bytes } => Made::Appended { bytes },
        Order::Replace => Made::Replaced,
    }
}

/// The call that it is, where it wasn't, or where nothing is known of it.
pub(crate) fn failed<'a>(order: &Order<'a>) -> Made<'a>
    ensures call { call_of result ≡ failed_of order.now }
    ensures fails { is_failure (call_of result) ≡ is_failure (failed_of order.now) }
{
    match *order {
        Order::Write { at, bytes } => Made::WriteFailed { at, bytes },
        Order::Cut { size } => Made::CutFailed { size },
        Order::Sync => Made::SyncFailed,
        Order::Begin => Made::BeginFailed,
        Order::Append { bytes } => Made::AppendFailed { size: bytes.len() },
        Order::Replace => Made::ReplaceFailed,
    }
}
