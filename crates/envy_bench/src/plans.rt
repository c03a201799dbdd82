use envy_base::PlannedFault;

/// How many failures were planned, at most 2^64 - 1, and the last of them.
#[derive(Clone, Copy)]
pub struct Plans {
    pub made: u64,
    pub last: Option<PlannedFault>,
}
