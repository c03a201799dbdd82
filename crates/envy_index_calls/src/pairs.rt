/// A pair of a map.
#[repr(C)]
#[derive(Clone, Copy)]
pub struct EnvyPair {
    pub key: u64,
    pub value: u64,
}

/// The value that a key had, where it had one.
#[repr(C)]
#[derive(Clone, Copy)]
pub struct EnvyOld {
    /// The value, or 0.
    pub value: u64,
    /// 1, or 0 where it had none.
    pub had: u32,
}
