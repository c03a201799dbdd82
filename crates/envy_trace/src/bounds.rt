/// The numbers that a field may have, both ends among them.
#[derive(Clone, Copy, Debug, PartialEq, Eq)]
pub struct Bounds {
    pub least: u64,
    pub greatest: u64,
}

impl Bounds {
    pub const SLOT: Bounds = Bounds {
        least: 0,
        greatest: u8::MAX as u64,
    };

    /// The number of one of two sides.
    pub const SIDE: Bounds = Bounds {
        least: 0,
        greatest: 1,
    };

    pub const ADDRESS: Bounds = Bounds {
        least: 0,
        greatest: u32::MAX as u64,
    };

    pub const WORD: Bounds = Bounds {
        least: 0,
        greatest: u64::MAX,
    };

    /// The place of a planned fault among the operations to come.
    pub const PLACE: Bounds = Bounds {
        least: 1,
        greatest: u32::MAX as u64,
    };
}
