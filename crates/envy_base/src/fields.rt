/// Where the current words of a page are.
#[derive(Clone, Copy, Debug, PartialEq, Eq)]
pub enum Place {
    /// Never stored: all zeros.
    Absent,
    /// A row of flash, by its number on the board.
    Row(u32),
    /// A frame of SRAM.
    Frame(u32),
}

/// What a page goes back to when its transaction is undone.
#[derive(Clone, Copy, Debug, PartialEq, Eq)]
pub enum Undo {
    /// No transaction owns the page.
    Clear,
    /// The transaction of the slot owns the page, which was absent before.
    Blank { slot: u8 },
    /// The transaction of the slot owns the page, whose words of before stand in the shadow row.
    Shadow { slot: u8, row: u32 },
}

/// The state of one of the 64 transaction slots.
#[derive(Clone, Copy, Debug, PartialEq, Eq)]
pub enum Slot {
    /// No transaction.
    Vacant,
    /// An open transaction, which a restart puts back.
    Active,
    /// A transaction whose words stay, and whose undos are being cleared.
    Committed,
}

/// The cleaner's job, kept in SRAM so that it outlives power.
#[derive(Clone, Copy, Debug, PartialEq, Eq)]
pub enum Job {
    /// Nothing runs, and the spare segment is erased.
    Idle,
    /// Kept rows of this segment are being copied into the spare.
    Copy(u32),
    /// References are being switched from this segment to its copies in the spare.
    Switch(u32),
    /// The spare is to be erased.
    Erase,
}
