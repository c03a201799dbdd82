use envy_array::Counts;

/// The reply to a line of a trace.
#[derive(Clone, Copy, Debug, PartialEq, Eq)]
pub enum Reply {
    /// The word at the address, to a load or a look.
    Word(u64),
    /// Done: a store, a put, a commit, an abort or a tick.
    Done,
    /// A transaction is open in this slot.
    Started(u8),
    /// The address is past the array's end.
    Range,
    /// The page belongs to the transaction of this slot.
    Held(u8),
    /// The slot has no open transaction.
    Closed,
    /// No further page can be shadowed.
    Full,
    /// Every slot has an open transaction.
    Busy,
    /// A flash operation went bad.
    Fault,
    /// Power failed.
    Lost,
    /// Power has returned.
    Restarted,
    /// The fault is planned.
    Armed,
    /// The counters.
    Stat(Counts),
}
