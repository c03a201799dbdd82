use envy_array::Counts;

/// What a load that was driven to its end added up.
#[derive(Clone, Copy, Debug, PartialEq, Eq)]
pub struct Sums {
    /// The sum of the balances of all branches.
    pub branches: i64,
    /// The sum of the balances of all tellers.
    pub tellers: i64,
    /// The sum of the balances of all accounts.
    pub accounts: i64,
    /// The sum of the deltas in the history.
    pub history: i64,
    /// The sum of the deltas that the load gave.
    pub deltas: i64,
    /// How often power returned.
    pub cuts: u64,
    /// The memory's counters, as they were before the sums were added up.
    pub counts: Counts,
}
