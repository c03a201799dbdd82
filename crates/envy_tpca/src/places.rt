/// Where the records of an area stand: behind the number of transfers the balances of branches, of ten tellers to
/// each and of accounts, and then the history.
#[derive(Clone, Copy, Debug, PartialEq, Eq)]
pub struct Places {
    /// Branches.
    pub branches: u32,
    /// Accounts, of all branches together.
    pub accounts: u32,
    /// The address at which the history begins, a multiple of 4.
    pub history: u32,
}

/// The addresses of the records of one transfer.
#[derive(Clone, Copy, Debug, PartialEq, Eq)]
pub struct Spots {
    /// The account's balance.
    pub account: u32,
    /// The teller's balance.
    pub teller: u32,
    /// The branch's balance.
    pub branch: u32,
    /// The first of the four words of history.
    pub row: u32,
}
