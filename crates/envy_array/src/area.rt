ghost use Rattle.std.specs.Prelude.{◌↔◌, IsTrue};
ghost use Rattle.envy_array.specs.Area.{Fits};

use envy_base::PAGE_WORDS;

/// The records of the TPC-A load: 10 tellers to a branch, and room for the history of the transfers.
#[derive(Clone, Copy, Debug, PartialEq, Eq)]
pub struct Area {
    /// Branches.
    pub branches: u32,
    /// Accounts of each branch.
    pub accounts: u32,
    /// Transfers, each with four words of history.
    pub transfers: u32,
}

impl Area {
    /// Whether there are branches and accounts, and all records lie in an array of so many pages.
    pub fn fits(&self, pages: u32) -> bool
        ensures { IsTrue result ↔ Fits self.now pages }
    {
        let area = *self;
        let branches = area.branches as u128;
        let balances = 1 + 11 * branches + branches * area.accounts as u128;
        let history = (balances + 3) / 4 * 4;
        area.branches >= 1
            && area.accounts >= 1
            && history + 4 * area.transfers as u128 <= PAGE_WORDS as u128 * pages as u128
    }
}
