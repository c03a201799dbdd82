// The calls that were made on a file. It takes no memory: only clauses read it.
ghost use Rattle.std.specs.Prelude.{◌≡◌, List, [], ◌∷◌};
ghost use Rattle.std.specs.Borrow.{ftrue};
ghost use Rattle.std.specs.Coded.{coded_list};
ghost use Rattle.envy_device.specs.Calls.{Call, coded_call};
ghost use Rattle.envy_device.specs.Noted.{call_of};

use crate::made::Made;
use std::marker::Model;

/// The calls that were made on a file, the newest first.
#[derive(Drop)]
pub struct Record {
    pub ghost calls: { List Call } by { coded_list coded_call },
}

impl Model for Record {
    ghost also_owns = { λ _. ftrue };
}

impl Record {
    /// No call was made.
    pub fn new() -> Record
        ensures { result.calls ≡ [] }
    {
        Record {}
    }

    /// One call more was made.
    pub fn and(&self, _made: &Made<'_>) -> Record
        ensures { result.calls ≡ call_of _made.now ∷ self.now.calls }
    {
        Record {}
    }
}
