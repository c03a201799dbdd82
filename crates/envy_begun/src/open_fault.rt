ghost use Rattle.std.specs.Prelude.{◌≡◌};
ghost use Rattle.envy_begun.specs.Unserved.{held_for, place_for, status_for, why_for};

use envy_args::rule_within;
use envy_base::MOST_ROWS;
use envy_policy::SetupFault;

/// Why there is no memory to serve.
#[derive(Clone, Copy, Debug, PartialEq, Eq)]
pub enum OpenFault {
    /// The options break this rule of a setup, and the file is new.
    Setup(SetupFault),
    /// What the file holds is no journal of a memory.
    NoJournal,
    /// The file is a journal of a version that isn't known here.
    OtherVersion,
    /// The options name other sizes than the journal has.
    OtherSizes,
    /// The options break this rule over the sizes of the journal.
    Options(SetupFault),
    /// The journal is damaged: it breaks off at this byte.
    Damaged(usize),
    /// Memory ran out.
    Memory,
    /// A second file, in which a journal is made, couldn't be made beside the file.
    NotMade,
    /// The file failed, or came to the end of its range. So many bytes of operations were held back from it.
    Failed(usize),
}

impl OpenFault {
    /// The exit status, and the second number.
    pub fn numbers(self) -> (u8, u8)
        ensures status { result.0 ≡ status_for self }
        ensures why { result.1 ≡ why_for self }
    {
        match self {
            OpenFault::Setup(fault) => (2, rule_within(MOST_ROWS, &fault)),
            OpenFault::NoJournal => (10, 6),
            OpenFault::OtherVersion => (10, 7),
            OpenFault::OtherSizes => (10, 8),
            OpenFault::Options(_) => (10, 9),
            OpenFault::Damaged(_) => (10, 10),
            OpenFault::Memory => (8, 0),
            OpenFault::NotMade => (11, 3),
            OpenFault::Failed(_) => (6, 0),
        }
    }

    /// How many bytes of operations were held back from the file.
    pub fn held(self) -> usize
        ensures { result ≡ held_for self }
    {
        match self {
            OpenFault::Failed(held) => held,
            _ => 0,
        }
    }

    /// The byte at which a damaged journal breaks off.
    pub fn place(self) -> usize
        ensures { result ≡ place_for self }
    {
        match self {
            OpenFault::Damaged(place) => place,
            _ => 0,
        }
    }
}
