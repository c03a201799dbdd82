ghost use Rattle.std.specs.Prelude.{◌≡◌};
ghost use Rattle.envy_places.specs.Codes.{number_of_place};

use envy_calls::Code;

/// What calls on a place answer beside what they answer over any board.
#[derive(Clone, Copy, Debug, PartialEq, Eq)]
pub enum PlaceCode {
    /// What a memory over any board answers.
    Of(Code),
    /// What the file holds is no journal of a memory.
    NoJournal,
    /// The file is a journal of a version that isn't known here.
    OtherVersion,
    /// The file is a journal that no crash leaves so.
    Damaged,
    /// A compaction was hindered: all that the memory holds is on the disk, but in no less than before.
    Appended,
    /// What the memory stands over can't do this.
    OtherBoard,
}

impl PlaceCode {
    /// The number that stands for the answer.
    pub fn number(self) -> u32
        ensures { result ≡ number_of_place self }
    {
        match self {
            PlaceCode::Of(code) => code.number(),
            PlaceCode::NoJournal => 72,
            PlaceCode::OtherVersion => 73,
            PlaceCode::Damaged => 74,
            PlaceCode::Appended => 75,
            PlaceCode::OtherBoard => 76,
        }
    }
}
