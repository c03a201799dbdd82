ghost use Rattle.std.specs.Prelude.{◌≡◌, ◌≤◌, OnOk};
ghost use Rattle.envy_policy.specs.Setup.{IsSetup, checked, checked_within, rule_of, run_of, victims_of};

use envy_base::{MOST_ROWS, Shape, ShapeFault, all_positions_of};

/// How the cleaner chooses a position to write to. The positions are split into partitions of
/// consecutive positions, and each page is written back into its own partition where that has room.
///
/// The names but `Fifo` are those of Wu and Zwaenepoel (1994); the rules are this project's own.
#[derive(Clone, Copy, Debug, PartialEq, Eq)]
pub enum Policy {
    /// One partition; the position with most dead rows is cleaned.
    Greedy,
    /// One partition, whose positions are cleaned in turn.
    Fifo,
    /// Locality gathering: each position is a partition.
    Locality,
    /// Partitions of so many positions, each cleaned in turn. A number above the positions in use makes one partition.
    Hybrid(u32),
    /// One partition; pages whose copies live about as long lie together.
    Lifetime,
}

/// Which of a partition's positions with dead rows is cleaned.
#[derive(Clone, Copy, Debug, PartialEq, Eq)]
pub enum Victims {
    /// The one with most dead rows.
    MostDead,
    /// The next in turn.
    InTurn,
}

/// What a memory is made with.
#[derive(Clone, Copy, Debug, PartialEq, Eq)]
pub struct Setup {
    /// The sizes of the board.
    pub shape: Shape,
    /// How the cleaner chooses.
    pub policy: Policy,
    /// The wear of the most worn segment may exceed the least by so much before they are swapped,
    /// and so many erases pass between two swaps: at least 1.
    pub limit: u64,
    /// Held frames from which on a background step writes pages back: 1 to the shape's frames.
    pub mark: u32,
}

/// The first rule that a setup breaks.
#[derive(Clone, Copy, Debug, PartialEq, Eq)]
pub enum SetupFault {
    /// A rule of the shape.
    Shape(ShapeFault),
    /// Hybrid partitions of no position, or of more than there are.
    Part,
    /// The limit is 0.
    Limit,
    /// The mark is 0, or above the number of frames.
    Mark,
}

impl From<ShapeFault> for SetupFault {
    ghost use Rattle.std.specs.Prelude.{◌≡◌};
    ghost use Rattle.envy_policy.specs.declared.setup.SetupFault.TheVariants.{Shape as OfShape};

    ghost from_gives = { λ fault e. e ≡ OfShape fault };

    fn from(fault: ShapeFault) -> Self {
        SetupFault::Shape(fault)
    }
}

impl Policy {
    /// How many consecutive positions make a partition, where there are so many positions.
    pub fn run(&self, positions: u32) -> u32
        ensures { result ≡ run_of self.now positions }
    {
        match self {
            Policy::Greedy | Policy::Fifo | Policy::Lifetime => positions,
            Policy::Locality => 1,
            Policy::Hybrid(part) => (*part).min(positions),
        }
    }

    /// Which position of a page's own partition is cleaned.
    pub fn victims(&self) -> Victims
        ensures { result ≡ victims_of self.now }
    {
        match self {
            Policy::Greedy | Policy::Lifetime => Victims::MostDead,
            Policy::Fifo | Policy::Locality | Policy::Hybrid(_) => Victims::InTurn,
        }
    }
}

impl Setup {
    /// Answers the first rule that fails: those of the shape, and then part, limit and mark.
    pub fn check(&self) -> Result<(), SetupFault>
        ensures table { result ≡ checked self.now }
        ensures sizes { OnOk result (IsSetup self.now) }
    {
        self.check_within(MOST_ROWS)
    }

    /// Answers the first rule that fails, for a board of at most so many rows.
    #[tactic(auto, unfolding(crate::specs::Setup::checked_within))]
    pub fn check_within(&self, most: u32) -> Result<(), SetupFault>
        requires most { most ≤ MOST_ROWS }
        ensures table { result ≡ checked_within most self.now }
        ensures sizes { OnOk result (IsSetup self.now) }
    {
        let setup = *self;
        setup.shape.check_within(most)?;
        if let Policy::Hybrid(part) = setup.policy {
            if part == 0 || part > all_positions_of(&setup.shape) {
                return Err(SetupFault::Part);
            }
        }
        if setup.limit == 0 {
            return Err(SetupFault::Limit);
        }
        if setup.mark == 0 || setup.mark > setup.shape.frames {
            return Err(SetupFault::Mark);
        }
        Ok(())
    }
}

impl SetupFault {
    /// The number of the rule in the order in which a setup is checked: 1 to 10, and 18 and 19, which are asked after 1.
    pub fn rule(&self) -> u8
        ensures number { result ≡ rule_of self.now }
        ensures first { 1 ≤ result }
        ensures last { result ≤ 19 }
    {
        match self {
            SetupFault::Shape(ShapeFault::Segments) => 1,
            SetupFault::Shape(ShapeFault::Rows) => 2,
            SetupFault::Shape(ShapeFault::Pages) => 3,
            SetupFault::Shape(ShapeFault::Frames) => 4,
            SetupFault::Shape(ShapeFault::Entries) => 5,
            SetupFault::Shape(ShapeFault::Share) => 6,
            SetupFault::Shape(ShapeFault::Total) => 7,
            SetupFault::Shape(ShapeFault::Reserves) => 18,
            SetupFault::Shape(ShapeFault::Sums) => 19,
            SetupFault::Part => 8,
            SetupFault::Limit => 9,
            SetupFault::Mark => 10,
        }
    }
}
