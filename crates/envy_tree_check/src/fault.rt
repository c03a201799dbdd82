ghost use Rattle.std.specs.Prelude.{◌≡◌};

use envy_base::Off;

/// Why words stand for no map: the first rule that they break.
#[derive(Clone, Copy, Debug, PartialEq, Eq)]
pub enum MapFault {
    /// Power failed in the call, or was off at entry.
    Off,
    /// There are fewer than 640 words.
    Short,
    /// More pieces were ever handed out than there are.
    Used,
    /// Word 3 is above the most pairs that the words have room for.
    Many,
    /// The free list goes round in a circle, or names a piece that was never handed out.
    FreeList,
    /// The tree has more levels than so many words have room for.
    Deep,
    /// The root or a child is no piece that was ever handed out.
    Node,
    /// The first word of a node is none that a node may have.
    Head,
    /// A leaf is less deep than another one.
    Level,
    /// A node has too few keys.
    Few,
    /// A key is not above the one before it, or not between those that the nodes above it set.
    Keys,
    /// A node is in the free list.
    Freed,
    /// A piece that is handed out is no node.
    Lost,
    /// Word 3 is not the number of pairs.
    Count,
}

impl From<Off> for MapFault {
    ghost use Rattle.envy_tree_check.specs.declared.fault.MapFault.TheVariants.{Off as MapOff};

    ghost from_gives = { λ _ e. e ≡ MapOff };

    fn from(_: Off) -> Self {
        MapFault::Off
    }
}
