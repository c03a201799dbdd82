ghost use Rattle.std.specs.Prelude.{◌≡◌, IfOk, OnOk};
ghost use Rattle.envy_disk.specs.Disk.{Syncs};
ghost use Rattle.envy_disk.specs.declared.durable_board.Compaction.TheVariants.{Done, Appended};
ghost use Rattle.envy_map.specs.Fields.{Chart, chart};

use envy_base::{Board, Off};

/// What became of a compaction that succeeded: all that the board holds is on the disk.
#[derive(Clone, Copy, Debug, PartialEq, Eq)]
pub enum Compaction {
    /// It takes no more there than what the board holds takes.
    Done,
    /// The compaction was hindered, so it was brought there as by a sync.
    Appended,
}

/// A board that can be brought to a disk. Its notes, which no call of a memory changes, tell what its last two syncs brought
/// there.
pub trait Durable: Board {
    /// What the last sync brought to the disk is what the board holds.
    ghost is_synced: { Chart → Type 0 };

    /// It takes no more there than what the board holds takes, however much was done to it.
    ghost is_compact: { Chart → Type 0 };

    /// What hinders a compaction happened between the last sync of the first board and that of the second.
    ghost is_hindered: { Chart → Chart → Type 0 };

    /// Brings the board to the disk. If it fails, power is off.
    fn sync(&mut self) -> Result<(), Off>
        ensures answer { Syncs (Self.state self.old) result (Self.state self.new) }
        ensures synced { OnOk result (is_synced (chart (Self.state self.new))) };

    /// A sync that leaves no more on the disk than what the board holds takes, unless that was hindered since the last one.
    fn compact(&mut self) -> Result<Compaction, Off>
        ensures answer { Syncs (Self.state self.old) result (Self.state self.new) }
        ensures synced { OnOk result (is_synced (chart (Self.state self.new))) }
        ensures compact { IfOk result (λ made. made ≡ Done → is_compact (chart (Self.state self.new))) }
        ensures hindered { IfOk result (λ made. made ≡ Appended
            → is_hindered (chart (Self.state self.old)) (chart (Self.state self.new))) };
}
