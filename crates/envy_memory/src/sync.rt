ghost use Rattle.std.specs.Prelude.{◌≡◌, IfOk, OnOk};
ghost use Rattle.envy_disk.specs.Disk.{SyncsChart};
ghost use Rattle.envy_disk.specs.declared.durable_board.Compaction.TheVariants.{Done, Appended};

use crate::memory::Memory;
use envy_base::Off;
use envy_disk::{Compaction, Durable};

impl<B: Durable> Memory<B> {
    /// Brings all that the board holds to the disk, with what open transactions put. It is no access, and nothing else
    /// changes.
    ///
    /// # Errors
    ///
    /// `Off`: power is off then.
    pub fn sync(&mut self) -> Result<(), Off>
        ensures answer { SyncsChart self.old.chart result self.new.chart }
        ensures kept { self.new ≡ record self.old { chart = self.new.chart } }
        ensures synced { OnOk result (B.is_synced self.new.chart) }
    {
        self.board.sync()
    }

    /// A sync that leaves no more on the disk than what the board holds takes, unless this was hindered since the
    /// last one. It writes all of it, so it takes longer.
    ///
    /// # Errors
    ///
    /// `Off`: power is off then.
    pub fn compact(&mut self) -> Result<Compaction, Off>
        ensures answer { SyncsChart self.old.chart result self.new.chart }
        ensures kept { self.new ≡ record self.old { chart = self.new.chart } }
        ensures synced { OnOk result (B.is_synced self.new.chart) }
        ensures compact { IfOk result (λ made. made ≡ Done → B.is_compact self.new.chart) }
        ensures hindered { IfOk result (λ made. made ≡ Appended → B.is_hindered self.old.chart self.new.chart) }
    {
        self.board.compact()
    }
}
