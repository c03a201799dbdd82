ghost use Rattle.std.specs.Prelude.{◌≡◌, false, Ok};
ghost use Rattle.envy_soundness.specs.Words.{durable};
ghost use Rattle.envy_memory.specs.Calls.{fresh};
ghost use Rattle.envy_mirror.specs.Mirroring.{Mirrors};
ghost use Rattle.envy_mirror.specs.Pair.{IsDark, side_at};
ghost use Rattle.envy_mirror.specs.Reviving.{RevivesBy, Returns};

use crate::half::Half;
use crate::mirror::Mirror;
use crate::standing::{Standing, Which};
use envy_base::Bench;
use envy_memory::ReviveFault;

/// Revives a side. All pages of the other are stale then.
fn revive_side<B: Bench>(side: &mut Half<B>, stale: &mut Vec<bool>) -> Result<(), ReviveFault>
    requires off { side.old.memory.chart.on ≡ false }
    requires gone { side.old.standing ≡ Standing.Gone }
    ensures { Returns result side.old stale.old.items side.new stale.new.items }
{
    match side.memory.revive() {
        Ok(()) => {
            side.standing = Standing::Good;
            stale.fill(true);
            Ok(())
        }
        Err(ReviveFault::Dead) => Err(ReviveFault::Dead),
        Err(ReviveFault::Off) => Err(ReviveFault::Off),
    }
}

impl<A: Bench, B: Bench> Mirror<A, B> {
    /// Asks for power for the side that was Good last. All slots are closed then, and the side is Good. It takes no
    /// memory.
    ///
    /// # Errors
    ///
    /// `Dead`: power doesn't return, and nothing changed. `Off`: power was cut again; the call may be made again.
    pub fn revive(&mut self) -> Result<(), ReviveFault>
        requires { IsDark self.old }
        ensures revives { RevivesBy self.old.last result self.old self.new }
        ensures mirrors { result ≡ Ok tt
            → let c = (side_at self.old.last self.old).memory.chart in Mirrors self.new
            (fresh c.shape.shadows (durable c)) }
    {
        match self.last {
            Which::First => revive_side(&mut self.first, &mut self.stale),
            Which::Second => revive_side(&mut self.second, &mut self.stale),
        }
    }
}
