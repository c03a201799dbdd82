//! Work between transfers.

ghost use Rattle.std.specs.Prelude.{◌≡◌, false, OnOk, Ok};
ghost use Rattle.envy_soundness.specs.Words.{durable};
ghost use Rattle.envy_memory.specs.Picture.{counts_of};
ghost use Rattle.envy_tpca.specs.Loading.{Accessed};
ghost use Rattle.envy_tpca.specs.Trying.{Rests, Returns, AfterTransfer};

use crate::DriveFault;
use envy_base::{Bench, Trouble};
use envy_memory::{Memory, ReviveFault};

/// Asks for power until the memory is back.
pub fn restart<B: Bench>(memory: &mut Memory<B>) -> Result<(), DriveFault>
    requires { memory.old.chart.on ≡ false }
    ensures after { Returns memory.old result memory.new }
    ensures counts { counts_of memory.new.parts ≡ counts_of memory.old.parts }
{
    loop {
        match memory.revive() {
            Ok(()) => return Ok(()),
            Err(ReviveFault::Dead) => return Err(DriveFault::Dead),
            Err(ReviveFault::Off) => {}
        }
    }
}

/// The four ticks after a transfer. After a restart those that are left are dropped.
pub fn tick_four_times<B: Bench>(memory: &mut Memory<B>) -> Result<(), DriveFault>
    requires { Rests (durable memory.old.chart) memory.old }
    ensures after { AfterTransfer 0 memory.old (durable memory.old.chart) (durable memory.old.chart) result memory.new }
    ensures accessed { OnOk result (Accessed 0 memory.old.parts.cache memory.new.parts.cache) }
{
    for _tick in 0..4 {
        match memory.tick() {
            Ok(_) => {}
            Err(Trouble::Off) => return restart(memory),
            Err(Trouble::Bad) => return Err(DriveFault::Bad),
        }
    }
    Ok(())
}
