ghost use Rattle.std.specs.Prelude.{◌≡◌, ◌+◌, ◌<◌, ◌≤◌, length};
ghost use Rattle.envy_cfi.specs.Driving.{Ends, Erases, OrdersByte, OrdersRow, ProgramsByte, ProgramsRow, Settles, Tells};

use crate::Bus;
use envy_bank::{CLEAR_STATUS, ERASE_CONFIRM, ERASE_SETUP, PROGRAM_SETUP, READ_ARRAY, READY};

/// How many bytes a row has.
pub const ROW_BYTES: usize = 256;

/// How often the status is read before a part counts as one that never ends.
const TRIES: u32 = 1000000;

/// The bits of the status that tell of an error: of an erase, of a program, of the voltage, of a locked block.
const ERRORS: u8 = 0x3A;

/// Why an operation of a part didn't succeed. The part was told to go back to array mode all the same.
#[derive(Clone, Copy, Debug, PartialEq, Eq)]
pub enum DriverFault {
    /// The status told of an error: a bit that can't be set, a locked block, or too low a voltage.
    Failed,
    /// The part wasn't ready, as often as its status was read.
    Late,
}

// Waits until the part is ready, and answers what its status tells.
fn end<B: Bus>(bus: &mut B, addr: u32) -> Result<(), DriverFault>
    ensures same { B.chip bus.new ≡ B.chip bus.old }
    ensures tells { Tells (B.heard bus.new) result }
    ensures ends { Ends (B.chip bus.old) addr result }
{
    for _turn in 0..TRIES {
        let status = bus.read(addr);
        if status & READY != 0 {
            if status & ERRORS != 0 {
                return Err(DriverFault::Failed);
            }
            return Ok(());
        }
    }
    Err(DriverFault::Late)
}

// Takes away what was told of errors, and goes back to array mode.
fn settle<B: Bus>(bus: &mut B, addr: u32)
    ensures settles { Settles (B.chip bus.old) addr (B.chip bus.new) }
    ensures heard { B.heard bus.new ≡ B.heard bus.old }
{
    bus.write(addr, CLEAR_STATUS);
    bus.write(addr, READ_ARRAY);
}

// Programs a byte, and stays in status mode.
fn order_byte<B: Bus>(bus: &mut B, addr: u32, byte: u8) -> Result<(), DriverFault>
    ensures tells { Tells (B.heard bus.new) result }
    ensures makes { OrdersByte (B.chip bus.old) addr byte result (B.chip bus.new) }
{
    bus.write(addr, PROGRAM_SETUP);
    bus.write(addr, byte);
    end(bus, addr)
}

// Programs the bytes of a row one by one, as far as that goes well, and stays in status mode.
fn order_row<B: Bus>(bus: &mut B, addr: u32, row: &[u8; 256]) -> Result<(), DriverFault>
    requires { addr + 256 ≤ 4294967296 }
    ensures tells { Tells (B.heard bus.new) result }
    ensures makes { OrdersRow (B.chip bus.old) addr row.now result (B.chip bus.new) }
{
    for k in 0..ROW_BYTES {
        order_byte(bus, addr + k as u32, row[k])?;
    }
    Ok(())
}

/// Programs the byte at an address, from array mode back to array mode.
///
/// # Errors
///
/// `Failed` where the status tells of an error: the byte would set a bit, and what stands there is the AND. `Late` where
/// the part wasn't ready at the last look.
pub fn program_byte<B: Bus>(bus: &mut B, addr: u32, byte: u8) -> Result<(), DriverFault>
    ensures tells { Tells (B.heard bus.new) result }
    ensures makes { ProgramsByte (B.chip bus.old) addr byte result (B.chip bus.new) }
{
    settle(bus, addr);
    let done = order_byte(bus, addr, byte);
    settle(bus, addr);
    done
}

/// Programs a row of 256 bytes from an address on, from array mode back to array mode.
///
/// # Errors
///
/// `Failed` where the status tells of an error: a byte of the row would set a bit; the bytes before it are programmed
/// then, and those after it are as before. `Late` where the part wasn't ready at the last look.
pub fn program_row<B: Bus>(bus: &mut B, addr: u32, row: &[u8; 256]) -> Result<(), DriverFault>
    requires { addr + 256 ≤ 4294967296 }
    ensures tells { Tells (B.heard bus.new) result }
    ensures makes { ProgramsRow (B.chip bus.old) addr row.now result (B.chip bus.new) }
{
    settle(bus, addr);
    let done = order_row(bus, addr, row);
    settle(bus, addr);
    done
}

/// Erases the block of an address, from array mode back to array mode.
///
/// # Errors
///
/// `Failed` where the status tells of an error, and `Late` where the part wasn't ready at the last look.
pub fn erase_block<B: Bus>(bus: &mut B, addr: u32) -> Result<(), DriverFault>
    ensures tells { Tells (B.heard bus.new) result }
    ensures makes { Erases (B.chip bus.old) addr result (B.chip bus.new) }
{
    settle(bus, addr);
    bus.write(addr, ERASE_SETUP);
    bus.write(addr, ERASE_CONFIRM);
    let done = end(bus, addr);
    settle(bus, addr);
    done
}
