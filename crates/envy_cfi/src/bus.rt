ghost use Rattle.std.specs.Prelude.{◌≡◌, ◌<◌, ℕ, Option, None, Some, length};
ghost use Rattle.envy_bank.specs.Commands.{ChipState, written, read_of};
ghost use Rattle.envy_cfi.specs.Driving.{Writes, Reads};

use envy_bank::Chip;

/// A bus to a part.
pub trait Bus {
    /// The chip behind it, where that is known.
    ghost chip: { Self → Option ChipState };

    /// The byte that was read last.
    ghost heard: { Self → ℕ };

    /// Writes a byte.
    fn write(&mut self, addr: u32, byte: u8)
        ensures writes { Writes (chip self.old) addr byte (chip self.new) }
        ensures heard { heard self.new ≡ heard self.old };

    /// Reads a byte.
    fn read(&mut self, addr: u32) -> u8
        ensures same { chip self.new ≡ chip self.old }
        ensures heard { heard self.new ≡ result }
        ensures reads { Reads (chip self.old) addr result };
}

/// A bus to a part behind a port, of which nothing is known.
#[derive(Drop)]
pub struct PortBus {
    /// The port.
    pub port: i32,
    /// The byte that was read last: the status of the part, after a call of the driver.
    pub heard: u8,
}

impl Bus for PortBus {
    ghost chip = { λ _. None };

    ghost heard = { λ b. b.heard };

    fn write(&mut self, addr: u32, byte: u8) {
        let at = addr.to_le_bytes();
        io::write_all(self.port, &[at[0], at[1], at[2], at[3], byte]);
    }

    fn read(&mut self, addr: u32) -> u8 {
        let mut byte = [0];
        io::write_all(self.port, &addr.to_le_bytes());
        io::read_full(self.port, &mut byte);
        self.heard = byte[0];
        byte[0]
    }
}

/// A bus to a chip that is a value.
#[derive(Drop)]
pub struct ModelBus {
    /// The chip.
    pub chip: Chip,
    /// How many bytes it has.
    pub size: u32,
    /// The byte that was read last.
    pub heard: u8,
    ghost fits: { length chip.bytes ≡ size },
}

impl Bus for ModelBus {
    ghost chip = { λ b. Some b.chip };

    ghost heard = { λ b. b.heard };

    fn write(&mut self, addr: u32, byte: u8) {
        if addr < self.size {
            self.chip.write(addr, byte);
        }
    }

    fn read(&mut self, addr: u32) -> u8 {
        let byte = if addr < self.size {
            self.chip.read(addr)
        } else {
            0
        };
        self.heard = byte;
        byte
    }
}
