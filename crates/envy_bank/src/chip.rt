ghost use Rattle.std.specs.Prelude.{◌≡◌, ◌*◌, ◌<◌, ◌≤◌, length, IfOk};
ghost use Rattle.envy_bank.specs.Commands.{erased_chip, commanded, programmed, confirmed, written, read_of, status_of, upset_at};

use std::alloc::{AllocError, Global};
use std::marker::Model;

/// Want of memory.
pub type NoMemory = AllocError;

/// The most bytes of a chip.
pub const MOST_BYTES: u32 = 1_048_576;

/// The command that makes the next write program a byte.
pub const PROGRAM_SETUP: u8 = 0x40;
/// The command that makes the next write confirm, or cancel, the erase of a block.
pub const ERASE_SETUP: u8 = 0x20;
/// The byte that confirms an erase.
pub const ERASE_CONFIRM: u8 = 0xD0;
/// The command after which reads give the status byte.
pub const READ_STATUS: u8 = 0x70;
/// The command that clears both error bits.
pub const CLEAR_STATUS: u8 = 0x50;
/// The command after which reads give the array.
pub const READ_ARRAY: u8 = 0xFF;

/// The bit of the status byte that is set while no operation runs, which is always.
pub const READY: u8 = 0x80;
/// The bit of the status byte that tells of an erase that was not confirmed.
pub const ERASE_ERROR: u8 = 0x20;
/// The bit of the status byte that tells of a program that did not give its byte.
pub const PROGRAM_ERROR: u8 = 0x10;

const ERASED: u8 = 0xFF;

/// What a chip makes of the next write and the next read.
#[derive(Clone, Copy, PartialEq, Eq, Debug)]
pub enum Mode {
    /// A write is a command, and a read gives the byte at the address.
    Array,
    /// A write is a command, and a read gives the status byte.
    Status,
    /// A write programs its byte at its address, and a read gives the status byte.
    ProgramSetup,
    /// A write confirms or cancels an erase, and a read gives the status byte.
    EraseSetup,
}

/// A flash chip of blocks of `rows` bytes each; byte `r` of block `b` has the address `b * rows + r`.
#[derive(Drop)]
pub struct Chip {
    array: Vec<u8>,
    rows: u32,
    mode: Mode,
    erase_error: bool,
    program_error: bool,
}

impl Model for Chip {
    ghost use Rattle.envy_bank.specs.Commands.{ChipState, IsChip};

    ghost Value = { ChipState };

    ghost view = { λ a. record { bytes = a.array.items; rows = a.rows; mode = a.mode; erase_error = a.erase_error; program_error = a.program_error } };

    ghost invariant = { λ a. IsChip a.array.items a.rows };
}

impl Chip {
    /// An erased chip in array mode, without an error.
    pub fn new(alloc: Global, blocks: u32, rows: u32) -> Result<Chip, NoMemory>
        requires blocks { 1 ≤ blocks }
        requires rows { 1 ≤ rows }
        requires size { blocks * rows ≤ MOST_BYTES }
        ensures { IfOk result (λ chip. chip ≡ erased_chip blocks rows) }
    {
        Ok(Chip {
            array: vec![in alloc; ERASED; (blocks * rows) as usize]?,
            rows,
            mode: Mode::Array,
            erase_error: false,
            program_error: false,
        })
    }

    /// Writes a byte: a command, the byte of a program, or what confirms an erase, as the mode says.
    #[inline]
    pub fn write(&mut self, addr: u32, byte: u8)
        requires { addr < length self.old.bytes }
        ensures state { self.new ≡ written self.old addr byte }
        ensures size { length self.new.bytes ≡ length self.old.bytes }
    {
        match self.mode {
            Mode::Array | Mode::Status => self.command(byte),
            Mode::ProgramSetup => self.program(addr, byte),
            Mode::EraseSetup => self.confirm(addr, byte),
        }
    }

    /// The byte at the address in array mode, else the status byte.
    #[inline]
    pub fn read(&self, addr: u32) -> u8
        requires { addr < length self.now.bytes }
        ensures { result ≡ read_of self.now addr }
    {
        match self.mode {
            Mode::Array => self.array[addr as usize],
            Mode::Status | Mode::ProgramSetup | Mode::EraseSetup => self.status(),
        }
    }

    /// The status byte: bit 7 is always set, bit 5 is the erase error, bit 4 the program error.
    #[inline]
    pub fn status(&self) -> u8
        ensures { result ≡ status_of self.now }
    {
        let mut status = READY;
        if self.erase_error {
            status += ERASE_ERROR;
        }
        if self.program_error {
            status += PROGRAM_ERROR;
        }
        status
    }

    /// Sets a byte to anything, as a disturbed operation may; mode and status stay.
    pub fn upset(&mut self, addr: u32, byte: u8)
        requires { addr < length self.old.bytes }
        ensures { self.new ≡ upset_at self.old addr byte }
    {
        self.array[addr as usize] = byte;
    }

    #[inline]
    fn command(&mut self, byte: u8)
        ensures { self.new ≡ commanded self.old byte }
    {
        match byte {
            PROGRAM_SETUP => self.mode = Mode::ProgramSetup,
            ERASE_SETUP => self.mode = Mode::EraseSetup,
            READ_STATUS => self.mode = Mode::Status,
            CLEAR_STATUS => {
                self.erase_error = false;
                self.program_error = false;
            }
            READ_ARRAY => self.mode = Mode::Array,
            _ => {}
        }
    }

    // A program can clear bits, and set none.
    #[inline]
    fn program(&mut self, addr: u32, byte: u8)
        requires { addr < length self.old.bytes }
        ensures { self.new ≡ programmed self.old addr byte }
    {
        let cleared = self.array[addr as usize] & byte;
        self.array[addr as usize] = cleared;
        if cleared != byte {
            self.program_error = true;
        }
        self.mode = Mode::Status;
    }

    fn confirm(&mut self, addr: u32, byte: u8)
        requires { addr < length self.old.bytes }
        ensures { self.new ≡ confirmed self.old addr byte }
    {
        if byte == ERASE_CONFIRM {
            let first = (addr / self.rows * self.rows) as usize;
            self.array[first..first + self.rows as usize].fill(ERASED);
        } else {
            self.erase_error = true;
        }
        self.mode = Mode::Status;
    }
}
