ghost use Rattle.std.specs.Prelude.{◌≡◌, ◌*◌, ◌<◌, ◌≤◌, ◌↔◌, IsTrue, length, slice_index, IfOk, replicate};
ghost use Rattle.std.specs.List.{All};
ghost use Rattle.envy_bank.specs.Commands.{erased_chip, upset_at};
ghost use Rattle.envy_bank.specs.Lanes.{lane_of, IsReady, anded, blanked, EachLane, LanesHold, lanes_at, row_from};

use crate::{
    CLEAR_STATUS, Chip, ERASE_CONFIRM, ERASE_SETUP, MOST_BYTES, PROGRAM_ERROR, PROGRAM_SETUP,
    READ_ARRAY,
};
use envy_base::{PAGE_WORDS, Page};
use std::alloc::{AllocError, Global};

pub const LANES: usize = 256;

// The byte of a row that the chip `lane` holds.
#[tactic(auto, unfolding(crate::specs::Lanes::lane_of))]
fn lane_byte(row: &Page, lane: usize) -> u8
    requires { lane < 256 }
    ensures { result ≡ lane_of row.now lane }
{
    row[lane / 8].to_le_bytes()[lane % 8]
}

// Programs a byte, and answers whether the chip then holds it.
fn program_lane(chip: &mut Chip, addr: u32, byte: u8) -> bool
    requires ready { IsReady chip.old }
    requires addr { addr < length chip.old.bytes }
    ensures chip { chip.new ≡ anded addr byte chip.old }
    ensures held { IsTrue result ↔ (slice_index chip.new.bytes addr ≡ byte) }
{
    chip.write(addr, PROGRAM_SETUP);
    chip.write(addr, byte);
    let failed = chip.status() & PROGRAM_ERROR != 0;
    if failed {
        chip.write(addr, CLEAR_STATUS);
    }
    chip.write(addr, READ_ARRAY);
    !failed
}

// Erases the block of the address.
fn erase_lane(chip: &mut Chip, addr: u32)
    requires ready { IsReady chip.old }
    requires addr { addr < length chip.old.bytes }
    ensures { chip.new ≡ blanked addr chip.old }
{
    chip.write(addr, ERASE_SETUP);
    chip.write(addr, ERASE_CONFIRM);
    chip.write(addr, READ_ARRAY);
}

/// Erased chips, one for each lane.
pub fn new_lanes(alloc: Global, blocks: u32, rows: u32) -> Result<Vec<Chip>, AllocError>
    requires blocks { 1 ≤ blocks }
    requires rows { 1 ≤ rows }
    requires size { blocks * rows ≤ MOST_BYTES }
    ensures { IfOk result (λ chips. chips.items ≡ replicate 256 (erased_chip blocks rows)) }
{
    let mut chips = Vec::with_capacity(alloc, LANES)?;
    for _lane in 0..LANES {
        chips.push(Chip::new(alloc, blocks, rows)?)?;
    }
    Ok(chips)
}

/// Reads a word of the row at the address.
pub fn read_lanes(chips: &[Chip], addr: u32, word: usize) -> u64
    requires count { length chips.now ≡ 256 }
    requires ready { All IsReady chips.now }
    requires addr { All (λ chip. addr < length chip.bytes) chips.now }
    requires word { word < PAGE_WORDS }
    ensures { result ≡ slice_index (row_from (lanes_at chips.now addr)) word }
{
    let mut bytes = [0u8; 8];
    for i in 0..8 {
        bytes[i] = chips[8 * word + i].read(addr);
    }
    u64::from_le_bytes(bytes)
}

/// Programs a row into the chips, and answers whether each then holds its lane of it.
pub fn program_lanes(chips: &mut [Chip], addr: u32, row: &Page) -> bool
    requires count { length chips.old ≡ 256 }
    requires ready { All IsReady chips.old }
    requires addr { All (λ chip. addr < length chip.bytes) chips.old }
    ensures chips { EachLane (λ lane chip. anded addr (lane_of row.now lane) chip) chips.old chips.new }
    ensures held { IsTrue result ↔ LanesHold addr row.now chips.new }
{
    let mut held = true;
    for (lane, chip) in chips.iter_mut().enumerate() {
        held &= program_lane(chip, addr, lane_byte(row, lane));
    }
    held
}

/// Erases the block of the address in each chip.
pub fn erase_lanes(chips: &mut [Chip], addr: u32)
    requires count { length chips.old ≡ 256 }
    requires ready { All IsReady chips.old }
    requires addr { All (λ chip. addr < length chip.bytes) chips.old }
    ensures { EachLane (λ _ chip. blanked addr chip) chips.old chips.new }
{
    for chip in chips.iter_mut() {
        erase_lane(chip, addr);
    }
}

/// Sets each chip's byte to its lane of the row, whatever it was.
pub fn upset_lanes(chips: &mut [Chip], addr: u32, row: &Page)
    requires count { length chips.old ≡ 256 }
    requires ready { All IsReady chips.old }
    requires addr { All (λ chip. addr < length chip.bytes) chips.old }
    ensures { EachLane (λ lane chip. upset_at chip addr (lane_of row.now lane)) chips.old chips.new }
{
    for (lane, chip) in chips.iter_mut().enumerate() {
        chip.upset(addr, lane_byte(row, lane));
    }
}
