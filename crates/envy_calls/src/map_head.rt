// What a memory was formatted with, by the first words of its SRAM.
ghost use Rattle.std.specs.Prelude.{◌≡◌, ◌≤◌, ◌<◌, ◌==◌, ◌↔◌, if◌then◌else◌, IsTrue, length, slice_index};
ghost use Rattle.envy_map.specs.Fields.{narrowed};
ghost use Rattle.envy_calls.specs.Codes.{number_of};
ghost use Rattle.envy_calls.specs.Shapes.{DoesShape, HasExtras, numbers_of, shape_told};
ghost use Rattle.envy_calls.specs.declared.code.Code.{Code as OfCode};

use crate::code::Code;
use crate::setup::{EnvySetup, checked_setup};
use envy_base::Shape;
use envy_map::MAGIC;

/// How many words a map needs at least to tell its shape: one of the third version has reserves and sums behind the others.
const HEAD: usize = 5;

const LONG_HEAD: usize = 8;

const RESERVES_AT: usize = 6;

const SUMS_AT: usize = 7;

const HALF: u64 = 0x1_0000_0000;

/// Whether words tell reserves or sums.
fn has_extras(sram: &[u64]) -> bool
    ensures { IsTrue result ↔ HasExtras sram.now }
{
    sram.len() >= LONG_HEAD && (sram[RESERVES_AT] != 0 || sram[SUMS_AT] != 0)
}

/// A word of the third version as a number of 32 bits, which is the largest in place of a larger one. Else 0.
fn extra(sram: &[u64], at: usize) -> u32
    requires long { 2 ≤ length sram.now }
    requires third { slice_index sram.now 1 ≡ 3 → at < length sram.now }
    ensures { result ≡ if slice_index sram.now 1 == 3 then narrowed (slice_index sram.now at) else 0 }
{
    if sram[1] == 3 {
        sram[at].min(u32::MAX as u64) as u32
    } else {
        0
    }
}

fn shape_of_head(sram: &[u64]) -> Shape
    requires long { 5 ≤ length sram.now }
    requires third { slice_index sram.now 1 ≡ 3 → 8 ≤ length sram.now }
    ensures { result ≡ shape_told sram.now }
{
    Shape {
        segments: (sram[2] / HALF) as u32,
        rows: (sram[2] % HALF) as u32,
        pages: (sram[3] / HALF) as u32,
        shadows: (sram[3] % HALF) as u32,
        frames: (sram[4] / HALF) as u32,
        entries: (sram[4] % HALF) as u32,
        reserves: extra(sram, RESERVES_AT),
        sums: extra(sram, SUMS_AT),
    }
}

fn numbers(shape: Shape) -> EnvySetup
    ensures { result ≡ numbers_of shape }
{
    EnvySetup {
        segments: shape.segments,
        rows: shape.rows,
        pages: shape.pages,
        shadows: shape.shadows,
        frames: shape.frames,
        entries: shape.entries,
        policy: 0,
        part: 2,
        limit: 100,
        mark: shape.frames,
        reserves: shape.reserves,
        sums: shape.sums,
    }
}

fn told(sram: &[u64], setup: &mut EnvySetup) -> Code
    ensures { DoesShape sram.now setup.old setup.new result }
{
    if sram.len() < HEAD || sram[0] != MAGIC {
        return Code::Unformatted;
    }
    match sram[1] {
        1 => return Code::Older,
        2 => {}
        3 if has_extras(sram) => {}
        _ => return Code::Unformatted,
    }
    let found = numbers(shape_of_head(sram));
    match checked_setup(&found) {
        Ok(_) => {
            *setup = found;
            Code::Done
        }
        Err(code) => code,
    }
}

/// The shape that the first words of SRAM keep, in numbers for a setup, with a policy, limit and mark that aren't kept.
pub fn shape(sram: &[u64], setup: &mut EnvySetup) -> u32
    ensures { (code : OfCode) × (result ≡ number_of code) × DoesShape sram.now setup.old setup.new code }
{
    told(sram, setup).number()
}
