ghost use Rattle.std.specs.Prelude.{◌≡◌};
ghost use Rattle.std.specs.Int.{bit_at};
ghost use Rattle.envy_sum.specs.Register.{register_after};
ghost use Rattle.envy_sum.specs.Rows.{row_sum};
ghost use Rattle.envy_sum.specs.Lanes.{IsLane};
ghost use Rattle.envy_sum.specs.declared.sums.TheConstants.{NARROW, WIDE};

use crate::NoMemory;
use crate::lanes::lane;
use crate::register::ALL_ONES;
use envy_base::{PAGE_LENGTH, Page};
use std::alloc::Global;

// The bits of a word that are looked up at once: a byte, which a processor takes out of a word by one
// instruction, for the lowest two, and as many as divide the rest in four.
const NARROW: u32 = 8;

const WIDE: u32 = 12;

/// Tables from which the sum of a row is made a word at a time, 67,584 bytes in all. They are made once
/// and kept by whoever asks for sums.
#[derive(Drop)]
pub struct Sums {
    // The lanes of a word, each named after the lowest of its bits. Its entries are the registers after all
    // bits from that one to the end of the word.
    at_0: Vec<u32>,
    at_8: Vec<u32>,
    at_16: Vec<u32>,
    at_28: Vec<u32>,
    at_40: Vec<u32>,
    at_52: Vec<u32>,
    ghost lane_0: { IsLane NARROW 64 at_0.items },
    ghost lane_8: { IsLane NARROW 56 at_8.items },
    ghost lane_16: { IsLane WIDE 48 at_16.items },
    ghost lane_28: { IsLane WIDE 36 at_28.items },
    ghost lane_40: { IsLane WIDE 24 at_40.items },
    ghost lane_52: { IsLane WIDE 12 at_52.items },
}

impl Sums {
    /// Makes the tables.
    pub fn new(alloc: Global) -> Result<Sums, NoMemory> {
        Ok(Sums {
            at_0: lane(alloc, NARROW, 64)?,
            at_8: lane(alloc, NARROW, 56)?,
            at_16: lane(alloc, WIDE, 48)?,
            at_28: lane(alloc, WIDE, 36)?,
            at_40: lane(alloc, WIDE, 24)?,
            at_52: lane(alloc, WIDE, 12)?,
        })
    }

    // The register after the bits of a word.
    #[inline(always)]
    fn after_word(&self, register: u32, word: u64) -> u32
        ensures { result ≡ register_after register (bit_at word) 64 }
    {
        let word = u64::from(register) ^ word;
        self.at_0[(word % (1 << NARROW)) as usize]
            ^ (self.at_8[((word >> 8) % (1 << NARROW)) as usize]
                ^ (self.at_16[((word >> 16) % (1 << WIDE)) as usize]
                    ^ (self.at_28[((word >> 28) % (1 << WIDE)) as usize]
                        ^ (self.at_40[((word >> 40) % (1 << WIDE)) as usize]
                            ^ self.at_52[(word >> 52) as usize]))))
    }

    /// CRC-32C of a row.
    pub fn sum_of(&self, row: &Page) -> u32
        ensures { result ≡ row_sum row.now }
    {
        let mut register = ALL_ONES;
        for four in 0..PAGE_LENGTH / 4 {
            register = self.after_word(register, row[4 * four]);
            register = self.after_word(register, row[4 * four + 1]);
            register = self.after_word(register, row[4 * four + 2]);
            register = self.after_word(register, row[4 * four + 3]);
        }
        register ^ ALL_ONES
    }
}
