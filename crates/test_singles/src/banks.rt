//! A bank of rows and a bank of chips, to which the same is done.

ghost use Rattle.std.specs.Prelude.{◌≡◌, ◌<◌, length};

use crate::told::{same_at, same_within};
use envy_bank::{Bank, ChipBank};
use std::alloc::Global;
use std::process::Abort;

/// A bank of rows and a bank of chips, each of 3 blocks of 4 rows, to which the same is done.
#[derive(Drop)]
struct Both {
    rows: Bank,
    chips: ChipBank,
    ghost rows_long: { length rows.flash ≡ 12 },
    ghost rows_blocks: { length rows.erases ≡ 3 },
    ghost chips_long: { length chips.flash ≡ 12 },
    ghost chips_blocks: { length chips.erases ≡ 3 },
}

impl Both {
    fn new(rt: &impl Abort, alloc: Global) -> Both {
        Both {
            rows: Bank::new(alloc, 3, 4).expect(rt, "no room for rows"),
            chips: ChipBank::new(alloc, 3, 4).expect(rt, "no room for chips"),
        }
    }

    fn program(&mut self, row: u32, page: &[u64; 32]) -> (bool, bool)
        requires { row < 12 }
    {
        let first = self.rows.program_row(row, page);
        (first, self.chips.program_row(row, page))
    }

    fn upset(&mut self, row: u32, page: &[u64; 32])
        requires { row < 12 }
    {
        self.rows.upset_row(row, page);
        self.chips.upset_row(row, page);
    }

    fn erase(&mut self, block: u32)
        requires { block < 3 }
    {
        self.rows.erase_block(block);
        self.chips.erase_block(block);
    }

    fn read(&self, row: u32, i: u32) -> (u64, u64)
        requires row { row < 12 }
        requires i { i < 32 }
    {
        (self.rows.read_word(row, i), self.chips.read_word(row, i))
    }

    fn erases(&self, block: u32) -> (u64, u64)
        requires { block < 3 }
    {
        (self.rows.erases(block), self.chips.erases(block))
    }
}

/// Numbers by Marsaglia's xorshift.
#[derive(Drop)]
struct Numbers(u64);

impl Numbers {
    fn next(&mut self) -> u64 {
        let mut n = self.0;
        n ^= n << 13;
        n ^= n >> 7;
        n ^= n << 17;
        self.0 = n;
        n
    }

    fn below(&mut self, bound: u32) -> u32
        requires { 0 < bound }
        ensures { result < bound }
    {
        (self.next() % bound as u64) as u32
    }

    /// A page of words in which three of four bits are set.
    fn page(&mut self) -> [u64; 32] {
        let mut page = [0; 32];
        for word in page.iter_mut() {
            *word = self.next() | self.next();
        }
        page
    }
}

fn assert_same(rt: &impl Abort, both: &Both) {
    for row in 0..12 {
        for i in 0..32 {
            let (word, by_chips) = both.read(row, i);
            same_within(rt, &word, &by_chips, ("word", i), ("row", row));
        }
    }
    for block in 0..3 {
        let (count, by_chips) = both.erases(block);
        same_at(rt, &count, &by_chips, "erases of block", block as u64);
    }
}

/// Does what is drawn to both, in the turn of this number.
fn disturb(rt: &impl Abort, both: &mut Both, numbers: &mut Numbers, turn: u64) {
    match numbers.below(8) {
        0 => both.erase(numbers.below(3)),
        1 => {
            let page = numbers.page();
            both.upset(numbers.below(12), &page);
        }
        _ => {
            let page = numbers.page();
            let (held, by_chips) = both.program(numbers.below(12), &page);
            same_at(rt, &held, &by_chips, "held in turn", turn);
        }
    }
}

#[test]
fn rows_and_chips_answer_the_same(rt: HostRuntime) {
    let mut both = Both::new(&rt, rt.alloc());
    let mut numbers = Numbers(2463534242);
    for turn in 0..500 {
        disturb(&rt, &mut both, &mut numbers, turn);
        assert_same(&rt, &both);
    }
}

#[test]
fn a_new_bank_is_erased(rt: HostRuntime) {
    let both = Both::new(&rt, rt.alloc());
    for block in 0..3 {
        let found = both.erases(block);
        same_at(&rt, &found, &(0, 0), "erases of block", block as u64);
    }
    for row in 0..12 {
        for i in 0..32 {
            let found = both.read(row, i);
            same_within(
                &rt,
                &found,
                &(u64::MAX, u64::MAX),
                ("word", i),
                ("row", row),
            );
        }
    }
}

/// The bytes of this word, the lowest first.
const WORD: u64 = 72623859790382856;

const LANES: [u8; 8] = [8, 7, 6, 5, 4, 3, 2, 1];

#[test]
fn the_lowest_byte_of_a_word_is_in_its_first_lane(rt: HostRuntime) {
    let mut bank = ChipBank::new(rt.alloc(), 1, 2).expect(&rt, "no room for chips");
    let mut page = [0; 32];
    page[0] = WORD;
    bank.program_row(0, &page);
    for lane in 0..8 {
        let found = bank.lane(0, lane);
        same_at(&rt, &found, &LANES[lane as usize], "lane", lane as u64);
    }
}
