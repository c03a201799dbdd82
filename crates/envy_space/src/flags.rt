ghost use Rattle.std.specs.Prelude.{◌≡◌, ◌≢◌, ℕ, ◌+◌, ◌-◌, ◌*◌, ◌<◌, ◌≤◌, length, replicate, slice_index, slice_set, swap, IfOk};
ghost use Rattle.std.specs.Int.{bit_at};
ghost use Rattle.envy_space.specs.Winners.{Lowest, Highest, flag as flag_of};

use crate::bits::{bit, highest_of, highest_to, lowest_from, lowest_of, turned};
use envy_base::NoMemory;
use std::alloc::Global;
use std::marker::Model;

/// Words of bits, enough for each place of a board.
const WORDS: usize = 64;

/// Which places have rows, and the lowest and the highest of any run of them that have some.
///
/// A bit for each place, 64 to a word, and in `top` a bit for each word that has one: so a new flag
/// changes two words at most, and a run is looked through by two or three.
#[derive(Drop)]
pub struct Flags {
    places: u32,
    words: Vec<u64>,
    top: u64,
}

impl Model for Flags {
    ghost use Rattle.std.specs.Prelude.{List, ℕ};
    ghost use Rattle.envy_space.specs.Bits.{AreBits, bits_of};

    ghost Value = { List ℕ };

    ghost view = { λ a. bits_of a.places a.words.items };

    ghost invariant = { λ a. AreBits a.places a.top a.words.items };
}

impl Flags {
    /// So many places, each with so many rows.
    pub fn new(alloc: Global, places: u32, rows: u32) -> Result<Flags, NoMemory>
        requires few { places ≤ 4096 }
        ensures { IfOk result (λ flags. flags ≡ replicate places (flag_of rows)) }
    {
        let words = vec![in alloc; 0; WORDS]?;
        let mut flags = Flags {
            places,
            words,
            top: 0,
        };
        flags.fill(rows);
        Ok(flags)
    }

    /// Gives each place so many rows.
    pub fn fill(&mut self, rows: u32)
        ensures { self.new ≡ replicate (length self.old) (flag_of rows) }
    {
        for place in 0..self.places() {
            self.set(place, rows);
        }
    }

    /// Gives a place so many rows.
    pub fn set(&mut self, place: u32, rows: u32)
        requires { place < length self.old }
        ensures { self.new ≡ slice_set self.old place (flag_of rows) }
    {
        self.write(place, rows.min(1));
    }

    /// Gives a place, which had `before` rows, so many. Its flag is looked at only where rows come or go.
    #[inline(always)]
    pub fn change(&mut self, place: u32, before: u32, rows: u32)
        requires place { place < length self.old }
        requires before { slice_index self.old place ≡ flag_of before }
        ensures { self.new ≡ slice_set self.old place (flag_of rows) }
    {
        if (before == 0) != (rows == 0) {
            self.turn(place);
        }
    }

    /// Lets two places change places.
    pub fn exchange(&mut self, i: u32, j: u32)
        requires i { i < length self.old }
        requires j { j < length self.old }
        ensures { self.new ≡ swap self.old i j }
    {
        let (first, second) = (self.flag(i), self.flag(j));
        self.write(i, second);
        self.write(j, first);
    }

    /// The lowest place from `first` to below `end` that has rows.
    pub fn lowest(&self, first: u32, end: u32) -> Option<u32>
        requires order { first ≤ end }
        requires end { end ≤ length self.now }
        ensures { Lowest (slice_index self.now) first end result }
    {
        if first == end {
            return None;
        }
        let word = first / 64;
        match lowest_from(self.words[word as usize], first % 64) {
            Some(bit) if 64 * word + bit < end => Some(64 * word + bit),
            Some(_) => None,
            None => self.lowest_behind(word + 1, end),
        }
    }

    /// The highest place from `first` to below `end` that has rows.
    pub fn highest(&self, first: u32, end: u32) -> Option<u32>
        requires order { first ≤ end }
        requires end { end ≤ length self.now }
        ensures { Highest (slice_index self.now) first end result }
    {
        if first == end {
            return None;
        }
        let last = end - 1;
        let word = last / 64;
        match highest_to(self.words[word as usize], last % 64) {
            Some(bit) if 64 * word + bit >= first => Some(64 * word + bit),
            Some(_) => None,
            None => self.highest_before(first, word),
        }
    }

    /// How many places there are.
    fn places(&self) -> u32
        ensures { result ≡ length self.now }
    {
        self.places
    }

    /// The lowest place from the first of a word on, and below `end`, that has rows.
    fn lowest_behind(&self, word: u32, end: u32) -> Option<u32>
        requires word { word ≤ 64 }
        requires end { end ≤ length self.now }
        ensures { Lowest (slice_index self.now) (64 * word) end result }
    {
        if 64 * word >= end {
            return None;
        }
        match lowest_from(self.top, word) {
            Some(next) => {
                let place = 64 * next + lowest_of(self.words[next as usize]);
                if place < end { Some(place) } else { None }
            }
            None => None,
        }
    }

    /// The highest place before those of a word, and from `first` on, that has rows.
    fn highest_before(&self, first: u32, word: u32) -> Option<u32>
        requires word { word < 64 }
        ensures { Highest (slice_index self.now) first (64 * word) result }
    {
        if 64 * word <= first {
            return None;
        }
        match highest_to(self.top, word - 1) {
            Some(next) => {
                let place = 64 * next + highest_of(self.words[next as usize]);
                if place >= first { Some(place) } else { None }
            }
            None => None,
        }
    }

    /// 1 for a place that has rows, and 0 for another.
    fn flag(&self, place: u32) -> u32
        requires { place < length self.now }
        ensures value { result ≡ slice_index self.now place }
        ensures fits { result ≤ 1 }
    {
        bit(self.words[(place / 64) as usize], place % 64)
    }

    /// Writes the flag of a place.
    fn write(&mut self, place: u32, flag: u32)
        requires place { place < length self.old }
        requires fits { flag ≤ 1 }
        ensures { self.new ≡ slice_set self.old place flag }
    {
        if self.flag(place) != flag {
            self.turn(place);
        }
    }

    /// Turns the flag of a place.
    #[cold]
    #[inline(never)]
    fn turn(&mut self, place: u32)
        requires { place < length self.old }
        ensures { self.new ≡ slice_set self.old place (1 - slice_index self.old place) }
    {
        let word = place / 64;
        let bits = turned(self.words[word as usize], place % 64);
        self.words[word as usize] = bits;
        self.top = with_bit(self.top, word, bits.min(1) as u32);
    }
}

/// The word with one of its bits written.
fn with_bit(word: u64, i: u32, bit_i: u32) -> u64
    requires place { i < 64 }
    requires fits { bit_i ≤ 1 }
    ensures here { bit_at result i ≡ bit_i }
    ensures others { (j : ℕ) → j ≢ i → bit_at result j ≡ bit_at word j }
{
    if bit(word, i) == bit_i {
        word
    } else {
        turned(word, i)
    }
}
