// Whether a transaction may own the pages that a run meets.
ghost use Rattle.std.specs.Prelude.{◌≡◌, ◌↔◌, ◌+◌, ◌^◌, ◌<◌, ◌≤◌, IsTrue, length};
ghost use Rattle.envy_memory.specs.Rooms.{LacksRoom, pages_within, unowned};

use crate::memory::Memory;
use envy_base::{Board, PAGE_WORDS};
use envy_engine::is_open;

impl<B: Board> Memory<B> {
    // How many pages more transactions may own.
    pub(crate) fn left(&self) -> u32
        ensures { length self.now.owned.pairs + result ≡ self.now.chart.shape.shadows }
    {
        self.invariant_holds();
        self.board.shape().shadows - self.owned.count()
    }

    // Whether a run of `n` words that an open slot is to put meets more unowned pages than may yet be owned. Pages are
    // looked at one by one only if they are more than that.
    pub(crate) fn lacks_room(&self, t: u8, a: u32, n: usize) -> bool
        ensures { IsTrue result ↔ LacksRoom t a n self.now }
    {
        self.invariant_holds();
        let pages = self.pages_within(a, n);
        let left = self.board.shape().shadows - self.owned.count();
        if pages <= left {
            return false;
        }
        if t >= 64 {
            return false;
        }
        if !self.powered() {
            return false;
        }
        match is_open(&self.board, t) {
            Ok(true) => self.unowned(a / PAGE_WORDS, pages) > left,
            _ => false,
        }
    }

    // How many of the array's pages a run meets.
    fn pages_within(&self, a: u32, n: usize) -> u32
        ensures { result ≡ pages_within a n self.now.chart.shape.pages }
    {
        self.invariant_holds();
        let pages = self.board.shape().pages;
        let words = (PAGE_WORDS * pages).saturating_sub(a);
        let within = n.min(words as usize) as u32;
        if within == 0 {
            return 0;
        }
        (a + (within - 1)) / PAGE_WORDS + 1 - a / PAGE_WORDS
    }

    // How many of so many pages, from one upward, no slot owns.
    fn unowned(&self, first: u32, pages: u32) -> u32
        requires { first + pages ≤ 2 ^ 32 }
        ensures { result ≡ unowned pages first self.now.owned }
    {
        let mut free = 0;
        for i in 0..pages {
            if self.owned.owner(first + i).is_none() {
                free += 1;
            }
        }
        free
    }
}
