ghost use Rattle.std.specs.Prelude.{◌≡◌, ◌<◌, ℕ, List, Option, length, slice_set};
ghost use Rattle.envy_base.specs.State.{Puts, with_word};
ghost use Rattle.envy_region.specs.Fences.{AddsFence};
ghost use Rattle.envy_region.specs.Region.{region_state};

use crate::BorrowedBoard;
use envy_base::{Board, Off, Page, Shape, Trouble};

/// What orders stores to memory, on a processor that doesn't keep their order.
pub trait Fence {
    /// The words after which a barrier was ordered, the first of them first, where the fence keeps them.
    ghost words: { Self → Option (List ℕ) };

    /// Orders that what was stored so far, this word last, is there before what is stored later.
    fn fence(&mut self, word: &u64)
        ensures { AddsFence word.now (words self.old) (words self.new) };
}

/// A board over memory of its caller's, each put of which ends with a barrier: for memory that outlives power, under a
/// processor that doesn't keep the order of stores, as 64-bit ARM.
#[derive(Drop)]
pub struct OrderedBoard<'a, F: Fence> {
    /// The board without barriers.
    pub board: BorrowedBoard<'a>,
    /// What orders stores.
    pub fence: F,
}

/// One store of 64 bits, and the barrier after it.
pub fn put_word<F: Fence>(fence: &mut F, sram: &mut [u64], w: usize, v: u64)
    requires { w < length sram.old }
    ensures stored { sram.new ≡ slice_set sram.old w v }
    ensures ordered { AddsFence v (F.words fence.old) (F.words fence.new) }
{
    sram[w] = v;
    fence.fence(&sram[w]);
}

// The same of a board's SRAM.
fn put_in<F: Fence>(fence: &mut F, board: &mut BorrowedBoard, w: usize, v: u64)
    requires { w < length board.old.sram.now }
    ensures stored { region_state board.new.shape board.new.flash.now board.new.sram.now board.new.erases.now board.new.begun
        ≡ with_word (region_state board.old.shape board.old.flash.now board.old.sram.now board.old.erases.now board.old.begun) w v }
    ensures ordered { AddsFence v (F.words fence.old) (F.words fence.new) }
{
    let sram = &mut *board.sram;
    put_word(fence, sram, w, v);
}

impl<'a, F: Fence> Board for OrderedBoard<'a, F> {
    ghost state = { λ b. region_state b.board.shape b.board.flash.now b.board.sram.now b.board.erases.now b.board.begun };

    ghost lawful = { λ b. b.board.sound };

    fn shape(&self) -> Shape {
        self.board.shape
    }

    fn powered(&self) -> bool {
        true
    }

    fn read(&self, row: u32, i: u32) -> Result<u64, Off> {
        self.board.read(row, i)
    }

    fn get(&self, w: u32) -> Result<u64, Off> {
        self.board.get(w)
    }

    fn program(&mut self, row: u32, page: &Page) -> Result<(), Trouble> {
        self.board.program(row, page)
    }

    fn erase(&mut self, segment: u32) -> Result<(), Trouble> {
        self.board.erase(segment)
    }

    fn put(&mut self, w: u32, v: u64) -> Result<(), Off>
        requires { w < length (⟦<OrderedBoard<'a, F> as Board>⟧.state self.old).sram }
        ensures does { Puts (⟦<OrderedBoard<'a, F> as Board>⟧.state self.old) w v result
            (⟦<OrderedBoard<'a, F> as Board>⟧.state self.new) }
        ensures ordered { AddsFence v (F.words self.old.fence) (F.words self.new.fence) }
    {
        put_in(&mut self.fence, &mut self.board, w as usize, v);
        Ok(())
    }
}
