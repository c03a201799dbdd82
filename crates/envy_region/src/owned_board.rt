ghost use Rattle.std.specs.Prelude.{◌≡◌, ◌*◌, IfOk, replicate};
ghost use Rattle.std.proofs.Props.{props};
ghost use Rattle.envy_base.specs.Map.{words_of};
ghost use Rattle.envy_base.specs.Shape.{IsShape};
ghost use Rattle.envy_base.specs.State.{IsBoard, ones};
ghost use Rattle.envy_region.specs.Region.{region_state};

use envy_bank::Bank;
use envy_base::{Board, Off, Page, Shape, Trouble, more};
use envy_map::words;
use std::alloc::{AllocError, Global};

/// A board in memory of its own. Its power never fails, and no flash operation of it goes wrong.
#[derive(Drop)]
pub struct OwnedBoard {
    shape: Shape,
    flash: Bank,
    sram: Vec<u64>,
    begun: u64,
    ghost sound: { IsBoard (region_state shape flash.flash sram.items flash.erases begun) } by { Prim.hlevel props },
    ghost same_rows: { flash.rows ≡ shape.rows },
}

impl OwnedBoard {
    /// A board of these sizes, on which nothing was done yet: its flash is all ones, and its SRAM all zeros.
    ///
    /// # Errors
    ///
    /// `AllocError`: there is no memory for it.
    pub fn blank(alloc: Global, shape: &Shape) -> Result<OwnedBoard, AllocError>
        requires { IsShape shape.now }
        ensures shape { IfOk result (λ board. board.shape ≡ shape.now) }
        ensures flash { IfOk result (λ board.
            board.flash.flash ≡ replicate (shape.now.segments * shape.now.rows) ones) }
        ensures sram { IfOk result (λ board. board.sram.items ≡ replicate (words_of shape.now) 0) }
        ensures erases { IfOk result (λ board. board.flash.erases ≡ replicate shape.now.segments 0) }
        ensures begun { IfOk result (λ board. board.begun ≡ 0) }
    {
        Ok(OwnedBoard {
            shape: *shape,
            flash: Bank::new(alloc, shape.segments, shape.rows)?,
            sram: vec![in alloc; 0; words(shape) as usize]?,
            begun: 0,
        })
    }
}

impl Board for OwnedBoard {
    ghost state = { λ b. region_state b.shape b.flash.flash b.sram.items b.flash.erases b.begun };

    ghost lawful = { λ b. b.sound };

    fn shape(&self) -> Shape {
        self.shape
    }

    fn powered(&self) -> bool {
        true
    }

    fn read(&self, row: u32, i: u32) -> Result<u64, Off> {
        Ok(self.flash.read_word(row, i))
    }

    fn get(&self, w: u32) -> Result<u64, Off> {
        Ok(self.sram[w as usize])
    }

    fn program(&mut self, row: u32, page: &Page) -> Result<(), Trouble> {
        self.begun = more(self.begun);
        self.flash.program_row(row, page);
        Ok(())
    }

    fn erase(&mut self, segment: u32) -> Result<(), Trouble> {
        self.flash.erase_block(segment);
        Ok(())
    }

    fn put(&mut self, w: u32, v: u64) -> Result<(), Off> {
        self.sram[w as usize] = v;
        Ok(())
    }
}
