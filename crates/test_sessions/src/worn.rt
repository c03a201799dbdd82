//! A board of which some segments are worn out, so that each erase of them is bad.

ghost use Rattle.std.specs.Prelude.{◌≡◌, IfOk};
ghost use Rattle.envy_base.specs.Shape.{IsShape};
ghost use Rattle.envy_bench.specs.Board.{board_state};
ghost use Rattle.envy_bench.specs.Parts.{new_state};
ghost use Rattle.test_sessions.specs.Worn.{unplanned};

use envy_base::{Bench, Board, NoMemory, Off, Shape, Trouble};
use envy_bench::MemBoard;
use std::alloc::Global;

/// A board in memory. An erase of one of these segments is bad, however often it is tried.
#[derive(Drop)]
pub(crate) struct WornBoard {
    inner: MemBoard,
    worn: &'static [u32],
}

impl WornBoard {
    /// A new board with these worn segments.
    pub(crate) fn new(
        alloc: Global,
        shape: &Shape,
        worn: &'static [u32],
    ) -> Result<WornBoard, NoMemory>
        requires { IsShape shape.now }
        ensures { IfOk result (λ board. board_state board.inner ≡ new_state shape.now 0) }
    {
        Ok(WornBoard {
            inner: MemBoard::new(alloc, shape, 0)?,
            worn,
        })
    }

    /// Plans that the next operation is bad, if it is an erase of a worn segment.
    fn wear_out(&mut self, segment: u32)
        ensures { unplanned (board_state self.new.inner) ≡ unplanned (board_state self.old.inner) }
    {
        if self.worn.contains(&segment) {
            self.inner.arm_bad(1, segment as u64);
        }
    }
}

impl Board for WornBoard {
    ghost state = { λ b. unplanned (board_state b.inner) };

    ghost lawful = { λ b. let law = b.inner.sound in
        record { shape = law.shape; sram = law.sram; rows = law.rows; pages = law.pages; words = law.words; erases = law.erases } };

    fn shape(&self) -> Shape {
        self.inner.shape()
    }

    fn powered(&self) -> bool {
        self.inner.powered()
    }

    fn read(&self, row: u32, i: u32) -> Result<u64, Off> {
        self.inner.read(row, i)
    }

    fn get(&self, w: u32) -> Result<u64, Off> {
        self.inner.get(w)
    }

    fn program(&mut self, row: u32, page: &[u64; 32]) -> Result<(), Trouble> {
        self.inner.program(row, page)
    }

    fn erase(&mut self, segment: u32) -> Result<(), Trouble> {
        self.wear_out(segment);
        self.inner.erase(segment)
    }

    fn put(&mut self, w: u32, v: u64) -> Result<(), Off> {
        self.inner.put(w, v)
    }
}
