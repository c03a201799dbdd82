ghost use Rattle.std.specs.Prelude.{◌≡◌, IfOk};
ghost use Rattle.envy_base.specs.Shape.{IsShape};
ghost use Rattle.envy_base.specs.State.{IsMade};
ghost use Rattle.envy_bench.specs.Power.{fresh};
ghost use Rattle.envy_bench.specs.Board.{board_state, board_power};
ghost use Rattle.envy_bench.specs.Parts.{new_state};

use crate::MemBoard;
use envy_base::{Maker, NoMemory, Shape};
use std::alloc::Global;

/// Makes boards in memory.
#[derive(Clone, Copy, Debug, Default)]
pub struct MemMaker;

impl MemMaker {
    pub fn new() -> MemMaker {
        MemMaker
    }
}

impl Maker for MemMaker {
    type Made = MemBoard;

    fn make(&mut self, alloc: Global, shape: &Shape, lives: u32) -> Result<MemBoard, NoMemory>
        requires { IsShape shape.now }
        ensures made { IfOk result (λ board. IsMade shape.now lives (board_state board)) }
        ensures state { IfOk result (λ board. board_state board ≡ new_state shape.now lives) }
        ensures power { IfOk result (λ board. board_power board ≡ fresh lives) }
    {
        MemBoard::new(alloc, shape, lives)
    }
}
