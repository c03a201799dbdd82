ghost use Rattle.std.specs.Prelude.{◌≡◌, IfOk};
ghost use Rattle.std.proofs.Props.{props};
ghost use Rattle.envy_base.specs.Shape.{IsShape};
ghost use Rattle.envy_bench.specs.Board.{board_state, board_power};
ghost use Rattle.envy_bench.specs.Calm.{IsCalm};
ghost use Rattle.envy_bench.specs.Parts.{new_state};

use crate::MemBoard;
use envy_base::{Bench, Board, Maker, NoMemory, Off, Page, PlannedFault, Shape, Trouble};
use std::alloc::Global;

/// A board in memory. Until a failure is planned, or power is cut by hand, nothing of it fails.
#[derive(Drop)]
pub struct CalmBoard {
    board: MemBoard,
    ghost calm: { IsCalm (board_state board) (board_power board) } by { Prim.hlevel props },
}

impl CalmBoard {
    ghost use Rattle.envy_bench.specs.CalmState.{calm_state};

    /// A new board of the shape, whose power can return `lives` times.
    pub fn new(alloc: Global, shape: &Shape, lives: u32) -> Result<CalmBoard, NoMemory>
        requires { IsShape shape.now }
        ensures { IfOk result (λ board. calm_state board ≡ new_state shape.now lives) }
    {
        let board = MemBoard::new(alloc, shape, lives)?;
        Ok(CalmBoard { board })
    }
}

impl Board for CalmBoard {
    ghost use Rattle.envy_bench.specs.CalmState.{calm_state};

    ghost state = { calm_state };

    ghost lawful = { λ b. b.board.sound };

    fn shape(&self) -> Shape {
        self.board.shape()
    }

    fn powered(&self) -> bool {
        self.board.powered()
    }

    fn read(&self, row: u32, i: u32) -> Result<u64, Off> {
        self.board.read(row, i)
    }

    fn get(&self, w: u32) -> Result<u64, Off> {
        self.board.get(w)
    }

    fn program(&mut self, row: u32, page: &Page) -> Result<(), Trouble> {
        self.board.program(row, page)
    }

    fn erase(&mut self, segment: u32) -> Result<(), Trouble> {
        self.board.erase(segment)
    }

    fn put(&mut self, w: u32, v: u64) -> Result<(), Off> {
        self.board.put(w, v)
    }
}

impl Bench for CalmBoard {
    ghost use Rattle.std.specs.Prelude.{◌≤◌};
    ghost use Rattle.envy_base.specs.State.{planned};
    ghost use Rattle.envy_bench.specs.Power.{with_cut, with_bad};
    ghost use Rattle.envy_bench.specs.CalmState.{calm_state};

    #[tactic(auto, unfolding(envy_base::specs::Counting::up))]
    fn arm_cut(&mut self, k: u32, g: u64)
        requires { 1 ≤ k }
        ensures state { calm_state self.new ≡ planned (PlannedFault.Cut k g) (calm_state self.old) }
        ensures power { board_power self.new.board ≡ with_cut k g (board_power self.old.board) }
    {
        self.board.arm_cut(k, g);
    }

    #[tactic(auto, unfolding(envy_base::specs::Counting::up))]
    fn arm_bad(&mut self, k: u32, g: u64)
        requires { 1 ≤ k }
        ensures state { calm_state self.new ≡ planned (PlannedFault.Bad k g) (calm_state self.old) }
        ensures power { board_power self.new.board ≡ with_bad k g (board_power self.old.board) }
    {
        self.board.arm_bad(k, g);
    }

    #[tactic(auto, unfolding(envy_base::specs::Counting::up))]
    fn cut_now(&mut self) {
        self.board.cut_now();
    }

    fn power_on(&mut self) -> bool {
        self.board.power_on()
    }

    fn lives(&self) -> u32 {
        self.board.lives()
    }
}

/// Makes boards in memory of which nothing fails that wasn't planned.
#[derive(Clone, Copy, Debug, Default)]
pub struct CalmMaker;

impl CalmMaker {
    pub fn new() -> CalmMaker {
        CalmMaker
    }
}

impl Maker for CalmMaker {
    ghost use Rattle.envy_base.specs.State.{IsMade};
    ghost use Rattle.envy_bench.specs.CalmState.{calm_state};

    type Made = CalmBoard;

    fn make(&mut self, alloc: Global, shape: &Shape, lives: u32) -> Result<CalmBoard, NoMemory>
        requires { IsShape shape.now }
        ensures made { IfOk result (λ board. IsMade shape.now lives (calm_state board)) }
        ensures state { IfOk result (λ board. calm_state board ≡ new_state shape.now lives) }
    {
        CalmBoard::new(alloc, shape, lives)
    }
}
