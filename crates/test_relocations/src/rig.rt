//! A board, and what a relocation works on beside it.

ghost use Rattle.std.specs.Prelude.{◌<◌, All};

use crate::boards::{
    SHAPE, assert_at_rest, assert_clear, assert_parted, assert_sound, lay, undo_all,
};
use arrayvec::ArrayVec;
use envy_base::{Bench, Board, Job, Off, Trouble};
use envy_bench::MemBoard;
use envy_map::job;
use envy_reloc::{Phase, Reloc};
use envy_space::Space;
use envy_table::Cache;
use std::alloc::Global;
use std::marker::Model;
use std::process::Abort;

/// A board, and the parts beside it that a relocation works on. Where none of them can be made, the test ends: a way out
/// by `?` would let go of each part, and cost every function that has it.
#[derive(Drop)]
pub(crate) struct Rig {
    pub(crate) board: MemBoard,
    pub(crate) space: Space,
    pub(crate) cache: Cache,
    pub(crate) reloc: Reloc,
}

impl Model for Rig {
    ghost use Rattle.std.specs.Prelude.{◌≡◌, IsTrue};
    ghost use Rattle.envy_map.specs.Fields.{Chart, chart};
    ghost use Rattle.envy_soundness.specs.Naming.{AreParted};
    ghost use Rattle.envy_soundness.specs.Sound.{IsSound};
    ghost use Rattle.envy_bench.specs.Board.{board_state};
    ghost use Rattle.envy_space.specs.Pool.{PoolAgrees};
    ghost use Rattle.envy_table.specs.Agreement.{AreCurrent};
    ghost use Rattle.envy_reloc.specs.Plan.{IsPlanOf};

    ghost Value = { Chart };

    ghost view = { λ a. chart (board_state a.board) };

    ghost invariant = { λ a. let c = chart (board_state a.board) in
        IsSound c × (a.space.shape ≡ c.shape)
        × (IsTrue c.on → PoolAgrees c.shape c.fields a.space)
        × (IsTrue c.on → AreCurrent c.shape.pages c.fields.places a.cache.entries)
        × (IsTrue c.on → IsPlanOf c.shape c.fields c.flash a.reloc)
        × (IsTrue c.on → AreParted c.fields.slots c.fields.undos c.fields.places) };
}

/// Four rows of segment 0.
fn rows_to_move() -> ArrayVec<u32, 4>
    ensures { All (λ q. q < 6) result.items }
{
    ArrayVec::from([1, 0, 2, 5])
}

impl Rig {
    /// Over a board that nothing is copied or switched on.
    fn over(rt: &impl Abort, alloc: Global, board: MemBoard) -> Rig {
        assert_sound(rt, alloc, &board);
        assert_parted(rt, &board).expect(rt, "no power");
        assert_at_rest(rt, &board).expect(rt, "no power");
        let shape = board.shape();
        let mut space = Space::new(alloc, &shape).expect(rt, "no room for a pool");
        space.rebuild(&board).expect(rt, "no power");
        let cache = Cache::new(alloc, shape.entries).expect(rt, "no room for a cache");
        Rig {
            board,
            space,
            cache,
            reloc: Reloc::new(),
        }
    }

    /// Over the board with rows of each kind.
    pub(crate) fn new(rt: &impl Abort, alloc: Global) -> Rig {
        SHAPE.check().expect(rt, "the shape");
        let mut board = MemBoard::new(alloc, &SHAPE, u32::MAX).expect(rt, "no room for a board");
        lay(rt, &mut board);
        Rig::over(rt, alloc, board)
    }

    /// Begins to relocate the segment at position 0. Rows 1, 0, 2 and 5 are to be moved to position 1 or 2.
    pub(crate) fn begin(&mut self, rt: &impl Abort) -> Result<(), Off> {
        assert!(rt; self.board.shape() == SHAPE && self.space.segment_at(0) == 0);
        let now = job(&self.board)?;
        assert!(rt; now == Job::Idle);
        let moves = rows_to_move();
        self.reloc
            .begin(&mut self.board, &self.space, 0, moves, Some((1, 2)))
    }

    /// Does a step of the job.
    pub(crate) fn work(&mut self, rt: &impl Abort) -> Result<Phase, Trouble> {
        let now = job(&self.board)?;
        assert!(rt; now != Job::Idle);
        self.reloc
            .step(&mut self.board, &mut self.space, &mut self.cache)
    }

    pub(crate) fn plan_cut(&mut self, rt: &impl Abort, k: u32, g: u64) {
        assert!(rt; k >= 1);
        self.board.arm_cut(k, g);
    }

    pub(crate) fn plan_bad(&mut self, rt: &impl Abort, k: u32, g: u64) {
        assert!(rt; k >= 1);
        self.board.arm_bad(k, g);
    }

    /// After a failure of power: power returns, and the transaction and the job are settled.
    pub(crate) fn restart(self, rt: &impl Abort, alloc: Global) -> Rig {
        let Rig {
            mut board,
            space: _space,
            cache: _cache,
            reloc: _reloc,
        } = self;
        assert!(rt; !board.powered());
        assert!(rt; board.power_on());
        undo_all(rt, &mut board).expect(rt, "no power");
        assert_sound(rt, alloc, &board);
        assert_clear(rt, &board).expect(rt, "no power");
        Reloc::settle(&mut board).expect(rt, "no power");
        Rig::over(rt, alloc, board)
    }
}
