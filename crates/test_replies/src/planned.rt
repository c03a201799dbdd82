//! A board that counts its reads, and on which a failure is planned before it is handed out.

ghost use Rattle.std.specs.Prelude.{◌≡◌, IfOk, None};
ghost use Rattle.envy_base.specs.Shape.{IsShape};
ghost use Rattle.envy_base.specs.State.{IsMade};
ghost use Rattle.envy_bench.specs.Board.{board_state};
ghost use Rattle.test_replies.specs.Planned.{with_plans};

use envy_base::{Bench, Board, Maker, NoMemory, Off, PlannedFault, Shape, Trouble, more};
use envy_bench::{MemBoard, MemMaker};
use std::alloc::Global;
use std::cell::Cell;

/// A failure that is planned while the board is made.
#[derive(Clone, Copy)]
pub enum Plan {
    /// Nothing fails.
    Nothing,
    /// Power is cut in the operation of the device with this number, from 1. What it leaves is drawn from the second
    /// number.
    Cut(u32, u64),
    /// The operation of flash with this number, from 1, is bad.
    Bad(u32, u64),
}

/// A board in memory that counts how often it is read, and its own plans, so none of those that its maker made. It
/// keeps the numbers of the last cut that it was asked to plan.
#[derive(Drop)]
pub struct PlannedBoard {
    pub inner: MemBoard,
    pub last_cut: (u32, u64),
    plans: u64,
    last_plan: Option<PlannedFault>,
    reads: Cell<u64>,
}

impl PlannedBoard {
    /// How often a word of flash or of SRAM was read.
    pub fn reads(&self) -> u64 {
        self.reads.get()
    }

    fn count_read(&self) {
        self.reads.set(self.reads.get().saturating_add(1));
    }
}

impl Board for PlannedBoard {
    ghost state = { λ b. with_plans b.plans b.last_plan (board_state b.inner) };

    ghost lawful = { λ b. let law = b.inner.sound in
        record { shape = law.shape; sram = law.sram; rows = law.rows; pages = law.pages; words = law.words; erases = law.erases } };

    fn shape(&self) -> Shape {
        self.inner.shape()
    }

    fn powered(&self) -> bool {
        self.inner.powered()
    }

    fn read(&self, row: u32, i: u32) -> Result<u64, Off> {
        self.count_read();
        self.inner.read(row, i)
    }

    fn get(&self, w: u32) -> Result<u64, Off> {
        self.count_read();
        self.inner.get(w)
    }

    fn program(&mut self, row: u32, page: &[u64; 32]) -> Result<(), Trouble> {
        self.inner.program(row, page)
    }

    fn erase(&mut self, segment: u32) -> Result<(), Trouble> {
        self.inner.erase(segment)
    }

    fn put(&mut self, w: u32, v: u64) -> Result<(), Off> {
        self.inner.put(w, v)
    }
}

impl Bench for PlannedBoard {
    fn arm_cut(&mut self, k: u32, g: u64) {
        self.inner.arm_cut(k, g);
        self.last_cut = (k, g);
        self.plans = more(self.plans);
        self.last_plan = Some(PlannedFault::Cut { k, g });
    }

    fn arm_bad(&mut self, k: u32, g: u64) {
        self.inner.arm_bad(k, g);
        self.plans = more(self.plans);
        self.last_plan = Some(PlannedFault::Bad { k, g });
    }

    fn cut_now(&mut self) {
        self.inner.cut_now();
    }

    fn power_on(&mut self) -> bool {
        self.inner.power_on()
    }

    fn lives(&self) -> u32 {
        self.inner.lives()
    }
}

/// Plans the failure.
fn arm(board: &mut MemBoard, plan: Plan)
    ensures { with_plans 0 None (board_state board.new) ≡ with_plans 0 None (board_state board.old) }
{
    match plan {
        Plan::Nothing => {}
        Plan::Cut(k, g) => board.arm_cut(k.max(1), g),
        Plan::Bad(k, g) => board.arm_bad(k.max(1), g),
    }
}

/// Makes boards on which failures are planned: that of the first board, and that of each later one.
#[derive(Drop)]
pub struct PlannedMaker {
    next: Plan,
    later: Plan,
}

impl PlannedMaker {
    pub fn new(plans: [Plan; 2]) -> PlannedMaker {
        let [next, later] = plans;
        PlannedMaker { next, later }
    }
}

impl Maker for PlannedMaker {
    type Made = PlannedBoard;

    fn make(&mut self, alloc: Global, shape: &Shape, lives: u32) -> Result<PlannedBoard, NoMemory> {
        let mut inner = MemMaker::new().make(alloc, shape, lives)?;
        arm(&mut inner, self.next);
        self.next = self.later;
        Ok(PlannedBoard {
            inner,
            last_cut: (0, 0),
            plans: 0,
            last_plan: None,
            reads: Cell::new(0),
        })
    }
}
