//! A board that sees whether its rows are programmed as flash with error-correcting words asks for, and counts its reads.

ghost use Rattle.std.specs.Prelude.{◌≡◌, ◌<◌, IfOk, length};
ghost use Rattle.envy_base.specs.Shape.{IsShape};
ghost use Rattle.envy_bench.specs.Board.{board_state};
ghost use Rattle.envy_bench.specs.Parts.{new_state};

use crate::session::new_board;
use crate::setups::COMMON;
use crate::told::same_at;
use envy_base::{Bench, Board, NoMemory, Off, Shape, Trouble};
use envy_bench::MemBoard;
use std::alloc::Global;
use std::cell::Cell;
use std::process::Abort;

/// A program that broke a rule.
#[derive(Clone, Copy, Debug, PartialEq, Eq)]
pub(crate) enum Breach {
    /// The row wasn't all ones.
    Written(u32),
    /// A row that is as high or higher was programmed since the segment's last erase.
    OutOfOrder(u32),
}

/// A board in memory whose rows are to be programmed once between erases, in rising order within a segment, and only
/// where they are all ones. It makes each operation as it is asked to, and keeps the first program that broke this. It
/// counts how often a memory reads a word of its flash or of its SRAM.
#[derive(Drop)]
pub(crate) struct OrderedBoard {
    inner: MemBoard,
    /// Of each segment, the rows up to the last one that was programmed since its erase.
    used: Vec<u32>,
    breach: Option<Breach>,
    reads: Cell<u64>,
}

impl OrderedBoard {
    /// A new board, whose power can return `lives` times.
    pub(crate) fn new(alloc: Global, shape: &Shape, lives: u32) -> Result<OrderedBoard, NoMemory>
        requires { IsShape shape.now }
        ensures { IfOk result (λ board. board_state board.inner ≡ new_state shape.now lives) }
    {
        let mut used = Vec::with_capacity(alloc, shape.segments as usize)?;
        used.resize(shape.segments as usize, 0)?;
        Ok(OrderedBoard {
            inner: MemBoard::new(alloc, shape, lives)?,
            used,
            breach: None,
            reads: Cell::new(0),
        })
    }

    /// The first program that broke a rule.
    pub(crate) fn breach(&self) -> Option<Breach> {
        self.breach
    }

    /// How often it was read since the last such question.
    pub(crate) fn take_reads(&self) -> u64 {
        self.reads.replace(0)
    }

    fn count_read(&self) {
        self.reads.set(self.reads.get().saturating_add(1));
    }

    /// Whether a row is all ones.
    fn is_blank(&self, row: u32) -> bool
        requires { row < length (board_state self.now.inner).flash }
    {
        for i in 0..32u32 {
            if self.inner.read(row, i) != Ok(u64::MAX) {
                return false;
            }
        }
        true
    }

    /// Takes note of a program that is about to begin.
    fn note(&mut self, row: u32)
        requires { row < length (board_state self.old.inner).flash }
        ensures { self.new.inner ≡ self.old.inner }
    {
        let is_blank = self.is_blank(row);
        let rows = self.inner.shape().rows.max(1);
        let Some(used) = self.used.get_mut((row / rows) as usize) else {
            return;
        };
        let found = if row % rows < *used {
            Some(Breach::OutOfOrder(row))
        } else if !is_blank {
            Some(Breach::Written(row))
        } else {
            None
        };
        *used = row % rows + 1;
        self.breach = self.breach.or(found);
    }
}

impl Board for OrderedBoard {
    ghost state = { λ b. board_state b.inner };

    ghost lawful = { λ b. b.inner.sound };

    fn shape(&self) -> Shape {
        self.inner.shape()
    }

    fn powered(&self) -> bool {
        self.inner.powered()
    }

    fn read(&self, row: u32, i: u32) -> Result<u64, Off> {
        self.count_read();
        self.inner.read(row, i)
    }

    fn get(&self, w: u32) -> Result<u64, Off> {
        self.count_read();
        self.inner.get(w)
    }

    fn program(&mut self, row: u32, page: &[u64; 32]) -> Result<(), Trouble> {
        if self.inner.powered() {
            self.note(row);
        }
        self.inner.program(row, page)
    }

    fn erase(&mut self, segment: u32) -> Result<(), Trouble> {
        let answer = self.inner.erase(segment);
        if answer.is_ok()
            && let Some(used) = self.used.get_mut(segment as usize)
        {
            *used = 0;
        }
        answer
    }

    fn put(&mut self, w: u32, v: u64) -> Result<(), Off> {
        self.inner.put(w, v)
    }
}

impl Bench for OrderedBoard {
    fn arm_cut(&mut self, k: u32, g: u64) {
        self.inner.arm_cut(k, g);
    }

    fn arm_bad(&mut self, k: u32, g: u64) {
        self.inner.arm_bad(k, g);
    }

    fn cut_now(&mut self) {
        self.inner.cut_now();
    }

    fn power_on(&mut self) -> bool {
        self.inner.power_on()
    }

    fn lives(&self) -> u32 {
        self.inner.lives()
    }
}

/// Rows that are programmed in turn, and the first program among them that breaks a rule.
const PROGRAMS: [([u32; 3], Option<Breach>); 3] = [
    ([0, 1, 3], None),
    ([0, 2, 2], Some(Breach::OutOfOrder(2))),
    ([0, 2, 1], Some(Breach::OutOfOrder(1))),
];

/// Programs a row, if the board has it.
fn programmed(board: &mut OrderedBoard, row: u32) -> Option<Result<(), Trouble>> {
    let shape = board.shape();
    if row >= shape.segments * shape.rows {
        return None;
    }
    Some(board.program(row, &[u64::MAX - 1; 32]))
}

/// Programs rows, which the board does.
fn program_all(rt: &impl Abort, board: &mut OrderedBoard, rows: [u32; 3]) {
    for i in 0..3 {
        let row = rows[i];
        same_at(
            rt,
            &programmed(board, row),
            &Some(Ok(())),
            "program of row",
            row as u64,
        );
    }
}

/// Programs rows of a new board, and erases them: the breach is told from then on. The last row tells them apart.
fn check_programs(rt: &impl Abort, alloc: Global, rows: [u32; 3], breach: Option<Breach>) {
    let mut board = new_board(rt, alloc, &COMMON, 0);
    program_all(rt, &mut board, rows);
    let last = rows[2] as u64;
    same_at(rt, &board.breach(), &breach, "breach of row", last);
    same_at(rt, &board.erase(0), &Ok(()), "erase behind row", last);
    same_at(
        rt,
        &board.breach(),
        &breach,
        "breach behind the erase of row",
        last,
    );
}

#[test]
fn programs_that_break_a_rule_are_seen(rt: HostRuntime) {
    for (rows, breach) in PROGRAMS.as_slice() {
        check_programs(&rt, rt.alloc(), *rows, *breach);
    }
}
