ghost use Rattle.std.specs.Prelude.{◌≡◌, ◌==◌, ◌↔◌, ◌≤◌, ◌+◌, ℕ, List, [], ◌++◌, length, drop, false, IsTrue, IfOk, OnErr, OnOk};
ghost use Rattle.std.specs.List.{position};
ghost use Rattle.arrayvec.specs.ArrayVec.{array_vec_len};
ghost use Rattle.envy_io.specs.Lines.{newline};
ghost use Rattle.envy_io.specs.Streams.{Feed, Rises};
ghost use Rattle.envy_io.specs.Asking.{BeginsWith};

use crate::{Failed, Source};
use arrayvec::ArrayVec;
use memchr::memchr;
use std::marker::Model;

mod read_outcome;

pub use read_outcome::ReadOutcome;

/// The most bytes that a line has before its newline.
const LINE: usize = 120;

/// How many bytes the source is asked for at once.
const PIECE: usize = 128;

/// How many bytes are held at most: less than a line, and a piece behind it.
const HELD: usize = LINE + PIECE;

/// What `next_line` answers.
#[derive(Clone, Copy, Debug, PartialEq, Eq)]
pub enum Next {
    /// There is a next line.
    Line,
    /// The source's end was met, and every line was given.
    End,
    /// The next line has more than 120 bytes.
    Long,
    /// The source failed. The bytes taken stay, and the next call goes on from them.
    Failed,
    /// As many bytes were taken as may be, and no whole line is left among them.
    Spent,
}

// What the bytes held begin with.
#[derive(Clone, Copy)]
enum Front {
    // A whole line of this many bytes, and its newline.
    Line(usize),
    // A line of more than 120 bytes.
    Long,
    // Less than a line.
    Open,
}

// Where the first newline stands.
#[inline(always)]
fn newline_in(bytes: &[u8]) -> Option<usize>
    ensures { result ≡ position (λ b. b == newline) bytes.now }
{
    memchr(b'\n', bytes)
}

// What the bytes begin with.
#[inline(always)]
fn front_of(held: &[u8]) -> Front
    ensures { BeginsWith held.now result }
{
    let within = &held[..held.len().min(LINE + 1)];
    match newline_in(within) {
        Some(length) => Front::Line(length),
        None if within.len() <= LINE => Front::Open,
        None => Front::Long,
    }
}

// Drops the first bytes.
fn drop_front<const N: usize>(bytes: &mut ArrayVec<u8, N>, count: usize)
    requires { count ≤ array_vec_len bytes.old }
    ensures { bytes.new.items ≡ drop count bytes.old.items }
{
    let kept = bytes.len() - count;
    bytes.as_mut_slice().copy_within(count.., 0);
    bytes.truncate(kept);
}

// Puts bytes at the end. There must be room.
#[inline(always)]
fn append<const N: usize>(bytes: &mut ArrayVec<u8, N>, more: &[u8])
    requires { array_vec_len bytes.old + length more.now ≤ N }
    ensures { bytes.new.items ≡ bytes.old.items ++ more.now }
{
    if bytes.try_extend_from_slice(more).is_err() {
        unreachable!();
    }
}

/// The lines of a source, one at a time. The source is asked only where no whole line is held, for at
/// most `cap` bytes in all, and not again once its end was met.
#[derive(Drop)]
pub struct Lines {
    cap: u64,
    taken: u64,
    ended: bool,
    buffer: ArrayVec<u8, HELD>,
    // How many bytes of the buffer were given in lines.
    given: usize,
}

impl Model for Lines {
    ghost use Rattle.std.specs.Prelude.{◌<◌, ◌≤◌, drop, IsTrue};
    ghost use Rattle.arrayvec.specs.ArrayVec.{array_vec_len};
    ghost use Rattle.envy_io.specs.Taking.{Taking};

    ghost Value = { Taking };

    ghost view = { λ l. record {
      cap = l.cap;
      taken = l.taken;
      held = drop l.given l.buffer.items;
      ended = l.ended;
    } };

    ghost invariant = { λ l. (l.given ≤ array_vec_len l.buffer) × (array_vec_len l.buffer ≤ 248)
        × (l.taken ≤ l.cap) × (IsTrue l.ended → l.taken < l.cap) };
}

impl Lines {
    ghost use Rattle.envy_io.specs.Taking.{Taking, Wants, Answers, NextLine};
    ghost use Rattle.envy_io.specs.Asking.{Asks, Gathers};

    /// The lines of a source, of which at most `cap` bytes are taken.
    pub fn new(cap: u64) -> Lines
        requires { 1 ≤ cap }
        ensures { result ≡ record { cap = cap; taken = 0; held = []; ended = false } }
    {
        Lines {
            cap,
            taken: 0,
            ended: false,
            buffer: ArrayVec::new(),
            given: 0,
        }
    }

    /// How many bytes were taken from the source.
    pub fn taken(&self) -> u64
        ensures { result ≡ self.now.taken }
    {
        self.taken
    }

    // The bytes taken that no line has given yet.
    fn held(&self) -> &[u8]
        ensures { result.now ≡ self.now.held }
    {
        &self.buffer[self.given..]
    }

    // Whether the source is to be asked, where the bytes held begin so.
    #[inline(always)]
    fn wants(&self, front: Front) -> bool
        requires { BeginsWith self.now.held front }
        ensures { IsTrue result ↔ Wants self.now }
    {
        !self.ended && self.taken < self.cap && matches!(front, Front::Open)
    }

    // Asks the source once.
    fn ask<S: Source>(&mut self, source: &mut S) -> Result<(), Failed>
        requires { Wants self.old }
        ensures ok { OnOk result ((piece : List ℕ)
            × Asks self.old (S.feed source.old) piece self.new (S.feed source.new)) }
        ensures kept { OnErr result (self.new ≡ self.old) }
        ensures left { OnErr result ((S.feed source.new).left ≡ (S.feed source.old).left) }
        ensures failed { OnErr result (Rises (S.feed source.old).faults (S.feed source.new).faults) }
    {
        let mut piece = [0; PIECE];
        let room = (self.cap - self.taken).min(PIECE as u64) as usize;
        let count = source.fill(&mut piece[..room])?;
        drop_front(&mut self.buffer, self.given);
        self.given = 0;
        append(&mut self.buffer, &piece[..count]);
        self.taken += count as u64;
        self.ended = count == 0;
        Ok(())
    }

    // Asks the source for as long as it is to be asked, and answers what the bytes held begin with.
    fn gather<S: Source>(&mut self, source: &mut S) -> Result<Front, Failed>
        ensures gathers { Gathers self.old (S.feed source.old) self.new (S.feed source.new) }
        ensures ok { OnOk result (¬ Wants self.new) }
        ensures front { IfOk result (λ front. BeginsWith self.new.held front) }
        ensures err { OnErr result (Wants self.new) }
        ensures failed { OnErr result (Rises (S.feed source.old).faults (S.feed source.new).faults) }
        ensures unasked { ¬ Wants self.old → (self.new ≡ self.old) × (source.new ≡ source.old) }
    {
        // The loop keeps what holds of the fields, so they are looked at first.
        let _ = &self.cap;
        let mut front = front_of(self.held());
        'asking: while self.wants(front) {
            self.ask(source)?;
            front = front_of(self.held());
        }
        Ok(front)
    }

    // Gives the next line of the bytes held, where the source isn't to be asked.
    #[inline(always)]
    fn give(&mut self, front: Front, line: &mut ArrayVec<u8, 120>) -> Next
        requires begins { BeginsWith self.old.held front }
        requires done { ¬ Wants self.old }
        requires empty { line.old.items ≡ [] }
        ensures same { self.new ≡ record self.old { held = self.new.held } }
        ensures answers { (from to : Feed) → Answers result self.old.held line.new.items self.new from to }
    {
        match front {
            Front::Line(length) => {
                append(line, &self.held()[..length]);
                self.given += length + 1;
                Next::Line
            }
            Front::Long => Next::Long,
            Front::Open if !self.ended => Next::Spent,
            Front::Open if self.held().is_empty() => Next::End,
            Front::Open => {
                append(line, self.held());
                self.given = self.buffer.len();
                Next::Line
            }
        }
    }

    /// Puts the next line of the source into `line`, without its newline. `line` is empty after every
    /// answer but `Line`.
    pub fn next_line<S: Source>(&mut self, source: &mut S, line: &mut ArrayVec<u8, 120>) -> Next
        ensures next { NextLine self.old (S.feed source.old) result line.new.items
            self.new (S.feed source.new) }
        ensures unasked { ¬ Wants self.old → source.new ≡ source.old }
    {
        line.clear();
        match self.gather(source) {
            Ok(front) => self.give(front, line),
            Err(Failed) => Next::Failed,
        }
    }
}
