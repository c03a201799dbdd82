ghost use Rattle.std.specs.Prelude.{◌≡◌, ◌<◌, ◌≤◌, length};
ghost use Rattle.envy_io.specs.Streams.{Feed, Fills};

use crate::plan::Plan;
use std::marker::Model;

/// A read or a write failed.
#[derive(Clone, Copy, Debug, PartialEq, Eq)]
pub struct Failed;

/// Where bytes come from.
pub trait Source {
    /// The bytes left, where they are told, and how often the source failed.
    ghost feed: { Self → Feed };

    /// Puts the next bytes at the slice's front, and answers how many. 0 is the end of the input.
    /// What stands behind them in the slice is left open.
    ///
    /// # Errors
    ///
    /// `Failed` where the source failed, which it counts. The bytes left stay.
    fn fill(&mut self, into: &mut [u8]) -> Result<usize, Failed>
        requires { 0 < length into.old }
        ensures { Fills (feed self.old) into.new result (feed self.new) };

    /// The same, where no byte behind those that are given is wanted yet: a source that stands over another asks it
    /// for no more than the slice has room for.
    ///
    /// # Errors
    ///
    /// Those of `fill`.
    fn fill_only(&mut self, into: &mut [u8]) -> Result<usize, Failed>
        requires { 0 < length into.old }
        ensures { Fills (feed self.old) into.new result (feed self.new) }
    {
        self.fill(into)
    }
}

/// A source in memory. It gives its bytes in pieces, and fails at the calls that it was told.
#[derive(Drop)]
pub struct MemSource {
    bytes: Vec<u8>,
    start: usize,
    piece: usize,
    plan: Plan,
}

impl Model for MemSource {
    ghost use Rattle.std.specs.Prelude.{◌≤◌, drop, vec_len};
    ghost use Rattle.envy_io.specs.InMemory.{MemFeed};

    ghost Value = { MemFeed };

    ghost view = { λ s. record {
      left = drop s.start s.bytes.items;
      piece = s.piece;
      fails = s.plan.fails.items;
      calls = s.plan.calls;
      faults = s.plan.faults;
    } };

    ghost invariant = { λ s. (s.start ≤ vec_len s.bytes) × (1 ≤ s.piece) };
}

impl MemSource {
    /// A source of these bytes. A call gives at most `piece` of them. `fails` holds the numbers of the
    /// calls that fail, where the first call is number 1.
    pub fn new(bytes: Vec<u8>, piece: usize, fails: Vec<u64>) -> MemSource
        requires { 1 ≤ piece }
        ensures { result ≡ record {
          left = bytes.items;
          piece = piece;
          fails = fails.items;
          calls = 0;
          faults = 0;
        } }
    {
        MemSource {
            bytes,
            start: 0,
            piece,
            plan: Plan::new(fails),
        }
    }
}

impl Source for MemSource {
    ghost use Rattle.std.specs.Prelude.{◌<◌, length};
    ghost use Rattle.envy_io.specs.Streams.{Fills};
    ghost use Rattle.envy_io.specs.InMemory.{feed_of, FillsFrom};

    ghost feed = { feed_of };

    fn fill(&mut self, into: &mut [u8]) -> Result<usize, Failed>
        requires { 0 < length into.old }
        ensures fills { Fills (feed_of self.old) into.new result (feed_of self.new) }
        ensures exact { FillsFrom self.old into.old result self.new into.new }
    {
        self.plan.call()?;
        let left = &self.bytes[self.start..];
        let count = left.len().min(into.len()).min(self.piece);
        into[..count].copy_from_slice(&left[..count]);
        self.start += count;
        Ok(count)
    }
}
