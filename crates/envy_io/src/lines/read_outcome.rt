ghost use Rattle.std.specs.Prelude.{◌≡◌, ◌⊎◌, ◌↔◌, ◌<◌, ◌≤◌, ◌+◌, ℕ, List, [], ◌++◌, length, take, drop, false, IsTrue, OnErr, OnOk, IfOk};
ghost use Rattle.arrayvec.specs.ArrayVec.{array_vec_len};
ghost use Rattle.envy_io.specs.Streams.{Rises};

use super::{Lines, drop_front};
use crate::{Failed, Source};

/// What `next_bytes` answers.
#[derive(Clone, Copy, Debug, PartialEq, Eq)]
pub enum ReadOutcome {
    /// The slice is filled with the next bytes.
    Whole,
    /// The source's end was met before the slice was full.
    Short,
    /// The source failed before the slice was full.
    Failed,
    /// As many bytes were taken as may be, and fewer came than the slice has room for.
    Spent,
}

impl Lines {
    ghost use Rattle.envy_io.specs.Fetching.{HasFront, Pulls, NextBytes, IsIdle, MayPull};

    // Moves bytes held to the slice's front, as many as it has room for.
    fn hand_over(&mut self, into: &mut [u8]) -> usize
        ensures { HasFront self.old into.new result self.new }
    {
        let count = self.held().len().min(into.len());
        into[..count].copy_from_slice(&self.held()[..count]);
        self.given += count;
        count
    }

    // Asks the source once for what is missing behind the first bytes of the slice.
    fn pull<S: Source>(
        &mut self,
        source: &mut S,
        into: &mut [u8],
        count: usize,
    ) -> Result<usize, Failed>
        requires may { MayPull self.old }
        requires missing { count < length into.old }
        ensures pulls { Pulls self.old (S.feed source.old) into.old count result into.new self.new (S.feed source.new) }
    {
        let room = (self.cap - self.taken).min((into.len() - count) as u64) as usize;
        let more = source.fill_only(&mut into[count..count + room])?;
        self.taken += more as u64;
        self.ended = more == 0;
        Ok(more)
    }

    /// Fills the slice with the next bytes. Those held come first, and the source is asked for no more than
    /// is missing then, which reads no further ahead. After every answer but `Whole` the bytes that came are used up, and the slice may
    /// hold anything.
    pub fn next_bytes<S: Source>(&mut self, source: &mut S, into: &mut [u8]) -> ReadOutcome
        requires { 0 < length into.old }
        ensures fetches { NextBytes self.old (S.feed source.old) result into.new self.new (S.feed source.new) }
        ensures nothing_over { self.old.held ≡ [] → self.new.held ≡ [] }
        ensures unasked { IsIdle self.old (length into.old) → source.new ≡ source.old }
    {
        let mut count = self.hand_over(into);
        while count < into.len() {
            if self.ended {
                return ReadOutcome::Short;
            }
            if self.taken == self.cap {
                return ReadOutcome::Spent;
            }
            match self.pull(source, into, count) {
                Ok(more) => count += more,
                Err(Failed) => return ReadOutcome::Failed,
            }
        }
        ReadOutcome::Whole
    }
}
