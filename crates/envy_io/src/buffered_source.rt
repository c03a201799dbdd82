ghost use Rattle.std.specs.Prelude.{◌≡◌, IfOk, [], length};
ghost use Rattle.envy_io.specs.Asked.{Asks, MakesSome, Gives, fresh_asked};

use crate::buffered_sink::NoMemory;
use crate::{Failed, HELD, Source};
use std::alloc::Global;
use std::marker::Model;

/// A source that asks the one below it for 65,536 bytes at a time, and only where it holds none. By `fill_only` it asks
/// for as many as the slice has room for.
#[derive(Drop)]
pub struct BufferedSource<S: Source + Drop> {
    source: S,
    buffer: Vec<u8>,
    // The bytes held stand in the buffer from `start` on up to the one before `end`.
    start: usize,
    end: usize,
}

impl<S: Source + Drop> Model for BufferedSource<S> {
    ghost use Rattle.std.specs.Prelude.{◌-◌, drop, take, vec_len};
    ghost use Rattle.envy_io.specs.Asked.{Asked, IsAsked};

    ghost Value = { Asked };

    ghost view = { λ s. record {
      inner = S.feed s.source;
      held = take (s.end - s.start) (drop s.start s.buffer.items);
    } };

    ghost invariant = { λ s. IsAsked s.start s.end (vec_len s.buffer) };
}

impl<S: Source + Drop> BufferedSource<S> {
    /// A source over another, that holds nothing yet.
    ///
    /// # Errors
    ///
    /// `NoMemory` where the room for the bytes can't be had.
    pub fn new(alloc: Global, source: S) -> Result<BufferedSource<S>, NoMemory>
        ensures { IfOk result (λ made. made ≡ fresh_asked (S.feed source)) }
    {
        Ok(BufferedSource {
            source,
            buffer: vec![in alloc; 0; HELD]?,
            start: 0,
            end: 0,
        })
    }

    // Asks the source below. Nothing is held before.
    fn ask(&mut self) -> Result<(), Failed>
        requires { self.old.held ≡ [] }
        ensures { Asks self.old result self.new }
    {
        self.start = 0;
        self.end = 0;
        self.end = self.source.fill(&mut self.buffer)?;
        Ok(())
    }

    // Asks the source below where nothing is held.
    fn make_some(&mut self) -> Result<(), Failed>
        ensures { MakesSome self.old result self.new }
    {
        if self.start == self.end {
            return self.ask();
        }
        Ok(())
    }

    // Puts a front of the bytes held at the slice's front, and answers its length.
    fn give(&mut self, into: &mut [u8]) -> usize
        ensures { Gives self.old into.old result self.new into.new }
    {
        let held = &self.buffer[self.start..self.end];
        let count = held.len().min(into.len());
        into[..count].copy_from_slice(&held[..count]);
        self.start += count;
        count
    }
}

impl<S: Source + Drop> Source for BufferedSource<S> {
    ghost use Rattle.std.specs.Prelude.{◌<◌, length};
    ghost use Rattle.envy_io.specs.Streams.{Fills};
    ghost use Rattle.envy_io.specs.Asked.{feed_of, ReadsNoFurther};

    ghost feed = { feed_of };

    fn fill(&mut self, into: &mut [u8]) -> Result<usize, Failed>
        requires { 0 < length into.old }
        ensures { Fills (feed_of self.old) into.new result (feed_of self.new) }
    {
        self.make_some()?;
        Ok(self.give(into))
    }

    fn fill_only(&mut self, into: &mut [u8]) -> Result<usize, Failed>
        requires { 0 < length into.old }
        ensures fills { Fills (feed_of self.old) into.new result (feed_of self.new) }
        ensures ahead { ReadsNoFurther self.old self.new }
    {
        if self.start < self.end {
            return Ok(self.give(into));
        }
        self.source.fill_only(into)
    }
}
