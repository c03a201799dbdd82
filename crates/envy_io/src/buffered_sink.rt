ghost use Rattle.std.specs.Prelude.{◌≡◌, ◌<◌, ◌≤◌, ◌++◌, IfOk, false, length, take};
ghost use Rattle.envy_io.specs.Holding.{Conserves, HandsOn, MakesRoom, FlushesThrough, fresh_holding};

use crate::{Failed, HELD, Sink};
use std::alloc::{AllocError, Global};
use std::marker::Model;

/// Want of memory.
pub type NoMemory = AllocError;

/// A sink that holds up to 65,536 bytes back from the one below it. What is held is handed on when that
/// many are held, by `hand_on`, and by `flush`. Once a write below failed nothing more is written, and
/// every call fails.
#[derive(Drop)]
pub struct BufferedSink<K: Sink + Drop> {
    sink: K,
    bytes: Vec<u8>,
    // How many of the bytes were written below.
    done: usize,
    failed: bool,
    faults: u64,
    flushed: bool,
}

impl<K: Sink + Drop> Model for BufferedSink<K> {
    ghost use Rattle.std.specs.Prelude.{◌≤◌, drop, vec_len, vec_capacity};
    ghost use Rattle.envy_io.specs.Holding.{Holding, IsHolding};

    ghost Value = { Holding };

    ghost view = { λ s. record {
      inner = K.drain s.sink;
      held = drop s.done s.bytes.items;
      failed = s.failed;
      faults = s.faults;
      flushed = s.flushed;
    } };

    ghost invariant = { λ s. IsHolding s.done s.failed (vec_len s.bytes) (vec_capacity s.bytes) };
}

// Writes what is left of the bytes behind the first `done`, and counts in `done` what was written.
fn write_rest<K: Sink>(sink: &mut K, bytes: &[u8], done: &mut usize) -> Result<(), Failed>
    requires { done.old ≤ length bytes.now }
    ensures { Conserves bytes.now done.old (K.drain sink.old) result done.new (K.drain sink.new) }
{
    while *done < bytes.len() {
        let count = sink.write_some(&bytes[*done..])?;
        *done += count;
    }
    Ok(())
}

impl<K: Sink + Drop> BufferedSink<K> {
    /// A sink over another, that holds nothing yet.
    ///
    /// # Errors
    ///
    /// `NoMemory` where the room for the bytes can't be had.
    pub fn new(alloc: Global, sink: K) -> Result<BufferedSink<K>, NoMemory>
        ensures { IfOk result (λ made. made ≡ fresh_holding (K.drain sink)) }
    {
        Ok(BufferedSink {
            sink,
            bytes: Vec::with_capacity(alloc, HELD)?,
            done: 0,
            failed: false,
            faults: 0,
            flushed: false,
        })
    }

    /// Hands on what is held to the sink below.
    ///
    /// # Errors
    ///
    /// `Failed` where a write below fails or failed before. It is counted by the next write or flush.
    pub fn hand_on(&mut self) -> Result<(), Failed>
        ensures { HandsOn self.old result self.new }
    {
        if self.failed {
            return Err(Failed);
        }
        if write_rest(&mut self.sink, &self.bytes, &mut self.done).is_err() {
            self.failed = true;
            return Err(Failed);
        }
        self.bytes.clear();
        self.done = 0;
        Ok(())
    }

    // Hands on what is held where no further byte may be held.
    #[inline(always)]
    fn make_room(&mut self) -> Result<(), Failed>
        ensures { MakesRoom self.old result self.new }
    {
        if self.failed {
            return Err(Failed);
        }
        if self.bytes.len() == HELD {
            return self.hand_on();
        }
        Ok(())
    }

    // Holds a front of the piece, as long as there is room for, and answers its length.
    #[inline(always)]
    fn hold(&mut self, piece: &[u8]) -> usize
        requires going { self.old.failed ≡ false }
        requires room { length self.old.held < 65536 }
        requires some { 0 < length piece.now }
        ensures some { 0 < result }
        ensures front { result ≤ length piece.now }
        ensures held { self.new
            ≡ record self.old { held = self.old.held ++ take result piece.now; flushed = false } }
    {
        let count = piece.len().min(HELD - self.bytes.len());
        if self.bytes.extend_from_slice(&piece[..count]).is_err() {
            unreachable!();
        }
        self.flushed = false;
        count
    }

    // Hands on what is held, and flushes the sink below.
    fn flush_through(&mut self) -> Result<(), Failed>
        ensures { FlushesThrough self.old result self.new }
    {
        self.hand_on()?;
        if self.sink.flush().is_err() {
            self.failed = true;
            return Err(Failed);
        }
        Ok(())
    }
}

impl<K: Sink + Drop> Sink for BufferedSink<K> {
    ghost use Rattle.std.specs.Prelude.{◌<◌, length};
    ghost use Rattle.envy_io.specs.Streams.{Writes, Flushes};
    ghost use Rattle.envy_io.specs.Holding.{drain_of, FlushesHeld};

    ghost drain = { drain_of };

    fn write_some(&mut self, piece: &[u8]) -> Result<usize, Failed>
        requires { 0 < length piece.now }
        ensures writes { Writes (drain_of self.old) piece.now result (drain_of self.new) }
    {
        match self.make_room() {
            Ok(()) => Ok(self.hold(piece)),
            Err(Failed) => {
                self.faults = self.faults.saturating_add(1);
                Err(Failed)
            }
        }
    }

    fn flush(&mut self) -> Result<(), Failed>
        ensures flushes { Flushes (drain_of self.old) result (drain_of self.new) }
        ensures through { FlushesHeld self.old result self.new }
    {
        if self.flush_through().is_err() {
            self.faults = self.faults.saturating_add(1);
            return Err(Failed);
        }
        self.flushed = true;
        Ok(())
    }
}
