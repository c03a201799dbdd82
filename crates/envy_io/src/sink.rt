ghost use Rattle.std.specs.Prelude.{◌≡◌, ◌<◌, length, IfOk, [], false};
ghost use Rattle.envy_io.specs.Streams.{Drain, Writes, Flushes, WritesAll};

use crate::Failed;
use crate::plan::Plan;
use std::alloc::{AllocError, Global};
use std::marker::Model;

/// Want of memory.
pub type NoMemory = AllocError;

/// Where bytes go.
pub trait Sink {
    /// The bytes written, where they are told, how often the sink failed, and whether it is flushed.
    ghost drain: { Self → Drain };

    /// Writes a front of the piece, and answers its length, which is at least 1.
    ///
    /// # Errors
    ///
    /// `Failed` where the sink failed, which it counts. Nothing was written then.
    fn write_some(&mut self, piece: &[u8]) -> Result<usize, Failed>
        requires { 0 < length piece.now }
        ensures { Writes (drain self.old) piece.now result (drain self.new) };

    /// Hands on what was written.
    ///
    /// # Errors
    ///
    /// `Failed` where the sink failed, which it counts.
    fn flush(&mut self) -> Result<(), Failed>
        ensures { Flushes (drain self.old) result (drain self.new) };
}

/// Writes the piece whole. An empty piece makes no call.
///
/// # Errors
///
/// `Failed` where the sink failed, which it counts. A proper prefix of the piece was written then.
#[inline(always)]
pub fn write_all<K: Sink>(sink: &mut K, piece: &[u8]) -> Result<(), Failed>
    ensures writes { WritesAll (K.drain sink.old) piece.now result (K.drain sink.new) }
    ensures uncalled { piece.now ≡ [] → sink.new ≡ sink.old }
{
    let mut rest = piece;
    while !rest.is_empty() {
        let count = sink.write_some(rest)?;
        rest = &rest[count..];
    }
    Ok(())
}

/// A sink in memory. It takes a number of bytes in all, and fails at the calls that it was told.
#[derive(Drop)]
pub struct MemSink {
    written: Vec<u8>,
    room: usize,
    plan: Plan,
    flushed: bool,
}

impl Model for MemSink {
    ghost use Rattle.std.specs.Prelude.{◌≤◌, vec_len, vec_capacity};
    ghost use Rattle.envy_io.specs.InMemory.{MemDrain};

    ghost Value = { MemDrain };

    ghost view = { λ s. record {
      written = s.written.items;
      room = s.room;
      fails = s.plan.fails.items;
      calls = s.plan.calls;
      faults = s.plan.faults;
      flushed = s.flushed;
    } };

    ghost invariant = { λ s. (vec_len s.written ≤ s.room) × (s.room ≤ vec_capacity s.written) };
}

impl MemSink {
    /// A sink that takes `room` bytes in all. `fails` holds the numbers of the calls that fail, where the
    /// first call, a write or a flush, is number 1. A write fails also where there is no room left.
    ///
    /// # Errors
    ///
    /// `NoMemory` where the room can't be had.
    pub fn new(alloc: Global, room: usize, fails: Vec<u64>) -> Result<MemSink, NoMemory>
        ensures { IfOk result (λ sink. sink ≡ record {
          written = [];
          room = room;
          fails = fails.items;
          calls = 0;
          faults = 0;
          flushed = false;
        }) }
    {
        Ok(MemSink {
            written: Vec::with_capacity(alloc, room)?,
            room,
            plan: Plan::new(fails),
            flushed: false,
        })
    }

    /// The bytes written.
    pub fn written(&self) -> &[u8]
        ensures { result.now ≡ self.now.written }
    {
        &self.written
    }
}

impl Sink for MemSink {
    ghost use Rattle.std.specs.Prelude.{◌<◌, length};
    ghost use Rattle.envy_io.specs.Streams.{Writes, Flushes};
    ghost use Rattle.envy_io.specs.InMemory.{drain_of, WritesInto, FlushesMem};

    ghost drain = { drain_of };

    fn write_some(&mut self, piece: &[u8]) -> Result<usize, Failed>
        requires { 0 < length piece.now }
        ensures writes { Writes (drain_of self.old) piece.now result (drain_of self.new) }
        ensures exact { WritesInto self.old piece.now result self.new }
    {
        self.plan.call()?;
        let count = piece.len().min(self.room - self.written.len());
        if count == 0 {
            return Err(self.plan.fault());
        }
        if self.written.extend_from_slice(&piece[..count]).is_err() {
            unreachable!();
        }
        self.flushed = false;
        Ok(count)
    }

    fn flush(&mut self) -> Result<(), Failed>
        ensures flushes { Flushes (drain_of self.old) result (drain_of self.new) }
        ensures exact { FlushesMem self.old result self.new }
    {
        self.plan.call()?;
        self.flushed = true;
        Ok(())
    }
}
