//! Standard input as a source, and standard output as a sink.

ghost use Rattle.std.specs.Prelude.{◌≡◌, ◌<◌, ◌≤◌, IfOk, length};
ghost use Rattle.envy_io.specs.Streams.{Fills, Writes, Flushes};
ghost use Rattle.envy.specs.Standard.{input_feed, output_drain, untold_drain};

use envy_io::{BufferedSink, Failed, Sink, Source};
use std::cell::RefCell;
use std::io::{Read, Stdin, Stdout};

/// Standard input. The bytes left are not told.
#[derive(Drop)]
pub struct StdSource {
    stdin: Stdin,
    faults: u64,
}

impl StdSource {
    pub fn new(stdin: Stdin) -> StdSource {
        StdSource { stdin, faults: 0 }
    }
}

impl Source for StdSource {
    ghost feed = { input_feed };

    fn fill(&mut self, into: &mut [u8]) -> Result<usize, Failed>
        requires { 0 < length into.old }
        ensures { Fills (input_feed self.old) into.new result (input_feed self.new) }
    {
        match self.stdin.read(into) {
            Ok(count) => Ok(count),
            Err(_) => {
                self.faults = self.faults.saturating_add(1);
                Err(Failed)
            }
        }
    }
}

/// Standard output. The bytes written are not told.
#[derive(Drop)]
pub struct StdSink {
    stdout: Stdout,
    faults: u64,
    flushed: bool,
}

impl StdSink {
    pub fn new(stdout: Stdout) -> StdSink {
        StdSink {
            stdout,
            faults: 0,
            flushed: false,
        }
    }
}

impl Sink for StdSink {
    ghost drain = { output_drain };

    fn write_some(&mut self, piece: &[u8]) -> Result<usize, Failed>
        requires { 0 < length piece.now }
        ensures { Writes (output_drain self.old) piece.now result (output_drain self.new) }
    {
        match self.stdout.write_some(piece) {
            Ok(count) if count > 0 => {
                self.flushed = false;
                Ok(count)
            }
            _ => {
                self.faults = self.faults.saturating_add(1);
                Err(Failed)
            }
        }
    }

    fn flush(&mut self) -> Result<(), Failed>
        ensures { Flushes (output_drain self.old) result (output_drain self.new) }
    {
        self.flushed = true;
        Ok(())
    }
}

/// Standard output with the bytes that it holds back. The program's source and its sink share it.
pub type Output = RefCell<BufferedSink<StdSink>>;

// Puts a front of the piece among the bytes held back.
#[inline(always)]
fn hold(output: &Output, piece: &[u8]) -> Result<usize, Failed>
    requires { 0 < length piece.now }
    ensures some { IfOk result (λ n. 0 < n) }
    ensures front { IfOk result (λ n. n ≤ length piece.now) }
{
    match output.try_borrow_mut() {
        Ok(mut held) => held.write_some(piece),
        Err(_) => Err(Failed),
    }
}

// Hands on what is held back.
fn hand_on(output: &Output) -> Result<(), Failed> {
    match output.try_borrow_mut() {
        Ok(mut held) => held.flush(),
        Err(_) => Err(Failed),
    }
}

/// Standard input, which is asked only once all that standard output holds back was handed on. So a
/// person, or a program at the other ends of two pipes, sees each reply before a line is waited for.
#[derive(Drop)]
pub struct AskedSource<'a> {
    source: StdSource,
    output: &'a Output,
}

impl<'a> AskedSource<'a> {
    pub fn new(source: StdSource, output: &'a Output) -> AskedSource<'a> {
        AskedSource { source, output }
    }
}

impl<'a> Source for AskedSource<'a> {
    ghost feed = { λ s. input_feed s.source };

    fn fill(&mut self, into: &mut [u8]) -> Result<usize, Failed> {
        // a write that fails is told by the sink's next call
        let _ = hand_on(self.output);
        self.source.fill(into)
    }
}

/// Standard output as the program's sink, which holds bytes back. The bytes written are not told.
#[derive(Drop)]
pub struct HeldSink<'a> {
    output: &'a Output,
    faults: u64,
    flushed: bool,
}

impl<'a> HeldSink<'a> {
    pub fn new(output: &'a Output) -> HeldSink<'a> {
        HeldSink {
            output,
            faults: 0,
            flushed: false,
        }
    }
}

impl<'a> Sink for HeldSink<'a> {
    ghost drain = { λ s. untold_drain s.faults s.flushed };

    fn write_some(&mut self, piece: &[u8]) -> Result<usize, Failed> {
        match hold(self.output, piece) {
            Ok(count) => {
                self.flushed = false;
                Ok(count)
            }
            Err(Failed) => {
                self.faults = self.faults.saturating_add(1);
                Err(Failed)
            }
        }
    }

    fn flush(&mut self) -> Result<(), Failed> {
        match hand_on(self.output) {
            Ok(()) => {
                self.flushed = true;
                Ok(())
            }
            Err(Failed) => {
                self.faults = self.faults.saturating_add(1);
                Err(Failed)
            }
        }
    }
}
