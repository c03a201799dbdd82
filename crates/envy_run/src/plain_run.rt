//! A trace done on the plain machine, which has no board.

ghost use Rattle.std.specs.Prelude.{◌≡◌, ◌≤◌, MatchResult, Ok, None};
ghost use Rattle.envy_base.specs.State.{State};
ghost use Rattle.envy_plain.specs.Refusals.{answer_of};
ghost use Rattle.envy_policy.specs.Setup.{checked};
ghost use Rattle.envy_run.specs.Calm.{AnswersCalmly, IsNoWork, ObeysCalmly, listed};
ghost use Rattle.envy_run.specs.Headline.{plain_task};
ghost use Rattle.envy_run.specs.Outcome.{outcome_of};
ghost use Rattle.envy_run.specs.Task.{DoesTask};
ghost use Rattle.envy_serve.specs.Answering.{said};
ghost use Rattle.envy_run.specs.Turns.{Replies};
ghost use Rattle.envy_serve.specs.Ends.{most_bytes};
ghost use Rattle.envy_serve.specs.Streams.{streams_of};

use crate::endings::{Ending, Finished, finished_with, unserved};
use crate::restart::{ReplyBuffer, write_reply};
use crate::trace_machine::read_any;
use envy_array::Counts;
use envy_io::{Failed, Lines, Sink, Source};
use envy_plain::{Plain, Refusal};
use envy_policy::Setup;
use envy_serve::{LineOutcome, MOST_BYTES, Service, serve};
use envy_trace::{Line, LineFault, Reply};
use std::alloc::Global;

/// The reply that says why a call was refused.
fn refused(refusal: Refusal) -> Reply
    ensures { result ≡ said (answer_of refusal) }
{
    match refusal {
        Refusal::Range => Reply::Range,
        Refusal::Closed => Reply::Closed,
        Refusal::Held(slot) => Reply::Held(slot),
        Refusal::Full => Reply::Full,
        Refusal::Busy => Reply::Busy,
    }
}

/// Does a line: the call of the plain machine that it names, and the reply; none to an empty line. There is nothing
/// to do in the background, no operation to fail, and no work to count.
fn answer(plain: &mut Plain, line: &Line) -> Result<Option<Reply>, Refusal>
    ensures { MatchResult result
        (λ reply. AnswersCalmly plain.old line.now (listed reply) plain.new)
        (λ refusal. Replies IsNoWork plain.old line.now (said (answer_of refusal)) plain.new) }
{
    match *line {
        Line::Empty => Ok(None),
        Line::Power => {
            plain.power();
            Ok(Some(Reply::Restarted))
        }
        Line::Load { address } => Ok(Some(Reply::Word(plain.load(address)?))),
        Line::Look { address } => Ok(Some(Reply::Word(plain.look(address)?))),
        Line::Store { address, word } => {
            plain.store(address, word)?;
            Ok(Some(Reply::Done))
        }
        Line::Begin => Ok(Some(Reply::Started(plain.begin()?))),
        Line::Put {
            slot,
            address,
            word,
        } => {
            plain.put(slot, address, word)?;
            Ok(Some(Reply::Done))
        }
        Line::Commit { slot } => {
            plain.commit(slot)?;
            Ok(Some(Reply::Done))
        }
        Line::Abort { slot } => {
            plain.abort(slot)?;
            Ok(Some(Reply::Done))
        }
        Line::Tick => Ok(Some(Reply::Done)),
        Line::Cut { k: _, g: _ } => Ok(Some(Reply::Armed)),
        Line::Bad { k: _, g: _ } => Ok(Some(Reply::Armed)),
        Line::Stat => Ok(Some(Reply::Stat(Counts::ZERO))),
    }
}

/// Does a line, and writes its reply.
fn obey_plain<K: Sink>(
    plain: &mut Plain,
    sink: &mut K,
    line: &Line,
    buffer: &mut ReplyBuffer,
) -> Result<(), Failed>
    ensures { ObeysCalmly plain.old line.now result plain.new (K.drain sink.old) (K.drain sink.new) }
{
    match answer(plain, line) {
        Ok(None) => Ok(()),
        Ok(Some(reply)) => write_reply(sink, &reply, buffer),
        Err(refusal) => write_reply(sink, &refused(refusal), buffer),
    }
}

/// A plain machine that answers the lines of a trace.
#[derive(Drop)]
pub(crate) struct Calm {
    pub(crate) plain: Plain,
    pub(crate) buffer: ReplyBuffer,
}

impl Service for Calm {
    ghost use Rattle.std.specs.Prelude.{⊤, []};
    ghost use Rattle.envy_array.specs.Array.{Array};
    ghost use Rattle.envy_run.specs.Calm.{HasDoneCalmly, NeverDies};
    ghost use Rattle.envy_run.specs.Tracing.{long_any};
    ghost use Rattle.envy_run.specs.Turns.{trace_grammar};

    type Line = Line;

    type Reply = Reply;

    ghost grammar = { trace_grammar };

    ghost Start = { Array };

    ghost Did = { λ start s turns. HasDoneCalmly start s.plain turns };

    ghost Died = { λ start s turns. NeverDies turns };

    ghost IsReady = { λ s. ⊤ };

    ghost tail = { λ s. [] };

    fn read(bytes: &[u8]) -> Result<Line, LineFault> {
        read_any(bytes)
    }

    fn obey<K: Sink>(&mut self, line: &Line, sink: &mut K) -> LineOutcome {
        match obey_plain(&mut self.plain, sink, line, &mut self.buffer) {
            Ok(()) => LineOutcome::Done,
            Err(Failed) => LineOutcome::WriteFault,
        }
    }

    fn close<K: Sink>(&self, _sink: &mut K) -> Result<(), Failed> {
        Ok(())
    }

    ghost long = { long_any };

    ghost stays_ready = { λ start s turns did. tt };
}

/// Does the lines of the source in order on a plain machine, with each reply written before the next
/// line is read. There is no board.
pub fn run_plain<S: Source, K: Sink, B>(
    alloc: Global,
    setup: &Setup,
    source: &mut S,
    sink: &mut K,
) -> Finished<B>
    requires { checked setup.now ≡ Ok tt }
    ensures runs { (state : B → State) → DoesTask (plain_task setup.now) (outcome_of state result)
        (streams_of (S.feed source.old) (S.feed source.new) (K.drain sink.old) (K.drain sink.new)) }
    ensures few { result.lines ≤ result.taken }
    ensures read { result.taken ≤ most_bytes }
    ensures second { result.second ≡ None }
{
    let Ok(plain) = Plain::new(alloc, &setup.shape) else {
        return unserved(Ending::OutOfMemory, None);
    };
    let mut calm = Calm {
        plain,
        buffer: ReplyBuffer::new(),
    };
    let served = serve(&mut calm, source, sink, Lines::new(MOST_BYTES));
    finished_with(served, None)
}
