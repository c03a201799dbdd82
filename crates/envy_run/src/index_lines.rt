//! One line of an index with its replies.

ghost use Rattle.std.specs.Prelude.{◌≡◌, Bool, [], ◌∷◌, ◌++◌, false, IsTrue};
ghost use Rattle.envy_btree.specs.Replies.{index_bytes};
ghost use Rattle.envy_btree.specs.Spelling.{IsIndexLine};
ghost use Rattle.envy_btree.specs.declared.line.IndexLine.{IndexLine};
ghost use Rattle.envy_btree.specs.declared.line.IndexLine.TheVariants.{Power};
ghost use Rattle.envy_btree.specs.declared.reply.IndexReply.TheVariants.{Lost};
ghost use Rattle.envy_io.specs.Lines.{newline};
ghost use Rattle.envy_io.specs.Streams.{WritesAll};
ghost use Rattle.envy_run.specs.IndexServing.{Serving, AnswersIndex, ReplyLicence, ObeysIndex, RestartsIndex, RecoversIndex};
ghost use Rattle.envy_run.specs.IndexSpending.{SpendsPuts, puts_of};
ghost use Rattle.envy_memory.specs.Picture.{Picture};
ghost use Rattle.envy_run.specs.IndexTurns.{Pairs, most_of};

use crate::index_answers::{ask, plan_bad, plan_cut, set, take_out};
use crate::restart::ReplyBuffer;
use envy_base::Bench;
use envy_btree::{IndexLine, IndexReply, index_text};
use envy_io::{Failed, Sink, write_all};
use envy_memory::{OneTx, ReviveFault};
use envy_serve::LineOutcome;

/// Writes a reply and its newline as one piece.
fn write_index_reply<K: Sink>(
    sink: &mut K,
    reply: &IndexReply,
    buffer: &mut ReplyBuffer,
) -> Result<(), Failed>
    ensures { WritesAll (K.drain sink.old) (index_bytes reply.now ++ newline ∷ []) result (K.drain sink.new) }
{
    let piece = &mut buffer.piece;
    piece.clear();
    index_text(reply, piece);
    piece.push(b'\n');
    write_all(sink, piece.as_slice())
}

/// Asks for power until the words are back. Answers false where power doesn't return.
fn restart_words<B: Bench>(words: &mut OneTx<B>) -> bool
    requires { words.old.memory.chart.on ≡ false }
    ensures { RestartsIndex result words.old.memory.chart words.new.memory words.new.begun }
{
    loop {
        match words.wake() {
            Ok(()) => return true,
            Err(ReviveFault::Dead) => return false,
            Err(ReviveFault::Off) => {}
        }
    }
}

/// After a failure of power, whose own reply was written or not: asks for power, and tells its return.
fn recover_words<K: Sink, B: Bench>(
    words: &mut OneTx<B>,
    sink: &mut K,
    wrote: Result<(), Failed>,
    buffer: &mut ReplyBuffer,
) -> LineOutcome
    requires { words.old.memory.chart.on ≡ false }
    ensures { RecoversIndex wrote result words.old.memory.chart words.new.memory words.new.begun (K.drain sink.old)
        (K.drain sink.new) }
{
    if !restart_words(words) {
        return LineOutcome::Dead;
    }
    match wrote {
        Ok(()) => {}
        Err(Failed) => return LineOutcome::WriteFault,
    }
    match write_index_reply(sink, &IndexReply::Restarted, buffer) {
        Ok(()) => LineOutcome::Done,
        Err(Failed) => LineOutcome::WriteFault,
    }
}

/// Cuts power by hand and asks for it.
fn obey_index_power<K: Sink, B: Bench>(
    words: &mut OneTx<B>,
    sink: &mut K,
    buffer: &mut ReplyBuffer,
) -> LineOutcome
    requires { IsTrue words.old.memory.chart.on }
    ensures { (es : Pairs) → Serving words.old.memory words.old.begun es
        → ObeysIndex (most_of words.old.memory.chart.shape.pages) es Power result words.old.memory.chart
        words.new.memory words.new.begun (K.drain sink.old) (K.drain sink.new) }
{
    words.cut_now();
    recover_words(words, sink, Ok(()), buffer)
}

/// Writes the reply of a call of the tree, and asks for power where that call lost it.
fn tell<K: Sink, B: Bench>(
    words: &mut OneTx<B>,
    sink: &mut K,
    reply: &IndexReply,
    buffer: &mut ReplyBuffer,
) -> LineOutcome
    requires { reply.now ≡ Lost → words.old.memory.chart.on ≡ false }
    ensures { (line : IndexLine) (es : Pairs) (before : Picture) (begun : Bool) → Serving before begun es
        → AnswersIndex (most_of before.chart.shape.pages) es line reply.now words.old.memory words.old.begun
        → ReplyLicence line reply.now before.chart words.old.memory.chart
        → SpendsPuts (puts_of line) before.chart words.old.memory.chart
        → ObeysIndex (most_of before.chart.shape.pages) es line result before.chart words.new.memory words.new.begun
        (K.drain sink.old) (K.drain sink.new) }
{
    let wrote = write_index_reply(sink, reply, buffer);
    if let IndexReply::Lost = *reply {
        return recover_words(words, sink, wrote, buffer);
    }
    match wrote {
        Ok(()) => LineOutcome::Done,
        Err(Failed) => LineOutcome::WriteFault,
    }
}

/// Does a line, with its replies.
pub fn obey_index<K: Sink, B: Bench>(
    words: &mut OneTx<B>,
    sink: &mut K,
    line: &IndexLine,
    buffer: &mut ReplyBuffer,
) -> LineOutcome
    requires ready { (es : Pairs) × Serving words.old.memory words.old.begun es }
    requires ranges { IsIndexLine line.now }
    ensures { (es : Pairs) → Serving words.old.memory words.old.begun es
        → ObeysIndex (most_of words.old.memory.chart.shape.pages) es line.now result words.old.memory.chart
        words.new.memory words.new.begun (K.drain sink.old) (K.drain sink.new) }
{
    match *line {
        IndexLine::Empty => LineOutcome::Done,
        IndexLine::Power => obey_index_power(words, sink, buffer),
        IndexLine::Get { key } => {
            let reply = ask(words, key);
            tell(words, sink, &reply, buffer)
        }
        IndexLine::Insert { key, value } => {
            let reply = set(words, key, value);
            tell(words, sink, &reply, buffer)
        }
        IndexLine::Remove { key } => {
            let reply = take_out(words, key);
            tell(words, sink, &reply, buffer)
        }
        IndexLine::Cut { k, g } => {
            let reply = plan_cut(words, k, g);
            tell(words, sink, &reply, buffer)
        }
        IndexLine::Bad { k, g } => {
            let reply = plan_bad(words, k, g);
            tell(words, sink, &reply, buffer)
        }
    }
}
