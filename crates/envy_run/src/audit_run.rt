//! The verdict on an image as all that a run does.

ghost use Rattle.std.specs.Prelude.{◌≡◌, ◌≤◌, [], None};
ghost use Rattle.envy_run.specs.Audits.{IsVerdict, judging, verdict_text, verdict_line, letter_of};
ghost use Rattle.envy_run.specs.Meaning.{Does};
ghost use Rattle.envy_run.specs.Outcome.{outcome_of};
ghost use Rattle.envy_run.specs.Writing.{WritesOut};
ghost use Rattle.envy_serve.specs.Ends.{most_bytes};
ghost use Rattle.envy_serve.specs.Streams.{streams_of};

use crate::endings::{Finished, stopped_at, written};
use crate::image_input::{Refusal, is_too_large, refused, take_head, take_image};
use arrayvec::ArrayVec;
use envy_base::Maker;
use envy_image::{Rule, Verdict};
use envy_io::{Failed, Lines, Sink, Source, write_all};
use envy_serve::MOST_BYTES;
use envy_trace::push_text;
use std::alloc::Global;

/// How often power of an audited board can return.
pub(crate) const AUDIT_LIVES: u32 = u32::MAX;

/// The letter of a rule.
fn letter(rule: Rule) -> &'static [u8]
    ensures { result.now ≡ letter_of rule }
{
    match rule {
        Rule::A => b"a",
        Rule::B => b"b",
        Rule::C => b"c",
        Rule::D => b"d",
        Rule::E => b"e",
        Rule::F => b"f",
        Rule::G => b"g",
        Rule::H => b"h",
        Rule::I => b"i",
        Rule::J => b"j",
        Rule::K => b"k",
        Rule::L => b"l",
        Rule::M => b"m",
    }
}

/// Puts the text of a verdict into an empty buffer.
fn put_verdict(verdict: Verdict, out: &mut ArrayVec<u8, 16>)
    requires { out.old.items ≡ [] }
    ensures { out.new.items ≡ verdict_line verdict }
{
    match verdict {
        Verdict::Sound => push_text(out, b"sound"),
        Verdict::Unformatted => push_text(out, b"unformatted"),
        Verdict::Broken(rule) => {
            push_text(out, b"unsound ");
            push_text(out, letter(rule));
        }
    }
    out.push(b'\n');
}

/// Writes a verdict on a line of its own, and flushes the sink.
pub(crate) fn write_verdict<K: Sink>(verdict: Verdict, sink: &mut K) -> Result<(), Failed>
    ensures { WritesOut (verdict_line verdict) result (K.drain sink.old) (K.drain sink.new) }
{
    let mut text = ArrayVec::new();
    put_verdict(verdict, &mut text);
    write_all(sink, text.as_slice())?;
    sink.flush()
}

/// Reads the image of at most so many rows that the source begins with, and writes the verdict on it. No byte behind it is read.
pub fn run_audit<S: Source, K: Sink, M: Maker>(
    alloc: Global,
    most: u32,
    source: &mut S,
    sink: &mut K,
    maker: &mut M,
) -> Finished<M::Made>
    ensures audits { Does (judging most IsVerdict) (outcome_of M.Made.Board.state result)
        (streams_of (S.feed source.old) (S.feed source.new) (K.drain sink.old) (K.drain sink.new)) }
    ensures few { result.lines ≤ result.taken }
    ensures read { result.taken ≤ most_bytes }
    ensures second { result.second ≡ None }
{
    let mut lines = Lines::new(MOST_BYTES);
    let shape = match take_head(&mut lines, source) {
        Ok(shape) => shape,
        Err(refusal) => return refused(refusal, lines.taken(), None),
    };
    if is_too_large(&shape, most) {
        return refused(Refusal::Misshapen, lines.taken(), None);
    }
    match take_image(alloc, &shape, AUDIT_LIVES, &mut lines, source, maker) {
        Ok((board, verdict)) => {
            let ending = written(write_verdict(verdict, sink));
            stopped_at(ending, lines.taken(), Some(board))
        }
        Err((board, refusal)) => refused(refusal, lines.taken(), board),
    }
}
