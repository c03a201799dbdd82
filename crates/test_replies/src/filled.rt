//! The trace of a row of a table, and what is replied to it, with what stands for numbers and newlines filled in.

use crate::played_run::NO_ROOM;
use crate::rows::{number_of, parted};
use std::alloc::Global;
use std::process::Abort;

/// The number in digits.
pub(crate) fn put_number(rt: &(impl Abort + Alloc<A = Global>), out: &mut Vec<u8>, number: u64) {
    let digits = format!(in rt.alloc(); "{number}").expect(rt, NO_ROOM);
    put_text(rt, out, digits.as_bytes());
}

pub(crate) fn put_text(rt: &impl Abort, out: &mut Vec<u8>, text: &[u8]) {
    out.extend_from_slice(text).expect(rt, NO_ROOM);
}

/// The text with a newline for each `;`, the number for each `%`, and the address of its page for each `@`.
fn put_filled(rt: &(impl Abort + Alloc<A = Global>), out: &mut Vec<u8>, text: &str, number: u64) {
    for byte in text.as_bytes() {
        match *byte {
            b'%' => put_number(rt, out, number),
            b'@' => put_number(rt, out, 32 * (number % 64)),
            b';' => put_text(rt, out, b"\n"),
            other => put_text(rt, out, &[other]),
        }
    }
}

/// Such lines and replies for each of so many numbers.
fn put_each(
    rt: &(impl Abort + Alloc<A = Global>),
    text: &str,
    trace: &mut Vec<u8>,
    replies: &mut Vec<u8>,
) {
    let (first, rest) = parted(text, ' ');
    let (count, rest) = parted(rest, ' ');
    let (lines, said) = parted(rest, '|');
    let first = number_of(rt, first);
    for number in first..first.saturating_add(number_of(rt, count)) {
        put_filled(rt, trace, lines, number);
        put_filled(rt, replies, said, number);
    }
}

/// A line of a row, if it is of the trace or of what is replied to it.
fn put_line(
    rt: &(impl Abort + Alloc<A = Global>),
    line: &str,
    trace: &mut Vec<u8>,
    replies: &mut Vec<u8>,
) {
    let (word, text) = parted(line, ' ');
    if word == ">" {
        put_filled(rt, trace, text, 0);
    } else if word == "<" {
        put_filled(rt, replies, text, 0);
    } else if word == "*" {
        put_each(rt, text, trace, replies);
    }
}

/// The row's trace, and what is replied to it.
pub(crate) fn put_pieces(
    rt: &(impl Abort + Alloc<A = Global>),
    row: &str,
    trace: &mut Vec<u8>,
    replies: &mut Vec<u8>,
) {
    for line in row.split('\n') {
        put_line(rt, line, trace, replies);
    }
}

/// The trace with one of its bytes changed: which one, and what it becomes.
pub(crate) fn changed(rt: &(impl Abort + Alloc<A = Global>), trace: &[u8], text: &str) -> Vec<u8> {
    let (at, byte) = parted(text, ' ');
    let at = number_of(rt, at) as usize;
    let byte = number_of(rt, byte).min(255) as u8;
    let mut changed = trace.to_vec(rt.alloc()).expect(rt, NO_ROOM);
    if let Some(slot) = changed.get_mut(at) {
        *slot = byte;
    }
    changed
}
