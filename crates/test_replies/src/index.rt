//! Traces of an index.

use crate::filled::{put_number, put_text};
use crate::generated::put_plan;
use crate::played_run::{calm, play};
use crate::rows::check_table;
use crate::told::{holds, same};
use rand_core::{Rng, SeedableRng};
use rand_pcg::Lcg64Xsh32;
use std::alloc::Global;
use std::process::Abort;

// the first operation of an insert on the board only opens the transaction
const ROWS: &str = "\
~ pairs in and out
$ index
> insert 5 50;get 5;insert 5 51;remove 5;get 5;
< none;50;50;51;none;
~ blanks and comments
$ index
> # day one;;\tremove 7\r;get 7
< none;none;
~ the map stays where power fails between two lines
$ index
> insert 5 50;power;get 5;
< none;restarted;50;
~ a cut insert whose first operation isn't done
$ index
> insert 5 50;cut 1 0;insert 5 51;get 5;
< none;armed;lost;restarted;50;
~ a cut insert whose first operation is done
$ index
> insert 5 50;cut 1 1;insert 5 51;get 5;
< none;armed;lost;restarted;50;
~ a line of an array
$ index
> load 5;
ends 5 1 0 envy: line 1: unknown word
~ a field too few
$ index
> insert 5;
ends 5 3 0 envy: line 1: wrong count of fields
~ a number past 64 bits
$ index
> get 18446744073709551616;
ends 5 2 0 envy: line 1: bad number
~ a full map takes no new key
$ index --pages 20
* 0 14 insert % %;|none;
> insert 14 1;insert 0 9;remove 0;insert 14 1;
< full;0;9;none;
~ no lives
$ index --lives 0
> insert 1 2;cut 1 0;insert 3 4;get 1;
< none;armed;lost;
ends 6 0 3 envy: power did not return after 3 lines
";

#[test]
fn pairs_go_in_and_out(rt: HostRuntime) {
    check_table(&rt, ROWS);
}

/// How many operations the index and a plain map are given, and how many keys there are.
const OPERATIONS: u64 = 2000;

const KEYS: u32 = 512;

/// The lines of one operation, and a look at its key.
fn put_operation(rt: &(impl Abort + Alloc<A = Global>), out: &mut Vec<u8>, draw: u32, value: u64) {
    let key = u64::from(draw / 4 % KEYS);
    if draw % 4 == 0 {
        put_text(rt, out, b"remove ");
        put_number(rt, out, key);
        put_text(rt, out, b"\n");
    } else {
        put_plan(rt, out, "insert ", key, value);
    }
    put_text(rt, out, b"get ");
    put_number(rt, out, key);
    put_text(rt, out, b"\n");
}

/// The trace of these operations, each followed by a look at its key. A failure of power is planned before
/// every 50th.
pub(crate) fn operations(rt: &(impl Abort + Alloc<A = Global>)) -> Vec<u8> {
    let mut generator = Lcg64Xsh32::seed_from_u64(3);
    let mut trace = Vec::new(rt.alloc());
    for i in 0..OPERATIONS {
        if i % 50 == 0 {
            put_plan(rt, &mut trace, "cut ", 1 + i % 37, i);
        }
        put_operation(rt, &mut trace, generator.next_u32(), i);
    }
    trace
}

/// The first line of these replies, and those behind it.
fn next_line(replies: &[u8]) -> (&[u8], &[u8]) {
    match replies.iter().position(|b| *b == b'\n') {
        Some(end) => (&replies[..end], &replies[end + 1..]),
        None => (replies, &[]),
    }
}

/// Stands in a plain map for a key that has no value.
const ABSENT: u64 = u64::MAX;

/// Whether a reply spells the value.
fn is_spelled(rt: &(impl Abort + Alloc<A = Global>), reply: &[u8], value: u64) -> bool {
    let mut spelled = Vec::new(rt.alloc());
    if value == ABSENT {
        put_text(rt, &mut spelled, b"none");
    } else {
        put_number(rt, &mut spelled, value);
    }
    spelled.as_slice() == reply
}

/// What the map has for a key.
fn value_of(map: &[u64; KEYS as usize], key: u32) -> u64 {
    map.get(key as usize).copied().unwrap_or(ABSENT)
}

fn change(map: &mut [u64; KEYS as usize], key: u32, value: u64) {
    if let Some(slot) = map.get_mut(key as usize) {
        *slot = value;
    }
}

/// The replies to one operation and to the look behind it are those of the map. An operation that is lost is done or
/// not. Gives the replies that are left.
fn agrees<'a>(
    rt: &(impl Abort + Alloc<A = Global>),
    map: &mut [u64; KEYS as usize],
    draw: u32,
    value: u64,
    replies: &'a [u8],
) -> &'a [u8] {
    let key = draw / 4 % KEYS;
    let before = value_of(map, key);
    let after = if draw % 4 == 0 { ABSENT } else { value };
    let (reply, others) = next_line(replies);
    let (next, behind) = next_line(others);
    if reply != b"lost".as_slice() {
        holds(rt, is_spelled(rt, reply, before), "index", "reply");
        holds(rt, is_spelled(rt, next, after), "index", "look");
        change(map, key, after);
        return behind;
    }
    holds(rt, next == b"restarted".as_slice(), "index", "restarted");
    let (found, rest) = next_line(behind);
    if !is_spelled(rt, found, before) {
        let is_new = is_spelled(rt, found, after);
        holds(rt, is_new, "index", "a lost operation");
        change(map, key, after);
    }
    rest
}

#[test]
fn the_index_agrees_with_a_map(rt: HostRuntime) {
    let told = play(&rt, &calm("index", &operations(&rt)));
    same(&rt, u64::from(told.status), 0, "index", "status");
    same(&rt, u64::from(told.why), 0, "index", "why");
    check_replies(&rt, &told.written);
}

/// The replies are those of a plain map.
fn check_replies(rt: &(impl Abort + Alloc<A = Global>), replies: &[u8]) {
    let mut generator = Lcg64Xsh32::seed_from_u64(3);
    let mut map = [ABSENT; KEYS as usize];
    let mut rest = replies;
    for i in 0..OPERATIONS {
        let draw = generator.next_u32();
        if i % 50 == 0 {
            let (reply, others) = next_line(rest);
            holds(rt, reply == b"armed".as_slice(), "index", "armed");
            rest = others;
        }
        rest = agrees(rt, &mut map, draw, i, rest);
    }
    holds(rt, rest.is_empty(), "index", "replies behind the last");
}
