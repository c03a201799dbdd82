//! Calls of the index tree over plain vectors, each with the answer that it must have.
ghost use Rattle.std.specs.Prelude.{◌≡◌, ◌≤◌, ◌<◌, ◌^◌, IfOk};
ghost use Rattle.envy_heap.specs.Vectors.{vec_sheet};
ghost use Rattle.envy_btree.specs.Testing.{IsReady};

use crate::told::same_at;
use envy_base::NoMemory;
use envy_btree::{LookFault, TreeFault, count, get, insert, last, next, next_above, remove};
use envy_heap::VecWords;
use std::alloc::Global;
use std::process::Abort;

pub(crate) fn empty_index(alloc: Global, size: u32) -> Result<VecWords, NoMemory>
    requires least { 640 ≤ size }
    requires most { size ≤ 2 ^ 29 }
    ensures { IfOk result (λ words. IsReady (vec_sheet words)) }
{
    VecWords::new(alloc, size, 32)
}

pub(crate) type Pair = Option<(u64, u64)>;

// The pairs that are nearest to a key: from it on, above it, and up to it.
pub(crate) type Nearest = [Result<Pair, LookFault>; 3];

pub(crate) fn nearest(words: &mut VecWords, key: u64) -> Nearest
    requires { IsReady (vec_sheet words.old) }
    ensures { IsReady (vec_sheet words.new) }
{
    let from = next(words, key);
    let above = next_above(words, key);
    let to = last(words, key);
    [from, above, to]
}

// A function for each call, which tests the answer: what asks for an answer costs more proof than what calls this.
pub(crate) fn check_get(
    rt: &impl Abort,
    words: &mut VecWords,
    name: &str,
    at: u64,
    key: u64,
    is: Option<u64>,
)
    requires { IsReady (vec_sheet words.old) }
    ensures { IsReady (vec_sheet words.new) }
{
    same_at(rt, &get(words, key), &Ok(is), name, at);
}

pub(crate) fn check_set(
    rt: &impl Abort,
    words: &mut VecWords,
    name: &str,
    at: u64,
    pair: (u64, u64),
    answer: Result<Option<u64>, TreeFault>,
)
    requires { IsReady (vec_sheet words.old) }
    ensures { IsReady (vec_sheet words.new) }
{
    let (key, value) = pair;
    same_at(rt, &insert(words, key, value), &answer, name, at);
}

pub(crate) fn check_take_out(
    rt: &impl Abort,
    words: &mut VecWords,
    name: &str,
    at: u64,
    key: u64,
    was: Option<u64>,
)
    requires { IsReady (vec_sheet words.old) }
    ensures { IsReady (vec_sheet words.new) }
{
    same_at(rt, &remove(words, key), &Ok(was), name, at);
}

pub(crate) fn check_near(
    rt: &impl Abort,
    words: &mut VecWords,
    name: &str,
    at: u64,
    key: u64,
    is: [Pair; 3],
)
    requires { IsReady (vec_sheet words.old) }
    ensures { IsReady (vec_sheet words.new) }
{
    let [from, above, to] = is;
    let wanted = [Ok(from), Ok(above), Ok(to)];
    same_at(rt, &nearest(words, key), &wanted, name, at);
}

pub(crate) fn check_pairs(rt: &impl Abort, words: &mut VecWords, name: &str, at: u64, pairs: u64)
    requires { IsReady (vec_sheet words.old) }
    ensures { IsReady (vec_sheet words.new) }
{
    same_at(rt, &count(words), &Ok(pairs), name, at);
}
