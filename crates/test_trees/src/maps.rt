ghost use Rattle.std.specs.Prelude.{◌≡◌, ◌≤◌, ◌<◌, ◌^◌, IfOk, length};
ghost use Rattle.envy_heap.specs.Vectors.{vec_sheet};
ghost use Rattle.envy_btree.specs.Testing.{IsReady};

use crate::calls::{
    Pair, check_get, check_near, check_pairs, check_set, check_take_out, empty_index, nearest,
};
use crate::told::{same, same_at};
use envy_array::Words;
use envy_btree::{LookFault, TreeFault};
use envy_heap::VecWords;
use rand_core::{Rng, SeedableRng};
use rand_pcg::Lcg64Xsh32;
use std::alloc::Global;
use std::collections::BTreeMap;
use std::process::Abort;

// Why a test ends where memory is wanted.
const NO_ROOM: &str = "no room";

// Takes note of a pair that is nearer to a key than those before it, which have lower keys.
fn note(found: &mut [Pair; 3], key: u64, pair: (u64, u64)) {
    let (k, _value) = pair;
    if k >= key && found[0].is_none() {
        found[0] = Some(pair);
    }
    if k > key && found[1].is_none() {
        found[1] = Some(pair);
    }
    if k <= key {
        found[2] = Some(pair);
    }
}

fn nearest_in(map: &BTreeMap<u64, u64>, key: u64) -> [Pair; 3] {
    let mut found = [None; 3];
    for (k, value) in map {
        note(&mut found, key, (*k, *value));
    }
    found
}

fn value_in(map: &BTreeMap<u64, u64>, key: u64) -> Option<u64> {
    map.get(&key).copied()
}

/// A call of a map, and its answer.
#[derive(Clone, Copy)]
enum Step {
    Get(u64, Option<u64>),
    Set(u64, u64, Result<Option<u64>, TreeFault>),
    TakeOut(u64, Option<u64>),
    Near(u64, [Pair; 3]),
}

// Makes a call, and tests that it is answered as it says.
fn check_step(rt: &impl Abort, words: &mut VecWords, name: &str, at: u64, step: Step)
    requires { IsReady (vec_sheet words.old) }
    ensures { IsReady (vec_sheet words.new) }
{
    match step {
        Step::Get(key, is) => check_get(rt, words, name, at, key, is),
        Step::Set(key, value, answer) => check_set(rt, words, name, at, (key, value), answer),
        Step::TakeOut(key, was) => check_take_out(rt, words, name, at, key, was),
        Step::Near(key, is) => check_near(rt, words, name, at, key, is),
    }
}

// Tests that each call is answered as it says; else the call's number is told.
fn check_steps(rt: &impl Abort, words: &mut VecWords, name: &str, steps: &[Step])
    requires { IsReady (vec_sheet words.old) }
    ensures { IsReady (vec_sheet words.new) }
{
    for i in 0..steps.len() {
        check_step(rt, words, name, i as u64, steps[i]);
    }
}

// Calls of an empty map of 640 words.
fn check_empty(rt: &impl Abort, alloc: Global, name: &str, steps: &[Step]) {
    let mut words = empty_index(alloc, 640).expect(rt, NO_ROOM);
    check_steps(rt, &mut words, name, steps);
}

const IN_AND_OUT: [Step; 6] = [
    Step::Set(5, 50, Ok(None)),
    Step::Get(5, Some(50)),
    Step::Set(5, 51, Ok(Some(50))),
    Step::TakeOut(5, Some(51)),
    Step::Get(5, None),
    Step::TakeOut(5, None),
];

#[test]
fn pairs_go_in_and_out(rt: HostRuntime) {
    check_empty(&rt, rt.alloc(), "pairs go in and out", &IN_AND_OUT);
}

const LOW: Pair = Some((0, 7));

const HIGH: Pair = Some((u64::MAX, 8));

const ENDS: [Step; 7] = [
    Step::Near(9, [None, None, None]),
    Step::Set(0, 7, Ok(None)),
    Step::Near(0, [LOW, None, LOW]),
    Step::Set(u64::MAX, 8, Ok(None)),
    Step::Near(0, [LOW, HIGH, LOW]),
    Step::Near(9, [HIGH, HIGH, LOW]),
    Step::Near(u64::MAX, [HIGH, None, HIGH]),
];

#[test]
fn the_ends_of_a_map_have_one_neighbour(rt: HostRuntime) {
    check_empty(&rt, rt.alloc(), "the ends of a map", &ENDS);
}

// As many pairs of a key and itself.
fn fill(rt: &impl Abort, words: &mut VecWords, pairs: u64)
    requires { IsReady (vec_sheet words.old) }
    ensures { IsReady (vec_sheet words.new) }
{
    for key in 0..pairs {
        check_set(rt, words, "set", key, (key, key), Ok(None));
    }
}

const FULL: [Step; 4] = [
    Step::Set(14, 1, Err(TreeFault::Full)),
    Step::Set(0, 9, Ok(Some(0))),
    Step::TakeOut(0, Some(9)),
    Step::Set(14, 1, Ok(None)),
];

#[test]
fn a_full_map_takes_no_new_key(rt: HostRuntime) {
    // 9 pieces: 14 pairs
    let mut words = empty_index(rt.alloc(), 640).expect(&rt, NO_ROOM);
    fill(&rt, &mut words, 14);
    check_steps(&rt, &mut words, "a full map", &FULL);
}

const MOST_PAIRS: usize = 322;

// A change of the tree and of a map of the library: the answers are the same.
fn change(
    rt: &impl Abort,
    words: &mut VecWords,
    map: &mut BTreeMap<u64, u64>,
    takes: bool,
    key: u64,
    value: u64,
)
    requires { IsReady (vec_sheet words.old) }
    ensures { IsReady (vec_sheet words.new) }
{
    if takes {
        let was = map.remove(&key);
        check_take_out(rt, words, "take out", key, key, was);
    } else if map.len() == MOST_PAIRS && value_in(map, key).is_none() {
        check_set(rt, words, "set", key, (key, value), Err(TreeFault::Full));
    } else {
        let was: Result<_, _> = map.insert(key, value);
        let was = was.expect(rt, NO_ROOM);
        check_set(rt, words, "set", key, (key, value), Ok(was));
    }
}

// One operation on the tree and on a map of the library: the answers are the same.
fn agrees(
    rt: &impl Abort,
    words: &mut VecWords,
    map: &mut BTreeMap<u64, u64>,
    draw: u32,
    value: u64,
)
    requires { IsReady (vec_sheet words.old) }
    ensures { IsReady (vec_sheet words.new) }
{
    let key = u64::from(draw / 4 % 512);
    check_get(rt, words, "get", key, key, value_in(map, key));
    check_near(rt, words, "nearest", key, key, nearest_in(map, key));
    check_pairs(rt, words, "pairs at", key, map.len() as u64);
    change(rt, words, map, draw % 4 == 0, key, value);
}

// A pair of the map is in the tree, and was seen on the walk. Gives what is seen behind it.
fn check_pair(
    rt: &impl Abort,
    words: &mut VecWords,
    seen: Result<Pair, LookFault>,
    key: u64,
    value: u64,
) -> Result<Pair, LookFault>
    requires { IsReady (vec_sheet words.old) }
    ensures { IsReady (vec_sheet words.new) }
{
    check_get(rt, words, "get", key, key, Some(value));
    same_at(rt, &seen, &Ok(Some((key, value))), "next", key);
    let [_from, above, _to] = nearest(words, key);
    above
}

// A walk over the tree finds the pairs of the map, and no more.
fn check_walk(rt: &impl Abort, words: &mut VecWords, map: &BTreeMap<u64, u64>)
    requires { IsReady (vec_sheet words.old) }
{
    let [mut seen, _above, _to] = nearest(words, 0);
    for (key, value) in map {
        seen = check_pair(rt, words, seen, *key, *value);
    }
    same_at(rt, &seen, &Ok(None), "behind the last of", map.len() as u64);
}

#[test]
fn the_tree_agrees_with_a_map(rt: HostRuntime) {
    let mut words = empty_index(rt.alloc(), 2048).expect(&rt, NO_ROOM);
    let mut map = BTreeMap::new(rt.alloc());
    let mut generator = Lcg64Xsh32::seed_from_u64(3);
    for i in 0..2000 {
        agrees(&rt, &mut words, &mut map, generator.next_u32(), i);
    }
    check_walk(&rt, &mut words, &map);
}

#[derive(Clone, Copy)]
enum Order {
    Rising,
    Falling,
    Scattered,
}

fn key_at(order: Order, i: u64) -> u64
    requires { i < 10000 }
{
    match order {
        Order::Rising => 3 * i,
        Order::Falling => 10000 - i,
        Order::Scattered => (i + 1).wrapping_mul(0x9e37_79b9_7f4a_7c15),
    }
}

// Word 1 and the first words of the free pieces, one after another: how many these are.
fn free_pieces(rt: &impl Abort, words: &mut VecWords) -> u64
    requires { 640 ≤ length (vec_sheet words.old).words }
{
    let mut link = words.load(1).unwrap_or(0);
    for count in 0..1000 {
        if link == 0 {
            return count;
        }
        assert!(rt; link <= 255);
        let head = 64 * link as u32;
        assert!(rt; head < words.size());
        link = words.load(head).unwrap_or(0);
    }
    1000
}

// Fills the map with this many pairs, all that it may have, and takes them out in another order.
fn fills_and_empties(rt: &impl Abort, alloc: Global, size: u32, pairs: u64, order: Order)
    requires least { 640 ≤ size }
    requires most { size ≤ 2 ^ 29 }
    requires few { pairs < 9000 }
    requires some { 0 < pairs }
{
    let mut words = empty_index(alloc, size).expect(rt, NO_ROOM);
    fill_by(rt, &mut words, pairs, order);
    empty_by(rt, &mut words, pairs, order);
    is_empty(rt, &mut words);
}

// As many pairs of a key and its number, and none more.
fn fill_by(rt: &impl Abort, words: &mut VecWords, pairs: u64, order: Order)
    requires ready { IsReady (vec_sheet words.old) }
    requires few { pairs < 9000 }
    ensures { IsReady (vec_sheet words.new) }
{
    for i in 0..pairs {
        check_set(rt, words, "pair", i, (key_at(order, i), i), Ok(None));
    }
    let more = (key_at(order, pairs), 0);
    check_set(rt, words, "pair", pairs, more, Err(TreeFault::Full));
}

// Takes the pairs out in another order.
fn empty_by(rt: &impl Abort, words: &mut VecWords, pairs: u64, order: Order)
    requires ready { IsReady (vec_sheet words.old) }
    requires few { pairs < 9000 }
    requires some { 0 < pairs }
    ensures { IsReady (vec_sheet words.new) }
{
    for i in 0..pairs {
        let place = i * 5 % pairs;
        let key = key_at(order, place);
        check_take_out(rt, words, "take out", i, key, Some(place));
        check_get(rt, words, "get behind it", i, key, None);
    }
}

// No root, no pair, and no piece that isn't free.
fn is_empty(rt: &impl Abort, words: &mut VecWords)
    requires { 640 ≤ length (vec_sheet words.old).words }
{
    let handed = words.load(2).unwrap_or(0);
    let empty = (words.load(0), words.load(3));
    same(rt, &empty, &(Ok(0), Ok(0)), "root and pairs");
    same(rt, &free_pieces(rt, words), &handed, "free pieces");
}

#[test]
fn a_map_filled_by_rising_keys_is_emptied(rt: HostRuntime) {
    fills_and_empties(&rt, rt.alloc(), 2048, 322, Order::Rising);
}

#[test]
fn a_map_filled_by_falling_keys_is_emptied(rt: HostRuntime) {
    fills_and_empties(&rt, rt.alloc(), 2048, 322, Order::Falling);
}

#[test]
fn a_map_of_three_levels_is_emptied(rt: HostRuntime) {
    fills_and_empties(&rt, rt.alloc(), 16384, 3458, Order::Scattered);
}
