ghost use Rattle.std.specs.Prelude.{◌≡◌, ◌<◌, IfOk, length};
ghost use Rattle.envy_heap.specs.Vectors.{vec_sheet};
ghost use Rattle.test_trees.specs.Beside.{HasBoth, IsMap};

use crate::told::same_at;
use envy_array::Words;
use envy_base::NoMemory;
use envy_btree::{get, insert, remove};
use envy_heap::VecWords;
use envy_range::Within;
use std::alloc::Global;
use std::process::Abort;

// The plain words lie before the first map, the maps in the two ranges behind them, and plain words again.
const FRONT: u32 = 64;

const REAR: u32 = 704;

const PAST: u32 = 1344;

const WORDS: u32 = 2048;

const MAP_WORDS: u32 = 640;

// Zeros, which are two empty maps with plain words beside.
fn two_maps(alloc: Global) -> Result<VecWords, NoMemory>
    ensures { IfOk result (λ words. HasBoth (vec_sheet words)) }
{
    VecWords::new(alloc, WORDS, 32)
}

// One of the two maps.
#[derive(Clone, Copy)]
enum Side {
    Front,
    Rear,
}

// The first word of a map's range.
fn first_of(side: Side) -> u32
    ensures { IsMap result }
{
    match side {
        Side::Front => FRONT,
        Side::Rear => REAR,
    }
}

// Sets the value of a key in a map, and tests the answer.
fn set(
    rt: &impl Abort,
    words: VecWords,
    side: Side,
    at: u64,
    pair: (u64, u64),
    was: Option<u64>,
) -> VecWords
    requires { HasBoth (vec_sheet words) }
    ensures { HasBoth (vec_sheet result) }
{
    let (key, value) = pair;
    let mut view = Within::of(words, first_of(side), MAP_WORDS);
    let answer = insert(&mut view, key, value);
    same_at(rt, &answer, &Ok(was), "set", at);
    view.into_words()
}

// Takes a key out of a map, and tests the answer.
fn take_out(
    rt: &impl Abort,
    words: VecWords,
    side: Side,
    at: u64,
    key: u64,
    was: Option<u64>,
) -> VecWords
    requires { HasBoth (vec_sheet words) }
    ensures { HasBoth (vec_sheet result) }
{
    let mut view = Within::of(words, first_of(side), MAP_WORDS);
    let answer = remove(&mut view, key);
    same_at(rt, &answer, &Ok(was), "take out", at);
    view.into_words()
}

// Looks a key up in a map, and tests the answer.
fn look_up(
    rt: &impl Abort,
    words: VecWords,
    side: Side,
    at: u64,
    key: u64,
    is: Option<u64>,
) -> VecWords
    requires { HasBoth (vec_sheet words) }
    ensures { HasBoth (vec_sheet result) }
{
    let mut view = Within::of(words, first_of(side), MAP_WORDS);
    let answer = get(&mut view, key);
    same_at(rt, &answer, &Ok(is), "get", at);
    view.into_words()
}

// Puts a plain word before the maps, in a transaction of its own.
fn put_plain(rt: &impl Abort, words: VecWords, a: u32, w: u64) -> VecWords
    requires plain { a < 64 }
    requires both { HasBoth (vec_sheet words) }
    ensures { HasBoth (vec_sheet result) }
{
    let mut view = Within::of(words, 0, FRONT);
    view.start().expect(rt, "a start");
    view.put(a, w).expect(rt, "a put of a plain word");
    view.finish().expect(rt, "a finish");
    view.into_words()
}

// Tests words by their addresses in the whole.
fn check_words(rt: &impl Abort, words: &mut VecWords, wanted: &[(u32, u64)])
    requires { length (vec_sheet words.old).words ≡ 2048 }
    ensures { length (vec_sheet words.new).words ≡ 2048 }
{
    for i in 0..wanted.len() {
        let (a, w) = wanted[i];
        assert!(rt; a < WORDS);
        same_at(rt, &words.load(a), &Ok(w), "word", u64::from(a));
    }
}

// A leaf has its number of keys twice in its word 0, its keys from word 1 and its values from word 32. A map's head has the
// root plus 1 in word 0, the pieces ever handed out in word 2 and the number of pairs in word 3; its piece 0 is 64 words on.
const AFTER_TWO: [(u32, u64); 15] = [
    (5, 9),
    (63, 11),
    (FRONT, 1),
    (FRONT + 2, 1),
    (FRONT + 3, 1),
    (FRONT + 64, 2),
    (FRONT + 65, 7),
    (FRONT + 96, 70),
    (REAR, 1),
    (REAR + 2, 1),
    (REAR + 3, 1),
    (REAR + 64, 2),
    (REAR + 65, 7),
    (REAR + 96, 71),
    (PAST, 0),
];

#[test]
fn a_map_lies_in_its_range(rt: HostRuntime) {
    let words = two_maps(rt.alloc()).expect(&rt, "no room");
    let words = put_plain(&rt, words, 5, 9);
    let words = put_plain(&rt, words, 63, 11);
    let words = set(&rt, words, Side::Front, 1, (7, 70), None);
    let mut words = set(&rt, words, Side::Rear, 2, (7, 71), None);
    check_words(&rt, &mut words, &AFTER_TWO);
}

/// A call of a map, with its answer: a pair, or a key.
#[derive(Clone, Copy)]
enum Turn {
    Set(Side, (u64, u64), Option<u64>),
    TakeOut(Side, u64, Option<u64>),
    Get(Side, u64, Option<u64>),
}

fn check_turn(rt: &impl Abort, words: VecWords, at: u64, turn: Turn) -> VecWords
    requires { HasBoth (vec_sheet words) }
    ensures { HasBoth (vec_sheet result) }
{
    match turn {
        Turn::Set(side, pair, was) => set(rt, words, side, at, pair, was),
        Turn::TakeOut(side, key, was) => take_out(rt, words, side, at, key, was),
        Turn::Get(side, key, is) => look_up(rt, words, side, at, key, is),
    }
}

// Calls of both maps one after another.
fn check_turns(rt: &impl Abort, words: VecWords, turns: &[Turn]) -> VecWords
    requires { HasBoth (vec_sheet words) }
    ensures { HasBoth (vec_sheet result) }
{
    let mut words = words;
    for i in 0..turns.len() {
        words = check_turn(rt, words, i as u64, turns[i]);
    }
    words
}

const TURNS: [Turn; 13] = [
    Turn::Set(Side::Front, (7, 70), None),
    Turn::Set(Side::Rear, (7, 71), None),
    Turn::Set(Side::Front, (7, 72), Some(70)),
    Turn::Get(Side::Rear, 7, Some(71)),
    Turn::Get(Side::Front, 7, Some(72)),
    Turn::TakeOut(Side::Front, 7, Some(72)),
    Turn::Get(Side::Front, 7, None),
    Turn::Get(Side::Rear, 7, Some(71)),
    Turn::TakeOut(Side::Front, 7, None),
    Turn::Set(Side::Front, (8, 80), None),
    Turn::TakeOut(Side::Rear, 7, Some(71)),
    Turn::Get(Side::Front, 8, Some(80)),
    Turn::Get(Side::Rear, 8, None),
];

// The front map has one pair, and the rear one none, with its piece free.
const AFTER_TURNS: [(u32, u64); 8] = [
    (5, 9),
    (FRONT, 1),
    (FRONT + 3, 1),
    (REAR, 0),
    (REAR + 1, 1),
    (REAR + 2, 1),
    (REAR + 3, 0),
    (PAST, 0),
];

#[test]
fn two_maps_and_plain_words_stand_side_by_side(rt: HostRuntime) {
    let words = two_maps(rt.alloc()).expect(&rt, "no room");
    let words = put_plain(&rt, words, 5, 9);
    let mut words = check_turns(&rt, words, &TURNS);
    check_words(&rt, &mut words, &AFTER_TURNS);
}
