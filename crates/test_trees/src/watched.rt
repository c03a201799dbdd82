//! What no clause says of the tree's calls: how many transactions they are, and how many nodes a `get` reads.
ghost use Rattle.std.specs.Prelude.{◌≡◌, ◌≤◌, ◌<◌, ◌^◌, IfOk};
ghost use Rattle.envy_heap.specs.Vectors.{vec_sheet};
ghost use Rattle.envy_btree.specs.Testing.{IsReady};

use crate::told::same_at;
use envy_array::Words;
use envy_base::{NoMemory, Off, Trouble};
use envy_btree::{LookFault, TreeFault, get, insert, remove};
use envy_heap::VecWords;
use std::alloc::Global;
use std::process::Abort;

// What was seen of the calls: how often a load went to another piece than the load before it, and the
// calls that open and close transactions.
#[derive(Clone, Copy)]
struct Seen {
    moves: u32,
    starts: u32,
    finishes: u32,
    undos: u32,
}

// no load outside the head, and no transaction
const NOTHING: Seen = Seen {
    moves: 0,
    starts: 0,
    finishes: 0,
    undos: 0,
};

// one transaction that is kept, whatever it loads
const ONE_CHANGE: (u32, u32, u32) = (1, 1, 0);

const NO_CHANGE: (u32, u32, u32) = (0, 0, 0);

impl Seen {
    fn transactions(self) -> (u32, u32, u32) {
        (self.starts, self.finishes, self.undos)
    }
}

// Words that note the calls. The last load was in the 64 words of this number: those of the head are 0.
#[derive(Drop)]
struct Watched {
    words: VecWords,
    last: u32,
    seen: Seen,
}

impl Watched {
    // Forgets what was seen, as if the last load had been in the head.
    fn forget(&mut self)
        ensures { self.new.words ≡ self.old.words }
    {
        self.last = 0;
        self.seen = NOTHING;
    }
}

impl Words for Watched {
    ghost sheet = { λ w. vec_sheet w.words };

    ghost lawful = { λ w. w.words.sound };

    fn size(&self) -> u32 {
        self.words.size()
    }

    fn room(&self) -> u32 {
        self.words.room()
    }

    fn load(&mut self, a: u32) -> Result<u64, Off> {
        let place = a / 64;
        if place != self.last {
            self.last = place;
            self.seen.moves = self.seen.moves.wrapping_add(1);
        }
        self.words.load(a)
    }

    fn start(&mut self) -> Result<(), Off> {
        self.seen.starts = self.seen.starts.wrapping_add(1);
        self.words.start()
    }

    fn put(&mut self, a: u32, w: u64) -> Result<(), Trouble> {
        self.words.put(a, w)
    }

    fn finish(&mut self) -> Result<(), Off> {
        self.seen.finishes = self.seen.finishes.wrapping_add(1);
        self.words.finish()
    }

    fn undo(&mut self) -> Result<(), Off> {
        self.seen.undos = self.seen.undos.wrapping_add(1);
        self.words.undo()
    }
}

fn watched_index(alloc: Global, size: u32) -> Result<Watched, NoMemory>
    requires least { 640 ≤ size }
    requires most { size ≤ 2 ^ 29 }
    ensures { IfOk result (λ watched. IsReady (vec_sheet watched.words)) }
{
    let words = VecWords::new(alloc, size, 32)?;
    Ok(Watched {
        words,
        last: 0,
        seen: NOTHING,
    })
}

fn value_of(words: &mut Watched, key: u64) -> Result<Option<u64>, LookFault>
    requires { IsReady (vec_sheet words.old.words) }
    ensures { IsReady (vec_sheet words.new.words) }
{
    words.forget();
    get(words, key)
}

fn set(words: &mut Watched, key: u64, value: u64) -> Result<Option<u64>, TreeFault>
    requires { IsReady (vec_sheet words.old.words) }
    ensures { IsReady (vec_sheet words.new.words) }
{
    words.forget();
    insert(words, key, value)
}

fn take_out(words: &mut Watched, key: u64) -> Result<Option<u64>, TreeFault>
    requires { IsReady (vec_sheet words.old.words) }
    ensures { IsReady (vec_sheet words.new.words) }
{
    words.forget();
    remove(words, key)
}

// A look at a key opens no transaction, and reads one node on each level.
fn looks(rt: &impl Abort, words: &mut Watched, key: u64, want: Option<u64>, levels: u32)
    requires { IsReady (vec_sheet words.old.words) }
    ensures { IsReady (vec_sheet words.new.words) }
{
    same_at(rt, &value_of(words, key), &Ok(want), "get", key);
    let seen = words.seen;
    let (moves, made) = (seen.moves, seen.transactions());
    same_at(rt, &(moves, made), &(levels, NO_CHANGE), "seen of get", key);
}

// An insert of a key, new or present, is one transaction.
fn sets(rt: &impl Abort, words: &mut Watched, key: u64, value: u64, was: Option<u64>)
    requires { IsReady (vec_sheet words.old.words) }
    ensures { IsReady (vec_sheet words.new.words) }
{
    same_at(rt, &set(words, key, value), &Ok(was), "insert", key);
    let seen = words.seen.transactions();
    same_at(rt, &seen, &ONE_CHANGE, "seen of insert", key);
}

// An insert that is full opens none: that the map has no room is known before.
fn is_full_for(rt: &impl Abort, words: &mut Watched, key: u64)
    requires { IsReady (vec_sheet words.old.words) }
    ensures { IsReady (vec_sheet words.new.words) }
{
    let full = Err(TreeFault::Full);
    same_at(rt, &set(words, key, 0), &full, "insert", key);
    let seen = words.seen.transactions();
    same_at(rt, &seen, &NO_CHANGE, "seen of insert", key);
}

// The removal of a key is one transaction.
fn takes_out(rt: &impl Abort, words: &mut Watched, key: u64, was: u64)
    requires { IsReady (vec_sheet words.old.words) }
    ensures { IsReady (vec_sheet words.new.words) }
{
    same_at(rt, &take_out(words, key), &Ok(Some(was)), "remove", key);
    let seen = words.seen.transactions();
    same_at(rt, &seen, &ONE_CHANGE, "seen of remove", key);
}

// The removal of a key that the map doesn't have opens none.
fn misses(rt: &impl Abort, words: &mut Watched, key: u64)
    requires { IsReady (vec_sheet words.old.words) }
    ensures { IsReady (vec_sheet words.new.words) }
{
    same_at(rt, &take_out(words, key), &Ok(None), "remove", key);
    let seen = words.seen.transactions();
    same_at(rt, &seen, &NO_CHANGE, "seen of remove", key);
}

// Fills a map with all the pairs that it may have, which make so many levels, and empties it.
fn fills_and_empties(rt: &impl Abort, alloc: Global, size: u32, pairs: u64, levels: u32)
    requires least { 640 ≤ size }
    requires most { size ≤ 2 ^ 29 }
    requires few { pairs < 10000 }
{
    let mut words = watched_index(alloc, size).expect(rt, "no room");
    looks(rt, &mut words, 1, None, 0);
    misses(rt, &mut words, 1);
    for i in 0..pairs {
        sets(rt, &mut words, 2 * i, i, None);
    }
    is_full_for(rt, &mut words, 1);
    for i in 0..pairs {
        looks(rt, &mut words, 2 * i, Some(i), levels);
        looks(rt, &mut words, 2 * i + 1, None, levels);
        sets(rt, &mut words, 2 * i, i + 7, Some(i));
        misses(rt, &mut words, 2 * i + 1);
    }
    for i in 0..pairs {
        takes_out(rt, &mut words, 2 * i, i + 7);
    }
    looks(rt, &mut words, 0, None, 0);
}

// However a map was filled, its leaves have 15 to 31 pairs and its inner nodes 16 to 32 children, but
// a root that is a leaf has any number up to 31, and an inner root 2 children at least. So
//
//     1 level has at most 31 pairs,
//     2 levels have 2 * 15 = 30 to 32 * 31 = 992,
//     3 levels have 2 * 16 * 15 = 480 to 32 * 32 * 31 = 31744,
//     4 levels have 2 * 16 * 16 * 15 = 7680 at least,
//
// and a map of 1 to 29 pairs has 1 level, one of 32 to 479 has 2, and one of 993 to 7679 has 3. A map
// in `64 + 64 * q` words may have `14 * (q - 8)` pairs: 14 with 9 pieces, 42 with 11, 476 with 42 and
// 994 with 79.
#[test]
fn a_get_reads_one_node_a_level_and_a_change_is_one_transaction(rt: HostRuntime) {
    fills_and_empties(&rt, rt.alloc(), 640, 14, 1);
    fills_and_empties(&rt, rt.alloc(), 768, 42, 2);
    fills_and_empties(&rt, rt.alloc(), 2752, 476, 2);
    fills_and_empties(&rt, rt.alloc(), 5120, 994, 3);
}
