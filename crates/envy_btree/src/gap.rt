ghost use Rattle.std.specs.Prelude.{◌≡◌, ◌+◌, ◌*◌, ◌<◌, ◌≤◌, ◌/◌, ◌%◌, length, slice_index, OnOk, IsTrue};
ghost use Rattle.std.specs.List.{insert, remove};
ghost use Rattle.envy_array.specs.Words.{Spends, Works, Fails, has};
ghost use Rattle.envy_heap.specs.Pieces.{head, at, one};
ghost use Rattle.envy_btree.specs.Tree.{Shows};
ghost use Rattle.envy_btree.specs.Nodes.{OnlyPiece};
ghost use Rattle.envy_btree.specs.Spots.{Opens, Closes, keys_at, slots_at};

use crate::node::{kind_of, read_list, write_list};
use envy_array::Words;
use envy_base::{PAGE_WORDS, Trouble};

/// Puts a word at place `i` of the `n` words from `a` on, within one page. Those from there on move up by one.
pub(crate) fn open_gap<W: Words>(
    words: &mut W,
    a: u32,
    n: u32,
    i: u32,
    word: u64,
) -> Result<(), Trouble>
    requires begun { IsTrue (W.sheet words.old).started }
    requires within { a + (n + 1) ≤ length (W.sheet words.old).words }
    requires page { a % PAGE_WORDS + (n + 1) ≤ PAGE_WORDS }
    requires place { i ≤ n }
    requires room { length (W.sheet words.old).pages + 1 ≤ (W.sheet words.old).room }
    ensures works { Works 1 (W.sheet words.old) (W.sheet words.new) }
    ensures again { IsTrue (has (W.sheet words.old).pages (a / PAGE_WORDS))
        → Works 0 (W.sheet words.old) (W.sheet words.new) }
    ensures spends { Spends (n + 1) (W.sheet words.old) (W.sheet words.new) }
    ensures fails { Fails (W.sheet words.old) result (W.sheet words.new) }
    ensures gap { OnOk result (Opens (W.sheet words.old).words (W.sheet words.new).words a n i word) }
{
    let mut rear = read_list(words, a + i, n - i)?;
    rear.insert(0, word);
    write_list(words, a + i, &rear)
}

/// Takes out the word at place `i` of the `n` words from `a` on, within one page: those after it move down by one.
pub(crate) fn close_gap<W: Words>(words: &mut W, a: u32, n: u32, i: u32) -> Result<(), Trouble>
    requires begun { IsTrue (W.sheet words.old).started }
    requires within { a + n ≤ length (W.sheet words.old).words }
    requires page { a % PAGE_WORDS + n ≤ PAGE_WORDS }
    requires place { i < n }
    requires room { length (W.sheet words.old).pages + 1 ≤ (W.sheet words.old).room }
    ensures works { Works 1 (W.sheet words.old) (W.sheet words.new) }
    ensures again { IsTrue (has (W.sheet words.old).pages (a / PAGE_WORDS))
        → Works 0 (W.sheet words.old) (W.sheet words.new) }
    ensures spends { Spends n (W.sheet words.old) (W.sheet words.new) }
    ensures fails { Fails (W.sheet words.old) result (W.sheet words.new) }
    ensures gap { OnOk result (Closes (W.sheet words.old).words (W.sheet words.new).words a n i) }
{
    let rear = read_list(words, a + i + 1, n - i - 1)?;
    write_list(words, a + i, &rear)
}

/// Gives the node in a piece one key more, at place `i`, and one value or child more, at place `j`. The words from
/// there on are put, and the count.
pub(crate) fn widen<W: Words>(
    words: &mut W,
    piece: u32,
    inner: bool,
    keys: u32,
    i: u32,
    key: u64,
    j: u32,
    slot: u64,
) -> Result<(), Trouble>
    requires begun { IsTrue (W.sheet words.old).started }
    requires within { at piece 63 < length (W.sheet words.old).words }
    requires count { slice_index (W.sheet words.old).words (head piece) ≡ 2 * keys + one inner }
    requires few { keys ≤ 30 }
    requires place { i ≤ keys }
    requires slot_place { j ≤ keys + one inner }
    requires room { length (W.sheet words.old).pages + 2 ≤ (W.sheet words.old).room }
    ensures works { Works 2 (W.sheet words.old) (W.sheet words.new) }
    ensures spends { Spends 64 (W.sheet words.old) (W.sheet words.new) }
    ensures fails { Fails (W.sheet words.old) result (W.sheet words.new) }
    ensures node { OnOk result (Shows (W.sheet words.new).words piece (one inner)
        (insert (keys_at (W.sheet words.old).words piece) i key)
        (insert (slots_at (W.sheet words.old).words piece) j slot)) }
    ensures only { OnOk result (OnlyPiece piece (W.sheet words.old).words (W.sheet words.new).words) }
{
    let kind = kind_of(inner);
    words.put(64 + 64 * piece, 2 * (u64::from(keys) + 1) + kind)?;
    open_gap(words, 64 + 64 * piece + 1, keys, i, key)?;
    open_gap(words, 64 + 64 * piece + 32, keys + kind as u32, j, slot)
}

/// Takes the key at place `i` out of the node in a piece, and its value or child at place `j`. The words from there
/// on are put, and the count.
pub(crate) fn narrow<W: Words>(
    words: &mut W,
    piece: u32,
    inner: bool,
    keys: u32,
    i: u32,
    j: u32,
) -> Result<(), Trouble>
    requires begun { IsTrue (W.sheet words.old).started }
    requires within { at piece 63 < length (W.sheet words.old).words }
    requires count { slice_index (W.sheet words.old).words (head piece) ≡ 2 * keys + one inner }
    requires few { keys ≤ 31 }
    requires place { i < keys }
    requires slot_place { j < keys + one inner }
    requires room { length (W.sheet words.old).pages + 2 ≤ (W.sheet words.old).room }
    ensures works { Works 2 (W.sheet words.old) (W.sheet words.new) }
    ensures spends { Spends 64 (W.sheet words.old) (W.sheet words.new) }
    ensures fails { Fails (W.sheet words.old) result (W.sheet words.new) }
    ensures node { OnOk result (Shows (W.sheet words.new).words piece (one inner)
        (remove (keys_at (W.sheet words.old).words piece) i) (remove (slots_at (W.sheet words.old).words piece) j)) }
    ensures only { OnOk result (OnlyPiece piece (W.sheet words.old).words (W.sheet words.new).words) }
{
    let kind = kind_of(inner);
    words.put(64 + 64 * piece, 2 * (u64::from(keys) - 1) + kind)?;
    close_gap(words, 64 + 64 * piece + 1, keys, i)?;
    close_gap(words, 64 + 64 * piece + 32, keys + kind as u32, j)
}
