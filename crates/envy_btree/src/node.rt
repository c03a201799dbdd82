ghost use Rattle.std.specs.Prelude.{◌≡◌, ℕ, List, ◌<◌, ◌≤◌, ◌+◌, ◌↔◌, length, IfOk, OnOk, MatchResult, IsTrue, ◌%◌, ◌/◌, false, slice_index, slice_set};
ghost use Rattle.arrayvec.specs.ArrayVec.{array_vec_len};
ghost use Rattle.envy_array.specs.Words.{Spends, Works, OnPage, Fails, pasted};
ghost use Rattle.envy_heap.specs.Pieces.{head, at, one};
ghost use Rattle.envy_btree.specs.Tree.{window, Shows, Rising, keys_of, values_of};
ghost use Rattle.envy_btree.specs.Nodes.{IsRead, OnlyPiece, Ranks, IsSet, IsDropped};

use arrayvec::ArrayVec;
use envy_array::Words;
use envy_base::{Off, PAGE_WORDS, Trouble};

/// A node of the tree: its keys, and its values or children.
#[derive(Drop)]
pub(crate) struct Node {
    pub(crate) inner: bool,
    pub(crate) keys: ArrayVec<u64, 64>,
    pub(crate) slots: ArrayVec<u64, 64>,
}

impl Node {
    /// A key.
    pub(crate) fn key(&self, i: usize) -> u64
        requires { i < length self.now.keys.items }
        ensures { result ≡ slice_index self.now.keys.items i }
    {
        self.keys[i]
    }

    /// A value, or a child.
    pub(crate) fn slot(&self, i: usize) -> u64
        requires { i < length self.now.slots.items }
        ensures { result ≡ slice_index self.now.slots.items i }
    {
        self.slots[i]
    }

    /// Another key.
    pub(crate) fn set_key(&mut self, i: usize, key: u64)
        requires { i < length self.old.keys.items }
        ensures keys { self.new.keys.items ≡ slice_set self.old.keys.items i key }
        ensures slots { self.new.slots.items ≡ self.old.slots.items }
        ensures kind { self.new.inner ≡ self.old.inner }
    {
        self.keys[i] = key;
    }

    /// Another value, or another child.
    pub(crate) fn set_slot(&mut self, i: usize, slot: u64)
        requires { i < length self.old.slots.items }
        ensures slots { self.new.slots.items ≡ slice_set self.old.slots.items i slot }
        ensures keys { self.new.keys.items ≡ self.old.keys.items }
        ensures kind { self.new.inner ≡ self.old.inner }
    {
        self.slots[i] = slot;
    }
}

// The most words of a list.
const MOST_LISTED: usize = 64;

/// The `n` words from `a` on.
pub(crate) fn read_list<W: Words>(words: &mut W, a: u32, n: u32) -> Result<ArrayVec<u64, 64>, Off>
    requires few { n ≤ 64 }
    requires within { a + n ≤ length (W.sheet words.old).words }
    ensures works { Works 0 (W.sheet words.old) (W.sheet words.new) }
    ensures spends { Spends 0 (W.sheet words.old) (W.sheet words.new) }
    ensures list { IfOk result (λ v. v.items ≡ window (W.sheet words.old).words a n) }
    ensures same { OnOk result ((W.sheet words.new).words ≡ (W.sheet words.old).words) }
    ensures power { MatchResult result (λ _. IsTrue (W.sheet words.old).on → IsTrue (W.sheet words.new).on)
        (λ _. (W.sheet words.new).on ≡ false) }
{
    let mut read = [0; MOST_LISTED];
    let run = &mut read[..n as usize];
    words.load_run(a, run)?;
    let mut list = ArrayVec::new();
    let Ok(()) = list.try_extend_from_slice(run) else {
        unreachable!();
    };
    Ok(list)
}

/// The node in a piece.
pub(crate) fn read_node<W: Words>(words: &mut W, piece: u32) -> Result<Node, Off>
    requires within { at piece 63 < length (W.sheet words.old).words }
    requires few { slice_index (W.sheet words.old).words (head piece) < 64 }
    ensures works { Works 0 (W.sheet words.old) (W.sheet words.new) }
    ensures spends { Spends 0 (W.sheet words.old) (W.sheet words.new) }
    ensures node { IfOk result (λ x. IsRead (W.sheet words.old).words piece x.inner x.keys.items x.slots.items) }
    ensures same { OnOk result ((W.sheet words.new).words ≡ (W.sheet words.old).words) }
    ensures power { MatchResult result (λ _. IsTrue (W.sheet words.new).on) (λ _. (W.sheet words.new).on ≡ false) }
{
    let count = words.load(64 + 64 * piece)?;
    let keys = read_list(words, 64 + 64 * piece + 1, (count / 2) as u32)?;
    let slots = read_list(words, 64 + 64 * piece + 32, (count / 2 + count % 2) as u32)?;
    Ok(Node {
        inner: count % 2 == 1,
        keys,
        slots,
    })
}

/// Writes the list from `a` on, within one page.
pub(crate) fn write_list<W: Words>(words: &mut W, a: u32, list: &[u64]) -> Result<(), Trouble>
    requires begun { IsTrue (W.sheet words.old).started }
    requires within { a + length list.now ≤ length (W.sheet words.old).words }
    requires page { a % PAGE_WORDS + length list.now ≤ PAGE_WORDS }
    requires room { length (W.sheet words.old).pages + 1 ≤ (W.sheet words.old).room }
    ensures works { OnPage (a / PAGE_WORDS) (W.sheet words.old) (W.sheet words.new) }
    ensures spends { Spends (length list.now) (W.sheet words.old) (W.sheet words.new) }
    ensures fails { Fails (W.sheet words.old) result (W.sheet words.new) }
    ensures list { OnOk result
        ((W.sheet words.new).words ≡ pasted a list.now (length list.now) (W.sheet words.old).words) }
{
    words.put_run(a, list)
}

/// Writes a node into a piece.
pub(crate) fn write_node<W: Words>(
    words: &mut W,
    piece: u32,
    inner: bool,
    keys: &[u64],
    slots: &[u64],
) -> Result<(), Trouble>
    requires begun { IsTrue (W.sheet words.old).started }
    requires within { at piece 63 < length (W.sheet words.old).words }
    requires keys { length keys.now ≤ 31 }
    requires slots { length slots.now ≤ 32 }
    requires room { length (W.sheet words.old).pages + 2 ≤ (W.sheet words.old).room }
    ensures works { Works 2 (W.sheet words.old) (W.sheet words.new) }
    ensures spends { Spends 64 (W.sheet words.old) (W.sheet words.new) }
    ensures fails { Fails (W.sheet words.old) result (W.sheet words.new) }
    ensures node { OnOk result (Shows (W.sheet words.new).words piece (one inner) keys.now slots.now) }
    ensures only { OnOk result (OnlyPiece piece (W.sheet words.old).words (W.sheet words.new).words) }
{
    let kind = kind_of(inner);
    words.put(64 + 64 * piece, 2 * keys.len() as u64 + kind)?;
    write_list(words, 64 + 64 * piece + 1, keys)?;
    write_list(words, 64 + 64 * piece + 32, slots)?;
    Ok(())
}

/// 0 for a leaf, 1 for an inner node.
pub(crate) fn kind_of(inner: bool) -> u64
    ensures { result ≡ one inner }
{
    if inner { 1 } else { 0 }
}

/// Sets the value of a key in a leaf, at its place.
pub(crate) fn set_pair(node: &mut Node, i: usize, key: u64, value: u64)
    requires few { length node.old.keys.items ≤ 62 }
    requires long { length node.old.slots.items ≡ length node.old.keys.items }
    requires place { Ranks key node.old.keys.items i }
    ensures kind { node.new.inner ≡ node.old.inner }
    ensures few { length node.new.keys.items ≤ length node.old.keys.items + 1 }
    ensures long { length node.new.slots.items ≡ length node.new.keys.items }
    ensures pairs { (low high : ℕ) (es : List (ℕ × ℕ)) → Rising low high es → node.old.keys.items ≡ keys_of es
        → node.old.slots.items ≡ values_of es → IsSet key value es node.new.keys.items node.new.slots.items }
{
    if i > 0 && node.key(i - 1) == key {
        node.set_slot(i - 1, value);
        return;
    }
    node.keys.insert(i, key);
    node.slots.insert(i, value);
}

/// Takes a key out of a leaf, where it has it at its place.
pub(crate) fn drop_pair(node: &mut Node, i: usize, key: u64)
    requires long { length node.old.slots.items ≡ length node.old.keys.items }
    requires place { Ranks key node.old.keys.items i }
    ensures kind { node.new.inner ≡ node.old.inner }
    ensures few { length node.new.keys.items ≤ length node.old.keys.items }
    ensures long { length node.new.slots.items ≡ length node.new.keys.items }
    ensures pairs { (low high : ℕ) (es : List (ℕ × ℕ)) → Rising low high es → node.old.keys.items ≡ keys_of es
        → node.old.slots.items ≡ values_of es → IsDropped key es node.new.keys.items node.new.slots.items }
{
    if i > 0 && node.key(i - 1) == key {
        node.keys.remove(i - 1);
        node.slots.remove(i - 1);
    }
}
