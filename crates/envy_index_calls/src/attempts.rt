// Changes in a range of words within their open transaction, which is undone if a flash operation fails.
ghost use Rattle.std.specs.Prelude.{◌≡◌, ◌+◌, ◌≤◌, ℕ, List, [], length, IsTrue, OnOk, None, Ok};
ghost use Rattle.envy_array.specs.Words.{Spends};
ghost use Rattle.envy_btree.specs.Depths.{dropping_puts, insertion_pages, insertion_puts, removal_pages};
ghost use Rattle.envy_btree.specs.Index.{IsIndex};
ghost use Rattle.envy_btree.specs.Within.{InsertsWithin, RemovesWithin};
ghost use Rattle.envy_index_calls.specs.Attempts.{Attempts, HasFailed, IsRoomless, Settles, Steady, view_of};
ghost use Rattle.envy_index_calls.specs.Ranged.{marked};
ghost use Rattle.envy_index_calls.specs.Ranges.{IsRange};

use crate::creation::mark_blank;
use crate::ranges::EnvyMap;
use envy_array::Words;
use envy_base::Trouble;
use envy_btree::{ChangeFault, insert_within, remove_within};
use envy_range::Within;

// What is left of an attempt that failed: after `Bad` its transaction is undone, in which power may fail.
fn settle<W: Words>(words: &mut W, fault: ChangeFault) -> ChangeFault
    requires { HasFailed fault (W.sheet words.old) }
    ensures steady { Steady (W.sheet words.old) (W.sheet words.new) }
    ensures spends { Spends 0 (W.sheet words.old) (W.sheet words.new) }
    ensures settles { Settles fault (W.sheet words.old) result (W.sheet words.new) }
{
    if fault == ChangeFault::Bad && words.undo().is_err() {
        return ChangeFault::Off;
    }
    fault
}

/// Sets the value of a key of the map in a range. The transaction may put words in `left` pages more.
pub fn insert_in<W: Words>(
    words: W,
    range: EnvyMap,
    key: u64,
    value: u64,
    left: u32,
) -> (W, Result<Option<u64>, ChangeFault>)
    requires begun { IsTrue (W.sheet words).started }
    requires room { length (W.sheet words).pages + left ≤ (W.sheet words).room }
    requires range { IsRange range (length (W.sheet words).words) }
    requires map { (es : List (ℕ × ℕ)) × IsIndex (view_of range (W.sheet words)).words es }
    ensures steady { Steady (W.sheet words) (W.sheet result.0) }
    ensures spends { Spends (insertion_puts range.words) (W.sheet words) (W.sheet result.0) }
    ensures attempts { Attempts range (W.sheet words) result.1 (W.sheet result.0) }
    ensures inserts { (es : List (ℕ × ℕ)) → IsIndex (view_of range (W.sheet words)).words es
        → InsertsWithin key value es insertion_pages left (view_of range (W.sheet words)) result.1 (view_of range (W.sheet result.0)) }
{
    let mut view = Within::of(words, range.first, range.words);
    let inserted = insert_within(&mut view, key, value, left);
    let mut words = view.into_words();
    match inserted {
        Ok(was) => (words, Ok(was)),
        Err(fault) => {
            let fault = settle(&mut words, fault);
            (words, Err(fault))
        }
    }
}

/// Takes a key out of the map in a range.
pub fn remove_in<W: Words>(
    words: W,
    range: EnvyMap,
    key: u64,
    left: u32,
) -> (W, Result<Option<u64>, ChangeFault>)
    requires begun { IsTrue (W.sheet words).started }
    requires room { length (W.sheet words).pages + left ≤ (W.sheet words).room }
    requires range { IsRange range (length (W.sheet words).words) }
    requires map { (es : List (ℕ × ℕ)) × IsIndex (view_of range (W.sheet words)).words es }
    ensures steady { Steady (W.sheet words) (W.sheet result.0) }
    ensures spends { Spends (dropping_puts range.words) (W.sheet words) (W.sheet result.0) }
    ensures absent { result.1 ≡ Ok None → (W.sheet result.0).words ≡ (W.sheet words).words }
    ensures attempts { Attempts range (W.sheet words) result.1 (W.sheet result.0) }
    ensures removes { (es : List (ℕ × ℕ)) → IsIndex (view_of range (W.sheet words)).words es
        → RemovesWithin key es removal_pages left (view_of range (W.sheet words)) result.1 (view_of range (W.sheet result.0)) }
{
    let mut view = Within::of(words, range.first, range.words);
    let removed = remove_within(&mut view, key, left);
    let mut words = view.into_words();
    match removed {
        Ok(was) => (words, Ok(was)),
        Err(fault) => {
            let fault = settle(&mut words, fault);
            (words, Err(fault))
        }
    }
}

/// Makes a map of no pairs in a range, whatever its words are.
pub fn create_in<W: Words>(words: W, range: EnvyMap, left: u32) -> (W, Result<(), ChangeFault>)
    requires begun { IsTrue (W.sheet words).started }
    requires room { length (W.sheet words).pages + left ≤ (W.sheet words).room }
    requires range { IsRange range (length (W.sheet words).words) }
    ensures steady { Steady (W.sheet words) (W.sheet result.0) }
    ensures spends { Spends 5 (W.sheet words) (W.sheet result.0) }
    ensures attempts { Attempts range (W.sheet words) result.1 (W.sheet result.0) }
    ensures refused { IsRoomless left result.1 }
    ensures marks { OnOk result.1 ((view_of range (W.sheet result.0)).words ≡ marked (view_of range (W.sheet words)).words) }
{
    if left == 0 {
        return (words, Err(ChangeFault::Room));
    }
    let mut view = Within::of(words, range.first, range.words);
    let marked = mark_blank(&mut view);
    let mut words = view.into_words();
    match marked {
        Ok(()) => (words, Ok(())),
        Err(Trouble::Off) => (words, Err(ChangeFault::Off)),
        Err(Trouble::Bad) => {
            let fault = settle(&mut words, ChangeFault::Bad);
            (words, Err(fault))
        }
    }
}
