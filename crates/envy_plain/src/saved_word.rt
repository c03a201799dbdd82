ghost use Rattle.std.specs.Prelude.{◌≡◌, ◌≢◌, ◌+◌, ◌*◌, ◌/◌, ◌^◌, ◌<◌, ◌≤◌, ℕ, length, All, Any, AllPairs, MatchOption, None, is_some, count_by, slice_index_or, filter, not, vec_capacity, ◌==◌, if◌then◌else◌};
ghost use Rattle.envy_array.specs.Array.{saves_in, put_back};
ghost use Rattle.envy_plain.specs.Fields.{saved_by};

use envy_base::PAGE_WORDS;

/// A word that an open slot has stored over, as it was before.
#[derive(Clone, Copy)]
pub(crate) struct SavedWord {
    pub(crate) slot: u8,
    pub(crate) address: u32,
    pub(crate) before: u64,
}

/// The word that stood at an address before an open slot stored there, if one did.
pub(crate) fn word_before(saved: &[SavedWord], address: u32) -> Option<u64>
    ensures { MatchOption result
        (All (λ e. e.address ≢ address) saved.now)
        (λ w. Any (λ e. (e.address ≡ address) × (e.before ≡ w)) saved.now) }
{
    for word in saved {
        if word.address == address {
            return Some(word.before);
        }
    }
    None
}

/// Puts back the words that a slot has stored over.
pub(crate) fn restore(words: &mut [u64], saved: &[SavedWord], slot: u8)
    requires in_range { All (λ e. e.address < length words.old) saved.now }
    requires once { AllPairs (λ d e. d.address ≢ e.address) saved.now }
    ensures { words.new ≡ put_back (saved_by slot saved.now) words.old }
{
    for word in saved {
        if word.slot == slot {
            words[word.address as usize] = word.before;
        }
    }
}

/// Takes the pages of a slot's saved words from their owner, and answers how many these are.
pub(crate) fn release(owners: &mut [Option<u8>], saved: &[SavedWord], slot: u8) -> u32
    requires in_range { All (λ e. e.address / PAGE_WORDS < length owners.old) saved.now }
    requires few { count_by is_some owners.old < 2 ^ 32 }
    ensures count { result + count_by is_some owners.new ≡ count_by is_some owners.old }
    ensures owners { (p : ℕ) → slice_index_or owners.new p None
        ≡ (if saves_in p (saved_by slot saved.now) then None else slice_index_or owners.old p None) }
{
    let mut pages = 0;
    for word in saved {
        let page = (word.address / PAGE_WORDS) as usize;
        if word.slot == slot && owners[page].is_some() {
            owners[page] = None;
            pages += 1;
        }
    }
    pages
}

/// Drops a slot's saved words. The others stay in their order.
pub(crate) fn forget(saved: &mut Vec<SavedWord>, slot: u8)
    ensures items { saved.new.items ≡ filter (λ e. not (e.slot == slot)) saved.old.items }
    ensures room { vec_capacity saved.new ≡ vec_capacity saved.old }
{
    saved.retain(|word| word.slot != slot);
}
