ghost use Rattle.std.specs.Prelude.{◌≡◌, ◌≤◌, ◌+◌, ℕ, List, false, length};
ghost use Rattle.envy_array.specs.Words.{IsSheet, Keeps, Sheet, Works};
ghost use Rattle.envy_range.specs.Ranges.{inside, outside, within, IsApart, Stays};

/// If the words outside a range stay, those of each range that doesn't overlap it do.
pub fn ranges_apart_never_touch()
    ensures { (first count other size : ℕ) (old new : List ℕ) → IsApart first count other size
        → first + count ≤ length old → length new ≡ length old → outside first count new ≡ outside first count old
        → inside other size new ≡ inside other size old }
{}

/// Work within a transaction through a view leaves the words outside its range, whatever the transaction
/// did to them, and what is kept of them.
pub fn work_leaves_what_is_outside()
    ensures { (first count other size k : ℕ) (old new : Sheet) → IsSheet old → IsSheet new
        → Works k (within first count old) (within other size new)
        → (other ≡ first) × (size ≡ count) × Stays first count old new }
{}

/// A call through a view that begins and ends transactions of its own leaves the words outside its
/// range, if no transaction was open.
pub fn calls_leave_what_is_outside()
    ensures { (first count other size : ℕ) (old new : Sheet) → IsSheet old → IsSheet new → old.started ≡ false
        → Keeps (within first count old) (within other size new)
        → (other ≡ first) × (size ≡ count) × Stays first count old new
        × (outside first count new.words ≡ outside first count old.words) }
{}
