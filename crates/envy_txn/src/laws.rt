ghost use Rattle.std.specs.Prelude.{◌≡◌, ◌≢◌, ℕ, false, List, [], Option, None, Some, AllPairs, length, count_by, slice_index_or, slice_set};
ghost use Rattle.envy_base.specs.declared.fields.Slot.{Slot};
ghost use Rattle.envy_base.specs.declared.fields.Slot.TheVariants.{Active, Committed};
ghost use Rattle.envy_base.specs.declared.fields.Undo.{Undo};
ghost use Rattle.envy_map.specs.Fields.{Fields, Chart};
ghost use Rattle.envy_soundness.specs.Same.{Framed};
ghost use Rattle.envy_soundness.specs.Sound.{Names, owned_by, slot_named};
ghost use Rattle.envy_txn.specs.declared.pair.Pair.{Pair};
ghost use Rattle.envy_txn.specs.Ending.{Releases, Restores, Settles};
ghost use Rattle.envy_txn.specs.Owners.{AreApart, AreOwned};

/// As many pages are owned as have an undo of an active slot.
pub fn owners_are_counted()
    ensures { (slots : List (Option Slot)) (undos : List (Option Undo)) (pairs : List Pair)
        → AllPairs AreApart pairs → AreOwned slots undos pairs → length pairs ≡ count_by (owned_by slots) undos }
{}

/// What changes no owner leaves the pairs as they are. Where no undo is of an active slot there are none.
pub fn owners_stay()
    ensures framed { (old new : Chart) (pairs : List Pair) → Framed old new
        → AreOwned old.fields.slots old.fields.undos pairs → AreOwned new.fields.slots new.fields.undos pairs }
    ensures none { (slots : List (Option Slot)) (undos : List (Option Undo))
        → ((p : ℕ) → owned_by slots (slice_index_or undos p None) ≡ false) → AreOwned slots undos [] }
{}

/// A slot that no undo names may change: the pairs stay. And where an active slot has committed, the slots
/// are those of before as if it were active.
pub fn a_slot_that_is_unused_owns_nothing()
    ensures unused { (slots : List (Option Slot)) (undos : List (Option Undo)) (pairs : List Pair) (t : ℕ)
        (x : Option Slot)
        → ((p : ℕ) → slot_named (slice_index_or undos p None) ≢ Some t) → AreOwned slots undos pairs
        → AreOwned (slice_set slots t x) undos pairs }
    ensures committed { (slots : List (Option Slot)) (t : ℕ) → slice_index_or slots t None ≡ Some Active
        → slice_set (slice_set slots t (Some Committed)) t (Some Active) ≡ slots }
{}

/// The end of a transaction, or a restart, lets no page name a row that it didn't name before.
pub fn an_end_names_no_row_anew()
    ensures released { (t : ℕ) (old new : Chart) → Releases t old new → (p q : ℕ) → Names new.fields p q
        → Names old.fields p q }
    ensures restored { (t : ℕ) (old new : Chart) → Restores t old new → (p q : ℕ) → Names new.fields p q
        → Names old.fields p q }
    ensures settled { (old new : Chart) → Settles old new → (p q : ℕ) → Names new.fields p q → Names old.fields p q }
{}
