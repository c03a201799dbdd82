ghost use Rattle.std.specs.Prelude.{◌≡◌, ◌≢◌, ℕ, List, Option, None, Some, slice_index_or, slice_set};
ghost use Rattle.envy_base.specs.declared.fields.Place.{Place};
ghost use Rattle.envy_base.specs.declared.fields.Place.TheVariants.{Row};
ghost use Rattle.envy_base.specs.declared.fields.Slot.{Slot};
ghost use Rattle.envy_base.specs.declared.fields.Slot.TheVariants.{Active};
ghost use Rattle.envy_base.specs.declared.fields.Undo.{Undo};
ghost use Rattle.envy_base.specs.declared.fields.Undo.TheVariants.{Shadow};
ghost use Rattle.envy_soundness.specs.Naming.{AreParted};
ghost use Rattle.envy_soundness.specs.Sound.{slot_named};

/// That the place and the active undo of one page never name one row is kept by each kind of write: a
/// place becomes a row, or none; an undo names a row, or none; a slot that no undo names becomes any; a
/// slot becomes one that isn't active.
pub fn place_and_undo_stay_parted()
    ensures rowed { (slots : List (Option Slot)) (undos : List (Option Undo)) (places : List (Option Place)) (p q : ℕ)
        → AreParted slots undos places
        → ((t : ℕ) → slice_index_or undos p None ≡ Some (Shadow t q) → slice_index_or slots t None ≢ Some Active)
        → AreParted slots undos (slice_set places p (Some (Row q))) }
    ensures placed { (slots : List (Option Slot)) (undos : List (Option Undo)) (places : List (Option Place)) (p : ℕ)
        (x : Option Place) → AreParted slots undos places
        → ((q : ℕ) → x ≢ Some (Row q)) → AreParted slots undos (slice_set places p x) }
    ensures shaded { (slots : List (Option Slot)) (undos : List (Option Undo)) (places : List (Option Place))
        (p s q : ℕ) → AreParted slots undos places
        → slice_index_or places p None ≢ Some (Row q) → AreParted slots (slice_set undos p (Some (Shadow s q))) places }
    ensures unshaded { (slots : List (Option Slot)) (undos : List (Option Undo)) (places : List (Option Place)) (p : ℕ)
        (u : Option Undo) → AreParted slots undos places
        → ((t q : ℕ) → u ≢ Some (Shadow t q)) → AreParted slots (slice_set undos p u) places }
    ensures unused { (slots : List (Option Slot)) (undos : List (Option Undo)) (places : List (Option Place)) (t : ℕ)
        (x : Option Slot) → AreParted slots undos places
        → ((p : ℕ) → slot_named (slice_index_or undos p None) ≢ Some t) → AreParted (slice_set slots t x) undos places }
    ensures closed { (slots : List (Option Slot)) (undos : List (Option Undo)) (places : List (Option Place)) (t : ℕ)
        (x : Option Slot) → AreParted slots undos places
        → x ≢ Some Active → AreParted (slice_set slots t x) undos places }
{}
