ghost use Rattle.std.specs.Prelude.{◌≡◌, ◌≢◌, ◌⊎◌, ◌<◌, ℕ, false, IsTrue, Some, None, length, count_by};
ghost use Rattle.envy_array.specs.Array.{Array, Saved, page_of, owner, owned, slot_of};
ghost use Rattle.envy_array.specs.Step.{Begin, Put, Commit, Abort, Started, Done, MayOwn};
ghost use Rattle.envy_base.specs.declared.fields.Slot.TheVariants.{Active, Vacant};
ghost use Rattle.envy_map.specs.Fields.{Chart, with_fields, slot, undo};
ghost use Rattle.envy_map.specs.Writes.{with_slot};
ghost use Rattle.envy_soundness.specs.Same.{SameWords, SameDurable, Shadowed, Commits};
ghost use Rattle.envy_soundness.specs.Sound.{owned_by};
ghost use Rattle.envy_meaning.specs.Stands.{Stands, Steps, IsLost};
ghost use Rattle.envy_meaning.specs.Transactions.{owner_in, PutDone, Closes, TakesBack};

/// A page has the same owner by the map and by the array that the board stands for, and as many pages
/// have one.
pub fn owners_are_those_of_the_array()
    ensures owner { (c : Chart) (m : Array) (p : ℕ) → Stands c m → p < c.shape.pages
        → owner_in c.fields.slots (undo c.fields p) ≡ owner m p }
    ensures count { (c : Chart) (m : Array) → Stands c m → count_by (owned_by c.fields.slots) c.fields.undos ≡ owned m }
{}

/// A put of a transaction, to a page that nobody owned or that it owns, leaves a board that stands for
/// the array after the put. Where power failed, a restart finds it not done.
pub fn puts_are_those_of_the_array()
    ensures first { (k j t : ℕ) (c new : Chart) (m : Array) (a w : ℕ) (saved : Saved) → Stands c m → a < length m.words
        → slot_of m t ≡ Some saved
        → owner m (page_of a) ≡ None → owned m ≢ m.shadows → PutDone k j t (page_of a) c new a w
        → Steps m (Put t a w) Done new }
    ensures again { (k j t : ℕ) (c new : Chart) (m : Array) (a w : ℕ) (saved : Saved) → Stands c m → a < length m.words
        → slot_of m t ≡ Some saved
        → owner m (page_of a) ≡ Some t → Shadowed k j c new a w → Steps m (Put t a w) Done new }
    ensures lost { (k j t : ℕ) (c new : Chart) (m : Array) (a w : ℕ) (saved : Saved) → Stands c m → a < length m.words
        → slot_of m t ≡ Some saved
        → MayOwn m t (page_of a) → SameDurable k j c new → new.on ≡ false → IsLost m (Put t a w) new }
{}

/// The lowest vacant slot that becomes active is the slot that the array opens.
pub fn a_slot_opens_as_in_the_array()
    ensures done { (k j : ℕ) (c new : Chart) (m : Array) (t : ℕ) → Stands c m → t < 64 → slot c.fields t ≡ Some Vacant
        → ((u : ℕ) → u < t → slot c.fields u ≢ Some Vacant)
        → SameWords k j c new → new ≡ with_fields c (with_slot t (Some Active) c.fields) → IsTrue new.on
        → Steps m Begin (Started t) new }
    ensures lost { (k j : ℕ) (c new : Chart) (m : Array) (t : ℕ) → Stands c m → t < 64 → slot c.fields t ≡ Some Vacant
        → ((u : ℕ) → u < t → slot c.fields u ≢ Some Vacant)
        → SameWords k j c new → new.on ≡ false → IsLost m Begin new }
{}

/// A slot that is committed and then closed keeps its words, as in the array. Where power failed, a
/// restart finds the commit done or not done.
pub fn a_commit_is_that_of_the_array()
    ensures done { (k j : ℕ) (c new : Chart) (m : Array) (t : ℕ) → Stands c m → t < 64 → slot c.fields t ≡ Some Active
        → Commits k j t c new → Closes t c new → IsTrue new.on → Steps m (Commit t) Done new }
    ensures lost { (k j : ℕ) (c new : Chart) (m : Array) (t : ℕ) → Stands c m → t < 64 → slot c.fields t ≡ Some Active
        → SameDurable k j c new ⊎ Commits k j t c new → new.on ≡ false → IsLost m (Commit t) new }
{}

/// A slot whose pages go back to what a restart would leave of them, and that is closed then, puts its
/// words back, as in the array.
pub fn an_abort_is_that_of_the_array()
    ensures done { (k j : ℕ) (c new : Chart) (m : Array) (t : ℕ) → Stands c m → t < 64 → slot c.fields t ≡ Some Active
        → SameDurable k j c new → TakesBack t c new → Closes t c new → IsTrue new.on → Steps m (Abort t) Done new }
    ensures lost { (k j : ℕ) (c new : Chart) (m : Array) (t : ℕ) → Stands c m → t < 64 → slot c.fields t ≡ Some Active
        → SameDurable k j c new → new.on ≡ false → IsLost m (Abort t) new }
{}
