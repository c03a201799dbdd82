ghost use Rattle.std.specs.Prelude.{◌≡◌, ◌≢◌, ◌↔◌, ◌<◌, ◌≤◌, ◌+◌, ◌-◌, ◌*◌, ◌/◌, ℕ, true, false, List, Option, None, Some, length, slice_index, slice_index_or, slice_set, sum_by, count_by, if◌then◌else◌};
ghost use Rattle.std.specs.List.{range_with_len};
ghost use Rattle.envy_base.specs.Shape.{IsShape, positions_of};
ghost use Rattle.envy_base.specs.declared.fields.Place.{Place};
ghost use Rattle.envy_base.specs.declared.fields.Slot.{Slot};
ghost use Rattle.envy_base.specs.declared.fields.Undo.{Undo};
ghost use Rattle.envy_base.specs.declared.shape.Shape.{Shape};
ghost use Rattle.envy_map.specs.Fields.{Chart};
ghost use Rattle.envy_soundness.specs.PageRows.{page_kept_in};
ghost use Rattle.envy_soundness.specs.RowKinds.{kept_in, is_kept, free_in, dead_in, is_in};
ghost use Rattle.envy_soundness.specs.Sound.{IsSound, IsKept, Names, owned_by, slot_named};

/// A segment of a sound board has no more kept rows than its fill says. It has none exactly where no
/// page names a row of it.
pub fn kept_rows_are_filled()
    ensures filled { (c : Chart) (s : ℕ) → IsSound c → kept_in c.shape c.fields.slots c.fields.undos c.fields.places s
        ≤ slice_index c.fields.fills s }
    ensures none { (c : Chart) (s : ℕ) → IsSound c
        → (kept_in c.shape c.fields.slots c.fields.undos c.fields.places s ≡ 0)
        ↔ ((p q : ℕ) → Names c.fields p q → q / c.shape.rows ≢ s) }
{}

/// The kept rows of a segment of a sound board are those of its rows that pages name, each counted
/// once. Where they are fewer than its fill it has a dead row.
pub fn kept_rows_are_those_that_pages_name()
    ensures kept { (c : Chart) (q : ℕ) → IsSound c
        → (is_kept c.shape c.fields.slots c.fields.undos c.fields.places q ≡ true) ↔ IsKept c.fields q }
    ensures rows { (c : Chart) (s : ℕ) → IsSound c → let f = c.fields in
        kept_in c.shape f.slots f.undos f.places s
        ≡ count_by (λ i. is_kept c.shape f.slots f.undos f.places (s * c.shape.rows + i))
        (range_with_len 0 c.shape.rows) }
    ensures dead { (c : Chart) (s : ℕ) → IsSound c → let f = c.fields in
        kept_in c.shape f.slots f.undos f.places s < slice_index f.fills s → (i : ℕ) × (i < slice_index f.fills s)
        × (IsKept f (s * c.shape.rows + i) → ⊥) }
{}

/// On a sound board the free and the dead rows of all positions together are those of a segment at least.
pub fn enough_rows_are_left()
    ensures { (c : Chart) → IsShape c.shape → IsSound c → c.shape.rows ≤ sum_by
        (λ k. let s = slice_index c.fields.positions k in free_in c.shape c.fields.fills s + dead_in c.shape
        c.fields.slots c.fields.undos c.fields.places c.fields.fills s)
        (range_with_len 0 (positions_of c.shape)) }
{}

/// Where the place or the undo of one page changes, the kept rows of a segment change by those that the
/// page has there. A page that no transaction owns has the row that it stands in, if it stands in one.
pub fn kept_rows_change_with_a_page()
    ensures page { (sh : Shape) (slots : List (Option Slot)) (undos then_undos : List (Option Undo))
        (places then_places : List (Option Place)) (p s : ℕ) → p < sh.pages
        → ((r : ℕ) → r ≢ p → slice_index_or then_undos r None ≡ slice_index_or undos r None)
        → ((r : ℕ) → r ≢ p → slice_index_or then_places r None ≡ slice_index_or places r None)
        → kept_in sh slots then_undos then_places s + page_kept_in sh slots (slice_index_or undos p None)
        (slice_index_or places p None) s
        ≡ kept_in sh slots undos places s + page_kept_in sh slots (slice_index_or then_undos p None)
        (slice_index_or then_places p None) s }
    ensures place { (sh : Shape) (slots : List (Option Slot)) (undos : List (Option Undo))
        (places : List (Option Place)) (p s : ℕ) (x : Option Place) → length places ≡ sh.pages → p < sh.pages
        → kept_in sh slots undos (slice_set places p x) s + page_kept_in sh slots (slice_index_or undos p None)
        (slice_index_or places p None) s
        ≡ kept_in sh slots undos places s + page_kept_in sh slots (slice_index_or undos p None) x s }
    ensures undo { (sh : Shape) (slots : List (Option Slot)) (undos : List (Option Undo)) (places : List (Option Place))
        (p s : ℕ) (u : Option Undo) → length undos ≡ sh.pages → p < sh.pages
        → kept_in sh slots (slice_set undos p u) places s + page_kept_in sh slots (slice_index_or undos p None)
        (slice_index_or places p None) s
        ≡ kept_in sh slots undos places s + page_kept_in sh slots u (slice_index_or places p None) s }
    ensures free { (sh : Shape) (slots : List (Option Slot)) (u : Option Undo) (now : Option Place) (s : ℕ)
        → owned_by slots u ≡ false → page_kept_in sh slots u now s ≡ (if is_in sh.rows s now then 1 else 0) }
{}

/// Where a slot that no undo names changes, kept rows stay kept.
pub fn kept_rows_stay_under_an_unused_slot()
    ensures { (sh : Shape) (slots : List (Option Slot)) (undos : List (Option Undo)) (places : List (Option Place))
        (t s : ℕ) (x : Option Slot)
        → ((p : ℕ) → slot_named (slice_index_or undos p None) ≢ Some t)
        → kept_in sh (slice_set slots t x) undos places s ≡ kept_in sh slots undos places s }
{}
