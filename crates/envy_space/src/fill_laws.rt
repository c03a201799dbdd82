ghost use Rattle.std.specs.Prelude.{◌<◌, length, ℕ, List, [], ◌∷◌, ◌++◌};
ghost use Rattle.envy_map.specs.Fields.{Chart, with_fields};
ghost use Rattle.envy_map.specs.Writes.{with_fill};
ghost use Rattle.envy_space.specs.Rising.{Call, Claims, Linked, KeepsRows, Makes, erase_in};

/// To empty the fill of a segment, as its erase does, is such a call: every other segment keeps its fill.
pub fn an_emptied_segment_is_erased()
    ensures { (s e : ℕ) (old : Chart) → e < length old.fields.fills
        → Makes s (erase_in s e) old (with_fields old (with_fill e 0 old.fields)) }
{}

/// Between two erases of a segment no row of it is claimed twice: a later claim answers a higher row
/// than an earlier one, whatever calls lie between them, failures of power among them. `Space::claim` says at every
/// exit what it is of these calls, and so does `Space::replace`.
pub fn no_row_is_claimed_twice()
    ensures { (s q r : ℕ) (calls : List Call) (old new : Chart) → KeepsRows calls
        → Linked s (Claims q ∷ calls ++ (Claims r ∷ [])) old new → q < r }
{}
