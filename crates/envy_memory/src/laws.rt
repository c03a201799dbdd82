ghost use Rattle.std.specs.Prelude.{◌≡◌, ◌<◌, ◌↔◌, ◌%◌, ◌∷◌, ℕ, List, Some};
ghost use Rattle.envy_table.specs.Entries.{Translations};
ghost use Rattle.envy_table.specs.Hits.{Accesses, Rests, Empties};
ghost use Rattle.envy_memory.specs.Hits.{Event, Access, Power, LastWas, last_in, Tracks};

/// A cache that has counted what happened goes on to count it: an access, a call that is none, a return of power.
/// An access is a hit exactly where the last one to a congruent page, since power last came, was to its page.
pub fn hits_are_those_of_the_accesses()
    ensures access { (c p : ℕ) (past : List Event) (t new : Translations) → 0 < c → Tracks c past t → Accesses p t new
        → Tracks c (Access p ∷ past) new }
    ensures rest { (c : ℕ) (past : List Event) (t new : Translations) → Tracks c past t → Rests t new
        → Tracks c past new }
    ensures power { (c : ℕ) (past : List Event) (t new : Translations) → Tracks c past t → Empties t new
        → Tracks c (Power ∷ past) new }
    ensures last { (c p : ℕ) (past : List Event) → LastWas c p past ↔ (last_in c (p % c) past ≡ Some p) }
{}
