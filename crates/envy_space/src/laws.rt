ghost use Rattle.std.specs.Prelude.{◌≡◌, ◌≢◌, ◌/◌, ◌<◌, ℕ, List, length, Option, Some, slice_index};
ghost use Rattle.envy_base.specs.declared.fields.Place.{Place};
ghost use Rattle.envy_base.specs.declared.fields.Place.TheVariants.{Row};
ghost use Rattle.envy_base.specs.declared.shape.Shape.{Shape};
ghost use Rattle.envy_map.specs.Fields.{Fields, place};
ghost use Rattle.envy_map.specs.Writes.{with_place};
ghost use Rattle.envy_soundness.specs.Sound.{Sound};
ghost use Rattle.envy_space.specs.Pool.{Pool, PoolAgrees, noted_kept, noted_dead};
ghost use Rattle.envy_space.specs.Noting.{ChangesPage, NamesAsMany, NamesOneMore, NamesInPlace, Rowed, Leaving};

/// After the place or the undo of a page was written, notes of the rows that the page names now and of
/// those that it names no more make the pool agree with the map again. On a sound map these notes may
/// be made.
pub fn notes_follow_a_page()
    ensures same { (sh : Shape) (f g : Fields) (p : ℕ) (pool : Pool) → ChangesPage sh f g p pool → NamesAsMany sh f g p
        → PoolAgrees sh g pool }
    ensures kept { (sh : Shape) (f g : Fields) (p q : ℕ) (pool : Pool) → ChangesPage sh f g p pool
        → NamesOneMore sh f g p q → PoolAgrees sh g (noted_kept q pool) }
    ensures room { (sh : Shape) (f g : Fields) (flash : List (List ℕ)) (p q : ℕ) (pool : Pool)
        → ChangesPage sh f g p pool → NamesOneMore sh f g p q → Sound sh g flash
        → slice_index pool.kept (q / sh.rows) < slice_index pool.fills (q / sh.rows) }
    ensures dead { (sh : Shape) (f g : Fields) (p q : ℕ) (pool : Pool) → ChangesPage sh f g p pool
        → NamesOneMore sh g f p q
        → (0 < slice_index pool.kept (q / sh.rows)) × PoolAgrees sh g (noted_dead q pool) }
    ensures moved { (sh : Shape) (f g : Fields) (flash : List (List ℕ)) (p r q : ℕ) (pool : Pool)
        → ChangesPage sh f g p pool → NamesInPlace sh f g p r q → Sound sh g flash
        → (0 < slice_index pool.kept (r / sh.rows))
        × (slice_index (noted_dead r pool).kept (q / sh.rows) < slice_index pool.fills (q / sh.rows))
        × PoolAgrees sh g (noted_kept q (noted_dead r pool)) }
{}

/// After the place of a page was written alone, the pool agrees with the map again once the row that the
/// page came to is noted as kept, or the row that it left as dead, unless its undo names that row still.
/// Where it came from no row and to no row, there is nothing to note.
pub fn notes_follow_a_place()
    ensures rowed { (sh : Shape) (f : Fields) (pool : Pool) (p q : ℕ) → Rowed sh f pool p q
        → PoolAgrees sh (with_place p (Some (Row q)) f) (noted_kept q pool) }
    ensures room { (sh : Shape) (f : Fields) (flash : List (List ℕ)) (pool : Pool) (p q : ℕ) → Rowed sh f pool p q
        → Sound sh (with_place p (Some (Row q)) f) flash
        → slice_index pool.kept (q / sh.rows) < slice_index pool.fills (q / sh.rows) }
    ensures left { (sh : Shape) (f : Fields) (pool : Pool) (p q : ℕ) (x : Option Place) → ((r : ℕ) → x ≢ Some (Row r))
        → Leaving sh f pool p q
        → (0 < slice_index pool.kept (q / sh.rows)) × PoolAgrees sh (with_place p x f) (noted_dead q pool) }
    ensures elsewhere { (sh : Shape) (f : Fields) (pool : Pool) (p : ℕ) (x : Option Place) → PoolAgrees sh f pool
        → p < sh.pages → p < length f.places
        → ((r : ℕ) → place f p ≢ Some (Row r)) → ((r : ℕ) → x ≢ Some (Row r)) → PoolAgrees sh (with_place p x f) pool }
{}
