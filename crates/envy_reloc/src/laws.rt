ghost use Rattle.std.specs.Prelude.{◌≡◌, ◌≢◌, ◌⊎◌, ◌/◌, ◌<◌, ℕ, List, [], Some, slice_index, slice_index_or};
ghost use Rattle.envy_base.specs.declared.fields.Job.TheVariants.{Idle};
ghost use Rattle.envy_base.specs.declared.fields.Place.{Place};
ghost use Rattle.envy_base.specs.declared.fields.Place.TheVariants.{Row};
ghost use Rattle.envy_base.specs.declared.fields.Slot.{Slot};
ghost use Rattle.envy_base.specs.declared.fields.Slot.TheVariants.{Active};
ghost use Rattle.envy_base.specs.declared.fields.Undo.TheVariants.{Clear, Blank, Shadow};
ghost use Rattle.envy_base.specs.declared.shape.Shape.{Shape};
ghost use Rattle.envy_map.specs.Fields.{Fields};
ghost use Rattle.envy_map.specs.Writes.{with_back, with_fill, with_place, with_undo, with_slot};
ghost use Rattle.envy_soundness.specs.May.{IsUnused};
ghost use Rattle.envy_soundness.specs.Sound.{Sound, Names, IsPlaced};
ghost use Rattle.envy_space.specs.Pool.{Pool, PoolAgrees};
ghost use Rattle.envy_reloc.specs.Cleaning.{Cleans};
ghost use Rattle.envy_reloc.specs.Plan.{Plan, IsPlanOf, IsFreeOf};

/// A plan stays one for the map through each kind of write that a host's call makes between two steps. Rows
/// are claimed and programmed in segments at positions that the job leaves free; a page that comes to name
/// a row, by its place or by its undo, named it before or lies in such a segment; and a page may cease to
/// name one: it goes to a frame or becomes absent, its undo becomes clear or blank, or its slot ends.
pub fn writes_keep_the_plan()
    ensures claimed { (sh : Shape) (f : Fields) (flash : List (List ℕ)) (plan : Plan) (s q p n : ℕ) → Sound sh f flash
        → IsPlaced sh f.positions s → IsFreeOf f.job s → q / sh.rows ≡ s
        → IsPlanOf sh f flash plan → IsPlanOf sh (with_fill s n (with_back q p f)) flash plan }
    ensures programmed { (sh : Shape) (f : Fields) (flash new : List (List ℕ)) (plan : Plan) (s q : ℕ)
        → Sound sh f flash → IsPlaced sh f.positions s → IsFreeOf f.job s → q / sh.rows ≡ s
        → ((r : ℕ) → r ≢ q → slice_index_or new r [] ≡ slice_index_or flash r []) → IsPlanOf sh f flash plan
        → IsPlanOf sh f new plan }
    ensures rowed { (sh : Shape) (f : Fields) (flash : List (List ℕ)) (plan : Plan) (p q : ℕ) → Sound sh f flash
        → p < sh.pages → Names f p q ⊎ IsFreeOf f.job (q / sh.rows)
        → IsPlanOf sh f flash plan → IsPlanOf sh (with_place p (Some (Row q)) f) flash plan }
    ensures unrowed { (sh : Shape) (f : Fields) (flash : List (List ℕ)) (plan : Plan) (p : ℕ) (x : Place)
        → Sound sh f flash → p < sh.pages → ((q : ℕ) → x ≢ Row q)
        → IsPlanOf sh f flash plan → IsPlanOf sh (with_place p (Some x) f) flash plan }
    ensures shaded { (sh : Shape) (f : Fields) (flash : List (List ℕ)) (plan : Plan) (p t q : ℕ) → Sound sh f flash
        → p < sh.pages → Names f p q ⊎ IsFreeOf f.job (q / sh.rows)
        → IsPlanOf sh f flash plan → IsPlanOf sh (with_undo p (Some (Shadow t q)) f) flash plan }
    ensures blanked { (sh : Shape) (f : Fields) (flash : List (List ℕ)) (plan : Plan) (p t : ℕ) → Sound sh f flash
        → p < sh.pages
        → IsPlanOf sh f flash plan → IsPlanOf sh (with_undo p (Some (Blank t)) f) flash plan }
    ensures cleared { (sh : Shape) (f : Fields) (flash : List (List ℕ)) (plan : Plan) (p : ℕ) → Sound sh f flash
        → p < sh.pages
        → IsPlanOf sh f flash plan → IsPlanOf sh (with_undo p (Some Clear) f) flash plan }
    ensures unused { (sh : Shape) (f : Fields) (flash : List (List ℕ)) (plan : Plan) (t : ℕ) (x : Slot) → IsUnused f t
        → IsPlanOf sh f flash plan → IsPlanOf sh (with_slot t (Some x) f) flash plan }
    ensures closed { (sh : Shape) (f : Fields) (flash : List (List ℕ)) (plan : Plan) (t : ℕ) (x : Slot) → x ≢ Active
        → IsPlanOf sh f flash plan → IsPlanOf sh (with_slot t (Some x) f) flash plan }
{}

/// The relocation of a segment with a dead row, once it has ended, leaves a free row at its position.
pub fn a_cleaning_leaves_room()
    ensures { (sh : Shape) (positions : List ℕ) (k n m : ℕ) (f : Fields) (pool : Pool) → f.job ≡ Some Idle
        → Cleans sh positions k n f m → PoolAgrees sh f pool
        → slice_index pool.fills (slice_index pool.positions k) < sh.rows }
{}
