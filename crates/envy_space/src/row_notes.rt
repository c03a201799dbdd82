ghost use Rattle.std.specs.Prelude.{◌*◌, ◌<◌, ℕ, List, Option};
ghost use Rattle.envy_base.specs.declared.shape.Shape.{Shape};
ghost use Rattle.envy_map.specs.Fields.{Fields};
ghost use Rattle.envy_soundness.specs.Naming.{IsNamed, with_named, AreParted};
ghost use Rattle.envy_soundness.specs.Sound.{Sound, Names};
ghost use Rattle.envy_space.specs.Following.{Followed};
ghost use Rattle.envy_space.specs.Pool.{Pool, PoolAgrees};

/// After a page came to name a row in place of another, by its place or by its undo, the notes that the
/// other is dead and that the row is kept make the pool agree with the map again. They may be made.
pub fn notes_follow_a_row()
    ensures { (sh : Shape) (f : Fields) (flash : List (List ℕ)) (p q r : ℕ) (u : Option ℕ) (pool : Pool)
        → Sound sh f flash → AreParted f.slots f.undos f.places → PoolAgrees sh f pool → IsNamed f p q u
        → (Names f p r → ⊥)
        → r < sh.segments * sh.rows → Sound sh (with_named p r u f) flash → Followed sh (with_named p r u f) q r pool }
{}
