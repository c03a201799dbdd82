ghost use Rattle.std.specs.Prelude.{◌≡◌, ℕ};
ghost use Rattle.envy_base.specs.declared.shape.Shape.{Shape};
ghost use Rattle.envy_map.specs.Fields.{Fields};
ghost use Rattle.envy_wear.specs.declared.swap.Swap.{Swap};
ghost use Rattle.envy_wear.specs.Swaps.{IsDue};

/// No two swaps are due at once.
pub fn one_swap_is_due()
    ensures { (sh : Shape) (f : Fields) (limit since : ℕ) (a b : Swap) → IsDue sh f limit since a
        → IsDue sh f limit since b → a ≡ b }
{}
