ghost use Rattle.std.specs.Prelude.{◌≡◌, ℕ, ◌+◌, ◌<◌, length, slice_index};
ghost use Rattle.envy_policy.specs.declared.choice.Choice.{Choice};
ghost use Rattle.envy_policy.specs.Lifetime.{RowCounts, IsCounted, IsLifetimeChoice, HasRowsFor};
ghost use Rattle.envy_policy.specs.Notes.{Notes};

/// Whatever was noted, one of the four rules applies wherever some position has a free or a dead row.
pub fn some_lifetime_rule_applies()
    ensures { (n : Notes) (rows : RowCounts) (page k : ℕ)
        → IsCounted (length n.cleaned) rows → 0 < slice_index rows.free k + slice_index rows.dead k
        → (choice : Choice) × IsLifetimeChoice n rows page choice }
{}

/// What was noted, rows and page leave one choice.
pub fn rows_leave_one_lifetime_choice()
    ensures { (n : Notes) (rows : RowCounts) (page : ℕ) (a b : Choice)
        → IsLifetimeChoice n rows page a → IsLifetimeChoice n rows page b → a ≡ b }
{}

/// A choice is of a position that there is, with a free row or with a dead one, and sets no rows aside.
pub fn a_lifetime_choice_has_rows()
    ensures { (n : Notes) (rows : RowCounts) (page : ℕ) (choice : Choice)
        → IsCounted (length n.cleaned) rows → IsLifetimeChoice n rows page choice → HasRowsFor rows choice }
{}
