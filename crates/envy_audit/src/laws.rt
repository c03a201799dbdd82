ghost use Rattle.std.specs.Prelude.{◌≡◌, ◌↔◌};
ghost use Rattle.envy_base.specs.State.{State, IsBoard};
ghost use Rattle.envy_map.specs.Fields.{Chart, chart};
ghost use Rattle.envy_soundness.specs.Sound.{IsSound};
ghost use Rattle.envy_audit.specs.declared.verdict.Rule.{Rule};
ghost use Rattle.envy_audit.specs.declared.verdict.Verdict.{Verdict};
ghost use Rattle.envy_audit.specs.Judging.{Holds, Judges};

/// All points together are what soundness is.
pub fn the_points_are_soundness()
    ensures { (s : State) → IsBoard s → ((x : Rule) → Holds x (chart s)) ↔ IsSound (chart s) }
{}

/// No board has two verdicts.
pub fn a_board_has_one_verdict()
    ensures { (v w : Verdict) (s : State) → IsBoard s → Judges v (chart s) → Judges w (chart s) → v ≡ w }
{}
