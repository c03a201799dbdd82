ghost use Rattle.std.specs.Prelude.{◌≡◌, ℕ, IfOk, IsErrOf, IsTrue};
ghost use Rattle.envy_map.specs.Fields.{Chart, chart};
ghost use Rattle.envy_soundness.specs.Sound.{IsSound};
ghost use Rattle.envy_space.specs.Pool.{Pool};
ghost use Rattle.envy_space.specs.Retiring.{RetiresTo};
ghost use Rattle.envy_space.specs.Rising.{Makes};
ghost use Rattle.envy_reloc.specs.Keeping.{Fails, MayStep, Steps};
ghost use Rattle.envy_reloc.specs.Phases.{SameOnce};
ghost use Rattle.envy_reloc.specs.Plan.{Plan};
ghost use Rattle.envy_reloc.specs.declared.step.Phase.{Phase};
ghost use Rattle.test_relocations.specs.Calls.{SpoilMakes, StepMakes, retire_in};

use envy_base::{Board, Trouble};
use envy_reloc::{Phase, Reloc};
use envy_space::Space;
use envy_table::Cache;

/// By what `Reloc::step` says of its answer each step is one of the calls of which no two claim one row between two
/// erases: a move and a copy claim the row that they program, also if that program is bad.
pub fn a_step_is_a_call()
    ensures done { (old new : Chart) (x y : Plan) (phase : Phase) → IsSound old
        → Steps old x phase new y → StepMakes old phase new }
    ensures bad { (old new : Chart) (x y : Plan) → IsSound old → SameOnce old new
        → Fails old x new y → SpoilMakes old new }
{}

/// And so is what `Space::retire` says that it does.
pub fn a_retirement_is_a_call()
    ensures { (s k e : ℕ) (old new : Chart) (x y : Pool) → IsSound old
        → RetiresTo old x k e new y → Makes s (retire_in s e) old new }
{}

/// Does a step of a relocation, and says which call it is.
pub fn step_once<B: Board>(
    reloc: &mut Reloc,
    board: &mut B,
    space: &mut Space,
    cache: &mut Cache,
) -> Result<Phase, Trouble>
    requires ready { IsTrue (B.state board.old).on
        → MayStep (chart (B.state board.old)) space.old reloc.old cache.old.entries }
    requires shape { space.old.shape ≡ (B.state board.old).shape }

    ensures done { IsSound (chart (B.state board.old)) → IfOk result (λ phase.
        StepMakes (chart (B.state board.old)) phase (chart (B.state board.new))) }
    ensures bad { IsSound (chart (B.state board.old)) → IsErrOf result Trouble.Bad
        → SpoilMakes (chart (B.state board.old)) (chart (B.state board.new)) }
{
    reloc.step(board, space, cache)
}
