ghost use Rattle.std.specs.Prelude.{◌≡◌, ◌⊎◌, ◌<◌, IsTrue, Some, OnOk, MatchResult};
ghost use Rattle.envy_map.specs.Fields.{chart, with_fields};
ghost use Rattle.envy_map.specs.Writes.{with_slot};
ghost use Rattle.envy_soundness.specs.Sound.{IsSound};
ghost use Rattle.envy_soundness.specs.May.{IsUnused};
ghost use Rattle.envy_soundness.specs.Power.{power_of};
ghost use Rattle.envy_soundness.specs.Same.{Same, SameWords, Commits};

use envy_base::{Board, Off, Slot};
use envy_map::set_slot;

/// Writes a slot that no undo names. No word changes.
pub fn set_unused_slot<B: Board>(board: &mut B, t: u8, slot: Slot) -> Result<(), Off>
    requires sound { IsSound (chart (B.state board.old)) }
    requires slot { t < 64 }
    requires unused { IsTrue (B.state board.old).on → IsUnused (chart (B.state board.old)).fields t }
    ensures same { SameWords 0 0 (chart (B.state board.old)) (chart (B.state board.new)) }
    ensures fields { OnOk result (chart (B.state board.new) ≡ with_fields (chart (B.state board.old))
        (with_slot t (Some slot) (chart (B.state board.old)).fields)) }
    ensures power { (B.state board.new).on ≡ power_of result }
{
    set_slot(board, t, slot)
}

/// Commits a slot: a restart leaves of the pages that its transaction owns what loads read of them.
/// Where power fails it has done so, or nothing has changed.
pub fn commit_slot<B: Board>(board: &mut B, t: u8) -> Result<(), Off>
    requires sound { IsSound (chart (B.state board.old)) }
    requires slot { t < 64 }
    ensures commits { let old = chart (B.state board.old) in
        let new = chart (B.state board.new) in
        MatchResult result (λ _. Commits 0 0 t old new) (λ _. Same 0 0 old new ⊎ Commits 0 0 t old new) }
    ensures fields { OnOk result (chart (B.state board.new) ≡ with_fields (chart (B.state board.old))
        (with_slot t (Some Slot.Committed) (chart (B.state board.old)).fields)) }
    ensures power { (B.state board.new).on ≡ power_of result }
{
    set_slot(board, t, Slot::Committed)
}
