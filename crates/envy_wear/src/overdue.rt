ghost use Rattle.std.specs.Prelude.{◌≡◌, ◌+◌, ◌-◌, ◌<◌, ℕ, false, IsTrue, IfOk, OnErr, MatchOption};
ghost use Rattle.envy_map.specs.Fields.{chart};
ghost use Rattle.envy_soundness.specs.Power.{power_of};
ghost use Rattle.envy_soundness.specs.Sound.{IsSound};
ghost use Rattle.envy_wear.specs.declared.swap.Swap.{Swap as ASwap};
ghost use Rattle.envy_wear.specs.Swaps.{wear_at, IsDue, IsMostWorn, IsLeastWorn};
ghost use Rattle.envy_base.specs.Shape.{positions_of};

use crate::swap::Swap;
use envy_base::{Board, Off, positions_of};
use envy_map::{segment_at, wear};

/// A position, and the wear of its segment.
#[derive(Clone, Copy)]
struct Worn {
    position: u32,
    wear: u64,
}

/// The most worn position and the least worn one, the lowest of several each.
#[derive(Clone, Copy)]
struct Extremes {
    most: Worn,
    least: Worn,
}

/// The swap that is due where this is the limit and so many erases have begun since the last one, or
/// `None`. Wear is looked at only where so many have. `Off` where power is off.
pub fn due<B: Board>(board: &B, limit: u64, since: u64) -> Result<Option<Swap>, Off>
    requires sound { IsTrue (B.state board.now).on → IsSound (chart (B.state board.now)) }
    ensures due { let c = chart (B.state board.now) in
        IfOk result (λ swap. MatchOption swap ((s : ASwap) → IsDue c.shape c.fields limit since s
        → ⊥) (IsDue c.shape c.fields limit since)) }
    ensures power { (B.state board.now).on ≡ power_of result }
{
    if !board.powered() {
        return Err(Off);
    }
    if since < limit {
        return Ok(None);
    }
    let Extremes { most, least } = extremes_of_all(board)?;
    if most.wear - least.wear > limit {
        return Ok(Some(Swap {
            worn: most.position,
            young: least.position,
        }));
    }
    Ok(None)
}

/// The wear of the segment at a position.
fn worn_at<B: Board>(board: &B, position: u32) -> Result<Worn, Off>
    requires sound { IsSound (chart (B.state board.now)) }
    requires position { position < positions_of (B.state board.now).shape }
    ensures position { IfOk result (λ worn. worn.position ≡ position) }
    ensures wear { IfOk result (λ worn. worn.wear ≡ wear_at (chart (B.state board.now)).fields position) }
    ensures off { OnErr result ((B.state board.now).on ≡ false) }
{
    let segment = segment_at(board, position)?;
    let wear = wear(board, segment)?;
    Ok(Worn { position, wear })
}

impl Extremes {
    /// The extremes, with one position more.
    fn with(self, next: Worn) -> Extremes
        ensures most { (n : ℕ) (wear : ℕ → ℕ) → IsMostWorn n wear self.most.position
            → self.most.wear ≡ wear self.most.position → next.position ≡ n → next.wear ≡ wear n
            → IsMostWorn (n + 1) wear result.most.position × (result.most.wear ≡ wear result.most.position) }
        ensures least { (n : ℕ) (wear : ℕ → ℕ) → IsLeastWorn n wear self.least.position
            → self.least.wear ≡ wear self.least.position → next.position ≡ n → next.wear ≡ wear n
            → IsLeastWorn (n + 1) wear result.least.position × (result.least.wear ≡ wear result.least.position) }
    {
        Extremes {
            most: if next.wear > self.most.wear {
                next
            } else {
                self.most
            },
            least: if next.wear < self.least.wear {
                next
            } else {
                self.least
            },
        }
    }
}

/// The extremes of all positions.
fn extremes_of_all<B: Board>(board: &B) -> Result<Extremes, Off>
    requires sound { IsSound (chart (B.state board.now)) }
    ensures most { let c = chart (B.state board.now) in
        IfOk result (λ x. IsMostWorn (positions_of c.shape) (wear_at c.fields) x.most.position
        × (x.most.wear ≡ wear_at c.fields x.most.position)) }
    ensures least { let c = chart (B.state board.now) in
        IfOk result (λ x. IsLeastWorn (positions_of c.shape) (wear_at c.fields) x.least.position
        × (x.least.wear ≡ wear_at c.fields x.least.position)) }
    ensures off { OnErr result ((B.state board.now).on ≡ false) }
{
    let first = worn_at(board, 0)?;
    let mut seen = Extremes {
        most: first,
        least: first,
    };
    for position in 1..positions_of(&board.shape()) {
        seen = seen.with(worn_at(board, position)?);
    }
    Ok(seen)
}
