ghost use Rattle.std.specs.Prelude.{◌≡◌, ◌<◌, ◌≤◌, ℕ, false, IsTrue, IfOk, IfSome, OnErr, MatchOption, slice_index};
ghost use Rattle.envy_map.specs.Fields.{chart};
ghost use Rattle.envy_soundness.specs.Power.{power_of};
ghost use Rattle.envy_soundness.specs.Sound.{IsSound};
ghost use Rattle.envy_wear.specs.declared.swap.Swap.{Swap as ASwap};
ghost use Rattle.envy_wear.specs.Swaps.{IsDue, IsQuiet};

use crate::overdue::due;
use crate::swap::Swap;
use envy_base::{Board, Off};
use envy_map::wear;

/// The least and the most wear of segments.
#[derive(Clone, Copy)]
struct Spread {
    least: u64,
    most: u64,
}

impl Spread {
    /// The spread, with one segment more.
    fn with(self, wear: u64) -> Spread
        requires order { self.least ≤ self.most }
        ensures least { (result.least ≤ wear) × (result.least ≤ self.least) }
        ensures most { (wear ≤ result.most) × (self.most ≤ result.most) }
    {
        Spread {
            least: if wear < self.least { wear } else { self.least },
            most: if wear > self.most { wear } else { self.most },
        }
    }
}

/// The spread of all segments, the spare too.
fn spread_of_all<B: Board>(board: &B) -> Result<Spread, Off>
    requires sound { IsSound (chart (B.state board.now)) }
    ensures least { let c = chart (B.state board.now) in
        IfOk result (λ x. (s : ℕ) → s < c.shape.segments → x.least ≤ slice_index c.fields.wears s) }
    ensures most { let c = chart (B.state board.now) in
        IfOk result (λ x. (s : ℕ) → s < c.shape.segments → slice_index c.fields.wears s ≤ x.most) }
    ensures order { IfOk result (λ x. x.least ≤ x.most) }
    ensures off { OnErr result ((B.state board.now).on ≡ false) }
{
    let first = wear(board, 0)?;
    let mut seen = Spread {
        least: first,
        most: first,
    };
    for segment in 1..board.shape().segments {
        seen = seen.with(wear(board, segment)?);
    }
    Ok(seen)
}

/// Before how many erases since the last swap none can be due, by what each wear word is now. It is 0 where the wear of
/// some segment, which is the spare's then, is further above another's than the limit.
fn quiet_now<B: Board>(board: &B, limit: u64, since: u64) -> Result<u64, Off>
    requires sound { IsSound (chart (B.state board.now)) }
    ensures quiet { let c = chart (B.state board.now) in
        IfOk result (IsQuiet c.shape c.fields limit since) }
    ensures off { OnErr result ((B.state board.now).on ≡ false) }
{
    let Spread { least, most } = spread_of_all(board)?;
    if most - least > limit {
        return Ok(0);
    }
    Ok(
        since
            .saturating_add(limit - (most - least))
            .saturating_add(1),
    )
}

/// The swap that is due, or `None`, as `due` answers, of a board of which is known that none is due before so many
/// erases have begun since the last one. Wear is looked at only where so many have, and then it is known anew, of all
/// segments. Nothing is known where a swap is due, which is to be begun. `Off` where power is off.
pub fn due_after<B: Board>(
    board: &B,
    limit: u64,
    since: u64,
    quiet: &mut u64,
) -> Result<Option<Swap>, Off>
    requires sound { IsTrue (B.state board.now).on → IsSound (chart (B.state board.now)) }
    requires quiet { let c = chart (B.state board.now) in
        IsTrue c.on → IsQuiet c.shape c.fields limit since quiet.old }
    ensures due { let c = chart (B.state board.now) in
        IfOk result (λ swap. MatchOption swap ((s : ASwap) → IsDue c.shape c.fields limit since s
        → ⊥) (IsDue c.shape c.fields limit since)) }
    ensures quiet { let c = chart (B.state board.now) in
        IsTrue c.on → IsQuiet c.shape c.fields limit since quiet.new }
    ensures anew { IfOk result (λ swap. IfSome swap (λ s. quiet.new ≡ 0)) }
    ensures power { (B.state board.now).on ≡ power_of result }
{
    if !board.powered() {
        return Err(Off);
    }
    if since < limit || since < *quiet {
        return Ok(None);
    }
    let swap = due(board, limit, since)?;
    *quiet = match swap {
        Some(_) => 0,
        None => quiet_now(board, limit, since)?,
    };
    Ok(swap)
}
