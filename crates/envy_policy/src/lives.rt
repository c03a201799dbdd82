ghost use Rattle.std.specs.Prelude.{◌≡◌, ◌-◌, ◌<◌, length, IfOk, IfSome};
ghost use Rattle.std.specs.Option.{option_map};
ghost use Rattle.envy_policy.specs.Setup.{IsSetup};
ghost use Rattle.envy_policy.specs.History.{lives_of};
ghost use Rattle.envy_policy.specs.Notes.{noted_clean, noted_flush, unnoted};
ghost use Rattle.envy_base.specs.Shape.{positions_of};

use crate::{Lifetime, Policy, Setup};
use envy_base::NoMemory;
use std::alloc::Global;

/// What a policy has noted of lives at the start: nothing yet under `Lifetime`, and none under the others, which
/// take no memory for it.
pub fn started(alloc: Global, setup: &Setup) -> Result<Option<Lifetime>, NoMemory>
    requires { IsSetup setup.now }
    ensures { IfOk result (λ lives.
        lives ≡ lives_of setup.now.policy setup.now.shape.pages (positions_of setup.now.shape)) }
{
    if let Policy::Lifetime = setup.policy {
        return Ok(Some(Lifetime::new(alloc, &setup.shape)?));
    }
    Ok(None)
}

/// Notes that a row at a position was claimed for a flush of a page, if lives are noted.
#[inline(always)]
pub fn note_claim(lives: &mut Option<Lifetime>, position: u32, page: u32)
    requires { IfSome lives.old (λ n. (position < length n.cleaned) × (page < length n.born)) }
    ensures { lives.new ≡ option_map (noted_flush position page) lives.old }
{
    if let Some(lives) = lives {
        lives.note_flush(position, page);
    }
}

/// Notes that a cleaning of a position has begun, if lives are noted.
pub fn note_clean(lives: &mut Option<Lifetime>, position: u32)
    requires { IfSome lives.old (λ n. position < length n.cleaned) }
    ensures { lives.new ≡ option_map (noted_clean position) lives.old }
{
    if let Some(lives) = lives {
        lives.note_clean(position);
    }
}

/// Forgets what was noted of lives, if they are noted.
pub fn reset(lives: &mut Option<Lifetime>)
    ensures { lives.new ≡ option_map (λ n. unnoted (length n.born) (length n.cleaned)) lives.old }
{
    if let Some(lives) = lives {
        lives.reset();
    }
}
