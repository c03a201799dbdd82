ghost use Rattle.std.specs.Prelude.{◌≡◌, ◌+◌, ◌-◌, ◌<◌, ℕ, length, slice_index, IfSome};
ghost use Rattle.envy_policy.specs.Lifetime.{HasRoom, IsBeside, IsLifetimeChoice};
ghost use Rattle.envy_space.specs.Pool.{free_at, dead_at};
ghost use Rattle.envy_victims.specs.Choosing.{counts_in};
ghost use Rattle.envy_base.specs.Shape.{positions_of};

use envy_policy::{Choice, Lifetime, Rows};
use envy_space::Space;

/// The rows at each position of a pool.
#[derive(Clone, Copy)]
struct Pooled<'a> {
    space: &'a Space,
}

impl<'a> Rows for Pooled<'a> {
    ghost counts = { λ a. counts_in a.space.now };

    fn free(&self, position: u32) -> u32 {
        self.space.free(self.space.segment_at(position))
    }

    fn dead(&self, position: u32) -> u32 {
        self.space.dead(self.space.segment_at(position))
    }

    fn kept(&self, position: u32) -> u32 {
        self.space.kept(self.space.segment_at(position))
    }

    fn first_free(&self, start: u32) -> Option<u32> {
        let end = self.space.positions();
        self.space.lowest_free(start.min(end), end)
    }
}

/// The choice for a page by the lives of the pages' copies.
#[inline(never)]
pub fn choose_by_lives(space: &Space, lives: &Lifetime, page: u32) -> Choice
    requires positions { length lives.now.cleaned ≡ positions_of space.now.shape }
    requires page { page < length lives.now.born }
    requires some { (k : ℕ) × (k < positions_of space.now.shape) × (0 < free_at space.now k + dead_at space.now k) }
    ensures { IsLifetimeChoice lives.now (counts_in space.now) page result }
{
    let _positions = space.positions();
    lives.choose_among(&Pooled { space }, page)
}

/// The position at which a row is claimed for a page beside a job, by the lives of the pages' copies: not at the
/// one that the job empties. `None` where job and stages are finished first.
pub fn beside_job(space: &Space, lives: &Lifetime, emptied: Option<u32>, page: u32) -> Option<u32>
    requires positions { length lives.now.cleaned ≡ positions_of space.now.shape }
    requires page { page < length lives.now.born }
    ensures position { IsBeside lives.now (counts_in space.now) emptied page result }
    ensures room { IfSome result (λ k. HasRoom (counts_in space.now) emptied k) }
    ensures below { IfSome result (λ k. k < positions_of space.now.shape) }
{
    let _positions = space.positions();
    lives.beside(&Pooled { space }, emptied, page)
}
