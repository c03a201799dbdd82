ghost use Rattle.std.specs.Prelude.{◌≡◌, ◌+◌, ◌<◌, ◌≤◌, ℕ};
ghost use Rattle.envy_base.specs.Shape.{positions_of};
ghost use Rattle.envy_space.specs.Pool.{free_at, dead_at};

use crate::told::same_of;
use envy_base::{Shape, positions_of};
use envy_policy::{Choice, Chooser, Policy, Setup};
use envy_space::Space;
use envy_victims::choose_row;
use std::alloc::{AllocError, Global};
use std::process::Abort;

/// A linear congruential generator.
#[derive(Drop)]
struct Draws(u64);

impl Draws {
    /// A number below `end`.
    fn below(&mut self, end: u32) -> u32
        requires { 0 < end }
        ensures { result < end }
    {
        self.0 = self
            .0
            .wrapping_mul(6364136223846793005)
            .wrapping_add(1442695040888963407);
        (self.0 >> 33) as u32 % end
    }
}

/// A board of 4 to 20 segments of 4 rows.
fn shape(draws: &mut Draws) -> Shape
    ensures rows { result.rows ≡ 4 }
    ensures reserves { result.reserves ≡ 0 }
    ensures some { 4 ≤ result.segments }
    ensures few { result.segments ≤ 20 }
    ensures pages { result.pages ≡ 4 }
{
    Shape {
        segments: 4 + draws.below(17),
        rows: 4,
        pages: 4,
        shadows: 1,
        frames: 2,
        entries: 1,
        reserves: 0,
        sums: 0,
    }
}

/// One of the four policies.
fn policy(draws: &mut Draws, positions: u32) -> Policy
    requires { 0 < positions }
{
    match draws.below(5) {
        0 => Policy::Greedy,
        1 => Policy::Fifo,
        2 => Policy::Locality,
        _ => Policy::Hybrid(1 + draws.below(positions)),
    }
}

/// An empty pool, and a chooser over its positions.
fn made(rt: &impl Abort, alloc: Global, setup: &Setup) -> (Space, Chooser)
    ensures { (result.0.shape ≡ setup.now.shape) × (result.1.positions ≡ positions_of setup.now.shape)
        × (result.1.pages ≡ setup.now.shape.pages) }
{
    setup.check().expect(rt, "the setup");
    (
        Space::new(alloc, &setup.shape).expect(rt, "no room for a pool"),
        Chooser::new(alloc, setup).expect(rt, "no room for a chooser"),
    )
}

/// A drawn fill of a segment, of which some rows are kept, at a drawn position.
fn change(space: &mut Space, draws: &mut Draws, segment: u32)
    requires segment { segment < space.old.shape.segments }
    requires rows { space.old.shape.rows ≡ 4 }
    ensures { space.new.shape ≡ space.old.shape }
{
    let fill = draws.below(5);
    if fill >= space.kept(segment) {
        space.set_fill(segment, fill);
    }
    for _row in 0..draws.below(9) {
        if space.kept(segment) < space.fill(segment) {
            space.note_kept(segment * 4);
        }
    }
    space.stand(draws.below(space.positions()), segment);
}

/// Drawn flushes and cleanings.
fn warm(chooser: &mut Chooser, draws: &mut Draws, positions: u32)
    requires positions { chooser.old.positions ≡ positions }
    requires some { 0 < positions }
    ensures positions { chooser.new.positions ≡ chooser.old.positions }
    ensures pages { chooser.new.pages ≡ chooser.old.pages }
{
    for _flush in 0..draws.below(60) {
        chooser.note_flush(draws.below(positions));
    }
    for _clean in 0..draws.below(4) {
        chooser.note_clean(draws.below(positions));
    }
}

/// The choice by lists of all rows.
fn choose_by_lists(
    alloc: Global,
    space: &Space,
    chooser: &Chooser,
    home: u32,
) -> Result<Choice, AllocError>
    requires positions { chooser.now.positions ≡ positions_of space.now.shape }
    requires home { home < positions_of space.now.shape }
    requires some { (k : ℕ) × (k < positions_of space.now.shape) × (0 < free_at space.now k + dead_at space.now k) }
{
    let mut free = Vec::new(alloc);
    let mut dead = Vec::new(alloc);
    for position in 0..space.positions() {
        let segment = space.segment_at(position);
        free.push(space.free(segment))?;
        dead.push(space.dead(segment))?;
    }
    Ok(chooser.choose(&free, &dead, home))
}

/// Whether pool and lists make the same choice for each home, where there is one.
fn agree(rt: &impl Abort, alloc: Global, space: &Space, chooser: &Chooser) -> bool
    requires positions { chooser.now.positions ≡ positions_of space.now.shape }
    requires pages { chooser.now.pages ≡ 4 }
{
    let positions = space.positions();
    let Some(_usable) = space.lowest_usable(0, positions) else {
        return true;
    };
    for home in 0..positions {
        let listed = choose_by_lists(alloc, space, chooser, home).expect(rt, "no room");
        if choose_row(space, chooser, home, 0) != listed {
            return false;
        }
    }
    true
}

/// Whether a drawn pool and its lists make the same choices. The pool and the chooser are held here alone: to hand both on
/// costs what it costs to make them, and more in a loop.
fn drawn_agree(rt: &impl Abort, alloc: Global, draws: &mut Draws) -> bool {
    let shape = shape(draws);
    let policy = policy(draws, positions_of(&shape));
    let setup = Setup {
        shape,
        policy,
        limit: 1,
        mark: 1,
    };
    let (mut space, mut chooser) = made(rt, alloc, &setup);
    for segment in 0..shape.segments {
        change(&mut space, draws, segment);
    }
    warm(&mut chooser, draws, positions_of(&shape));
    agree(rt, alloc, &space, &chooser)
}

#[test]
fn a_pool_answers_as_its_lists_do(rt: HostRuntime) {
    let mut draws = Draws(1);
    for pool in 0..500 {
        let is = drawn_agree(&rt, rt.alloc(), &mut draws);
        same_of(&rt, is, true, "pool", pool);
    }
}
