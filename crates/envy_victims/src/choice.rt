ghost use Rattle.std.specs.Prelude.{◌≡◌, ◌↔◌, ◌-◌, ◌+◌, ◌<◌, ℕ, IsTrue, MatchOption, length, slice_index};
ghost use Rattle.envy_policy.specs.Choice.{HasRows, IsChoice, IsLeast, IsMost, IsNearest, IsVictim, steps};
ghost use Rattle.envy_space.specs.Pool.{free_at, dead_at};
ghost use Rattle.envy_victims.specs.Choosing.{ChoiceFor, IsAbove, IsBelow, IsFreeBeside, IsUsableIn, deads, frees};
ghost use Rattle.envy_policy.specs.History.{IsHistory, partition_of};
ghost use Rattle.envy_policy.specs.Setup.{victims_of};
ghost use Rattle.envy_base.specs.Shape.{positions_of};

use crate::pooled::choose_by_lives;
use envy_policy::{Choice, Chooser, Victims, nearer};
use envy_space::Space;

/// Chooses a position for a page whose home this is, by the rows of a pool: under `Lifetime` by the lives of
/// the pages' copies, else by the home.
#[inline(always)]
pub fn choose_row(space: &Space, chooser: &Chooser, home: u32, page: u32) -> Choice
    requires positions { chooser.now.positions ≡ positions_of space.now.shape }
    requires home { home < positions_of space.now.shape }
    requires page { page < chooser.now.pages }
    requires some { (k : ℕ) × (k < positions_of space.now.shape) × (0 < free_at space.now k + dead_at space.now k) }
    ensures { ChoiceFor chooser.now space.now home page result }
{
    match chooser.lives() {
        Some(lives) => choose_by_lives(space, lives, page),
        None => choose_near(space, chooser, home),
    }
}

/// The choice by the home. Where a row is free in the page's own partition nothing else is asked.
#[inline(always)]
fn choose_near(space: &Space, chooser: &Chooser, home: u32) -> Choice
    requires positions { chooser.now.positions ≡ positions_of space.now.shape }
    requires home { home < positions_of space.now.shape }
    requires some { (k : ℕ) × (k < positions_of space.now.shape) × (0 < free_at space.now k + dead_at space.now k) }
    ensures { IsChoice chooser.now (frees space.now) (deads space.now) home result }
{
    let own = chooser.partition_of(home);
    match free_in(space, chooser, own) {
        Some(position) => Choice::Free { position },
        None => free_or_clean(space, chooser, nearest(space, chooser, home)),
    }
}

/// The choice within the nearest usable partition.
#[cold]
#[inline(never)]
fn free_or_clean(space: &Space, chooser: &Chooser, partition: u32) -> Choice
    requires positions { chooser.now.positions ≡ positions_of space.now.shape }
    requires partition { partition < length chooser.now.heats }
    requires usable { IsUsableIn chooser.now space.now partition }
    ensures { (home : ℕ) → IsNearest chooser.now (frees space.now) (deads space.now) home partition
        → IsChoice chooser.now (frees space.now) (deads space.now) home result }
{
    match free_in(space, chooser, partition) {
        Some(position) => Choice::Free { position },
        None => Choice::Clean {
            position: victim(space, chooser, partition),
            aside: chooser.aside(partition),
        },
    }
}

/// The lowest position of a partition that has a free row.
fn free_in(space: &Space, chooser: &Chooser, partition: u32) -> Option<u32>
    requires positions { chooser.now.positions ≡ positions_of space.now.shape }
    requires partition { partition < length chooser.now.heats }
    ensures { MatchOption result
        ((k : ℕ) → HasRows chooser.now (frees space.now) partition k → ⊥)
        (IsLeast (HasRows chooser.now (frees space.now) partition) (λ k. k)) }
{
    let (first, end) = chooser.bounds(partition);
    space.lowest_free(first, end)
}

/// The lowest position of a home's partition that has a free row and where another segment stands than the
/// avoided one.
pub fn free_beside(space: &Space, chooser: &Chooser, home: u32, avoided: Option<u32>) -> Option<u32>
    requires positions { chooser.now.positions ≡ positions_of space.now.shape }
    requires home { home < positions_of space.now.shape }
    ensures { MatchOption result
        ((k : ℕ) → IsFreeBeside chooser.now space.now (partition_of chooser.now home) avoided k → ⊥)
        (IsLeast (IsFreeBeside chooser.now space.now (partition_of chooser.now home) avoided) (λ k. k)) }
{
    let (first, end) = chooser.bounds(chooser.partition_of(home));
    let found = space.lowest_free(first, end)?;
    if avoided != Some(space.segment_at(found)) {
        return Some(found);
    }
    space.lowest_free(found + 1, end)
}

/// Whether a partition has a free or a dead row.
fn is_usable(space: &Space, chooser: &Chooser, partition: u32) -> bool
    requires positions { chooser.now.positions ≡ positions_of space.now.shape }
    requires partition { partition < length chooser.now.heats }
    ensures usable { IsTrue result ↔ IsUsableIn chooser.now space.now partition }
    ensures whole { IsHistory chooser.now }
{
    let (first, end) = chooser.bounds(partition);
    space.lowest_usable(first, end).is_some()
}

/// The usable partition nearest to a home's.
#[cold]
#[inline(never)]
fn nearest(space: &Space, chooser: &Chooser, home: u32) -> u32
    requires positions { chooser.now.positions ≡ positions_of space.now.shape }
    requires home { home < positions_of space.now.shape }
    requires some { (k : ℕ) × (k < positions_of space.now.shape) × (0 < free_at space.now k + dead_at space.now k) }
    ensures nearest { IsNearest chooser.now (frees space.now) (deads space.now) home result }
    ensures counted { result < length chooser.now.heats }
{
    let own = chooser.partition_of(home);
    if is_usable(space, chooser, own) {
        return own;
    }
    nearer(own, below(space, chooser, own), above(space, chooser, own)).unwrap()
}

/// The nearest usable partition below another.
fn below(space: &Space, chooser: &Chooser, own: u32) -> Option<u32>
    requires positions { chooser.now.positions ≡ positions_of space.now.shape }
    requires own { own < length chooser.now.heats }
    ensures { MatchOption result
        ((y : ℕ) → y < own → IsUsableIn chooser.now space.now y → ⊥)
        (IsBelow chooser.now space.now own) }
{
    let (first, _) = chooser.bounds(own);
    match space.highest_usable(0, first) {
        Some(position) => Some(chooser.partition_of(position)),
        None => None,
    }
}

/// The nearest usable partition above another.
fn above(space: &Space, chooser: &Chooser, own: u32) -> Option<u32>
    requires positions { chooser.now.positions ≡ positions_of space.now.shape }
    requires own { own < length chooser.now.heats }
    ensures { MatchOption result
        ((y : ℕ) → own < y → IsUsableIn chooser.now space.now y → ⊥)
        (IsAbove chooser.now space.now own) }
{
    let (_, end) = chooser.bounds(own);
    match space.lowest_usable(end, space.positions()) {
        Some(position) => Some(chooser.partition_of(position)),
        None => None,
    }
}

/// The position of a partition with dead rows that is cleaned.
fn victim(space: &Space, chooser: &Chooser, partition: u32) -> u32
    requires positions { chooser.now.positions ≡ positions_of space.now.shape }
    requires partition { partition < length chooser.now.heats }
    requires some { (k : ℕ) × HasRows chooser.now (deads space.now) partition k }
    ensures { IsVictim (victims_of chooser.now.policy) chooser.now (deads space.now) partition result }
{
    match chooser.policy().victims() {
        Victims::MostDead => most_dead(space, chooser, partition).unwrap(),
        Victims::InTurn => next_in_turn(space, chooser, partition).unwrap(),
    }
}

/// The position of a partition with most dead rows, the lowest of several.
fn most_dead(space: &Space, chooser: &Chooser, partition: u32) -> Option<u32>
    requires positions { chooser.now.positions ≡ positions_of space.now.shape }
    requires partition { partition < length chooser.now.heats }
    ensures { MatchOption result
        ((k : ℕ) → HasRows chooser.now (deads space.now) partition k → ⊥)
        (IsMost (HasRows chooser.now (deads space.now) partition) (slice_index (deads space.now))) }
{
    let (first, end) = chooser.bounds(partition);
    space.most_dead(first, end - 1)
}

/// The next position of a partition, in turn, that has a dead row.
fn next_in_turn(space: &Space, chooser: &Chooser, partition: u32) -> Option<u32>
    requires positions { chooser.now.positions ≡ positions_of space.now.shape }
    requires partition { partition < length chooser.now.heats }
    ensures { MatchOption result
        ((k : ℕ) → HasRows chooser.now (deads space.now) partition k → ⊥)
        (IsLeast (HasRows chooser.now (deads space.now) partition) (steps chooser.now partition)) }
{
    let (first, end) = chooser.bounds(partition);
    let after = chooser.turn(partition) + 1;
    space
        .lowest_dead(after, end)
        .or(space.lowest_dead(first, after))
}
