ghost use Rattle.std.specs.Prelude.{◌≡◌, ◌↔◌, ℕ, ◌+◌, ◌-◌, ◌<◌, ◌≤◌, length, map, slice_index, slice_set, IsTrue, IfOk, MatchOption};
ghost use Rattle.std.specs.List.{range_with_len};
ghost use Rattle.envy_policy.specs.Setup.{IsSetup, victims_of};
ghost use Rattle.envy_policy.specs.History.{IsHistory, run, started, flushed, claimed, cleaned, partition_of, first_of, end_of, last_in};
ghost use Rattle.envy_policy.specs.Choice.{IsChoice, IsWithin, IsLeast, IsNearest, IsUsable, HasRows, IsMost, IsVictim, IsAside, steps};
ghost use Rattle.envy_base.specs.Shape.{positions_of};

use crate::heats::Heats;
use crate::lives::{note_claim, note_clean, reset, started};
use crate::rows::{first_with, most};
use crate::{Choice, Lifetime, Policy, Setup, Victims};
use envy_base::{NoMemory, positions_of};
use std::alloc::Global;
use std::marker::Model;

/// Chooses the position that a page is written to, by heats and turns of the partitions or by the lives of
/// the pages' copies.
#[derive(Drop)]
pub struct Chooser {
    pub(crate) policy: Policy,
    pages: u32,
    positions: u32,
    /// How many consecutive positions make a partition under the policy.
    run: u32,
    heats: Heats,
    turns: Vec<u32>,
    pub(crate) lives: Option<Lifetime>,
}

impl Model for Chooser {
    ghost use Rattle.std.specs.Prelude.{◌≡◌};
    ghost use Rattle.envy_policy.specs.Setup.{run_of};
    ghost use Rattle.envy_policy.specs.History.{History, IsHistory};

    ghost Value = { History };

    ghost view = { λ a. record { policy = a.policy; pages = a.pages; positions = a.positions; heats = a.heats.heats; turns = a.turns.items; flushes = a.heats.flushes; lives = a.lives } };

    ghost invariant = { λ a. IsHistory (record { policy = a.policy; pages = a.pages; positions = a.positions; heats = a.heats.heats; turns = a.turns.items; flushes = a.heats.flushes; lives = a.lives })
        × (a.run ≡ run_of a.policy a.positions) };
}

impl Chooser {
    /// No partition is warm, each turn stands at its partition's last position, and no life is noted. It takes
    /// all memory that is ever needed: under `Lifetime` 8 bytes for each page more.
    pub fn new(alloc: Global, setup: &Setup) -> Result<Chooser, NoMemory>
        requires { IsSetup setup.now }
        ensures { IfOk result (λ chooser.
            chooser ≡ started setup.now.policy setup.now.shape.pages (positions_of setup.now.shape)) }
    {
        let policy = setup.policy;
        let positions = positions_of(&setup.shape);
        let run = policy.run(positions);
        let count = ((positions - 1) / run + 1) as usize;
        let heats = Heats::new(alloc, count)?;
        let mut turns = vec![in alloc; 0; count]?;
        start_turns(&mut turns, positions, run);
        let lives = started(alloc, setup)?;
        Ok(Chooser {
            policy,
            pages: setup.shape.pages,
            positions,
            run,
            heats,
            turns,
            lives,
        })
    }

    /// Chooses for a page whose home this is, by the numbers of free and of dead rows at each
    /// position. It refuses nothing.
    pub fn choose(&self, free: &[u32], dead: &[u32], home: u32) -> Choice
        requires free { length free.now ≡ self.now.positions }
        requires dead { length dead.now ≡ self.now.positions }
        requires some { (k : ℕ) × (0 < slice_index free.now k + slice_index dead.now k) }
        requires home { home < self.now.positions }
        ensures choice { IsChoice self.now free.now dead.now home result }
        ensures within { IsWithin self.now free.now dead.now result }
        ensures whole { IsHistory self.now }
    {
        let partition = self.nearest(free, dead, home);
        match self.first_in(free, partition) {
            Some(position) => Choice::Free { position },
            None => Choice::Clean {
                position: self.victim(dead, partition),
                aside: self.aside(partition),
            },
        }
    }

    /// Warms the position's partition, to which a row was claimed for a flush. Each 1,024th such call
    /// since the start or the last reset halves all heats.
    #[inline(always)]
    pub fn note_flush(&mut self, position: u32)
        requires { position < self.old.positions }
        ensures { self.new ≡ flushed self.old position }
    {
        let partition = self.partition_of(position);
        self.heats.note(partition);
    }

    /// Notes that a row at a position was claimed for a flush of a page: as `note_flush`, and under `Lifetime`
    /// in the page's life too.
    #[inline(always)]
    pub fn note_claim(&mut self, position: u32, page: u32)
        requires position { position < self.old.positions }
        requires page { page < self.old.pages }
        ensures { self.new ≡ claimed self.old position page }
    {
        self.note_flush(position);
        note_claim(&mut self.lives, position, page);
    }

    /// Sets the turn of the position's partition to the position, whose cleaning has begun, and notes it under
    /// `Lifetime`.
    pub fn note_clean(&mut self, position: u32)
        requires { position < self.old.positions }
        ensures { self.new ≡ cleaned self.old position }
    {
        self.set_turn(position);
        note_clean(&mut self.lives, position);
    }

    fn set_turn(&mut self, position: u32)
        requires { position < self.old.positions }
        ensures { self.new
            ≡ record self.old { turns = slice_set self.old.turns (partition_of self.old position) position } }
    {
        let partition = self.partition_of(position);
        self.turns[partition as usize] = position;
    }

    /// Makes heats, turns, the count of flushes and lives as they were at the start.
    pub fn reset(&mut self)
        ensures { self.new ≡ started self.old.policy self.old.pages self.old.positions }
    {
        self.heats.reset();
        start_turns(&mut self.turns, self.positions, self.run);
        reset(&mut self.lives);
    }

    /// The first position of a partition, and the one after its last.
    #[inline(always)]
    pub fn bounds(&self, partition: u32) -> (u32, u32)
        requires { partition < length self.now.heats }
        ensures first { result.0 ≡ first_of self.now partition }
        ensures end { result.1 ≡ end_of self.now partition }
        ensures some { result.0 < result.1 }
        ensures within { result.1 ≤ self.now.positions }
        ensures whole { IsHistory self.now }
    {
        let first = partition * self.run;
        (first, self.positions.min(first + self.run))
    }

    /// The partition of a position.
    #[inline(always)]
    pub fn partition_of(&self, position: u32) -> u32
        requires { position < self.now.positions }
        ensures value { result ≡ partition_of self.now position }
        ensures counted { result < length self.now.heats }
    {
        position / self.run
    }

    fn count(&self) -> u32
        ensures value { result ≡ length self.now.heats }
        ensures whole { IsHistory self.now }
    {
        self.heats.count()
    }

    fn first_in(&self, rows: &[u32], partition: u32) -> Option<u32>
        requires partition { partition < length self.now.heats }
        requires rows { length rows.now ≡ self.now.positions }
        ensures { MatchOption result
            ((k : ℕ) → HasRows self.now rows.now partition k → ⊥)
            (IsLeast (HasRows self.now rows.now partition) (λ k. k)) }
    {
        let (first, end) = self.bounds(partition);
        first_with(rows, first, end)
    }

    fn is_usable(&self, free: &[u32], dead: &[u32], partition: u32) -> bool
        requires partition { partition < length self.now.heats }
        requires free { length free.now ≡ self.now.positions }
        requires dead { length dead.now ≡ self.now.positions }
        ensures { IsTrue result ↔ IsUsable self.now free.now dead.now partition }
    {
        self.first_in(free, partition).is_some() || self.first_in(dead, partition).is_some()
    }

    fn nearest(&self, free: &[u32], dead: &[u32], home: u32) -> u32
        requires free { length free.now ≡ self.now.positions }
        requires dead { length dead.now ≡ self.now.positions }
        requires some { (k : ℕ) × (0 < slice_index free.now k + slice_index dead.now k) }
        requires home { home < self.now.positions }
        ensures nearest { IsNearest self.now free.now dead.now home result }
        ensures counted { result < length self.now.heats }
        ensures whole { IsHistory self.now }
    {
        let own = self.partition_of(home);
        let count = self.count();
        for away in 0..count {
            if away <= own && self.is_usable(free, dead, own - away) {
                return own - away;
            }
            if own + away < count && self.is_usable(free, dead, own + away) {
                return own + away;
            }
        }
        unreachable!()
    }

    fn victim(&self, dead: &[u32], partition: u32) -> u32
        requires partition { partition < length self.now.heats }
        requires dead { length dead.now ≡ self.now.positions }
        requires some { (k : ℕ) × HasRows self.now dead.now partition k }
        ensures { IsVictim (victims_of self.now.policy) self.now dead.now partition result }
    {
        match self.policy.victims() {
            Victims::MostDead => self.most_dead(dead, partition),
            Victims::InTurn => self.next_in_turn(dead, partition).unwrap(),
        }
    }

    fn most_dead(&self, dead: &[u32], partition: u32) -> u32
        requires partition { partition < length self.now.heats }
        requires dead { length dead.now ≡ self.now.positions }
        requires some { (k : ℕ) × HasRows self.now dead.now partition k }
        ensures { IsMost (HasRows self.now dead.now partition) (slice_index dead.now) result }
    {
        let (first, end) = self.bounds(partition);
        most(dead, first, end)
    }

    fn next_in_turn(&self, dead: &[u32], partition: u32) -> Option<u32>
        requires partition { partition < length self.now.heats }
        requires dead { length dead.now ≡ self.now.positions }
        ensures { MatchOption result
            ((k : ℕ) → HasRows self.now dead.now partition k → ⊥)
            (IsLeast (HasRows self.now dead.now partition) (steps self.now partition)) }
    {
        let (first, end) = self.bounds(partition);
        let after = self.turn(partition) + 1;
        first_with(dead, after, end).or(first_with(dead, first, after))
    }

    /// The position at which the last cleaning in turn of a partition began.
    pub fn turn(&self, partition: u32) -> u32
        requires { partition < length self.now.heats }
        ensures value { result ≡ slice_index self.now.turns partition }
        ensures below { result < self.now.positions }
        ensures counted { partition < length self.now.turns }
    {
        self.turns[partition as usize]
    }

    /// The partition that takes rows out of this one: its cooler neighbour, where it is hot.
    pub fn aside(&self, partition: u32) -> Option<u32>
        requires partition { partition < length self.now.heats }
        ensures { IsAside self.now partition result }
    {
        let count = self.heats.count();
        if count == 1 || self.heats.heat(partition) * count <= self.heats.sum() {
            return None;
        }
        if partition == 0 {
            return Some(1);
        }
        let below = partition - 1;
        if partition + 1 == count || self.heats.heat(below) <= self.heats.heat(partition + 1) {
            return Some(below);
        }
        Some(partition + 1)
    }
}

/// Sets each turn to its partition's last position, where so many positions stand in such runs.
fn start_turns(turns: &mut [u32], positions: u32, run: u32)
    requires few { positions ≤ 4095 }
    requires some_run { 1 ≤ run }
    requires few_run { run ≤ positions }
    requires count { length turns.old ≤ positions }
    ensures { turns.new ≡ map (last_in positions run) (range_with_len 0 (length turns.old)) }
{
    for (g, turn) in turns.iter_mut().enumerate() {
        *turn = positions.min(g as u32 * run + run) - 1;
    }
}
