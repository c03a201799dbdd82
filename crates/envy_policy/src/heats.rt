ghost use Rattle.std.specs.Prelude.{◌≡◌, ◌+◌, ◌-◌, ◌^◌, ◌<◌, ◌≤◌, length, sum, slice_index, IfOk};
ghost use Rattle.envy_policy.specs.Heats.{cold, noted, halved_by, heats_of, halves_of, warmer};

use envy_base::NoMemory;
use std::alloc::Global;
use std::marker::Model;

/// Flushes from one halving of all heats to the next.
const HALVING: u32 = 1024;

/// Heats that are halved with a flush: all of them before the next halving, since there are at most 4,095.
const HALVED_WITH_A_FLUSH: usize = 4;

/// The heats of the partitions, and the flushes since they were halved. A halving is done a few heats at a time,
/// with the flushes behind it.
#[derive(Drop)]
pub(crate) struct Heats {
    // The first are halved, the others aren't yet.
    kept: Vec<u32>,
    flushes: u32,
    // The sum of the heats, and that of the halves of those that are halved.
    warmth: u32,
    halves: u32,
}

impl Model for Heats {
    ghost use Rattle.std.specs.Prelude.{length};
    ghost use Rattle.envy_policy.specs.Heats.{Warmth, AreKept, heats_of, halved_by};

    ghost Value = { Warmth };

    ghost view = { λ a. record { heats = heats_of (halved_by a.flushes (length a.kept.items)) a.kept.items; flushes = a.flushes } };

    ghost invariant = { λ a. AreKept a.kept.items a.flushes a.warmth a.halves };
}

// How many of so many heats are halved, so many flushes after the halving.
fn halved(flushes: u32, count: usize) -> usize
    requires { flushes ≤ 1024 }
    ensures { result ≡ halved_by flushes count }
{
    (HALVED_WITH_A_FLUSH * flushes as usize).min(count)
}

// Halves the heats from `first` on up to the one before `end`, and answers the sum of their halves then.
#[inline(always)]
fn halve(kept: &mut [u32], first: usize, end: usize) -> u32
    requires order { first ≤ end }
    requires end { end ≤ length kept.old }
    requires few { sum (heats_of first kept.old) < 2 ^ 32 }
    ensures count { length kept.new ≡ length kept.old }
    ensures heats { heats_of end kept.new ≡ heats_of first kept.old }
    ensures halves { halves_of end kept.new ≡ halves_of first kept.old + result }
{
    if first == end {
        return 0;
    }
    halve_some(kept, first, end)
}

// The same where there are some.
#[cold]
#[inline(never)]
fn halve_some(kept: &mut [u32], first: usize, end: usize) -> u32
    requires order { first ≤ end }
    requires end { end ≤ length kept.old }
    requires few { sum (heats_of first kept.old) < 2 ^ 32 }
    ensures count { length kept.new ≡ length kept.old }
    ensures heats { heats_of end kept.new ≡ heats_of first kept.old }
    ensures halves { halves_of end kept.new ≡ halves_of first kept.old + result }
{
    let mut halves = 0;
    for g in first..end {
        let heat = kept[g] / 2;
        kept[g] = heat;
        halves += heat / 2;
    }
    halves
}

// Raises a heat by one, where so many are halved, and answers by how much the sum of their halves rose.
fn warm(kept: &mut [u32], halved: usize, partition: usize) -> u32
    requires partition { partition < length kept.old }
    requires room { slice_index kept.old partition < 2 ^ 32 - 2 }
    ensures count { length kept.new ≡ length kept.old }
    ensures heats { heats_of halved kept.new ≡ warmer (heats_of halved kept.old) partition }
    ensures halves { halves_of halved kept.new ≡ halves_of halved kept.old + result }
    ensures one { result ≤ 1 }
{
    let heat = kept[partition];
    if partition < halved {
        kept[partition] = heat + 1;
        return heat % 2;
    }
    kept[partition] = heat + 2;
    0
}

impl Heats {
    /// So many partitions, of which none is warm.
    pub(crate) fn new(alloc: Global, count: usize) -> Result<Heats, NoMemory>
        requires { count ≤ 4095 }
        ensures { IfOk result (λ heats. heats ≡ cold count) }
    {
        Ok(Heats {
            kept: vec![in alloc; 0; count]?,
            flushes: 0,
            warmth: 0,
            halves: 0,
        })
    }

    /// How many partitions there are.
    pub(crate) fn count(&self) -> u32
        ensures { result ≡ length self.now.heats }
    {
        self.kept.len() as u32
    }

    /// The heat of a partition.
    pub(crate) fn heat(&self, partition: u32) -> u32
        requires { partition < length self.now.heats }
        ensures { result ≡ slice_index self.now.heats partition }
    {
        let heat = self.kept[partition as usize];
        if (partition as usize) < halved(self.flushes, self.kept.len()) {
            return heat;
        }
        heat / 2
    }

    /// The sum of all heats.
    pub(crate) fn sum(&self) -> u32
        ensures { result ≡ sum self.now.heats }
    {
        self.warmth
    }

    /// Warms a partition. Each 1,024th such call since the start or the last reset halves all heats.
    #[inline(always)]
    pub(crate) fn note(&mut self, partition: u32)
        requires { partition < length self.old.heats }
        ensures { self.new ≡ noted self.old partition }
    {
        let first = halved(self.flushes, self.kept.len());
        self.flushes += 1;
        let end = halved(self.flushes, self.kept.len());
        self.halves += halve(&mut self.kept, first, end);
        self.halves += warm(&mut self.kept, end, partition as usize);
        self.warmth += 1;
        if self.flushes == HALVING {
            self.flushes = 0;
            self.warmth = self.halves;
            self.halves = 0;
        }
    }

    /// Makes all heats and the count of flushes 0.
    pub(crate) fn reset(&mut self)
        ensures { self.new ≡ cold (length self.old.heats) }
    {
        self.kept.fill(0);
        self.flushes = 0;
        self.warmth = 0;
        self.halves = 0;
    }
}
