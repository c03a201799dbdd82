ghost use Rattle.std.specs.Prelude.{◌≡◌, ◌<◌, MatchResult};
ghost use Rattle.envy_array.specs.Array.{zeros};
ghost use Rattle.envy_map.specs.Fields.{chart};
ghost use Rattle.envy_meaning.specs.Stands.{Stands};
ghost use Rattle.envy_memory.specs.Picture.{counts_of};
ghost use Rattle.envy_mirror.specs.Mirroring.{Mirrors};
ghost use Rattle.envy_mirror.specs.Pair.{IsPair, is_good, side_at, started};
ghost use Rattle.envy_mirror.specs.Reviving.{which};

use crate::half::Half;
use crate::standing::{Standing, Which};
use envy_array::Counts;
use envy_base::{Bench, Board, NoMemory};
use envy_memory::Memory;
use std::alloc::Global;
use std::marker::Model;

/// Two memories of one shape that stand for one array. Side 0 is the first, side 1 the second.
pub struct Mirror<A: Bench, B: Bench> {
    pub(crate) first: Half<A>,
    pub(crate) second: Half<B>,
    /// one mark for each page: whether it is stale on a side that is Behind
    pub(crate) stale: Vec<bool>,
    /// the side that is Good, or was Good last
    pub(crate) last: Which,
}

impl<A: Bench, B: Bench> Model for Mirror<A, B> {
    ghost use Rattle.envy_mirror.specs.Pair.{Pair, IsPair};

    ghost Value = { Pair };

    ghost view = { λ a. record { first = a.first; second = a.second; stale = a.stale.items; last = a.last } };

    ghost invariant = { λ a. IsPair (record { first = a.first; second = a.second; stale = a.stale.items; last = a.last }) };
}

impl<A: Bench, B: Bench> Mirror<A, B> {
    /// A pair of two memories of one shape, whose words are all 0, with power and without an open slot. It takes
    /// all memory that is ever needed.
    ///
    /// # Errors
    ///
    /// Where memory ran out, both come back as they were.
    pub fn new(
        alloc: Global,
        a: Memory<A>,
        b: Memory<B>,
    ) -> Result<Mirror<A, B>, (Memory<A>, Memory<B>, NoMemory)>
        requires shape { b.chart.shape ≡ a.chart.shape }
        requires first { Stands a.chart (zeros a.chart.shape.pages a.chart.shape.shadows) }
        requires second { Stands b.chart (zeros b.chart.shape.pages b.chart.shape.shadows) }
        ensures pair { MatchResult result (λ mirror. mirror ≡ started a b) (λ e. (e.0 ≡ a) × (e.1 ≡ b)) }
        ensures mirrors { MatchResult result (λ mirror.
            Mirrors mirror (zeros a.chart.shape.pages a.chart.shape.shadows)) (λ e. Unit {0}) }
    {
        let pages = a.board().shape().pages;
        match vec![in alloc; false; pages as usize] {
            Ok(stale) => Ok(Mirror {
                first: Half {
                    memory: a,
                    standing: Standing::Good,
                },
                second: Half {
                    memory: b,
                    standing: Standing::Good,
                },
                stale,
                last: Which::First,
            }),
            Err(fault) => Err((a, b, fault)),
        }
    }

    /// Whether a side is Good.
    pub fn good(&self, side: u8) -> bool
        requires { side < 2 }
        ensures good { result ≡ is_good (side_at (which side) self.now) }
        ensures pair { IsPair self.now }
    {
        match side {
            0 => self.first.is_good(),
            _ => self.second.is_good(),
        }
    }

    /// What a side has counted since its memory was made.
    pub fn counts(&self, side: u8) -> Counts
        requires { side < 2 }
        ensures { result ≡ counts_of (side_at (which side) self.now).memory.parts }
    {
        match side {
            0 => self.first.memory.counts(),
            _ => self.second.memory.counts(),
        }
    }

    /// Gives the boards back.
    pub fn into_boards(self) -> (A, B)
        ensures first { chart (A.state result.0) ≡ self.first.memory.chart }
        ensures second { chart (B.state result.1) ≡ self.second.memory.chart }
    {
        let Mirror {
            first,
            second,
            stale: _stale,
            last: _last,
        } = self;
        let Half {
            memory: a,
            standing: _a,
        } = first;
        let Half {
            memory: b,
            standing: _b,
        } = second;
        (a.into_board(), b.into_board())
    }
}
