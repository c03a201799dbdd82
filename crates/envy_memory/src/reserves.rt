// What is left of the segments in reserve.
ghost use Rattle.std.specs.Prelude.{◌≡◌, ◌+◌, ◌≤◌, false, IsTrue, IfOk, MatchResult};
ghost use Rattle.envy_base.specs.Shape.{IsShape};
ghost use Rattle.envy_memory.specs.Reserves.{TellsErases, left, retired, retired_in};

use crate::memory::Memory;
use envy_base::{Board, Off, Shape, all_positions_of, positions_of};
use envy_space::Space;

/// How many positions in reserve have a segment that was retired, and how many one that is left to stand in for
/// another.
#[derive(Clone, Copy, Debug, PartialEq, Eq)]
pub struct Worn {
    pub retired: u32,
    pub left: u32,
}

/// How many positions in reserve have a segment of which rows were claimed.
fn retired_in_pool(space: &Space, shape: &Shape) -> u32
    requires shape { shape.now ≡ space.now.shape }
    requires sizes { IsShape shape.now }
    ensures count { result ≡ retired_in shape.now space.now.fills space.now.positions }
    ensures few { result ≤ shape.now.reserves }
{
    let mut count = 0;
    for position in positions_of(shape)..all_positions_of(shape) {
        if space.fill(space.segment_at(position)) != 0 {
            count += 1;
        }
    }
    count
}

impl<B: Board> Memory<B> {
    /// How many segments in reserve are retired, and how many are left. Together they are all that are in reserve.
    ///
    /// # Errors
    ///
    /// `Off`.
    pub fn worn(&self) -> Result<Worn, Off>
        ensures retired { IfOk result (λ worn. worn.retired ≡ retired self.now.chart) }
        ensures left { IfOk result (λ worn. worn.left ≡ left self.now.chart) }
        ensures all { IfOk result (λ worn. worn.retired + worn.left ≡ self.now.chart.shape.reserves) }
        ensures tells { IfOk result (λ worn. TellsErases self.now.chart worn.left) }
        ensures power { MatchResult result (λ _. IsTrue self.now.chart.on) (λ _. self.now.chart.on ≡ false) }
    {
        self.invariant_holds();
        if !self.powered() {
            return Err(Off);
        }
        let shape = self.board.shape();
        let retired = retired_in_pool(&self.parts.space, &shape);
        Ok(Worn {
            retired,
            left: shape.reserves - retired,
        })
    }
}
