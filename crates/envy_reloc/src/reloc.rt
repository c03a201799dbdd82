ghost use Rattle.std.specs.Prelude.{length, ◌≡◌, ◌+◌, ◌-◌, ◌/◌, ◌<◌, ◌≤◌, ℕ, [], false, IsTrue, All, None, Some, OnOk, slice_index};
ghost use Rattle.envy_map.specs.Fields.{chart};
ghost use Rattle.envy_soundness.specs.Power.{power_of};
ghost use Rattle.envy_soundness.specs.Same.{Same};
ghost use Rattle.envy_soundness.specs.Sound.{IsSound};
ghost use Rattle.envy_space.specs.Pool.{PoolAgrees};
ghost use Rattle.envy_reloc.specs.Keeping.{Begins, MayBegin};
ghost use Rattle.envy_reloc.specs.Plan.{Plan, IsPlanOf};
ghost use Rattle.envy_base.specs.Shape.{positions_of};

use arrayvec::ArrayVec;
use envy_base::{Board, Off};
use envy_soundness::begin_copy;
use envy_space::Space;
use std::marker::Model;

/// A relocation: what it has left to do that the map doesn't say.
#[derive(Drop)]
pub struct Reloc {
    pub(crate) moves: ArrayVec<u32, 4>,
    pub(crate) aside: Option<(u32, u32)>,
    /// The rows of the segment below it have been looked at by copies.
    pub(crate) mark: u32,
    pub(crate) copied: u64,
    pub(crate) moved: u64,
    pub(crate) erased: u64,
    pub(crate) since: u64,
}

impl Model for Reloc {
    ghost use Rattle.envy_reloc.specs.Plan.{Plan};

    ghost Value = { Plan };

    ghost view = { λ a. record { moves = a.moves.items; aside = a.aside; mark = a.mark; copied = a.copied; moved = a.moved; erased = a.erased; since = a.since } };
}

impl Reloc {
    /// Nothing is left to do, and nothing has been counted.
    pub fn new() -> Reloc
        ensures { result ≡ record { moves = []; aside = None; mark = 0; copied = 0; moved = 0; erased = 0; since = 0 } }
    {
        Reloc {
            moves: ArrayVec::new(),
            aside: None,
            mark: 0,
            copied: 0,
            moved: 0,
            erased: 0,
            since: 0,
        }
    }

    /// Begins to relocate the segment at a position into the spare. First the rows of `moves`, which are
    /// rows of the segment, go to the neighbour, which is the positions from the first to the second number
    /// of `aside`.
    pub fn begin<B: Board>(
        &mut self,
        board: &mut B,
        space: &Space,
        position: u32,
        moves: ArrayVec<u32, 4>,
        aside: Option<(u32, u32)>,
    ) -> Result<(), Off>
        requires ready { IsTrue (B.state board.old).on → MayBegin (chart (B.state board.old)) space.now }
        requires shape { space.now.shape ≡ (B.state board.old).shape }
        requires position { position < positions_of space.now.shape }
        requires moves { All (λ q. q / space.now.shape.rows ≡ slice_index space.now.positions position) moves.items }
        requires aside { (first last : ℕ) → aside ≡ Some (first, last) → (first ≤ last)
            × (last < positions_of space.now.shape) }

        ensures same { IsSound (chart (B.state board.old))
            → Same 0 0 (chart (B.state board.old)) (chart (B.state board.new)) }
        ensures idle { (B.state board.old).on ≡ false → (B.state board.new ≡ B.state board.old)
            × (self.new ≡ self.old) }
        ensures agrees { IsTrue (B.state board.new).on
            → IsPlanOf (B.state board.new).shape (chart (B.state board.new)).fields (B.state board.new).flash self.new }
        ensures pool { IsTrue (B.state board.new).on
            → PoolAgrees (B.state board.new).shape (chart (B.state board.new)).fields space.now }
        ensures plan { IsTrue (B.state board.old).on
            → self.new ≡ record self.old { moves = moves.items; aside = aside; mark = 0 } }
        ensures begins { OnOk result (Begins (chart (B.state board.old)) space.now position
            (length moves.items + (B.state board.old).shape.rows) self.old (chart (B.state board.new)) self.new) }
        ensures power { (B.state board.new).on ≡ power_of result }
    {
        if !board.powered() {
            return Err(Off);
        }
        self.moves = moves;
        self.aside = aside;
        self.mark = 0;
        begin_copy(board, space.segment_at(position))?;
        Ok(())
    }

    /// How many moves are left.
    pub fn left(&self) -> u32
        ensures is { result ≡ length self.now.moves }
        ensures few { result ≤ 4 }
    {
        self.moves.len() as u32
    }

    /// How many programs copies have begun.
    pub fn copied(&self) -> u64
        ensures { result ≡ self.now.copied }
    {
        self.copied
    }

    /// How many programs moves have begun.
    pub fn moved(&self) -> u64
        ensures { result ≡ self.now.moved }
    {
        self.moved
    }

    /// How many erases have begun.
    pub fn erased(&self) -> u64
        ensures { result ≡ self.now.erased }
    {
        self.erased
    }

    /// How many erases have begun since the last call of `count_anew`.
    pub fn since(&self) -> u64
        ensures { result ≡ self.now.since }
    {
        self.since
    }

    /// The erases are counted from 0 again.
    pub fn count_anew(&mut self)
        ensures { self.new ≡ record self.old { since = 0 } }
    {
        self.since = 0;
    }

    /// Drops what is left to do, and counts the erases from 0 again, as after a restart. The other counts stay.
    pub fn clear(&mut self)
        ensures { self.new ≡ record self.old { moves = []; aside = None; mark = 0; since = 0 } }
    {
        self.moves = ArrayVec::new();
        self.aside = None;
        self.mark = 0;
        self.since = 0;
    }
}
