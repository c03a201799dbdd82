ghost use Rattle.std.specs.Prelude.{◌≡◌, ℕ, ◌+◌, ◌-◌, ◌*◌, ◌/◌, ◌<◌, ◌≤◌, [], IfOk, slice_index};
ghost use Rattle.envy_base.specs.Shape.{IsShape, all_positions_of, positions_of};
ghost use Rattle.envy_map.specs.Fields.{Chart};
ghost use Rattle.envy_soundness.specs.Formatting.{IsEmpty, aside};
ghost use Rattle.envy_soundness.specs.Sound.{IsPlaced, IsSpare};
ghost use Rattle.envy_space.specs.Pool.{Pool, IsPool, PoolAgrees, empty_pool, free_rows, dead_rows, free_between, dead_at, with_filled, with_kept, noted_kept, noted_dead, StandsAt};
ghost use Rattle.envy_space.specs.Winners.{Wins};

use crate::flags::Flags;
use crate::order::Order;
use crate::scores::Scores;
use envy_base::{NoMemory, Shape, all_positions_of, positions_of};
use std::alloc::Global;
use std::marker::Model;

/// The pool of erased rows.
#[derive(Drop)]
pub struct Space {
    pub(crate) shape: Shape,
    fills: Vec<u32>,
    kept: Vec<u32>,
    /// The segments in the order of their positions, and the spare after them.
    order: Order,
    /// The dead rows of each segment in that order.
    dead: Scores,
    /// Which have free rows, and which have dead ones, in that order.
    pub(crate) has_free: Flags,
    pub(crate) has_dead: Flags,
}

impl Model for Space {
    ghost use Rattle.std.specs.Prelude.{take};
    ghost use Rattle.envy_base.specs.Shape.{all_positions_of};
    ghost use Rattle.envy_space.specs.Pool.{Pool, IsSpace};

    ghost Value = { Pool };

    ghost view = { λ a. record { shape = a.shape; fills = a.fills.items; kept = a.kept.items; positions = take (all_positions_of a.shape) a.order } };

    ghost invariant = { λ a. IsSpace a.shape a.fills.items a.kept.items a.order a.dead a.has_free a.has_dead };
}

impl Space {
    /// The pool of an empty board. It agrees with each board of the shape that was just formatted and of which no
    /// segment was set aside.
    pub fn new(alloc: Global, shape: &Shape) -> Result<Space, NoMemory>
        requires { IsShape shape.now }
        ensures empty { IfOk result (λ space. space ≡ empty_pool shape.now) }
        ensures agrees { IfOk result (λ space. (version : ℕ) (c : Chart) → c.shape ≡ shape.now → IsEmpty version c
            → aside c.shape c.fields.fills ≡ [] → PoolAgrees c.shape c.fields space) }
    {
        let shape = *shape;
        let fills = vec![in alloc; 0; shape.segments as usize]?;
        let kept = vec![in alloc; 0; shape.segments as usize]?;
        let order = Order::new(alloc, shape.segments)?;
        let dead = Scores::new(alloc, shape.segments, 0)?;
        let has_free = Flags::new(alloc, shape.segments, shape.rows)?;
        let has_dead = Flags::new(alloc, shape.segments, 0)?;
        Ok(Space {
            shape,
            fills,
            kept,
            order,
            dead,
            has_free,
            has_dead,
        })
    }

    /// How many rows of a segment have been claimed since it was erased.
    pub fn fill(&self, segment: u32) -> u32
        requires { segment < self.now.shape.segments }
        ensures fill { result ≡ slice_index self.now.fills segment }
        ensures pool { IsPool self.now }
    {
        self.fills[segment as usize]
    }

    /// How many rows of a segment are kept.
    pub fn kept(&self, segment: u32) -> u32
        requires { segment < self.now.shape.segments }
        ensures kept { result ≡ slice_index self.now.kept segment }
        ensures pool { IsPool self.now }
    {
        self.kept[segment as usize]
    }

    /// How many rows of a segment are free.
    pub fn free(&self, segment: u32) -> u32
        requires { segment < self.now.shape.segments }
        ensures { result ≡ free_rows self.now segment }
    {
        self.shape.rows - self.fill(segment)
    }

    /// How many rows of a segment are dead.
    pub fn dead(&self, segment: u32) -> u32
        requires { segment < self.now.shape.segments }
        ensures { result ≡ dead_rows self.now segment }
    {
        self.fill(segment) - self.kept(segment)
    }

    /// How many rows are free in the segments at the positions from `first` to `last`.
    pub fn free_in(&self, first: u32, last: u32) -> u32
        requires order { first ≤ last }
        requires last { last < positions_of self.now.shape }
        ensures { result ≡ free_between self.now first last }
    {
        let _ = &self.shape;
        let mut free = 0;
        for position in first..last + 1 {
            free += self.free(self.segment_at(position));
        }
        free
    }

    /// How many positions are in use.
    pub fn positions(&self) -> u32
        ensures positions { result ≡ positions_of self.now.shape }
        ensures pool { IsPool self.now }
    {
        positions_of(&self.shape)
    }

    /// The segment at a position.
    pub fn segment_at(&self, position: u32) -> u32
        requires { position < all_positions_of self.now.shape }
        ensures segment { result ≡ slice_index self.now.positions position }
        ensures pool { IsPool self.now }
    {
        self.order.segment_at(position)
    }

    /// The position in use at which a segment stands.
    pub fn position_of(&self, segment: u32) -> u32
        requires { IsPlaced self.now.shape self.now.positions segment }
        ensures within { result < positions_of self.now.shape }
        ensures stands { slice_index self.now.positions result ≡ segment }
        ensures pool { IsPool self.now }
    {
        self.order.place_of(segment)
    }

    /// The segment that stands at no position.
    pub fn spare(&self) -> u32
        ensures spare { IsSpare self.now.shape self.now.positions result }
        ensures pool { IsPool self.now }
    {
        self.order.segment_at(all_positions_of(&self.shape))
    }

    /// The position from `first` to `last` with the most dead rows, the lowest of several, or `None`
    /// where no row there is dead.
    pub fn most_dead(&self, first: u32, last: u32) -> Option<u32>
        requires order { first ≤ last }
        requires last { last < positions_of self.now.shape }
        ensures { Wins (dead_at self.now) first last result }
    {
        self.dead.best(first, last)
    }

    /// Notes that a row, which no page named, is kept. The kept rows of its segment are below the
    /// segment's fill.
    pub fn note_kept(&mut self, row: u32)
        requires row { row < self.old.shape.segments * self.old.shape.rows }
        requires room { let segment = row / self.old.shape.rows in
            slice_index self.old.kept segment < slice_index self.old.fills segment }
        ensures { self.new ≡ noted_kept row self.old }
    {
        let segment = row / self.shape.rows;
        self.set_kept(segment, self.kept(segment) + 1);
    }

    /// Notes that a row, which was kept, is named by no page.
    pub fn note_dead(&mut self, row: u32)
        requires row { row < self.old.shape.segments * self.old.shape.rows }
        requires some { 0 < slice_index self.old.kept (row / self.old.shape.rows) }
        ensures { self.new ≡ noted_dead row self.old }
    {
        let segment = row / self.shape.rows;
        self.set_kept(segment, self.kept(segment) - 1);
    }

    /// Notes that a segment, none of whose rows is kept, is erased.
    pub fn note_erased(&mut self, segment: u32)
        requires segment { segment < self.old.shape.segments }
        requires none { slice_index self.old.kept segment ≡ 0 }
        ensures { self.new ≡ with_filled segment 0 self.old }
    {
        self.set_fill(segment, 0);
    }

    /// Makes the pool that of an empty formatted board.
    pub(crate) fn clear(&mut self)
        ensures { self.new ≡ empty_pool self.old.shape }
    {
        self.fills.fill(0);
        self.kept.fill(0);
        self.order.clear();
        self.dead.fill(0);
        self.has_free.fill(self.shape.rows);
        self.has_dead.fill(0);
    }

    /// Lets a segment stand at a position. The segment of the position stands where that one stood.
    pub fn stand(&mut self, position: u32, segment: u32)
        requires position { position < all_positions_of self.old.shape }
        requires segment { segment < self.old.shape.segments }
        ensures { StandsAt position segment self.old self.new }
    {
        let place = self.order.place_of(segment);
        self.order.exchange(position, place);
        self.dead.exchange(position, place);
        self.has_free.exchange(position, place);
        self.has_dead.exchange(position, place);
    }

    /// Writes the fill of a segment.
    #[inline(always)]
    pub fn set_fill(&mut self, segment: u32, fill: u32)
        requires segment { segment < self.old.shape.segments }
        requires fits { fill ≤ self.old.shape.rows }
        requires kept { slice_index self.old.kept segment ≤ fill }
        ensures { self.new ≡ with_filled segment fill self.old }
    {
        let (before, kept) = (self.fill(segment), self.kept(segment));
        self.fills[segment as usize] = fill;
        let place = self.order.place_of(segment);
        let rows = self.shape.rows;
        self.has_free.change(place, rows - before, rows - fill);
        self.has_dead.change(place, before - kept, fill - kept);
        self.dead.set(place, fill - kept);
    }

    /// Writes how many rows of a segment are kept.
    fn set_kept(&mut self, segment: u32, kept: u32)
        requires segment { segment < self.old.shape.segments }
        requires fits { kept ≤ slice_index self.old.fills segment }
        ensures { self.new ≡ with_kept segment kept self.old }
    {
        let (fill, before) = (self.fill(segment), self.kept(segment));
        self.kept[segment as usize] = kept;
        let place = self.order.place_of(segment);
        self.has_dead.change(place, fill - before, fill - kept);
        self.dead.set(place, fill - kept);
    }
}
