ghost use Rattle.std.specs.Prelude.{◌≡◌, ◌-◌, ◌≤◌};
ghost use Rattle.envy_space.specs.Pool.{free_at, dead_at, usable_at};
ghost use Rattle.envy_space.specs.Winners.{Lowest, Highest};
ghost use Rattle.envy_base.specs.Shape.{positions_of};

use crate::Space;

impl Space {
    /// The lowest position from `first` to below `end` that has a free row.
    pub fn lowest_free(&self, first: u32, end: u32) -> Option<u32>
        requires order { first ≤ end }
        requires end { end ≤ positions_of self.now.shape }
        ensures { Lowest (free_at self.now) first end result }
    {
        self.has_free.lowest(first, end)
    }

    /// The lowest position from `first` to below `end` that has a dead row.
    pub fn lowest_dead(&self, first: u32, end: u32) -> Option<u32>
        requires order { first ≤ end }
        requires end { end ≤ positions_of self.now.shape }
        ensures { Lowest (dead_at self.now) first end result }
    {
        self.has_dead.lowest(first, end)
    }

    /// The highest position from `first` to below `end` that has a free row.
    pub fn highest_free(&self, first: u32, end: u32) -> Option<u32>
        requires order { first ≤ end }
        requires end { end ≤ positions_of self.now.shape }
        ensures { Highest (free_at self.now) first end result }
    {
        self.has_free.highest(first, end)
    }

    /// The highest position from `first` to below `end` that has a dead row.
    pub fn highest_dead(&self, first: u32, end: u32) -> Option<u32>
        requires order { first ≤ end }
        requires end { end ≤ positions_of self.now.shape }
        ensures { Highest (dead_at self.now) first end result }
    {
        self.has_dead.highest(first, end)
    }

    /// The lowest position from `first` to below `end` that has a free or a dead row.
    pub fn lowest_usable(&self, first: u32, end: u32) -> Option<u32>
        requires order { first ≤ end }
        requires end { end ≤ positions_of self.now.shape }
        ensures { Lowest (usable_at self.now) first end result }
    {
        match (self.lowest_free(first, end), self.lowest_dead(first, end)) {
            (Some(free), Some(dead)) => Some(free.min(dead)),
            (Some(free), None) => Some(free),
            (None, dead) => dead,
        }
    }

    /// The highest position from `first` to below `end` that has a free or a dead row.
    pub fn highest_usable(&self, first: u32, end: u32) -> Option<u32>
        requires order { first ≤ end }
        requires end { end ≤ positions_of self.now.shape }
        ensures { Highest (usable_at self.now) first end result }
    {
        match (self.highest_free(first, end), self.highest_dead(first, end)) {
            (Some(free), Some(dead)) => Some(free.max(dead)),
            (Some(free), None) => Some(free),
            (None, dead) => dead,
        }
    }
}
