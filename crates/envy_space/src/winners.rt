ghost use Rattle.std.specs.Prelude.{◌≡◌, ◌^◌, ◌<◌, ◌≤◌, false, length, replicate, slice_index, slice_set, IfOk, IsTrue};
ghost use Rattle.envy_space.specs.Winners.{IsRun};

use crate::nodes::{Entry, best_with, lay, settle};
use envy_base::NoMemory;
use std::alloc::Global;
use std::marker::Model;

/// Scores of places, and the best place of any run of them.
///
/// A winner tree: the nodes from `places` on are the places, and each node `i` below has the better
/// entry of the nodes `2 * i` and `2 * i + 1`. So a new score changes one path to node 1, and a run of
/// places is that of a few nodes. The last score that was written stands beside the tree until another
/// place gets one: a place that gets a score for a moment changes no node.
#[derive(Drop)]
pub struct Winners {
    places: u32,
    nodes: Vec<Entry>,
    late: Entry,
}

impl Model for Winners {
    ghost use Rattle.std.specs.Prelude.{List, ℕ};
    ghost use Rattle.envy_space.specs.Winners.{IsLate, late_scores};

    ghost Value = { List ℕ };

    ghost view = { λ a. late_scores a.places a.nodes.items a.late };

    ghost invariant = { λ a. IsLate a.places a.nodes.items a.late };
}

impl Winners {
    /// So many places, each with this score.
    pub fn new(alloc: Global, places: u32, score: u32) -> Result<Winners, NoMemory>
        requires some { 1 ≤ places }
        requires few { places < 2 ^ 31 }
        ensures { IfOk result (λ winners. winners ≡ replicate places score) }
    {
        let mut nodes = vec![in alloc; Entry::NOBODY; 2 * places as usize]?;
        lay(&mut nodes, places, score);
        let late = Entry { place: 0, score };
        Ok(Winners {
            places,
            nodes,
            late,
        })
    }

    /// Gives each place this score.
    pub fn fill(&mut self, score: u32)
        ensures { self.new ≡ replicate (length self.old) score }
    {
        lay(&mut self.nodes, self.places, score);
        self.late = Entry { place: 0, score };
    }

    /// Writes the score of a place.
    pub fn set(&mut self, place: u32, score: u32)
        requires { place < length self.old }
        ensures { self.new ≡ slice_set self.old place score }
    {
        if self.late.place == place {
            self.late.score = score;
            return;
        }
        settle(&mut self.nodes, self.places, self.late);
        self.late = Entry { place, score };
    }

    /// The score of a place.
    pub fn score(&self, place: u32) -> u32
        requires { place < length self.now }
        ensures { result ≡ slice_index self.now place }
    {
        if place == self.late.place {
            self.late.score
        } else {
            self.nodes[(self.places + place) as usize].score
        }
    }

    /// Writes the score of a place where it stands beside the tree. Answers whether it does.
    #[inline(always)]
    pub fn amend(&mut self, place: u32, score: u32) -> bool
        requires { place < length self.old }
        ensures written { IsTrue result → self.new ≡ slice_set self.old place score }
        ensures kept { result ≡ false → self.new ≡ self.old }
    {
        if self.late.place != place {
            return false;
        }
        self.late.score = score;
        true
    }

    /// The entry with the highest score of the places from `first` to below `end`, the lowest of several.
    pub fn best_between(&self, first: u32, end: u32) -> Entry
        requires order { first ≤ end }
        requires within { end ≤ length self.now }
        ensures { IsRun (slice_index self.now) first end result }
    {
        best_with(&self.nodes, self.places, self.late, first, end)
    }
}
