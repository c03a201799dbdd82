ghost use Rattle.std.specs.Prelude.{◌≡◌, ◌^◌, ◌<◌, ◌≤◌, length, replicate, slice_index, slice_set, swap, IfOk};
ghost use Rattle.envy_space.specs.Winners.{IsRun, Wins};

use crate::nodes::Entry;
use crate::winners::Winners;
use envy_base::NoMemory;
use std::alloc::Global;
use std::marker::Model;

/// Scores of places, and the best place of any run of them.
///
/// A second score stands beside the winners, so that two places whose scores change in turn, as those of a
/// segment that is cleaned and of the one that it is copied to, change no node.
#[derive(Drop)]
pub struct Scores {
    winners: Winners,
    other: Entry,
}

impl Model for Scores {
    ghost use Rattle.std.specs.Prelude.{List, ℕ, length, slice_set, ◌<◌, ◌^◌};

    ghost Value = { List ℕ };

    ghost view = { λ a. slice_set a.winners a.other.place a.other.score };

    ghost invariant = { λ a. (a.other.place < length a.winners) × (length a.winners < 2 ^ 31) };
}

impl Scores {
    /// So many places, each with this score.
    pub fn new(alloc: Global, places: u32, score: u32) -> Result<Scores, NoMemory>
        requires some { 1 ≤ places }
        requires few { places < 2 ^ 31 }
        ensures { IfOk result (λ scores. scores ≡ replicate places score) }
    {
        let winners = Winners::new(alloc, places, score)?;
        let other = Entry { place: 0, score };
        Ok(Scores { winners, other })
    }

    /// Gives each place this score.
    pub fn fill(&mut self, score: u32)
        ensures { self.new ≡ replicate (length self.old) score }
    {
        self.winners.fill(score);
        self.other = Entry { place: 0, score };
    }

    /// Writes the score of a place.
    #[inline(always)]
    pub fn set(&mut self, place: u32, score: u32)
        requires { place < length self.old }
        ensures { self.new ≡ slice_set self.old place score }
    {
        if self.other.place == place {
            self.other.score = score;
        } else if !self.winners.amend(place, score) {
            self.set_other(place, score);
        }
    }

    // The same, and the score is the one beside the winners then.
    #[cold]
    #[inline(never)]
    fn set_other(&mut self, place: u32, score: u32)
        requires { place < length self.old }
        ensures { self.new ≡ slice_set self.old place score }
    {
        self.winners.set(self.other.place, self.other.score);
        self.other = Entry { place, score };
    }

    /// The score of a place.
    pub fn score(&self, place: u32) -> u32
        requires { place < length self.now }
        ensures { result ≡ slice_index self.now place }
    {
        if self.other.place == place {
            self.other.score
        } else {
            self.winners.score(place)
        }
    }

    /// Lets the scores of two places change places.
    pub fn exchange(&mut self, i: u32, j: u32)
        requires i { i < length self.old }
        requires j { j < length self.old }
        ensures { self.new ≡ swap self.old i j }
    {
        let (first, second) = (self.score(i), self.score(j));
        self.set(i, second);
        self.set(j, first);
    }

    /// The place from `first` to `last` with the highest score, the lowest of several, or `None` where
    /// each score is 0.
    pub fn best(&self, first: u32, last: u32) -> Option<u32>
        requires order { first ≤ last }
        requires last { last < length self.now }
        ensures { Wins (slice_index self.now) first last result }
    {
        // What holds of the fields bounds `last`.
        let _ = &self.other;
        let best = self.best_between(first, last + 1);
        if best.score == 0 {
            None
        } else {
            Some(best.place)
        }
    }

    /// The entry with the highest score of the places from `first` to below `end`, the lowest of several.
    fn best_between(&self, first: u32, end: u32) -> Entry
        requires order { first ≤ end }
        requires within { end ≤ length self.now }
        ensures { IsRun (slice_index self.now) first end result }
    {
        let other = self.other;
        if other.place < first || end <= other.place {
            return self.winners.best_between(first, end);
        }
        let left = self.winners.best_between(first, other.place);
        let right = self.winners.best_between(other.place + 1, end);
        left.or_better(other).or_better(right)
    }
}
