ghost use Rattle.std.specs.Prelude.{◌≡◌, ◌≢◌, ℕ, ◌+◌, ◌-◌, ◌^◌, ◌<◌, ◌≤◌, None, Some, length, slice_index, IfOk, IfSome, IsTrue, MatchOption, false};
ghost use Rattle.envy_base.specs.Counting.{up};
ghost use Rattle.envy_base.specs.Shape.{IsShape, positions_of};
ghost use Rattle.envy_policy.specs.declared.fraction.Fraction.{Fraction};
ghost use Rattle.envy_policy.specs.Lifetime.{RowCounts, IsCounted, HasRoom, HasRowsFor, IsBeside, IsFresh, IsFull, IsLifetimeChoice, IsLowest, IsVictim, worth, IsBestBelow, IsTaken};
ghost use Rattle.envy_policy.specs.Notes.{IsNotes, class_of, noted_clean, noted_flush, unnoted};

use crate::class::OpenPositions;
use crate::counted::Listed;
use crate::fraction::{Fraction, Weighed};
use crate::{Choice, Class, Rows};
use envy_base::{NoMemory, Shape, positions_of};
use std::alloc::Global;
use std::marker::Model;

/// Chooses the position that a page is written to so that pages whose copies live about as long lie
/// together. It asks for no home, and knows one partition of all positions.
#[derive(Drop)]
pub struct Lifetime {
    /// Rows claimed for flushes since the start or the last reset. It stops at `u64::MAX`.
    clock: u64,
    /// Of each page, the clock just behind the last claim for it; 0 where there was none.
    born: Vec<u64>,
    /// Of each position, the clock when its last cleaning began; 0 where there was none.
    cleaned: Vec<u64>,
    opened: OpenPositions,
}

impl Model for Lifetime {
    ghost use Rattle.envy_policy.specs.Notes.{Notes, IsNotes};

    ghost Value = { Notes };

    ghost view = { λ a. record { clock = a.clock; born = a.born.items; cleaned = a.cleaned.items; opened = a.opened } };

    ghost invariant = { λ a. IsNotes (record { clock = a.clock; born = a.born.items; cleaned = a.cleaned.items; opened = a.opened }) };
}

/// One more, where a count can go on.
#[tactic(auto, unfolding(envy_base::specs::Counting::up))]
fn one_more(count: u64) -> u64
    ensures value { result ≡ up count }
    ensures more { count ≤ result }
{
    count.saturating_add(1)
}

impl Lifetime {
    /// Nothing is noted. It takes all memory that is ever needed: 8 bytes for each page and position.
    pub fn new(alloc: Global, shape: &Shape) -> Result<Lifetime, NoMemory>
        requires { IsShape shape.now }
        ensures { IfOk result (λ lifetime. lifetime ≡ unnoted shape.now.pages (positions_of shape.now)) }
    {
        let born = vec![in alloc; 0; shape.pages as usize]?;
        let cleaned = vec![in alloc; 0; positions_of(shape) as usize]?;
        Ok(Lifetime {
            clock: 0,
            born,
            cleaned,
            opened: OpenPositions::NONE,
        })
    }

    /// The class of a page, by the flushes from its last up to now.
    pub fn class_of(&self, page: u32) -> Class
        requires { page < length self.now.born }
        ensures { result ≡ class_of self.now page }
    {
        let born = self.born[page as usize];
        if born == 0 {
            return Class::Lasting;
        }
        Class::by_life(self.clock - born, self.born.len() as u32)
    }

    /// Chooses for a page by lists of the numbers of free, of dead and of kept rows at each position. It
    /// refuses nothing, and never moves rows aside.
    pub fn choose(&self, free: &[u32], dead: &[u32], kept: &[u32], page: u32) -> Choice
        requires rows { IsCounted (length self.now.cleaned)
            (record { free = free.now; dead = dead.now; kept = kept.now }) }
        requires some { (k : ℕ) × (0 < slice_index free.now k + slice_index dead.now k) }
        requires page { page < length self.now.born }
        ensures choice { IsLifetimeChoice self.now (record { free = free.now; dead = dead.now; kept = kept.now }) page
            result }
        ensures within { HasRowsFor (record { free = free.now; dead = dead.now; kept = kept.now }) result }
    {
        let _ = &self.clock;
        self.choose_among(&Listed { free, dead, kept }, page)
    }

    /// Chooses for a page by rows that are asked for one by one: where a row is free at the position that is
    /// open for the page's class, or at one that is open for none, by at most seven questions, else by four for
    /// each position.
    pub fn choose_among<R: Rows>(&self, rows: &R, page: u32) -> Choice
        requires rows { IsCounted (length self.now.cleaned) (R.counts rows.now) }
        requires some { (k : ℕ)
            × (0 < slice_index (R.counts rows.now).free k + slice_index (R.counts rows.now).dead k) }
        requires page { page < length self.now.born }
        ensures choice { IsLifetimeChoice self.now (R.counts rows.now) page result }
        ensures within { HasRowsFor (R.counts rows.now) result }
    {
        if let Some(position) = self.beside(rows, None, page) {
            return Choice::Free { position };
        }
        if let Some(position) = self.victim(rows, page) {
            return Choice::Clean {
                position,
                aside: None,
            };
        }
        match rows.first_free(0) {
            Some(position) => Choice::Free { position },
            None => unreachable!(),
        }
    }

    /// The position at which a row is claimed for a page while a job runs, which may be emptying one. `None`
    /// where job and stages are finished first.
    pub fn beside<R: Rows>(&self, rows: &R, emptied: Option<u32>, page: u32) -> Option<u32>
        requires rows { IsCounted (length self.now.cleaned) (R.counts rows.now) }
        requires page { page < length self.now.born }
        ensures position { IsBeside self.now (R.counts rows.now) emptied page result }
        ensures room { IfSome result (λ k. HasRoom (R.counts rows.now) emptied k) }
        ensures below { IfSome result (λ k. k < length self.now.cleaned) }
    {
        let own = self.opened.get(self.class_of(page));
        if let Some(position) = own {
            if own != emptied && rows.free(position) > 0 {
                return own;
            }
        }
        self.first_fresh(rows, emptied)
    }

    /// Notes that a row at a position was claimed for a flush of a page.
    #[inline(never)]
    pub fn note_flush(&mut self, position: u32, page: u32)
        requires position { position < length self.old.cleaned }
        requires page { page < length self.old.born }
        ensures { self.new ≡ noted_flush position page self.old }
    {
        let class = self.class_of(page);
        self.opened = self.opened.with(class, position);
        self.clock = one_more(self.clock);
        self.born[page as usize] = self.clock;
    }

    /// Notes that a cleaning of a position has begun by choice.
    pub fn note_clean(&mut self, position: u32)
        requires { position < length self.old.cleaned }
        ensures { self.new ≡ noted_clean position self.old }
    {
        self.cleaned[position as usize] = self.clock;
    }

    /// Forgets all that was noted, as a restart does.
    pub fn reset(&mut self)
        ensures { self.new ≡ unnoted (length self.old.born) (length self.old.cleaned) }
    {
        self.clock = 0;
        self.born.fill(0);
        self.cleaned.fill(0);
        self.opened = OpenPositions::NONE;
    }

    /// The lowest position with room that is open for no class. Each that is passed over is open or emptied.
    fn first_fresh<R: Rows>(&self, rows: &R, emptied: Option<u32>) -> Option<u32>
        requires { IsCounted (length self.now.cleaned) (R.counts rows.now) }
        ensures position { MatchOption result ((k : ℕ) → IsFresh self.now (R.counts rows.now) emptied k
            → ⊥) (IsLowest (IsFresh self.now (R.counts rows.now) emptied)) }
        ensures below { IfSome result (λ k. k < length self.now.cleaned) }
    {
        let _ = &self.clock;
        let mut start = 0;
        while let Some(position) = rows.first_free(start) {
            if !self.is_taken(position, emptied) {
                return Some(position);
            }
            start = position + 1;
        }
        None
    }

    /// Whether a job empties a position, or it is open for some class.
    fn is_taken(&self, position: u32, emptied: Option<u32>) -> bool
        ensures taken { IsTrue result → IsTaken self.now emptied position }
        ensures free { result ≡ false → IsTaken self.now emptied position → ⊥ }
    {
        emptied == Some(position) || self.opened.contains(position)
    }

    /// The full position whose cleaning is worth most for a page.
    fn victim<R: Rows>(&self, rows: &R, page: u32) -> Option<u32>
        requires rows { IsCounted (length self.now.cleaned) (R.counts rows.now) }
        requires page { page < length self.now.born }
        ensures { MatchOption result ((k : ℕ) → IsFull (R.counts rows.now) k
            → ⊥) (IsVictim self.now (R.counts rows.now) page) }
    {
        let class = self.class_of(page);
        let mut best = None;
        for position in 0..self.cleaned.len() as u32 {
            best = self.weigh(rows, class, best, position);
        }
        best.map(|weighed| weighed.position)
    }

    /// The better of the best position below this one and this one, if it is full.
    fn weigh<R: Rows>(
        &self,
        rows: &R,
        class: Class,
        best: Option<Weighed>,
        position: u32,
    ) -> Option<Weighed>
        requires rows { IsCounted (length self.now.cleaned) (R.counts rows.now) }
        requires position { position < length self.now.cleaned }
        requires best { IsBestBelow position self.now (R.counts rows.now) class best }
        ensures { IsBestBelow (position + 1) self.now (R.counts rows.now) class result }
    {
        let _ = &self.clock;
        if rows.dead(position) == 0 || rows.free(position) > 0 {
            return best;
        }
        let worth = self.worth(rows, class, position);
        let Some(weighed) = best else {
            return Some(Weighed { position, worth });
        };
        if worth.exceeds(&weighed.worth) {
            return Some(Weighed { position, worth });
        }
        best
    }

    /// What cleaning a position is worth for pages of a class.
    fn worth<R: Rows>(&self, rows: &R, class: Class, position: u32) -> Fraction
        requires rows { IsCounted (length self.now.cleaned) (R.counts rows.now) }
        requires position { position < length self.now.cleaned }
        ensures worth { result ≡ worth self.now (R.counts rows.now) class position }
        ensures over { result.over ≤ 2 ^ 90 }
        ensures under { result.under ≤ 2 ^ 26 }
        ensures some { 1 ≤ result.under }
    {
        let dead = rows.dead(position) as u128;
        if let Class::Brief = class {
            return Fraction {
                over: dead,
                under: 1,
            };
        }
        let age = (self.clock - self.cleaned[position as usize]) as u128 + 1;
        Fraction {
            over: dead * age,
            under: 2 * rows.kept(position) as u128 + 1,
        }
    }
}
