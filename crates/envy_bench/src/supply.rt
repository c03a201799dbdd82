ghost use Rattle.std.specs.Prelude.{◌≡◌, ◌≤◌, ◌↔◌, IsTrue, None, false, if◌then◌else◌, IfSome};
ghost use Rattle.envy_bench.specs.Power.{fresh, due, nearer, event_of, put_event, put_counted, flash_event, flash_counted, cut, struck, lit, with_cut, with_bad};
ghost use Rattle.envy_bench.specs.Plans.{CutComesAt, BadComesAt, NothingComes};

use std::marker::Model;

/// What an operation of the board meets. The number is the plan's `g`, from which the board tells what the
/// operation leaves behind.
#[derive(Clone, Copy, PartialEq, Eq, Debug)]
pub enum Event {
    /// Nothing: it is done.
    Pass,
    /// Power fails inside it.
    Cut(u64),
    /// It goes wrong, and power stays on.
    Bad(u64),
}

// An event that is to come: at operation `left` from now, where 1 is the next one.
#[derive(Clone, Copy)]
struct Plan {
    left: u32,
    seed: u64,
}

/// A supply of power, which may be told in advance to fail, or to let a flash operation fail.
///
/// At most one cut and one bad operation are planned at a time. A `put`, a `program` and an `erase` count
/// against the plan of a cut, and the last two count against the plan of a bad operation.
#[derive(Drop)]
pub struct Supply {
    on: bool,
    // Whether power is on and no cut is planned. It may be false for longer.
    calm: bool,
    cut_plan: Option<Plan>,
    bad_plan: Option<Plan>,
    lives: u32,
    cuts: u64,
    bads: u64,
}

impl Model for Supply {
    ghost use Rattle.envy_bench.specs.Power.{Power};
    ghost use Rattle.std.specs.Prelude.{IfSome, IsTrue, None, ◌≡◌, ◌≤◌};

    ghost Value = { Power };

    ghost view = { λ s. record { on = s.on; cut_plan = s.cut_plan; bad_plan = s.bad_plan; lives = s.lives; cuts = s.cuts; bads = s.bads } };

    ghost invariant = { λ s. IfSome s.cut_plan (λ plan. 1 ≤ plan.left) × IfSome s.bad_plan (λ plan. 1 ≤ plan.left)
        × (IsTrue s.calm → IsTrue s.on × (s.cut_plan ≡ None)) };
}

// Counts one operation against a plan. Its number is answered where its turn has come.
fn count(plan: &mut Option<Plan>) -> Option<u64>
    requires { IfSome plan.old (λ plan. 1 ≤ plan.left) }
    ensures number { result ≡ due plan.old }
    ensures rest { plan.new ≡ nearer plan.old }
    ensures ahead { IfSome plan.new (λ plan. 1 ≤ plan.left) }
{
    match *plan {
        None => None,
        Some(Plan { left: 1, seed }) => {
            *plan = None;
            Some(seed)
        }
        Some(Plan { left, seed }) => {
            *plan = Some(Plan {
                left: left - 1,
                seed,
            });
            None
        }
    }
}

impl Supply {
    /// A supply with power on and nothing planned.
    pub fn new(lives: u32) -> Supply
        ensures state { result ≡ fresh lives }
        ensures quiet { NothingComes result }
    {
        Supply {
            on: true,
            calm: true,
            cut_plan: None,
            bad_plan: None,
            lives,
            cuts: 0,
            bads: 0,
        }
    }

    /// Plans a cut at operation `k` from now, in place of the one that was planned.
    pub fn arm_cut(&mut self, k: u32, g: u64)
        requires { 1 ≤ k }
        ensures state { self.new ≡ with_cut k g self.old }
        ensures comes { CutComesAt k g self.new }
    {
        self.calm = false;
        self.cut_plan = Some(Plan { left: k, seed: g });
    }

    /// Plans a bad operation at flash operation `k` from now, in place of the one that was planned.
    pub fn arm_bad(&mut self, k: u32, g: u64)
        requires { 1 ≤ k }
        ensures state { self.new ≡ with_bad k g self.old }
        ensures comes { BadComesAt k g self.new }
    {
        self.bad_plan = Some(Plan { left: k, seed: g });
    }

    /// Counts a `put` and says what it meets.
    pub fn put_event(&mut self) -> Event
        requires { IsTrue self.old.on }
        ensures event { result ≡ put_event self.old }
        ensures state { self.new ≡ struck result (put_counted self.old) }
    {
        let cut = count(&mut self.cut_plan);
        self.strike(cut, None)
    }

    /// Counts a `program` or an `erase` and says what it meets.
    pub fn flash_event(&mut self) -> Event
        requires { IsTrue self.old.on }
        ensures event { result ≡ flash_event self.old }
        ensures state { self.new ≡ struck result (flash_counted self.old) }
    {
        let cut = count(&mut self.cut_plan);
        let bad = count(&mut self.bad_plan);
        self.strike(cut, bad)
    }

    // What an operation meets at which these plans are due. A cut goes first.
    #[tactic(auto, unfolding(crate::specs::Power::up))]
    fn strike(&mut self, cut: Option<u64>, bad: Option<u64>) -> Event
        requires { IsTrue self.old.on }
        ensures event { result ≡ event_of cut bad }
        ensures state { self.new ≡ struck result self.old }
    {
        if let Some(g) = cut {
            self.cut_now();
            return Event::Cut(g);
        }
        if let Some(g) = bad {
            self.bads = self.bads.saturating_add(1);
            return Event::Bad(g);
        }
        Event::Pass
    }

    /// Power fails between two operations.
    #[tactic(auto, unfolding(crate::specs::Power::up))]
    pub fn cut_now(&mut self)
        requires { IsTrue self.old.on }
        ensures { self.new ≡ cut self.old }
    {
        self.on = false;
        self.calm = false;
        self.cuts = self.cuts.saturating_add(1);
    }

    /// Asks for power again, which uses a life. It answers false, and does nothing, where none is left.
    pub fn power_on(&mut self) -> bool
        requires { self.old.on ≡ false }
        ensures answer { (result ≡ false) ↔ (self.old.lives ≡ 0) }
        ensures state { self.new ≡ (if result then lit self.old else self.old) }
    {
        if self.lives == 0 {
            return false;
        }
        self.lives -= 1;
        self.on = true;
        self.calm = self.cut_plan.is_none();
        true
    }

    /// Whether power is known to be on with no cut planned, so that a `put` meets nothing and counts against nothing.
    #[inline]
    pub fn is_calm(&self) -> bool
        ensures { IsTrue result → IsTrue self.now.on × (self.now.cut_plan ≡ None) }
    {
        self.calm
    }

    /// Whether power is known to be on with nothing planned, so that no operation meets anything or counts against anything.
    #[inline]
    pub fn is_quiet(&self) -> bool
        ensures { IsTrue result → IsTrue self.now.on × (self.now.cut_plan ≡ None) × (self.now.bad_plan ≡ None) }
    {
        self.calm && self.bad_plan.is_none()
    }

    /// Whether power is on.
    pub fn powered(&self) -> bool
        ensures { result ≡ self.now.on }
    {
        self.on
    }

    /// How many times power may still return.
    pub fn lives(&self) -> u32
        ensures { result ≡ self.now.lives }
    {
        self.lives
    }

    /// How many times power has failed, at most 2^64 - 1.
    pub fn cuts(&self) -> u64
        ensures { result ≡ self.now.cuts }
    {
        self.cuts
    }

    /// How many bad operations there were, at most 2^64 - 1.
    pub fn bads(&self) -> u64
        ensures { result ≡ self.now.bads }
    {
        self.bads
    }
}
