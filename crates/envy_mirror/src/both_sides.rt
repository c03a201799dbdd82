ghost use Rattle.std.specs.Prelude.{◌≡◌, ◌&&◌, ◌/◌, false, IsTrue, Some, if◌then◌else◌};
ghost use Rattle.envy_array.specs.Array.{Array};
ghost use Rattle.envy_array.specs.Step.{Store, Begin, Put, Commit, Abort, Tick};
ghost use Rattle.envy_memory.specs.Below.{StoresBelow, PutsBelow, TicksBelow};
ghost use Rattle.envy_mirror.specs.Asking.{Answers, TellsBoth, left_by, replied, heard, has_said, has_failed};
ghost use Rattle.envy_mirror.specs.Pair.{is_good, IsSide};
ghost use Rattle.envy_mirror.specs.Replies.{is_said, marked, set_mark, store_reply, begin_reply, put_reply, end_reply, tick_reply};

use crate::call::{Call, Kind};
use crate::calls::{AbortCall, BeginCall, CommitCall, PutCall, StoreCall, TickCall};
use crate::half::Half;
use crate::mirror::Mirror;
use crate::standing::Which;
use envy_array::step_gives_one_answer;
use envy_base::{Bench, Trouble};
use envy_memory::{BeginFault, Did, EndFault, PutFault, StoreFault};

fn has_answered<C: Call>(told: &Option<C::Told>) -> bool
    ensures { result ≡ has_said (replied C.reply told.now) }
{
    match told {
        None => false,
        Some(told) => matches!(C::kind(told), Kind::Refused | Kind::Accepted),
    }
}

fn is_bad<C: Call>(told: &Option<C::Told>) -> bool
    ensures { result ≡ has_failed (replied C.reply told.now) }
{
    match told {
        None => false,
        Some(told) => C::kind(told) == Kind::Bad,
    }
}

/// The answer of the pair, of those of its sides.
fn choose<C: Call>(one: Option<C::Told>, two: Option<C::Told>) -> C::Told
    ensures heard { C.reply result ≡ heard (replied C.reply one) (replied C.reply two) }
    ensures first { IsTrue (has_said (replied C.reply one)) → one ≡ Some result }
    ensures second { has_said (replied C.reply one) ≡ false → IsTrue (is_said (C.reply result)) → two ≡ Some result }
{
    match (one, two) {
        (None, None) => C::off(),
        (Some(told), None) | (None, Some(told)) => told,
        (Some(one), Some(two)) => match (C::kind(&one), C::kind(&two)) {
            (Kind::Refused | Kind::Accepted, _) => one,
            (Kind::Bad, Kind::Off | Kind::Bad) => one,
            _ => two,
        },
    }
}

/// Cuts a side whose flash failed, where the other side answered and so left it behind.
fn part<C: Call, B: Bench>(
    call: &C,
    own: &Option<C::Told>,
    other: &Option<C::Told>,
    side: &mut Half<B>,
)
    requires { IsTrue (has_failed (replied C.reply own.now)) → IsSide side.old × IsTrue (is_good side.old) }
    ensures { side.new ≡ left_by (C.command call.now) (replied C.reply other.now) (replied C.reply own.now) side.old }
{
    if is_bad::<C>(own) && has_answered::<C>(other) && call.is_moving() {
        side.cut();
    }
}

/// Makes the call on each Good side, the first before the second.
fn ask_both<A: Bench, B: Bench, C: Call>(
    first: &mut Half<A>,
    second: &mut Half<B>,
    call: &C,
) -> C::Told
    ensures { TellsBoth C.reply (C.Does call.now) (C.command call.now) result first.old second.old first.new
        second.new }
{
    let one = first.ask(call);
    let two = second.ask(call);
    part(call, &one, &two, first);
    part(call, &two, &one, second);
    choose::<C>(one, two)
}

fn are_good<A: Bench, B: Bench>(first: &Half<A>, second: &Half<B>) -> bool
    ensures { result ≡ (is_good first.now && is_good second.now) }
{
    first.is_good() && second.is_good()
}

/// Which side was Good last, where both or one of them was, by whether the first is.
fn outlasting(both: bool, first: bool, last: Which) -> Which
    ensures { result ≡ (if both then (if first then Which.First else Which.Second) else last) }
{
    match (both, first) {
        (true, true) => Which::First,
        (true, false) => Which::Second,
        (false, _) => last,
    }
}

fn mark_page(page: Option<u32>, stale: &mut Vec<bool>)
    ensures { stale.new.items ≡ set_mark page stale.old.items }
{
    let Some(page) = page else {
        return;
    };
    let page = page as usize;
    if page < stale.len() {
        stale[page] = true;
    }
}

/// Marks the page of a store or put that was accepted as stale.
fn mark<C: Call>(call: &C, told: &C::Told, stale: &mut Vec<bool>)
    ensures { stale.new.items ≡ marked (C.command call.now) (C.reply told.now) stale.old.items }
{
    if C::kind(told) == Kind::Accepted {
        mark_page(call.page(), stale);
    }
}

impl<A: Bench, B: Bench> Mirror<A, B> {
    /// Makes a call on each Good side. The page of a store or put that is accepted becomes stale.
    fn call<C: Call>(&mut self, call: &C) -> C::Told
        ensures answers { Answers (C.command call.now) (C.reply result) self.old self.new }
        ensures tells { TellsBoth C.reply (C.Does call.now) (C.command call.now) result self.old.first self.old.second
            self.new.first self.new.second }
    {
        step_gives_one_answer();
        let both = are_good(&self.first, &self.second);
        let told = ask_both(&mut self.first, &mut self.second, call);
        self.last = outlasting(both, self.first.is_good(), self.last);
        mark(call, &told, &mut self.stale);
        told
    }

    /// Makes the word at an address this.
    ///
    /// # Errors
    ///
    /// Those of `Memory::store`; `Off` where no side is left, `Bad` where each that is left answered so.
    pub fn store(&mut self, a: u32, w: u64) -> Result<(), StoreFault>
        ensures answers { Answers (Store a w) (store_reply result) self.old self.new }
        ensures tells { TellsBoth store_reply (StoresBelow a) (Store a w) result self.old.first self.old.second
            self.new.first self.new.second }
    {
        self.call(&StoreCall {
            address: a,
            word: w,
        })
    }

    /// Opens the lowest slot that isn't open.
    ///
    /// # Errors
    ///
    /// Those of `Memory::begin`; `Off` where no side is left.
    pub fn begin(&mut self) -> Result<u8, BeginFault>
        ensures { Answers Begin (begin_reply result) self.old self.new }
    {
        self.call(&BeginCall)
    }

    /// Makes the word at an address this within the transaction of slot `t`.
    ///
    /// # Errors
    ///
    /// Those of `Memory::put`; `Off` where no side is left, `Bad` where each that is left answered so.
    pub fn put(&mut self, t: u8, a: u32, w: u64) -> Result<(), PutFault>
        ensures answers { Answers (Put t a w) (put_reply result) self.old self.new }
        ensures tells { TellsBoth put_reply (PutsBelow t a) (Put t a w) result self.old.first self.old.second
            self.new.first self.new.second }
    {
        self.call(&PutCall {
            slot: t,
            address: a,
            word: w,
        })
    }

    /// Closes a slot, and keeps its words.
    ///
    /// # Errors
    ///
    /// Those of `Memory::commit`; `Off` where no side is left.
    pub fn commit(&mut self, t: u8) -> Result<(), EndFault>
        ensures { Answers (Commit t) (end_reply result) self.old self.new }
    {
        self.call(&CommitCall { slot: t })
    }

    /// Closes a slot, and puts back the words of its pages.
    ///
    /// # Errors
    ///
    /// Those of `Memory::abort`; `Off` where no side is left.
    pub fn abort(&mut self, t: u8) -> Result<(), EndFault>
        ensures { Answers (Abort t) (end_reply result) self.old self.new }
    {
        self.call(&AbortCall { slot: t })
    }

    /// One background step on each Good side. What it did is what the lowest side did that answered Ok. A side that
    /// fails in it beside one that doesn't stays Good: the array is as it was.
    ///
    /// # Errors
    ///
    /// `Off` where no side is left, `Bad` where a flash operation failed on each that is left.
    pub fn tick(&mut self) -> Result<Did, Trouble>
        ensures answers { Answers Tick (tick_reply result) self.old self.new }
        ensures tells { TellsBoth tick_reply TicksBelow Tick result self.old.first self.old.second self.new.first
            self.new.second }
    {
        self.call(&TickCall)
    }
}
