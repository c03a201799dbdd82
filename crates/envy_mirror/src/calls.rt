//! The calls that each Good side makes, one type for each.

ghost use Rattle.std.specs.Prelude.{◌≡◌, ◌/◌};
ghost use Rattle.envy_mirror.specs.Replies.{kind_of, end_reply};

use crate::call::{Call, Kind};
use envy_base::{Bench, PAGE_WORDS, Trouble};
use envy_memory::{BeginFault, Did, EndFault, Memory, PutFault, StoreFault};

/// `Memory::store`
#[derive(Clone, Copy)]
pub struct StoreCall {
    pub address: u32,
    pub word: u64,
}

impl Call for StoreCall {
    ghost use Rattle.envy_array.specs.Step.{Store};
    ghost use Rattle.envy_memory.specs.Below.{StoresBelow};
    ghost use Rattle.envy_mirror.specs.Replies.{store_reply};

    type Told = Result<(), StoreFault>;

    ghost command = { λ c. Store c.address c.word };

    ghost reply = { store_reply };

    ghost Does = { λ c. StoresBelow c.address };

    fn make<B: Bench>(&self, memory: &mut Memory<B>) -> Result<(), StoreFault> {
        memory.store(self.address, self.word)
    }

    fn is_moving(&self) -> bool {
        true
    }

    fn page(&self) -> Option<u32> {
        Some(self.address / PAGE_WORDS)
    }

    fn kind(told: &Result<(), StoreFault>) -> Kind {
        match told {
            Ok(()) => Kind::Accepted,
            Err(StoreFault::Off) => Kind::Off,
            Err(StoreFault::Bad) => Kind::Bad,
            Err(StoreFault::Range | StoreFault::Held(_)) => Kind::Refused,
        }
    }

    fn off() -> Result<(), StoreFault> {
        Err(StoreFault::Off)
    }
}

/// `Memory::begin`
#[derive(Clone, Copy)]
pub struct BeginCall;

impl Call for BeginCall {
    ghost use Rattle.envy_array.specs.Step.{Begin};
    ghost use Rattle.envy_mirror.specs.Replies.{begin_reply};

    type Told = Result<u8, BeginFault>;

    ghost command = { λ c. Begin };

    ghost reply = { begin_reply };

    ghost Does = { λ c told old new. Unit {0} };

    fn make<B: Bench>(&self, memory: &mut Memory<B>) -> Result<u8, BeginFault> {
        memory.begin()
    }

    fn is_moving(&self) -> bool {
        true
    }

    fn page(&self) -> Option<u32> {
        None
    }

    fn kind(told: &Result<u8, BeginFault>) -> Kind {
        match told {
            Ok(_) => Kind::Accepted,
            Err(BeginFault::Off) => Kind::Off,
            Err(BeginFault::Busy) => Kind::Refused,
        }
    }

    fn off() -> Result<u8, BeginFault> {
        Err(BeginFault::Off)
    }
}

/// `Memory::put`
#[derive(Clone, Copy)]
pub struct PutCall {
    pub slot: u8,
    pub address: u32,
    pub word: u64,
}

impl Call for PutCall {
    ghost use Rattle.envy_array.specs.Step.{Put};
    ghost use Rattle.envy_memory.specs.Below.{PutsBelow};
    ghost use Rattle.envy_mirror.specs.Replies.{put_reply};

    type Told = Result<(), PutFault>;

    ghost command = { λ c. Put c.slot c.address c.word };

    ghost reply = { put_reply };

    ghost Does = { λ c. PutsBelow c.slot c.address };

    fn make<B: Bench>(&self, memory: &mut Memory<B>) -> Result<(), PutFault> {
        memory.put(self.slot, self.address, self.word)
    }

    fn is_moving(&self) -> bool {
        true
    }

    fn page(&self) -> Option<u32> {
        Some(self.address / PAGE_WORDS)
    }

    fn kind(told: &Result<(), PutFault>) -> Kind {
        match told {
            Ok(()) => Kind::Accepted,
            Err(PutFault::Off) => Kind::Off,
            Err(PutFault::Bad) => Kind::Bad,
            Err(PutFault::Range | PutFault::Closed | PutFault::Held(_) | PutFault::Full) => {
                Kind::Refused
            }
        }
    }

    fn off() -> Result<(), PutFault> {
        Err(PutFault::Off)
    }
}

/// Of what kind the answer of a call is that closes a slot.
fn ended(told: &Result<(), EndFault>) -> Kind
    ensures { result ≡ kind_of (end_reply told.now) }
{
    match told {
        Ok(()) => Kind::Accepted,
        Err(EndFault::Off) => Kind::Off,
        Err(EndFault::Closed) => Kind::Refused,
    }
}

/// `Memory::commit`
#[derive(Clone, Copy)]
pub struct CommitCall {
    pub slot: u8,
}

impl Call for CommitCall {
    ghost use Rattle.envy_array.specs.Step.{Commit};
    ghost use Rattle.envy_mirror.specs.Replies.{end_reply};

    type Told = Result<(), EndFault>;

    ghost command = { λ c. Commit c.slot };

    ghost reply = { end_reply };

    ghost Does = { λ c told old new. Unit {0} };

    fn make<B: Bench>(&self, memory: &mut Memory<B>) -> Result<(), EndFault> {
        memory.commit(self.slot)
    }

    fn is_moving(&self) -> bool {
        true
    }

    fn page(&self) -> Option<u32> {
        None
    }

    fn kind(told: &Result<(), EndFault>) -> Kind {
        ended(told)
    }

    fn off() -> Result<(), EndFault> {
        Err(EndFault::Off)
    }
}

/// `Memory::abort`
#[derive(Clone, Copy)]
pub struct AbortCall {
    pub slot: u8,
}

impl Call for AbortCall {
    ghost use Rattle.envy_array.specs.Step.{Abort};
    ghost use Rattle.envy_mirror.specs.Replies.{end_reply};

    type Told = Result<(), EndFault>;

    ghost command = { λ c. Abort c.slot };

    ghost reply = { end_reply };

    ghost Does = { λ c told old new. Unit {0} };

    fn make<B: Bench>(&self, memory: &mut Memory<B>) -> Result<(), EndFault> {
        memory.abort(self.slot)
    }

    fn is_moving(&self) -> bool {
        true
    }

    fn page(&self) -> Option<u32> {
        None
    }

    fn kind(told: &Result<(), EndFault>) -> Kind {
        ended(told)
    }

    fn off() -> Result<(), EndFault> {
        Err(EndFault::Off)
    }
}

/// `Memory::tick`
#[derive(Clone, Copy)]
pub struct TickCall;

impl Call for TickCall {
    ghost use Rattle.envy_array.specs.Step.{Tick};
    ghost use Rattle.envy_memory.specs.Below.{TicksBelow};
    ghost use Rattle.envy_mirror.specs.Replies.{tick_reply};

    type Told = Result<Did, Trouble>;

    ghost command = { λ c. Tick };

    ghost reply = { tick_reply };

    ghost Does = { λ c. TicksBelow };

    fn make<B: Bench>(&self, memory: &mut Memory<B>) -> Result<Did, Trouble> {
        memory.tick()
    }

    fn is_moving(&self) -> bool {
        false
    }

    fn page(&self) -> Option<u32> {
        None
    }

    fn kind(told: &Result<Did, Trouble>) -> Kind {
        match told {
            Ok(_) => Kind::Accepted,
            Err(Trouble::Off) => Kind::Off,
            Err(Trouble::Bad) => Kind::Bad,
        }
    }

    fn off() -> Result<Did, Trouble> {
        Err(Trouble::Off)
    }
}
