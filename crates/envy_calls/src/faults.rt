// The code of each answer of a memory, and what stands at the caller's pointer after it.
ghost use Rattle.std.specs.Prelude.{◌≡◌};
ghost use Rattle.envy_calls.specs.Codes.{load_code, loaded, store_code, store_holder, begin_code, opened, put_code, put_holder, end_code, tick_code, worked, did_number, format_code};

use crate::code::Code;
use envy_base::Trouble;
use envy_memory::{BeginFault, Did, EndFault, FormatFault, LoadFault, PutFault, StoreFault};

pub fn load_answer(answer: Result<u64, LoadFault>, word: &mut u64) -> Code
    ensures code { result ≡ load_code answer }
    ensures word { word.new ≡ loaded word.old answer }
{
    match answer {
        Ok(value) => {
            *word = value;
            Code::Done
        }
        Err(LoadFault::Off) => Code::Off,
        Err(LoadFault::Range) => Code::Range,
    }
}

pub fn store_answer(answer: Result<(), StoreFault>, holder: &mut u32) -> Code
    ensures code { result ≡ store_code answer }
    ensures holder { holder.new ≡ store_holder holder.old answer }
{
    match answer {
        Ok(()) => Code::Done,
        Err(StoreFault::Off) => Code::Off,
        Err(StoreFault::Range) => Code::Range,
        Err(StoreFault::Held(slot)) => {
            *holder = slot as u32;
            Code::Held
        }
        Err(StoreFault::Bad) => Code::Bad,
    }
}

pub fn begin_answer(answer: Result<u8, BeginFault>, slot: &mut u32) -> Code
    ensures code { result ≡ begin_code answer }
    ensures slot { slot.new ≡ opened slot.old answer }
{
    match answer {
        Ok(opened) => {
            *slot = opened as u32;
            Code::Done
        }
        Err(BeginFault::Off) => Code::Off,
        Err(BeginFault::Busy) => Code::Busy,
    }
}

pub fn put_answer(answer: Result<(), PutFault>, holder: &mut u32) -> Code
    ensures code { result ≡ put_code answer }
    ensures holder { holder.new ≡ put_holder holder.old answer }
{
    match answer {
        Ok(()) => Code::Done,
        Err(PutFault::Off) => Code::Off,
        Err(PutFault::Range) => Code::Range,
        Err(PutFault::Closed) => Code::Closed,
        Err(PutFault::Held(slot)) => {
            *holder = slot as u32;
            Code::Held
        }
        Err(PutFault::Full) => Code::Full,
        Err(PutFault::Bad) => Code::Bad,
    }
}

pub fn end_answer(answer: Result<(), EndFault>) -> Code
    ensures { result ≡ end_code answer }
{
    match answer {
        Ok(()) => Code::Done,
        Err(EndFault::Off) => Code::Off,
        Err(EndFault::Closed) => Code::Closed,
    }
}

fn number_of_did(did: Did) -> u32
    ensures { result ≡ did_number did }
{
    match did {
        Did::Idle => 0,
        Did::Flushed => 1,
        Did::Began => 2,
        Did::Moved => 3,
        Did::Copied => 4,
        Did::Switched => 5,
        Did::Placed => 6,
        Did::Erased => 7,
    }
}

pub fn tick_answer(answer: Result<Did, Trouble>, did: &mut u32) -> Code
    ensures code { result ≡ tick_code answer }
    ensures did { did.new ≡ worked did.old answer }
{
    match answer {
        Ok(step) => {
            *did = number_of_did(step);
            Code::Done
        }
        Err(Trouble::Off) => Code::Off,
        Err(Trouble::Bad) => Code::Bad,
    }
}

pub fn format_answer(fault: FormatFault) -> Code
    ensures { result ≡ format_code fault }
{
    match fault {
        FormatFault::Off => Code::Off,
        FormatFault::Setup(rule) => Code::Setup(rule),
        FormatFault::OtherShape => Code::OtherShape,
        FormatFault::Memory => Code::NoMemory,
        FormatFault::Bad => Code::Bad,
    }
}
