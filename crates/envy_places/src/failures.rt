// The calls that make power and flash fail, of a memory over a board that can.
ghost use Rattle.std.specs.Prelude.{◌≡◌};
ghost use Rattle.envy_places.specs.Codes.{unable};
ghost use Rattle.envy_places.specs.Places.{held};
ghost use Rattle.envy_places.specs.Power.{DoesCut, DoesPlan, DoesRevive, DoesCountLives, OnSim, revive_code};

use crate::code::PlaceCode;
use crate::place::{MemoryPlace, is_open};
use envy_base::{Bench, Board, PlannedFault};
use envy_calls::Code;
use envy_memory::{Memory, ReviveFault};

fn arm_cut_of<S: Bench>(slot: &mut Option<Memory<S>>, k: u32, g: u64) -> u32
    ensures { DoesPlan slot.old slot.new k (PlannedFault.Cut k g) result }
{
    let Some(memory) = slot else {
        return Code::Empty.number();
    };
    if k == 0 {
        return Code::Zero.number();
    }
    memory.arm_cut(k, g);
    Code::Done.number()
}

fn arm_bad_of<S: Bench>(slot: &mut Option<Memory<S>>, k: u32, g: u64) -> u32
    ensures { DoesPlan slot.old slot.new k (PlannedFault.Bad k g) result }
{
    let Some(memory) = slot else {
        return Code::Empty.number();
    };
    if k == 0 {
        return Code::Zero.number();
    }
    memory.arm_bad(k, g);
    Code::Done.number()
}

fn cut_now_of<S: Bench>(slot: &mut Option<Memory<S>>) -> u32
    ensures { DoesCut slot.old slot.new result }
{
    let Some(memory) = slot else {
        return Code::Empty.number();
    };
    if !memory.powered() {
        return Code::Off.number();
    }
    memory.cut_now();
    Code::Done.number()
}

fn revive_answer(answer: Result<(), ReviveFault>) -> Code
    ensures { result ≡ revive_code answer }
{
    match answer {
        Ok(()) => Code::Done,
        Err(ReviveFault::Dead) => Code::Dead,
        Err(ReviveFault::Off) => Code::Off,
    }
}

fn revive_of<S: Bench>(slot: &mut Option<Memory<S>>) -> u32
    ensures { DoesRevive slot.old slot.new result }
{
    let Some(memory) = slot else {
        return Code::Empty.number();
    };
    if memory.powered() {
        return Code::Powered.number();
    }
    revive_answer(memory.revive()).number()
}

fn lives_of<S: Bench>(slot: &Option<Memory<S>>, left: &mut u32) -> u32
    ensures { DoesCountLives slot.now result left.old left.new }
{
    let Some(memory) = slot else {
        return Code::Empty.number();
    };
    *left = memory.lives();
    Code::Done.number()
}

/// The number that is answered of a place over another board than a call asks for.
pub fn refusal<R: Board, F: Board, S: Board>(place: &MemoryPlace<R, F, S>) -> u32
    ensures { result ≡ unable (held place.now) }
{
    if is_open(place) {
        PlaceCode::OtherBoard.number()
    } else {
        Code::Empty.number()
    }
}

/// Plans a cut of power at the `k`-th device operation from now.
pub fn arm_cut<R: Board, F: Board, S: Bench>(
    place: &mut MemoryPlace<R, F, S>,
    k: u32,
    g: u64,
) -> u32
    ensures { OnSim (λ p q code. DoesPlan p q k (PlannedFault.Cut k g) code) place.old place.new result }
{
    match place {
        MemoryPlace::Simulated(slot) => arm_cut_of(slot, k, g),
        other => refusal(other),
    }
}

/// Plans a bad operation at the `k`-th flash operation from now.
pub fn arm_bad<R: Board, F: Board, S: Bench>(
    place: &mut MemoryPlace<R, F, S>,
    k: u32,
    g: u64,
) -> u32
    ensures { OnSim (λ p q code. DoesPlan p q k (PlannedFault.Bad k g) code) place.old place.new result }
{
    match place {
        MemoryPlace::Simulated(slot) => arm_bad_of(slot, k, g),
        other => refusal(other),
    }
}

/// Cuts power between two operations.
pub fn cut_now<R: Board, F: Board, S: Bench>(place: &mut MemoryPlace<R, F, S>) -> u32
    ensures { OnSim DoesCut place.old place.new result }
{
    match place {
        MemoryPlace::Simulated(slot) => cut_now_of(slot),
        other => refusal(other),
    }
}

/// Asks for power, and restarts the memory.
pub fn revive<R: Board, F: Board, S: Bench>(place: &mut MemoryPlace<R, F, S>) -> u32
    ensures { OnSim DoesRevive place.old place.new result }
{
    match place {
        MemoryPlace::Simulated(slot) => revive_of(slot),
        other => refusal(other),
    }
}

/// How often power can still return.
pub fn lives<R: Board, F: Board, S: Bench>(place: &MemoryPlace<R, F, S>, left: &mut u32) -> u32
    ensures { OnSim (λ p q code. (q ≡ p) × DoesCountLives p code left.old left.new) place.now place.now result }
{
    match place {
        MemoryPlace::Simulated(slot) => lives_of(slot, left),
        other => refusal(other),
    }
}
