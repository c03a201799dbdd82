//! One line of a trace, as one call of the pair.

ghost use Rattle.std.specs.Prelude.{◌≡◌, ◌<◌, ℕ, IfOk, Err};
ghost use Rattle.envy_array.specs.Array.{Array};
ghost use Rattle.envy_array.specs.Step.{Store, Begin, Put, Commit, Abort, Tick};
ghost use Rattle.envy_mirror.specs.Mirroring.{Mirrors};
ghost use Rattle.envy_pair.specs.Hearing.{Commanded, Loaded, Looked, HearsLine, Hears, caught, line_beside};
ghost use Rattle.envy_trace.specs.Mirror.{IsMirrorLine};
ghost use Rattle.envy_trace.specs.Spelling.{IsLine};
ghost use Rattle.envy_trace.specs.declared.mirror_line.MirrorLine.TheVariants.{Array as OfArray, Catch};

use envy_base::{Bench, Trouble};
use envy_memory::{BeginFault, EndFault, LoadFault, PutFault, StoreFault};
use envy_mirror::{CatchFault, Caught, Mirror};
use envy_trace::{Line, MirrorLine, MirrorReply, Reply};

fn load<A: Bench, B: Bench>(mirror: &mut Mirror<A, B>, address: u32) -> Reply
    requires { (m : Array) × Mirrors mirror.old m }
    ensures { Loaded address result mirror.old mirror.new }
{
    match mirror.load(address) {
        Ok(word) => Reply::Word(word),
        Err(LoadFault::Range) => Reply::Range,
        Err(LoadFault::Off) => unreachable!(),
    }
}

fn look<A: Bench, B: Bench>(mirror: &Mirror<A, B>, address: u32) -> Reply
    requires { (m : Array) × Mirrors mirror.now m }
    ensures { Looked address result mirror.now mirror.now }
{
    match mirror.look(address) {
        Ok(word) => Reply::Word(word),
        Err(LoadFault::Range) => Reply::Range,
        Err(LoadFault::Off) => unreachable!(),
    }
}

fn store<A: Bench, B: Bench>(mirror: &mut Mirror<A, B>, address: u32, word: u64) -> Reply
    ensures { Commanded (Store address word) result mirror.old mirror.new }
{
    match mirror.store(address, word) {
        Ok(()) => Reply::Done,
        Err(StoreFault::Range) => Reply::Range,
        Err(StoreFault::Held(slot)) => Reply::Held(slot),
        Err(StoreFault::Bad) => Reply::Fault,
        Err(StoreFault::Off) => Reply::Lost,
    }
}

fn begin<A: Bench, B: Bench>(mirror: &mut Mirror<A, B>) -> Reply
    ensures { Commanded Begin result mirror.old mirror.new }
{
    match mirror.begin() {
        Ok(slot) => Reply::Started(slot),
        Err(BeginFault::Busy) => Reply::Busy,
        Err(BeginFault::Off) => Reply::Lost,
    }
}

fn put<A: Bench, B: Bench>(mirror: &mut Mirror<A, B>, slot: u8, address: u32, word: u64) -> Reply
    ensures { Commanded (Put slot address word) result mirror.old mirror.new }
{
    match mirror.put(slot, address, word) {
        Ok(()) => Reply::Done,
        Err(PutFault::Range) => Reply::Range,
        Err(PutFault::Closed) => Reply::Closed,
        Err(PutFault::Held(owner)) => Reply::Held(owner),
        Err(PutFault::Full) => Reply::Full,
        Err(PutFault::Bad) => Reply::Fault,
        Err(PutFault::Off) => Reply::Lost,
    }
}

fn commit<A: Bench, B: Bench>(mirror: &mut Mirror<A, B>, slot: u8) -> Reply
    ensures { Commanded (Commit slot) result mirror.old mirror.new }
{
    match mirror.commit(slot) {
        Ok(()) => Reply::Done,
        Err(EndFault::Closed) => Reply::Closed,
        Err(EndFault::Off) => Reply::Lost,
    }
}

fn abort<A: Bench, B: Bench>(mirror: &mut Mirror<A, B>, slot: u8) -> Reply
    ensures { Commanded (Abort slot) result mirror.old mirror.new }
{
    match mirror.abort(slot) {
        Ok(()) => Reply::Done,
        Err(EndFault::Closed) => Reply::Closed,
        Err(EndFault::Off) => Reply::Lost,
    }
}

fn tick<A: Bench, B: Bench>(mirror: &mut Mirror<A, B>) -> Reply
    ensures { Commanded Tick result mirror.old mirror.new }
{
    match mirror.tick() {
        Ok(_) => Reply::Done,
        Err(Trouble::Bad) => Reply::Fault,
        Err(Trouble::Off) => Reply::Lost,
    }
}

/// One step by which one side follows the other.
fn catch<A: Bench, B: Bench>(mirror: &mut Mirror<A, B>) -> MirrorReply
    requires { (m : Array) × Mirrors mirror.old m }
    ensures { (side : ℕ) → Hears Catch result mirror.old side mirror.new side }
{
    match mirror.catch_up() {
        Ok(Caught::Whole) => MirrorReply::Whole,
        Ok(Caught::Waiting(slot)) => MirrorReply::Waiting(slot),
        Ok(Caught::Woken) => MirrorReply::Woken,
        Ok(Caught::Copied(page)) => MirrorReply::Copied(page),
        Ok(Caught::Joined) => MirrorReply::Joined,
        Err(CatchFault::Dead) => MirrorReply::Dead,
        Err(CatchFault::Slipped) => MirrorReply::Slipped,
        Err(CatchFault::Bad) => MirrorReply::Array(Reply::Fault),
        Err(CatchFault::Off) => unreachable!(),
    }
}

/// What a line asks for that is no call of a pair: its caller does it.
#[derive(Clone, Copy, Debug, PartialEq, Eq)]
pub enum BoardRequest {
    /// Nothing: it is empty.
    Nothing,
    /// Power is cut by hand.
    Power,
}

/// Does a line of the array: the call of the pair that it names, and the reply. Else nothing changes.
fn answer_line<A: Bench, B: Bench>(
    mirror: &mut Mirror<A, B>,
    side: u8,
    line: &Line,
) -> Result<Reply, BoardRequest>
    requires ready { (m : Array) × Mirrors mirror.old m }
    requires side { side < 2 }
    requires ranges { IsLine line.now }
    ensures heard { IfOk result (λ reply. HearsLine side line.now reply mirror.old mirror.new) }
    ensures beside { (other : BoardRequest) → result ≡ Err other → (line.now ≡ line_beside other)
        × (mirror.new ≡ mirror.old) }
{
    match *line {
        Line::Empty => Err(BoardRequest::Nothing),
        Line::Load { address } => Ok(load(mirror, address)),
        Line::Look { address } => Ok(look(mirror, address)),
        Line::Store { address, word } => Ok(store(mirror, address, word)),
        Line::Begin => Ok(begin(mirror)),
        Line::Put {
            slot,
            address,
            word,
        } => Ok(put(mirror, slot, address, word)),
        Line::Commit { slot } => Ok(commit(mirror, slot)),
        Line::Abort { slot } => Ok(abort(mirror, slot)),
        Line::Tick => Ok(tick(mirror)),
        Line::Power => Err(BoardRequest::Power),
        Line::Cut { k, g } => {
            mirror.arm_cut(side, k, g);
            Ok(Reply::Armed)
        }
        Line::Bad { k, g } => {
            mirror.arm_bad(side, k, g);
            Ok(Reply::Armed)
        }
        Line::Stat => Ok(Reply::Stat(mirror.counts(side))),
    }
}

/// Does a line: the call of the pair that it names, or the choice of a side, and the reply. Else nothing changes.
pub fn answer<A: Bench, B: Bench>(
    mirror: &mut Mirror<A, B>,
    side: &mut u8,
    line: &MirrorLine,
) -> Result<MirrorReply, BoardRequest>
    requires ready { (m : Array) × Mirrors mirror.old m }
    requires side { side.old < 2 }
    requires ranges { IsMirrorLine line.now }
    ensures heard { IfOk result (λ reply. Hears line.now reply mirror.old side.old mirror.new side.new) }
    ensures beside { (other : BoardRequest) → result ≡ Err other → (line.now ≡ OfArray (line_beside other))
        × (mirror.new ≡ mirror.old) × (side.new ≡ side.old) }
{
    match *line {
        MirrorLine::Array(ref line) => match answer_line(mirror, *side, line) {
            Ok(reply) => Ok(MirrorReply::Array(reply)),
            Err(beside) => Err(beside),
        },
        MirrorLine::Side(chosen) => {
            *side = chosen;
            Ok(MirrorReply::Array(Reply::Done))
        }
        MirrorLine::Catch => Ok(catch(mirror)),
    }
}
