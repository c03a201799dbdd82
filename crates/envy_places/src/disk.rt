// What brings a memory in a file to the disk.
ghost use Rattle.std.specs.Prelude.{◌≡◌};
ghost use Rattle.envy_places.specs.Places.{held};
ghost use Rattle.envy_places.specs.Syncing.{DoesCompact, DoesSync, DoesTellPower, OnFile, compaction_code, sync_code};

use crate::code::PlaceCode;
use crate::each::on_each;
use crate::place::MemoryPlace;
use envy_base::{Board, Off};
use envy_calls::Code;
use envy_disk::{Compaction, Durable};
use envy_memory::Memory;

fn sync_answer(answer: Result<(), Off>) -> Code
    ensures { result ≡ sync_code answer }
{
    match answer {
        Ok(()) => Code::Done,
        Err(Off) => Code::Off,
    }
}

fn sync_of<F: Durable>(slot: &mut Option<Memory<F>>) -> u32
    ensures { DoesSync F.is_synced slot.old slot.new result }
{
    let Some(memory) = slot else {
        return Code::Empty.number();
    };
    sync_answer(memory.sync()).number()
}

fn compaction_answer(answer: Result<Compaction, Off>) -> PlaceCode
    ensures { result ≡ compaction_code answer }
{
    match answer {
        Ok(Compaction::Done) => PlaceCode::Of(Code::Done),
        Ok(Compaction::Appended) => PlaceCode::Appended,
        Err(Off) => PlaceCode::Of(Code::Off),
    }
}

fn compact_of<F: Durable>(slot: &mut Option<Memory<F>>) -> u32
    ensures { DoesCompact F.is_synced F.is_compact F.is_hindered slot.old slot.new result }
{
    let Some(memory) = slot else {
        return Code::Empty.number();
    };
    compaction_answer(memory.compact()).number()
}

fn power_of<B: Board>(slot: &Option<Memory<B>>) -> u32
    ensures { DoesTellPower slot.now result }
{
    match slot {
        None => Code::Empty.number(),
        Some(memory) if memory.powered() => Code::Done.number(),
        Some(_) => Code::Off.number(),
    }
}

/// Whether the memory has power: of one in a file, whether the file hasn't failed.
pub fn powered<R: Board, F: Board, S: Board>(place: &MemoryPlace<R, F, S>) -> u32
    ensures { DoesTellPower (held place.now) result }
{
    on_each!(place, slot => power_of(slot))
}

/// Brings all that a memory in a file holds to the disk. Over another board nothing is left to bring.
pub fn sync<R: Board, F: Durable, S: Board>(place: &mut MemoryPlace<R, F, S>) -> u32
    ensures { OnFile (DoesSync F.is_synced) place.old place.new result }
{
    match place {
        MemoryPlace::File(slot) => sync_of(slot),
        other => powered(other),
    }
}

/// The same, and leaves no more in the file than what the board holds takes, or says that this was hindered.
pub fn compact<R: Board, F: Durable, S: Board>(place: &mut MemoryPlace<R, F, S>) -> u32
    ensures { OnFile (DoesCompact F.is_synced F.is_compact F.is_hindered) place.old place.new result }
{
    match place {
        MemoryPlace::File(slot) => compact_of(slot),
        other => powered(other),
    }
}
