ghost use Rattle.envy_calls.specs.Answers.{DoesCount};

use crate::code::Code;
use envy_base::Board;
use envy_memory::Memory;

/// What a memory has done since it was formatted or attached. Each counter stops at `2^64 - 1`.
#[repr(C)]
#[derive(Clone, Copy)]
pub struct EnvyCounts {
    /// Host accesses whose page the translation cache held.
    pub hits: u64,
    /// Host accesses whose page it didn't hold.
    pub misses: u64,
    /// Programs begun to flush a page, or to keep a shadow of one.
    pub flushes: u64,
    /// Programs begun by the cleaner to copy a kept row into the spare.
    pub copies: u64,
    /// Programs begun by the cleaner to move a kept row to a neighbour partition.
    pub moves: u64,
    /// Erases begun.
    pub erases: u64,
    /// Wear swaps begun.
    pub swaps: u64,
}

/// The counters of a memory.
pub fn counts<B: Board>(slot: &Option<Memory<B>>, counts: &mut EnvyCounts) -> u32
    ensures { DoesCount slot.now result counts.old counts.new }
{
    let Some(memory) = slot else {
        return Code::Empty.number();
    };
    let found = memory.counts();
    *counts = EnvyCounts {
        hits: found.hits,
        misses: found.misses,
        flushes: found.flushes,
        copies: found.copies,
        moves: found.moves,
        erases: found.erases,
        swaps: found.swaps,
    };
    Code::Done.number()
}
