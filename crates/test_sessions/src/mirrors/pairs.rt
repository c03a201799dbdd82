//! Pairs over two boards in memory.

ghost use Rattle.std.specs.Prelude.{◌≡◌};
ghost use Rattle.envy_array.specs.Array.{zeros};
ghost use Rattle.envy_meaning.specs.Stands.{Stands};

use crate::calls::{Call, Made, SMALL, of_begin, of_end, of_put, of_store, of_tick};
use envy_bench::MemBoard;
use envy_memory::Memory;
use envy_mirror::Mirror;
use envy_policy::{Policy, Setup};
use std::alloc::Global;
use std::process::Abort;

pub(crate) type Pair = Mirror<MemBoard, MemBoard>;

/// Makes a call of a pair.
pub(crate) fn made(pair: &mut Pair, call: Call) -> Made {
    match call {
        Call::Store(a, w) => of_store(pair.store(a, w)),
        Call::Begin => of_begin(pair.begin()),
        Call::Put(t, a, w) => of_put(pair.put(t, a, w)),
        Call::Commit(t) => of_end(pair.commit(t)),
        Call::Abort(t) => of_end(pair.abort(t)),
        Call::Tick => of_tick(pair.tick()),
    }
}

/// A memory over a board that was just formatted.
fn formatted(rt: &impl Abort, alloc: Global, policy: Policy) -> Memory<MemBoard>
    ensures shape { result.chart.shape ≡ SMALL }
    ensures zeros { Stands result.chart (zeros result.chart.shape.pages result.chart.shape.shadows) }
{
    SMALL.check().expect(rt, "the shape");
    let board = MemBoard::new(alloc, &SMALL, u32::MAX).expect(rt, "no room for a board");
    let setup = Setup {
        shape: SMALL,
        policy,
        limit: 2,
        mark: 2,
    };
    match Memory::format(alloc, board, setup) {
        Ok(memory) => memory,
        Err((_, fault)) => panic!(rt; "not formatted: {fault:?}"),
    }
}

/// A pair of two formatted boards.
pub(crate) fn paired(rt: &impl Abort, alloc: Global, policy: Policy) -> Pair {
    let a = formatted(rt, alloc, policy);
    let b = formatted(rt, alloc, policy);
    match Mirror::new(alloc, a, b) {
        Ok(mirror) => mirror,
        Err((a, b, _)) => {
            let (_a, _b) = (a.into_board(), b.into_board());
            panic!(rt; "no memory")
        }
    }
}
