//! A bank's load over a fresh memory, and the report of its sums.

ghost use Rattle.std.specs.Prelude.{◌≡◌, ◌⊎◌, ◌^◌, ◌≤◌, None, Ok};
ghost use Rattle.envy_array.specs.Area.{Fits};
ghost use Rattle.envy_array.specs.Array.{zeros};
ghost use Rattle.envy_meaning.specs.Stands.{Stands};
ghost use Rattle.envy_policy.specs.Setup.{checked};
ghost use Rattle.envy_run.specs.Driven.{AfterLoad};
ghost use Rattle.envy_run.specs.Drives.{FailsAsPlanned, TellsReturns, driving, load_of};
ghost use Rattle.envy_io.specs.Streams.{Feed};
ghost use Rattle.envy_run.specs.Meaning.{Does};
ghost use Rattle.envy_run.specs.Outcome.{outcome_of};
ghost use Rattle.envy_run.specs.Unserved.{IsUnserved};
ghost use Rattle.envy_serve.specs.Ends.{most_bytes};

use crate::endings::{Ending, Finished, unserved, written};
use crate::preparation::make_memory;
use crate::report::write_report;
use envy_array::Area;
use envy_base::{Bench, MOST_ROWS, Maker};
use envy_io::Sink;
use envy_memory::Memory;
use envy_policy::Setup;
use envy_tpca::{DriveFault, Load, drive};
use std::alloc::Global;

/// Drives the load that the number `start` draws, and writes the report of its sums. Answers how the run ends.
fn drive_load<B: Bench, K: Sink>(
    memory: &mut Memory<B>,
    start: u64,
    area: &Area,
    every: u32,
    sink: &mut K,
) -> Ending
    requires fits { Fits area.now memory.old.chart.shape.pages }
    requires low { memory.old.chart.shape.pages ≤ MOST_ROWS }
    requires room { 5 ≤ memory.old.chart.shape.shadows }
    requires zeros { Stands memory.old.chart (zeros memory.old.chart.shape.pages memory.old.chart.shape.shadows) }
    ensures { AfterLoad area.now (load_of start area.now) every memory.old memory.new result (K.drain sink.old)
        (K.drain sink.new) }
{
    let mut load = Load::new(start, area.branches, area.accounts);
    match drive(memory, &mut load, area, every) {
        Ok(sums) => written(write_report(sink, area, &sums)),
        Err(DriveFault::Dead) => Ending::PowerLost,
        Err(DriveFault::Bad) => Ending::FlashFailed,
    }
}

/// Makes a board, formats it, drives a load over it, and writes the report of its sums. Nothing is read.
pub fn run_tpca<K: Sink, M: Maker>(
    alloc: Global,
    setup: Setup,
    lives: u32,
    start: u64,
    area: &Area,
    every: u32,
    sink: &mut K,
    maker: &mut M,
) -> Finished<M::Made>
    requires rules { checked setup ≡ Ok tt }
    requires fits { Fits area.now setup.shape.pages }
    requires room { 5 ≤ setup.shape.shadows }
    ensures drives { (feed : Feed)
        → Does (driving setup lives start area.now every) (outcome_of M.Made.Board.state result)
        (record { from = feed; feed = feed; to = K.drain sink.old; sink = K.drain sink.new }) }
    ensures told { FailsAsPlanned M.Made.Board.state → (feed : Feed) →
        TellsReturns lives area.now (outcome_of M.Made.Board.state result)
        (record { from = feed; feed = feed; to = K.drain sink.old; sink = K.drain sink.new })
        ⊎ IsUnserved (outcome_of M.Made.Board.state result)
        (record { from = feed; feed = feed; to = K.drain sink.old; sink = K.drain sink.new }) }
    ensures few { result.lines ≤ result.taken }
    ensures read { result.taken ≤ most_bytes }
    ensures second { result.second ≡ None }
{
    let mut memory = match make_memory(alloc, setup, lives, maker) {
        Ok(memory) => memory,
        Err(finished) => return finished,
    };
    // a board that was formatted: where power fails only as planned, it never failed so far
    memory.board();
    let ending = drive_load(&mut memory, start, area, every, sink);
    unserved(ending, Some(memory.into_board()))
}
