//! The report of a load that was driven to its end.

ghost use Rattle.std.specs.Prelude.{◌++◌, ◌∷◌, ◌≤◌, [], decimal, length};
ghost use Rattle.std.specs.Fmt.{signed_decimal};
ghost use Rattle.envy_io.specs.Lines.{newline};
ghost use Rattle.envy_io.specs.Streams.{WritesAll};
ghost use Rattle.envy_trace.specs.Stat.{stat_bytes};
ghost use Rattle.envy_run.specs.Drives.{named, report, sums_text};
ghost use Rattle.envy_run.specs.Writing.{WritesOut};

use arrayvec::ArrayVec;
use envy_array::{Area, Counts};
use envy_io::{Failed, Sink, write_all};
use envy_tpca::Sums;
use envy_trace::{push_text, stat_text};
use itoa::Buffer;

/// Writes a name and the digits of a number on a line.
fn write_line<K: Sink>(sink: &mut K, name: &[u8], number: &[u8]) -> Result<(), Failed>
    requires name { length name.now ≤ 10 }
    requires number { length number.now ≤ 40 }
    ensures { WritesAll (K.drain sink.old) (named name.now number.now) result (K.drain sink.new) }
{
    let mut line: ArrayVec<u8, 64> = ArrayVec::new();
    push_text(&mut line, name);
    push_text(&mut line, number);
    line.push(b'\n');
    write_all(sink, line.as_slice())
}

/// Writes a name and a count on a line.
fn write_count<K: Sink>(sink: &mut K, name: &[u8], count: u64) -> Result<(), Failed>
    requires { length name.now ≤ 10 }
    ensures { WritesAll (K.drain sink.old) (named name.now (decimal count)) result (K.drain sink.new) }
{
    let mut digits = Buffer::new();
    write_line(sink, name, digits.format(count).as_bytes())
}

/// Writes a name and a sum on a line.
fn write_sum<K: Sink>(sink: &mut K, name: &[u8], sum: &i64) -> Result<(), Failed>
    requires { length name.now ≤ 10 }
    ensures { WritesAll (K.drain sink.old) (named name.now (signed_decimal sum.now)) result (K.drain sink.new) }
{
    let mut digits = Buffer::new();
    write_line(sink, name, digits.format(*sum).as_bytes())
}

/// Writes the line of counters.
fn write_stat<K: Sink>(sink: &mut K, counts: &Counts) -> Result<(), Failed>
    ensures { WritesAll (K.drain sink.old) (stat_bytes counts.now ++ newline ∷ []) result (K.drain sink.new) }
{
    let mut line = ArrayVec::new();
    stat_text(counts, &mut line);
    line.push(b'\n');
    write_all(sink, line.as_slice())
}

/// Writes the sums of balances and history, and that of what the load gave, each on a line.
fn write_sums<K: Sink>(sink: &mut K, sums: &Sums) -> Result<(), Failed>
    ensures { WritesAll (K.drain sink.old) (sums_text sums.now) result (K.drain sink.new) }
{
    write_sum(sink, b"branches ", &sums.branches)?;
    write_sum(sink, b"tellers ", &sums.tellers)?;
    write_sum(sink, b"accounts ", &sums.accounts)?;
    write_sum(sink, b"history ", &sums.history)?;
    write_sum(sink, b"deltas ", &sums.deltas)
}

/// Writes the eight lines of the report.
fn write_lines<K: Sink>(sink: &mut K, area: &Area, sums: &Sums) -> Result<(), Failed>
    ensures { WritesAll (K.drain sink.old) (report area.now sums.now) result (K.drain sink.new) }
{
    write_count(sink, b"transfers ", u64::from(area.transfers))?;
    write_sums(sink, sums)?;
    write_count(sink, b"cuts ", sums.cuts)?;
    write_stat(sink, &sums.counts)
}

/// Writes the report of a load that was driven to its end, and flushes the sink.
///
/// # Errors
///
/// `Failed` where the sink failed. A front of the report was written then.
pub fn write_report<K: Sink>(sink: &mut K, area: &Area, sums: &Sums) -> Result<(), Failed>
    ensures { WritesOut (report area.now sums.now) result (K.drain sink.old) (K.drain sink.new) }
{
    write_lines(sink, area, sums)?;
    sink.flush()
}
