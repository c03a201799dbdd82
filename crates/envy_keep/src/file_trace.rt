// A trace over the memory in a file.
ghost use Rattle.std.specs.Prelude.{◌≡◌, ◌⊎◌, ◌<◌, ◌≤◌, Ok};
ghost use Rattle.envy_begun.specs.Beginning.{HasStopped};
ghost use Rattle.envy_begun.specs.Unserved.{held_for, place_for, status_for, why_for};
ghost use Rattle.envy_begun.specs.Plans.{Plans};
ghost use Rattle.envy_device.specs.Device.{Only};
ghost use Rattle.envy_journal.specs.Content.{blank, content_of};
ghost use Rattle.envy_policy.specs.Setup.{checked};
ghost use Rattle.envy_keep.specs.Keeping.{IsServed, IsUnserved, told};
ghost use Rattle.envy_serve.specs.Streams.{streams_of};
ghost use Rattle.envy_serve.specs.Ends.{most_bytes};

use crate::conclusion::{KeepEnded, serve_kept};
use envy_args::KeepOptions;
use envy_begun::{FileContents, OpenFault, begin, plan};
use envy_device::Replaceable;
use envy_io::{Sink, Source};
use envy_journal::Steady;
use envy_policy::Setup;
use envy_region::OwnedBoard;
use std::alloc::Global;

// The end where nothing is served.
fn unserved<D>(fault: OpenFault, device: D) -> KeepEnded<D>
    ensures says { told result.status result.why result.lines result.taken result.place
        ≡ told (status_for fault) (why_for fault) 0 0 (place_for fault) }
    ensures lines { result.lines ≡ 0 }
    ensures taken { result.taken ≡ 0 }
    ensures device { result.device ≡ device }
    ensures held { result.held ≡ held_for fault }
{
    let (status, why) = fault.numbers();
    KeepEnded {
        status,
        why,
        lines: 0,
        taken: 0,
        place: fault.place() as u64,
        device,
        held: fault.held(),
    }
}

// Serves a trace over the memory in a file, on a blank board of its sizes.
fn serve_on<S: Source, K: Sink, B: Steady + Drop, D: Replaceable + Drop>(
    alloc: Global,
    board: B,
    device: D,
    options: &KeepOptions,
    bytes: &[u8],
    setup: Setup,
    holding: FileContents,
    source: &mut S,
    sink: &mut K,
) -> KeepEnded<D>
    requires bytes { D.seen device ≡ bytes.now }
    requires durable { Only (D.seen device) (D.may_leave device) }
    requires blank { content_of (B.state board) ≡ blank (B.state board).shape }
    requires shape { (B.state board).shape ≡ setup.shape }
    requires plans { Plans holding options.now bytes.now setup }
    requires checks { checked setup ≡ Ok tt }
    requires entries { 0 < setup.shape.entries }
    ensures keeps { let io = streams_of (S.feed source.old) (S.feed source.new) (K.drain sink.old) (K.drain sink.new) in
        let end = told result.status result.why result.lines result.taken result.place in
        IsServed options.now bytes.now end (D.left_since result.device) (D.moment result.device) io
        ⊎ IsUnserved D.seen D.has_failed D.left_since D.moment options.now bytes.now device result.device end io }
    ensures stopped { result.status ≡ 6 → HasStopped D.seen D.has_failed result.held result.device }
    ensures few { result.lines ≤ result.taken }
    ensures read { result.taken ≤ most_bytes }
{
    match begin(alloc, board, device, options, bytes, setup, holding) {
        Ok(memory) => {
            memory.invariant_holds();
            serve_kept(memory, source, sink)
        }
        Err((fault, device)) => unserved(fault, device),
    }
}

/// Serves a trace over the memory in a file that holds these bytes. Where the file is empty a journal is made by the
/// options' sizes; else the journal gives its sizes, and options that name others are refused. A memory of zeros is made
/// where nothing was done yet; else the memory stands for the words that the file's last sync left, transactions undone,
/// and where the options say so the journal is compacted first.
///
/// Every end but status 0 has its cause, but for want of memory. Where nothing is served nothing is read or written on the
/// streams, and what a crash leaves of the file is as good a beginning as it was, but where the file failed while a new
/// memory was made in it.
pub fn keep<S: Source, K: Sink, D: Replaceable + Drop>(
    alloc: Global,
    options: &KeepOptions,
    device: D,
    bytes: &[u8],
    source: &mut S,
    sink: &mut K,
) -> KeepEnded<D>
    requires bytes { D.seen device ≡ bytes.now }
    requires durable { Only (D.seen device) (D.may_leave device) }
    ensures keeps { let io = streams_of (S.feed source.old) (S.feed source.new) (K.drain sink.old) (K.drain sink.new) in
        let end = told result.status result.why result.lines result.taken result.place in
        IsServed options.now bytes.now end (D.left_since result.device) (D.moment result.device) io
        ⊎ IsUnserved D.seen D.has_failed D.left_since D.moment options.now bytes.now device result.device end io }
    // power is off only where the file failed, or came to the end of its range
    ensures stopped { result.status ≡ 6 → HasStopped D.seen D.has_failed result.held result.device }
    ensures few { result.lines ≤ result.taken }
    ensures read { result.taken ≤ most_bytes }
{
    let (setup, holding) = match plan(options, bytes) {
        Ok(plan) => plan,
        Err(fault) => return unserved(fault, device),
    };
    let Ok(board) = OwnedBoard::blank(alloc, &setup.shape) else {
        return unserved(OpenFault::Memory, device);
    };
    serve_on(
        alloc, board, device, options, bytes, setup, holding, source, sink,
    )
}
