// A journal that a file holds is opened, and a memory is attached.
ghost use Rattle.std.specs.Prelude.{◌≡◌, ◌≢◌, ◌⊎◌, [], List, ℕ, false, IfOk, IfErr, IsTrue, OnOk, Ok};
ghost use Rattle.envy_array.specs.Array.{zeros};
ghost use Rattle.envy_device.specs.Device.{Only};
ghost use Rattle.envy_journal.specs.Content.{HasMisfit, blank, content_of};
ghost use Rattle.envy_journal.specs.Found.{IsEnd};
ghost use Rattle.envy_journal.specs.Head.{HasHead, StandsFor};
ghost use Rattle.envy_journal.specs.Reading.{operations};
ghost use Rattle.envy_base.specs.declared.shape.Shape.{Shape};
ghost use Rattle.envy_begun.specs.Beginning.{HasBegun, HasOperationsOf, IsStopped};
ghost use Rattle.envy_begun.specs.Plans.{BeginsOn, IsOpened};
ghost use Rattle.envy_begun.specs.declared.file_contents.FileContents.TheVariants.{Written};
ghost use Rattle.envy_begun.specs.Left.{Leaves, OpensAlike, StaysNew, StaysWritten};
ghost use Rattle.envy_begun.specs.Opens.{OpensAs};
ghost use Rattle.envy_begun.specs.Unserved.{Declines, HasNoWords, Refrains};
ghost use Rattle.envy_begun.specs.declared.open_fault.OpenFault.TheVariants.{Memory as UnbegunMemory, NoJournal as UnbegunNoJournal};
ghost use Rattle.envy_calls.specs.Making.{Forbids, IsWhole};
ghost use Rattle.envy_calls.specs.declared.code.Code.{Code as OfCode};
ghost use Rattle.envy_calls.specs.declared.code.Code.TheVariants.{NoMemory as CodeNoMemory};
ghost use Rattle.envy_synced.specs.Disk.{IsCompact, IsSynced};
ghost use Rattle.envy_map.specs.Fields.{chart};
ghost use Rattle.envy_memory.specs.Calls.{fresh};
ghost use Rattle.envy_memory.specs.Formats.{IsFresh};
ghost use Rattle.envy_policy.specs.Setup.{checked};

use crate::new_memory::{ROOM, closed, make_memory};
use crate::open_fault::OpenFault;
use crate::refusal::{no_second, unattached, unopened};
use envy_base::Off;
use envy_calls::{Code, refusal};
use envy_device::{Device, Replaceable};
use envy_disk::{Compaction, Durable};
use envy_journal::{Steady, Unread, open_at, replay_file};
use envy_memory::Memory;
use envy_policy::Setup;
use envy_synced::Kept;
use std::alloc::Global;

// Does the operations of a journal on a blank board, and answers how many bytes of the file count.
fn replayed<B: Steady>(board: &mut B, bytes: &[u8]) -> Result<usize, OpenFault>
    requires blank { content_of (B.state board.old) ≡ blank (B.state board.old).shape }
    requires head { HasHead (B.state board.old).shape bytes.now }
    ensures shape { (B.state board.new).shape ≡ (B.state board.old).shape }
    ensures opened { OnOk result (IsOpened (B.state board.old).shape bytes.now (B.state board.new)) }
    ensures end { IfOk result (λ end. IsEnd end bytes.now) }
    ensures refused { IfErr result (λ e.
        Refrains (HasMisfit (B.state board.old).shape (operations bytes.now)) bytes.now e) }
{
    match replay_file(board, bytes) {
        Ok(end) => Ok(end),
        Err(Unread::Misfit) => Err(OpenFault::NoJournal),
        Err(Unread::Damaged(place)) => Err(OpenFault::Damaged(place)),
    }
}

// Audits a board, so that nothing that its file holds is trusted.
fn audited<B: Steady>(alloc: Global, board: &B, setup: &Setup) -> Result<(), OpenFault>
    ensures whole { OnOk result (IsWhole (chart (B.state board.now)) setup.now) }
    ensures refused { IfErr result (λ e. (e ≡ UnbegunMemory)
        ⊎ ((e ≡ UnbegunNoJournal) × (code : OfCode) × (code ≢ CodeNoMemory)
        × Forbids code (chart (B.state board.now)) setup.now)) }
{
    match refusal(alloc, board, setup) {
        Ok(None) => Ok(()),
        Ok(Some(Code::NoMemory)) => Err(OpenFault::Memory),
        Ok(Some(_)) => Err(OpenFault::NoJournal),
        Err(Off) => unreachable!(),
    }
}

// Does the operations of a journal on a blank board, and audits it. No call is made on the file.
fn read_journal<B: Steady>(
    alloc: Global,
    board: &mut B,
    bytes: &[u8],
    setup: &Setup,
) -> Result<usize, OpenFault>
    requires blank { content_of (B.state board.old) ≡ blank (B.state board.old).shape }
    requires head { HasHead (B.state board.old).shape bytes.now }
    requires shape { (B.state board.old).shape ≡ setup.now.shape }
    requires setup { checked setup.now ≡ Ok tt }
    ensures shape { (B.state board.new).shape ≡ (B.state board.old).shape }
    ensures opened { OnOk result (IsOpened (B.state board.old).shape bytes.now (B.state board.new)) }
    ensures end { IfOk result (λ end. IsEnd end bytes.now) }
    ensures words { OnOk result ((words : List ℕ) × OpensAs setup.now.shape words bytes.now) }
    ensures refused { IfErr result (λ e. Refrains (HasNoWords setup.now.shape bytes.now) bytes.now e) }
{
    let end = replayed(board, bytes)?;
    match audited(alloc, board, setup) {
        Ok(()) => Ok(end),
        Err(open_fault) => Err(open_fault),
    }
}

// Opens a journal whose operations were done on a board.
fn opened<B: Steady + Drop, D: Device + Drop>(
    alloc: Global,
    board: B,
    device: D,
    bytes: &[u8],
    end: usize,
) -> Result<Kept<B, D>, (OpenFault, D)>
    requires bytes { bytes.now ≡ D.seen device }
    requires durable { Only (D.seen device) (D.may_leave device) }
    requires opened { IsOpened (B.state board).shape bytes.now (B.state board) }
    requires end { IsEnd end bytes.now }
    ensures synced { IfOk result (λ kept. IsSynced (chart (⟦<Kept<B, D> as envy_base::Board>⟧.state kept))) }
    ensures opened { IfOk result (λ kept.
        IsOpened (B.state board).shape bytes.now (⟦<Kept<B, D> as envy_base::Board>⟧.state kept)) }
    ensures reads { IfOk result (λ kept.
        HasOperationsOf bytes.now (chart (⟦<Kept<B, D> as envy_base::Board>⟧.state kept))) }
    ensures left { IfErr result (λ e.
        Leaves D.left_since D.moment e.1 (StandsFor (B.state board).shape (operations bytes.now))) }
    ensures failed { IfErr result (λ e. IsStopped D.seen D.has_failed e.0 e.1) }
{
    match open_at(alloc, board, device, bytes, end, ROOM) {
        Ok(journal) => Ok(Kept::new(journal)),
        Err((error, device)) => Err(unopened(error, device)),
    }
}

// Compacts the journal of a board, if that is asked for. If no second file could be written, none is opened.
fn compacted<B: Steady + Drop, D: Replaceable>(
    mut kept: Kept<B, D>,
    compact: bool,
) -> Result<Kept<B, D>, (OpenFault, D)>
    requires synced { IsSynced (chart (⟦<Kept<B, D> as envy_base::Board>⟧.state kept)) }
    ensures synced { IfOk result (λ after. IsSynced (chart (⟦<Kept<B, D> as envy_base::Board>⟧.state after))) }
    ensures opened { IfOk result (λ after. (sh : Shape) (file : List ℕ)
        → IsOpened sh file (⟦<Kept<B, D> as envy_base::Board>⟧.state kept)
        → IsOpened sh file (⟦<Kept<B, D> as envy_base::Board>⟧.state after)) }
    ensures compacted { IsTrue compact
        → IfOk result (λ after. IsCompact (chart (⟦<Kept<B, D> as envy_base::Board>⟧.state after))) }
    ensures same { compact ≡ false → IfOk result (λ after. after ≡ kept) }
    ensures left { IfErr result (λ e. (sh : Shape) (file : List ℕ)
        → IsOpened sh file (⟦<Kept<B, D> as envy_base::Board>⟧.state kept)
        → Leaves D.left_since D.moment e.1 (OpensAlike sh file)) }
    ensures failed { IfErr result (λ e. IsStopped D.seen D.has_failed e.0 e.1) }
{
    if !compact {
        return Ok(kept);
    }
    match kept.compact() {
        Ok(Compaction::Done) => Ok(kept),
        Ok(Compaction::Appended) => {
            let (device, _) = closed(kept);
            Err(no_second(device))
        }
        Err(Off) => {
            let (device, held) = closed(kept);
            Err((OpenFault::Failed(held), device))
        }
    }
}

// Opens a journal whose operations were done on a board, and compacts it where that is asked for.
fn opened_as_asked<B: Steady + Drop, D: Replaceable + Drop>(
    alloc: Global,
    board: B,
    device: D,
    bytes: &[u8],
    end: usize,
    compact: bool,
) -> Result<Kept<B, D>, (OpenFault, D)>
    requires bytes { bytes.now ≡ D.seen device }
    requires durable { Only (D.seen device) (D.may_leave device) }
    requires opened { IsOpened (B.state board).shape bytes.now (B.state board) }
    requires end { IsEnd end bytes.now }
    ensures synced { IfOk result (λ kept. IsSynced (chart (⟦<Kept<B, D> as envy_base::Board>⟧.state kept))) }
    ensures opened { IfOk result (λ kept.
        IsOpened (B.state board).shape bytes.now (⟦<Kept<B, D> as envy_base::Board>⟧.state kept)) }
    ensures compacted { IsTrue compact
        → IfOk result (λ kept. IsCompact (chart (⟦<Kept<B, D> as envy_base::Board>⟧.state kept))) }
    ensures same { compact ≡ false → IfOk result (λ kept.
        HasOperationsOf bytes.now (chart (⟦<Kept<B, D> as envy_base::Board>⟧.state kept))) }
    ensures left { IfErr result (λ e.
        Leaves D.left_since D.moment e.1 (OpensAlike (B.state board).shape bytes.now)) }
    ensures failed { IfErr result (λ e. IsStopped D.seen D.has_failed e.0 e.1) }
{
    match opened(alloc, board, device, bytes, end) {
        Ok(kept) => compacted(kept, compact),
        Err(open_fault) => Err(open_fault),
    }
}

/// Opens a journal in which nothing was done yet, and makes a memory of zeros in it, which is on the disk then.
pub(crate) fn begin_blank<B: Steady + Drop, D: Replaceable + Drop>(
    alloc: Global,
    mut board: B,
    device: D,
    bytes: &[u8],
    setup: Setup,
) -> Result<Memory<Kept<B, D>>, (OpenFault, D)>
    requires bytes { bytes.now ≡ D.seen device }
    requires durable { Only (D.seen device) (D.may_leave device) }
    requires blank { content_of (B.state board) ≡ blank (B.state board).shape }
    requires head { HasHead setup.shape bytes.now }
    requires shape { (B.state board).shape ≡ setup.shape }
    ensures begun { IfOk result (HasBegun setup (zeros setup.shape.pages setup.shape.shadows)) }
    ensures fresh { IfOk result (λ memory. IsSynced memory.chart × IsFresh memory.chart) }
    ensures failed { IfErr result (λ e.
        Declines D.seen D.has_failed (HasMisfit setup.shape (operations bytes.now)) bytes.now device e.0 e.1) }
    // a crash leaves a journal in which nothing was done, unless the file failed behind its opening; a damaged one stays
    ensures left { operations bytes.now ≡ []
        → IfErr result (λ e. Leaves D.left_since D.moment e.1 (StaysNew e.0 setup.shape bytes.now)) }
{
    let end = match replayed(&mut board, bytes) {
        Ok(end) => end,
        Err(open_fault) => return Err((open_fault, device)),
    };
    let kept = match opened(alloc, board, device, bytes, end) {
        Ok(kept) => kept,
        Err(open_fault) => return Err(open_fault),
    };
    make_memory(alloc, kept, setup)
}

/// Opens a journal, compacts it where that is asked for, and attaches a memory, which stands for the words that the file's
/// last sync left, transactions undone. Nothing that the file holds is trusted: its operations are done on the board, which
/// is audited, before the first call on the file.
pub fn begin_again<B: Steady + Drop, D: Replaceable + Drop>(
    alloc: Global,
    mut board: B,
    device: D,
    bytes: &[u8],
    setup: Setup,
    compact: bool,
) -> Result<Memory<Kept<B, D>>, (OpenFault, D)>
    requires bytes { bytes.now ≡ D.seen device }
    requires durable { Only (D.seen device) (D.may_leave device) }
    requires blank { content_of (B.state board) ≡ blank (B.state board).shape }
    requires head { HasHead setup.shape bytes.now }
    requires shape { (B.state board).shape ≡ setup.shape }
    requires setup { checked setup ≡ Ok tt }
    ensures begun { IfOk result (λ memory. (words : List ℕ) × OpensAs setup.shape words bytes.now
        × HasBegun setup (fresh setup.shape.shadows words) memory) }
    // on the board that the operations of the file make, taken up
    ensures board { IfOk result (λ memory. BeginsOn Written bytes.now memory.chart) }
    // where that was asked for, the journal is no longer than a snapshot, and else it has the operations that it had
    ensures compacted { IsTrue compact → IfOk result (λ memory. IsCompact memory.chart) }
    ensures same { compact ≡ false → IfOk result (λ memory. HasOperationsOf bytes.now memory.chart) }
    // a crash leaves a journal that opens as the one that was there; where the file failed, one with the same words; and
    // one that is refused as it was
    ensures left { IfErr result (λ e.
        Leaves D.left_since D.moment e.1 (StaysWritten e.0 setup.shape bytes.now)) }
    ensures failed { IfErr result (λ e.
        Declines D.seen D.has_failed (HasNoWords setup.shape bytes.now) bytes.now device e.0 e.1) }
{
    let end = match read_journal(alloc, &mut board, bytes, &setup) {
        Ok(end) => end,
        Err(open_fault) => return Err((open_fault, device)),
    };
    let kept = match opened_as_asked(alloc, board, device, bytes, end, compact) {
        Ok(kept) => kept,
        Err(open_fault) => return Err(open_fault),
    };
    match Memory::attach(alloc, kept, setup) {
        Ok(memory) => Ok(memory),
        Err((kept, fault)) => {
            let (device, held) = closed(kept);
            Err(unattached(fault, held, device))
        }
    }
}
