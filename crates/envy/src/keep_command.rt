//! The memory in a file, served over standard input and output.

ghost use Rattle.std.specs.Prelude.{◌≡◌, ◌≢◌, ◌≤◌, IfOk, IsErr, IsOk};
ghost use Rattle.envy_device.specs.Device.{Only};
ghost use Rattle.envy_hostfile.specs.Host.{host_bytes, host_outcome};
ghost use Rattle.envy_hostfile.specs.declared.opened_file.OpenFault.TheVariants.{Unreadable, NotMade, InUse, NoJournal, Memory as OfMemory};
ghost use Rattle.envy_serve.specs.Ends.{most_bytes};

use crate::streams::{AskedSource, HeldSink, StdSink, StdSource};
use crate::{NO_MEMORY, WRITE_FAULT};
use envy_args::{KeepWords, WordsFault, read_keep};
use envy_hostfile::{HostFile, Names, OpenFault, open};
use envy_io::{BufferedSink, BufferedSource, Failed, NoMemory, Sink};
use envy_journal::cut_batch;
use envy_keep::{KeepEnded, keep};
use std::cell::RefCell;
use std::fs::File;

/// The status where the words are refused.
const REFUSED: u8 = 2;
/// The status where the file couldn't be opened.
const UNOPENED: u8 = 11;

/// The status where the file is refused.
const UNSERVED: u8 = 10;
/// Why, where it doesn't begin as a journal does.
const NO_JOURNAL: u8 = 6;

/// What is told at the end.
#[derive(Clone, Copy, Debug, PartialEq, Eq)]
pub struct Told {
    pub status: u8,
    pub why: u8,
    pub lines: u64,
    /// The byte at which a damaged file breaks off.
    pub place: u64,
}

/// An end before any line.
fn unserved(status: u8, why: u8) -> Told
    ensures { result ≡ record { status = status; why = why; lines = 0; place = 0 } }
{
    Told {
        status,
        why,
        lines: 0,
        place: 0,
    }
}

/// The end where words are refused.
fn refused(fault: WordsFault) -> Told
    ensures { result.lines ≡ 0 }
{
    match fault {
        WordsFault::Memory => unserved(NO_MEMORY, 0),
        WordsFault::Form => unserved(REFUSED, 0),
        WordsFault::Setup(rule) => unserved(REFUSED, rule),
    }
}

/// The end where a file wasn't opened.
fn unopened(fault: OpenFault) -> Told
    ensures read { fault ≡ Unreadable → result ≡ record { status = 11; why = 1; lines = 0; place = 0 } }
    ensures locked { fault ≡ InUse → result ≡ record { status = 11; why = 2; lines = 0; place = 0 } }
    ensures second { fault ≡ NotMade → result ≡ record { status = 11; why = 3; lines = 0; place = 0 } }
    ensures foreign { fault ≡ NoJournal → result ≡ record { status = 10; why = 6; lines = 0; place = 0 } }
    ensures memory { fault ≡ OfMemory → result ≡ record { status = 8; why = 0; lines = 0; place = 0 } }
{
    match fault {
        OpenFault::Unreadable => unserved(UNOPENED, 1),
        OpenFault::InUse => unserved(UNOPENED, 2),
        OpenFault::NotMade => unserved(UNOPENED, 3),
        OpenFault::NoJournal => unserved(UNSERVED, NO_JOURNAL),
        OpenFault::Memory => unserved(NO_MEMORY, 0),
    }
}

/// The end that is told, once the last replies were handed on or weren't. Only of a trace that was done to its end a
/// failure to hand them on is told.
fn handed_on(told: Told, handing: Result<(), Failed>) -> Told
    ensures stays { told.status ≢ 0 → result ≡ told }
    ensures handed { IsOk handing → result ≡ told }
    ensures fails { told.status ≡ 0 → IsErr handing → result ≡ record told { status = 4; why = 0 } }
{
    if told.status == 0 && handing.is_err() {
        return Told {
            status: WRITE_FAULT,
            why: 0,
            ..told
        };
    }
    told
}

/// Serves the memory in a file that was opened, and hands on every reply, however it ends.
fn serve_file(
    rt: &HostRuntime,
    said: &KeepWords<'_>,
    device: HostFile<File, Names<'_>>,
    bytes: &[u8],
) -> Result<Told, NoMemory>
    requires bytes { host_bytes device ≡ bytes.now }
    requires durable { Only (host_bytes device) (host_outcome device) }
    ensures { IfOk result (λ told. told.lines ≤ most_bytes) }
{
    let output = RefCell::new(BufferedSink::new(rt.alloc(), StdSink::new(rt.stdout()))?);
    let input = AskedSource::new(StdSource::new(rt.stdin()), &output);
    let mut source = BufferedSource::new(rt.alloc(), input)?;
    let mut sink = HeldSink::new(&output);
    let ended = keep(
        rt.alloc(),
        &said.options,
        device,
        bytes,
        &mut source,
        &mut sink,
    );
    let KeepEnded {
        status,
        why,
        lines,
        taken: _,
        place,
        device: _,
        held: _,
    } = ended;
    let told = Told {
        status,
        why,
        lines,
        place,
    };
    Ok(handed_on(told, sink.flush()))
}

/// Serves the memory in the file that the words behind `keep` name.
pub fn keep_words(rt: &HostRuntime, words: &[String]) -> Told
    ensures { result.lines ≤ most_bytes }
{
    let said = match read_keep(rt.alloc(), words) {
        Ok(said) => said,
        Err(fault) => return refused(fault),
    };
    let (mut device, bytes) = match open(rt, said.file, said.bytewise) {
        Ok(opened) => opened,
        Err(fault) => return unopened(fault),
    };
    device.file.cut = cut_batch(&bytes);
    match serve_file(rt, &said, device, &bytes) {
        Ok(told) => told,
        Err(NoMemory) => unserved(NO_MEMORY, 0),
    }
}
