//! The program: does what its words say over standard input and output, writes the last line, and exits.
#![tactic(auto)]

ghost use Rattle.std.specs.Prelude.{◌≡◌, ◌≢◌, ◌≤◌, IsErr, IsOk};

mod calm_run;
mod keep_command;
mod streams;
mod words;

use arrayvec::ArrayVec;
use calm_run::run_over_calm_boards;
use envy_bench::CalmBoard;
use envy_io::{BufferedSink, BufferedSource, Failed, Sink};
use envy_keep::keep_end_text;
use envy_run::{Ended, end_text};
use keep_command::keep_words;
use std::cell::RefCell;
use std::process::ExitCode;
use streams::{AskedSource, HeldSink, StdSink, StdSource};
use words::words;

/// The command of a memory in a file.
const KEEP: &[u8] = b"keep";
/// The status of a run whose sink failed.
const WRITE_FAULT: u8 = 4;
/// The status of a run that lacked memory.
const NO_MEMORY: u8 = 8;

/// Says the text and a newline on standard error. Where even that fails nobody is left to tell.
fn say(rt: &HostRuntime, text: &[u8]) {
    let stderr = rt.stderr();
    if stderr.write_all(text).is_ok() {
        let _ = stderr.write_all(b"\n");
    }
}

/// The end that is told, once the last replies were handed on or weren't. Only of a run that was done to its end a
/// failure to hand them on is told: what else ended it stays, so that power that was lost is told as lost.
fn handed_on(mut ended: Ended<CalmBoard>, handing: Result<(), Failed>) -> Ended<CalmBoard>
    ensures stays { ended.status ≢ 0 → result ≡ ended }
    ensures handed { IsOk handing → result ≡ ended }
    ensures fails { ended.status ≡ 0 → IsErr handing → result ≡ record ended { status = 4; why = 0 } }
{
    if ended.status == 0 && handing.is_err() {
        ended.status = WRITE_FAULT;
        ended.why = 0;
    }
    ended
}

/// Serves the memory in a file, and says how it ended.
fn main_of_keep(rt: &HostRuntime, words: &[String]) -> ExitCode {
    let told = keep_words(rt, words);
    if told.status != 0 {
        let mut text = ArrayVec::new();
        keep_end_text(told.status, told.why, told.lines, told.place, &mut text);
        say(rt, &text);
    }
    ExitCode::from(told.status)
}

/// Says how a run ended.
fn main_of_run(rt: &HostRuntime, ended: Ended<CalmBoard>) -> ExitCode
    requires { ended.lines ≤ 1099511627777 }
{
    if ended.status != 0 {
        let mut text = ArrayVec::new();
        end_text(&ended, &mut text);
        say(rt, &text);
    }
    ExitCode::from(ended.status)
}

/// Says that memory ran out before anything was done.
fn main_without_memory(rt: &HostRuntime) -> ExitCode {
    say(rt, b"envy: out of memory");
    ExitCode::from(NO_MEMORY)
}

/// Does what the words say over standard input and output, hands on every reply, however it ends, and says how it ended.
fn main(rt: HostRuntime) -> ExitCode {
    let words = match words(&rt) {
        Ok(words) => words,
        Err(error) => {
            let _ = rt.eprintln(error);
            return ExitCode::FAILURE;
        }
    };
    match words.split_first() {
        Some((first, others)) if first.as_bytes() == KEEP => return main_of_keep(&rt, others),
        _ => {}
    }
    let Ok(held) = BufferedSink::new(rt.alloc(), StdSink::new(rt.stdout())) else {
        return main_without_memory(&rt);
    };
    let output = RefCell::new(held);
    let input = AskedSource::new(StdSource::new(rt.stdin()), &output);
    let Ok(mut source) = BufferedSource::new(rt.alloc(), input) else {
        return main_without_memory(&rt);
    };
    let mut sink = HeldSink::new(&output);
    let ended = run_over_calm_boards(rt.alloc(), &words, &mut source, &mut sink);
    main_of_run(&rt, handed_on(ended, sink.flush()))
}
