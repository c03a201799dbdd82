//! Tables of traces with what is replied to them. A table is one text, which costs its proof next to nothing.
//!
//! Each row begins with `~` and its name. Each of its other lines begins with a word that says what it is:
//!
//! - `$`: words that are run; more such lines are more runs
//! - `>`: lines of the trace, and `<`: what is replied to them
//! - `*`: the first of some numbers, how many there are, and, parted by `|`, the lines and replies for each of them
//! - `ends`: the status with its second number, how many lines are done, and the text; without it each line is done
//! - `taken`: how many bytes of the trace are taken, or `all` of them
//! - `left`: how many bytes of the trace are left, each number from the first to the last
//! - `byte`: which byte of the trace is changed, and what it becomes; more such lines change each by itself
//! - `boards`: which boards are given back, where it isn't what `boards_of` says
//! - `piece`, `source`, `sink` and `room`: what `Given` says of the streams, where they aren't calm
//! - `first` and `second`: a failure that is planned for that board, as `cut 5 2` or `bad 1 3`
//! - `cuts`, `bads`, `word`, `last`, `drawn`, `cuts-2` and `bads-2`: what `check_seen` asks of the boards
//!
//! In lines and replies `;` stands for a newline, `%` for the number, and `@` for the first address of the page of that
//! number, modulo 64.

use crate::filled::{changed, put_pieces};
use crate::planned::Plan;
use crate::played_run::{Given, NO_ROOM, Told, calm, play};
use crate::told::{holds, same};
use std::alloc::Global;
use std::process::Abort;

/// The words with which lines of a row may begin, the first of which stands before its name.
const WORDS: &str =
    " $ > < * ends taken left byte boards piece source sink room first second cuts bads word last drawn cuts-2 bads-2";

/// How a run ends.
#[derive(Clone, Copy)]
pub(crate) struct Ends<'a> {
    /// Its status, the status's second number, and how many lines are done.
    numbers: [u64; 3],
    text: &'a str,
    /// How many bytes of the trace are taken, where that is asked.
    taken: Option<u64>,
    /// Which boards are given back, where it isn't what `boards_of` says.
    boards: Option<u64>,
}

/// Each line of the trace is done.
pub(crate) fn done(trace: &[u8]) -> Ends<'_> {
    Ends {
        numbers: [0, 0, count_lines(trace)],
        text: "",
        taken: Some(trace.len() as u64),
        boards: None,
    }
}

/// The run stops. Where its words are refused nothing is taken.
pub(crate) fn stops(status: u64, why: u64, lines: u64, text: &str) -> Ends<'_> {
    Ends {
        numbers: [status, why, lines],
        text,
        taken: if status == 2 { Some(0) } else { None },
        boards: None,
    }
}

/// The text in front of the first of these, and that behind it.
pub(crate) fn parted(text: &str, at: char) -> (&str, &str) {
    match text.split_once(at) {
        Some(parts) => parts,
        None => (text, ""),
    }
}

/// The number that a text spells.
pub(crate) fn number_of(rt: &impl Abort, text: &str) -> u64 {
    text.parse::<u64>().expect(rt, "a number of a table")
}

/// What stands behind this word in the first line of the row that begins with it.
fn said<'a>(row: &'a str, word: &str) -> Option<&'a str> {
    for line in row.split('\n') {
        let (first, rest) = parted(line, ' ');
        if first == word {
            return Some(rest);
        }
    }
    None
}

/// The number behind this word, or this one where the row doesn't say it.
fn number_in(rt: &impl Abort, row: &str, word: &str, usual: u64) -> u64 {
    match said(row, word) {
        Some(text) => number_of(rt, text),
        None => usual,
    }
}

fn name_of(row: &str) -> &str {
    said(row, "").unwrap_or("")
}

fn is_known(word: &str) -> bool {
    for known in WORDS.split(' ') {
        if known == word {
            return true;
        }
    }
    false
}

/// Each line of the row begins with a word that is known, and one names words that are run.
fn check_words(rt: &impl Abort, row: &str) {
    let name = name_of(row);
    for line in row.split('\n') {
        let word = parted(line, ' ').0;
        holds(rt, is_known(word), name, word);
    }
    holds(rt, said(row, "$").is_some(), name, "no words");
}

/// How many lines there are, the last of which needs no newline.
fn count_lines(trace: &[u8]) -> u64 {
    let mut ended = 0_u64;
    let mut open = 0;
    for byte in trace {
        if *byte == b'\n' {
            ended = ended.saturating_add(1);
            open = 0;
        } else {
            open = 1;
        }
    }
    ended.saturating_add(open)
}

/// The first so many of these lines.
pub(crate) fn first_lines(text: &[u8], lines: u64) -> &[u8] {
    let mut left = lines;
    for (at, byte) in text.iter().enumerate() {
        if left == 0 {
            return text.get(..at).unwrap_or(&[]);
        }
        if *byte == b'\n' {
            left = left.saturating_sub(1);
        }
    }
    text
}

/// Which boards a run of this command gives back that ends with this status: 1 for the first, and 2 more for the second.
fn boards_of(command: &str, status: u8) -> u64 {
    if status == 2 || command.starts_with("plain") || command.starts_with("gen") {
        0
    } else if command.starts_with("mirror") {
        3
    } else {
        1
    }
}

/// The run ended so.
fn check_end(rt: &impl Abort, name: &str, given: &Given<'_>, told: &Told, ends: Ends<'_>) {
    let [status, why, lines] = ends.numbers;
    same(rt, u64::from(told.status), status, name, given.command);
    same(
        rt,
        u64::from(told.why),
        why,
        name,
        "the status's second number",
    );
    same(rt, told.lines, lines, name, "lines");
    holds(
        rt,
        told.text.as_slice() == ends.text.as_bytes(),
        name,
        "text",
    );
    if let Some(taken) = ends.taken {
        same(rt, told.taken, taken, name, "taken");
    }
    let usual = boards_of(given.command, told.status);
    same(
        rt,
        told.boards,
        ends.boards.unwrap_or(usual),
        name,
        "boards",
    );
}

/// The run ended so, and wrote this.
pub(crate) fn check_played(
    rt: &impl Abort,
    name: &str,
    given: &Given<'_>,
    told: &Told,
    ends: Ends<'_>,
    replies: &[u8],
) {
    check_end(rt, name, given, told, ends);
    holds(rt, told.written.as_slice() == replies, name, given.command);
}

/// Such a run ends so, and writes this.
pub(crate) fn check_run(
    rt: &(impl Abort + Alloc<A = Global>),
    name: &str,
    given: &Given<'_>,
    ends: Ends<'_>,
    replies: &[u8],
) {
    check_played(rt, name, given, &play(rt, given), ends, replies);
}

/// How many bytes of the trace a text says are taken.
fn taken_of(rt: &impl Abort, text: &str, trace: &[u8]) -> u64 {
    if text == "all" {
        trace.len() as u64
    } else {
        number_of(rt, text)
    }
}

/// How the row says that a run of this trace ends.
fn ends_in<'a>(rt: &impl Abort, row: &'a str, trace: &'a [u8]) -> Ends<'a> {
    let mut ends = done(trace);
    if let Some(text) = said(row, "ends") {
        let (status, rest) = parted(text, ' ');
        let (why, rest) = parted(rest, ' ');
        let (lines, text) = parted(rest, ' ');
        let lines = number_of(rt, lines);
        ends = stops(number_of(rt, status), number_of(rt, why), lines, text);
    }
    if let Some(taken) = said(row, "taken") {
        ends.taken = Some(taken_of(rt, taken, trace));
    }
    if let Some(boards) = said(row, "boards") {
        ends.boards = Some(number_of(rt, boards));
    }
    ends
}

/// The failure that is planned, if any is.
fn plan_of(rt: &impl Abort, text: Option<&str>) -> Plan {
    let Some(text) = text else {
        return Plan::Nothing;
    };
    let (what, rest) = parted(text, ' ');
    let (k, g) = parted(rest, ' ');
    let k = number_of(rt, k).min(u64::from(u32::MAX)) as u32;
    let g = number_of(rt, g);
    if what == "cut" {
        return Plan::Cut(k, g);
    }
    holds(rt, what == "bad", text, "a plan");
    Plan::Bad(k, g)
}

/// What the row gives to a run.
fn given_in<'a>(rt: &impl Abort, row: &str, command: &'a str, trace: &'a [u8]) -> Given<'a> {
    let usual = calm(command, trace);
    let first = plan_of(rt, said(row, "first"));
    let second = plan_of(rt, said(row, "second"));
    Given {
        piece: number_in(rt, row, "piece", usual.piece),
        source_fails: number_in(rt, row, "source", 0),
        sink_fails: number_in(rt, row, "sink", 0),
        room: number_in(rt, row, "room", usual.room),
        plans: [first, second],
        ..usual
    }
}

/// What was found is what the row says behind this word, if it does.
fn check_number(rt: &impl Abort, row: &str, word: &str, found: u64) {
    same(
        rt,
        found,
        number_in(rt, row, word, found),
        name_of(row),
        word,
    );
}

/// What the row says of the boards is so: how often power was cut, how many operations were bad, the first word of SRAM,
/// the last cut that was planned with the number from which it was drawn, and the failures of the second board.
fn check_seen(rt: &impl Abort, row: &str, told: &Told) {
    check_number(rt, row, "cuts", told.first.cuts);
    check_number(rt, row, "bads", told.first.bads);
    check_number(rt, row, "word", told.word(0).unwrap_or(u64::MAX));
    let (last, drawn) = told.first.last_cut;
    check_number(rt, row, "last", u64::from(last));
    check_number(rt, row, "drawn", drawn);
    check_number(rt, row, "cuts-2", told.second.cuts);
    check_number(rt, row, "bads-2", told.second.bads);
}

/// A run of this command is as the row says. Gives how often the first board was read.
fn check_command(
    rt: &(impl Abort + Alloc<A = Global>),
    row: &str,
    command: &str,
    trace: &[u8],
    replies: &[u8],
) -> u64 {
    let given = given_in(rt, row, command, trace);
    let told = play(rt, &given);
    let ends = ends_in(rt, row, trace);
    check_played(rt, name_of(row), &given, &told, ends, replies);
    check_seen(rt, row, &told);
    told.first.reads
}

/// Each run of the row over this trace is as it says. Gives how often the first board of the last one was read.
fn check_commands(
    rt: &(impl Abort + Alloc<A = Global>),
    row: &str,
    trace: &[u8],
    replies: &[u8],
) -> u64 {
    let mut reads = 0;
    for line in row.split('\n') {
        let (word, command) = parted(line, ' ');
        if word == "$" {
            reads = check_command(rt, row, command, trace, replies);
        }
    }
    reads
}

/// Each run of the row is as it says over this trace, or over as many of its bytes as the row says are left.
fn check_left(
    rt: &(impl Abort + Alloc<A = Global>),
    row: &str,
    trace: &[u8],
    replies: &[u8],
) -> u64 {
    let Some(text) = said(row, "left") else {
        return check_commands(rt, row, trace, replies);
    };
    let (first, last) = parted(text, ' ');
    let mut reads = 0;
    for count in number_of(rt, first)..=number_of(rt, last) {
        let left = trace.get(..count as usize).unwrap_or(trace);
        reads = check_commands(rt, row, left, replies);
    }
    reads
}

/// The same over the trace, or over the trace with each byte changed that the row says, by itself.
fn check_changed(
    rt: &(impl Abort + Alloc<A = Global>),
    row: &str,
    trace: &[u8],
    replies: &[u8],
) -> u64 {
    if said(row, "byte").is_none() {
        return check_left(rt, row, trace, replies);
    }
    let mut reads = 0;
    for line in row.split('\n') {
        let (word, text) = parted(line, ' ');
        if word == "byte" {
            reads = check_left(rt, row, &changed(rt, trace, text), replies);
        }
    }
    reads
}

/// Each run of the row, with these bytes in front of its trace, is as it says. Gives how often the first board of the
/// last one was read.
pub(crate) fn check_row(rt: &(impl Abort + Alloc<A = Global>), row: &str, front: &[u8]) -> u64 {
    check_words(rt, row);
    let mut trace = front.to_vec(rt.alloc()).expect(rt, NO_ROOM);
    let mut replies = Vec::new(rt.alloc());
    put_pieces(rt, row, &mut trace, &mut replies);
    check_changed(rt, row, &trace, &replies)
}

/// Each row of the table, with these bytes in front of its trace, is as it says.
pub(crate) fn check_behind(rt: &(impl Abort + Alloc<A = Global>), table: &str, front: &[u8]) {
    for row in table.split('~') {
        if !row.is_empty() {
            check_row(rt, row, front);
        }
    }
}

/// Each row of the table is as it says.
pub(crate) fn check_table(rt: &(impl Abort + Alloc<A = Global>), table: &str) {
    check_behind(rt, table, b"");
}
