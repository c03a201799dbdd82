use crate::told::same_at;
use envy_base::Shape;
use envy_plain::{Plain, Refusal};
use std::alloc::Global;
use std::process::Abort;

// 64 pages, of which 16 may be owned
const SHAPE: Shape = Shape {
    segments: 8,
    rows: 16,
    pages: 64,
    shadows: 16,
    frames: 8,
    entries: 4,
    reserves: 0,
    sums: 0,
};

#[derive(Clone, Copy)]
enum Line {
    Load(u32),
    Look(u32),
    Store(u32, u64),
    Begin,
    /// So many begin, each in the next slot, slot 0 first.
    BeginEach(u8),
    Put(u8, u32, u64),
    /// Slot 0 puts 1 into the first word of each of so many pages.
    PutEach(u32),
    Commit(u8),
    Abort(u8),
    Power,
    /// How many words were saved.
    Saved,
}

#[derive(Clone, Copy, Debug, PartialEq)]
enum Answer {
    Word(u64),
    Started(u8),
    Saved(usize),
    Done,
    Refused(Refusal),
}

fn done(outcome: Result<(), Refusal>) -> Answer {
    match outcome {
        Ok(()) => Answer::Done,
        Err(refusal) => Answer::Refused(refusal),
    }
}

fn word(outcome: Result<u64, Refusal>) -> Answer {
    match outcome {
        Ok(word) => Answer::Word(word),
        Err(refusal) => Answer::Refused(refusal),
    }
}

fn begun(plain: &mut Plain) -> Answer {
    match plain.begin() {
        Ok(slot) => Answer::Started(slot),
        Err(refusal) => Answer::Refused(refusal),
    }
}

/// The first answer that isn't the next slot.
fn begin_each(plain: &mut Plain, slots: u8) -> Answer {
    for slot in 0..slots {
        let answer = begun(plain);
        if answer != Answer::Started(slot) {
            return answer;
        }
    }
    Answer::Done
}

/// The first refusal.
fn put_each(plain: &mut Plain, pages: u32) -> Answer {
    for page in 0..pages {
        let answer = done(plain.put(0, page.saturating_mul(32), 1));
        if answer != Answer::Done {
            return answer;
        }
    }
    Answer::Done
}

fn reply_to(plain: &mut Plain, line: Line) -> Answer {
    match line {
        Line::Load(a) => word(plain.load(a)),
        Line::Look(a) => word(plain.look(a)),
        Line::Store(a, w) => done(plain.store(a, w)),
        Line::Begin => begun(plain),
        Line::BeginEach(slots) => begin_each(plain, slots),
        Line::Put(t, a, w) => done(plain.put(t, a, w)),
        Line::PutEach(pages) => put_each(plain, pages),
        Line::Commit(t) => done(plain.commit(t)),
        Line::Abort(t) => done(plain.abort(t)),
        Line::Power => {
            plain.power();
            Answer::Done
        }
        Line::Saved => Answer::Saved(plain.saved_count()),
    }
}

/// A line over a machine, and its answer.
type Row = (Line, Answer);

/// Tests that each line is answered as it says; else the number of the first that isn't is told.
fn run(rt: &impl Abort, plain: &mut Plain, name: &str, lines: &[Row]) {
    for i in 0..lines.len() {
        let (line, wanted) = lines[i];
        same_at(rt, &reply_to(plain, line), &wanted, name, i as u64);
    }
}

fn check(rt: &impl Abort, alloc: Global, name: &str, lines: &[Row]) {
    let mut plain = Plain::new(alloc, &SHAPE).expect(rt, "no room for a machine");
    run(rt, &mut plain, name, lines);
}

const HELD_BY_0: Answer = Answer::Refused(Refusal::Held(0));

const CLOSED: Answer = Answer::Refused(Refusal::Closed);

const RANGE: Answer = Answer::Refused(Refusal::Range);

const ZEROS: [Row; 5] = [
    (Line::Load(0), Answer::Word(0)),
    (Line::Store(2047, u64::MAX), Answer::Done),
    (Line::Load(2047), Answer::Word(u64::MAX)),
    (Line::Store(2048, 1), RANGE),
    (Line::Load(u32::MAX), RANGE),
];

const ABORTS: [Row; 11] = [
    (Line::Begin, Answer::Started(0)),
    (Line::Put(0, 5, 7), Answer::Done),
    (Line::Load(5), Answer::Word(7)),
    (Line::Abort(0), Answer::Done),
    (Line::Load(5), Answer::Word(0)),
    (Line::Store(5, 1), Answer::Done),
    (Line::Begin, Answer::Started(0)),
    (Line::Put(0, 5, 2), Answer::Done),
    (Line::Put(0, 5, 3), Answer::Done),
    (Line::Abort(0), Answer::Done),
    (Line::Load(5), Answer::Word(1)),
];

const HELD: [Row; 6] = [
    (Line::Begin, Answer::Started(0)),
    (Line::Begin, Answer::Started(1)),
    (Line::Put(0, 5, 1), Answer::Done),
    (Line::Store(6, 9), HELD_BY_0),
    (Line::Put(1, 7, 9), HELD_BY_0),
    (Line::Store(32, 9), Answer::Done),
];

const SIXTEEN: [Row; 7] = [
    (Line::Begin, Answer::Started(0)),
    (Line::PutEach(16), Answer::Done),
    (Line::Put(0, 512, 1), Answer::Refused(Refusal::Full)),
    (Line::Put(0, 0, 2), Answer::Done),
    (Line::Store(640, 1), Answer::Done),
    (Line::Commit(0), Answer::Done),
    (Line::Put(0, 512, 1), CLOSED),
];

const LOWEST: [Row; 4] = [
    (Line::BeginEach(64), Answer::Done),
    (Line::Begin, Answer::Refused(Refusal::Busy)),
    (Line::Commit(3), Answer::Done),
    (Line::Begin, Answer::Started(3)),
];

const NOT_OPEN: [Row; 6] = [
    (Line::Commit(9), CLOSED),
    (Line::Begin, Answer::Started(0)),
    (Line::Commit(0), Answer::Done),
    (Line::Commit(0), CLOSED),
    (Line::Put(16, 0, 1), CLOSED),
    (Line::Abort(255), CLOSED),
];

const POWER_FAILS: [Row; 6] = [
    (Line::Store(5, 1), Answer::Done),
    (Line::Begin, Answer::Started(0)),
    (Line::Put(0, 5, 2), Answer::Done),
    (Line::Power, Answer::Done),
    (Line::Load(5), Answer::Word(1)),
    (Line::Put(0, 5, 3), CLOSED),
];

const LOOKS: [Row; 10] = [
    (Line::Store(5, 1), Answer::Done),
    (Line::Begin, Answer::Started(0)),
    (Line::Put(0, 5, 2), Answer::Done),
    (Line::Look(5), Answer::Word(1)),
    (Line::Load(5), Answer::Word(2)),
    (Line::Put(0, 6, 9), Answer::Done),
    (Line::Look(6), Answer::Word(0)),
    (Line::Commit(0), Answer::Done),
    (Line::Look(5), Answer::Word(2)),
    (Line::Look(2048), RANGE),
];

const SAVED: [Row; 5] = [
    (Line::Begin, Answer::Started(0)),
    (Line::Put(0, 5, 1), Answer::Done),
    (Line::Put(0, 5, 2), Answer::Done),
    (Line::Put(0, 6, 2), Answer::Done),
    (Line::Saved, Answer::Saved(2)),
];

#[test]
fn words_begin_as_zeros_and_end_at_the_last_page(rt: HostRuntime) {
    check(
        &rt,
        rt.alloc(),
        "words begin as zeros and end at the last page",
        &ZEROS,
    );
}

#[test]
fn abort_puts_back_the_word_before_the_first_put(rt: HostRuntime) {
    check(
        &rt,
        rt.alloc(),
        "abort puts back the word before the first put",
        &ABORTS,
    );
}

#[test]
fn an_owned_page_is_held_against_others(rt: HostRuntime) {
    check(
        &rt,
        rt.alloc(),
        "an owned page is held against others",
        &HELD,
    );
}

#[test]
fn sixteen_pages_may_be_owned(rt: HostRuntime) {
    check(&rt, rt.alloc(), "sixteen pages may be owned", &SIXTEEN);
}

#[test]
fn the_lowest_closed_slot_opens(rt: HostRuntime) {
    check(&rt, rt.alloc(), "the lowest closed slot opens", &LOWEST);
}

#[test]
fn a_slot_that_is_not_open_is_refused(rt: HostRuntime) {
    check(
        &rt,
        rt.alloc(),
        "a slot that is not open is refused",
        &NOT_OPEN,
    );
}

#[test]
fn a_failure_of_power_closes_slots_and_puts_words_back(rt: HostRuntime) {
    check(
        &rt,
        rt.alloc(),
        "a failure of power closes slots and puts words back",
        &POWER_FAILS,
    );
}

#[test]
fn look_gives_the_word_before_an_open_put(rt: HostRuntime) {
    check(
        &rt,
        rt.alloc(),
        "look gives the word before an open put",
        &LOOKS,
    );
}

#[test]
fn a_saved_word_is_counted_once(rt: HostRuntime) {
    check(&rt, rt.alloc(), "a saved word is counted once", &SAVED);
}
