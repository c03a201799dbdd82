//! Lines of a trace that are drawn from a number.

use crate::told::{same, same_bytes};
use envy_gen::{Mix, Skew, generate};
use envy_io::{Failed, MemSink};
use rand_core::{Rng, SeedableRng};
use rand_pcg::Lcg128Xsl64;
use std::alloc::Global;
use std::process::Abort;

/// The words were made with an independent program.
const WORDS: [u64; 3] = [
    15492934433077865799,
    319104231195455319,
    2101115697694094752,
];

#[test]
fn words_are_those_of_the_original(rt: HostRuntime) {
    let mut words = Lcg128Xsl64::seed_from_u64(1);
    for word in WORDS.as_slice() {
        same(&rt, words.next_u64(), *word, "word");
    }
}

const PLAIN: Mix = Mix {
    pages: 64,
    skew: None,
    stores: None,
};

/// 6 of 64 pages are hot.
const SKEWED: Mix = Mix {
    pages: 64,
    skew: Some(Skew { hot: 10, share: 90 }),
    stores: Some(75),
};

/// So many lines that are drawn for a sink with so much room, of which these calls fail, and what is answered and written.
/// The lines were drawn by hand from the words of an independent program.
#[derive(Clone, Copy)]
struct Drawn {
    name: &'static str,
    room: usize,
    fails: &'static [u64],
    lines: u32,
    is_skewed: bool,
    answer: Result<(), Failed>,
    text: &'static [u8],
}

const FROM_THREE_WORDS: Drawn = Drawn {
    name: "lines are drawn from three words each",
    room: 100,
    fails: &[],
    lines: 5,
    is_skewed: false,
    answer: Ok(()),
    text: b"tick\nload 1602\ntick\nbegin\nstore 1232 146749363665314351\n",
};

const ONE_PIECE: Drawn = Drawn {
    name: "line and its newline are one piece",
    room: 100,
    fails: &[4],
    lines: 5,
    is_skewed: false,
    answer: Err(Failed),
    text: b"tick\nload 1602\ntick\n",
};

const NO_LINE: Drawn = Drawn {
    name: "no line makes no call",
    room: 0,
    fails: &[1],
    lines: 0,
    is_skewed: false,
    answer: Ok(()),
    text: b"",
};

const HOT_PAGES: Drawn = Drawn {
    name: "accesses go to hot pages by their share",
    room: 1000,
    fails: &[],
    lines: 6,
    is_skewed: true,
    answer: Ok(()),
    text: b"store 141 16631418469999051220\nstore 2 10918002011885599471\nload 98\nstore 152 14232214860447468389\nload 464\nstore 150 1720930697820755002\n",
};

fn draw(sink: &mut MemSink, drawn: &Drawn) -> Result<(), Failed> {
    let mix = if drawn.is_skewed { SKEWED } else { PLAIN };
    generate(sink, 7, drawn.lines, &mix)
}

fn sink_for(rt: &impl Abort, alloc: Global, drawn: &Drawn) -> MemSink {
    let fails = drawn.fails.to_vec(alloc).expect(rt, "no room for a plan");
    MemSink::new(alloc, drawn.room, fails).expect(rt, "no room for a sink")
}

fn check(rt: &impl Abort, alloc: Global, drawn: &Drawn) {
    let mut sink = sink_for(rt, alloc, drawn);
    same(rt, draw(&mut sink, drawn), drawn.answer, drawn.name);
    same_bytes(rt, sink.written(), drawn.text, drawn.name);
}

#[test]
fn lines_are_drawn_from_three_words_each(rt: HostRuntime) {
    check(&rt, rt.alloc(), &FROM_THREE_WORDS);
}

#[test]
fn a_line_and_its_newline_are_one_piece(rt: HostRuntime) {
    check(&rt, rt.alloc(), &ONE_PIECE);
}

#[test]
fn no_line_makes_no_call(rt: HostRuntime) {
    check(&rt, rt.alloc(), &NO_LINE);
}

#[test]
fn accesses_go_to_hot_pages_by_their_share(rt: HostRuntime) {
    check(&rt, rt.alloc(), &HOT_PAGES);
}
