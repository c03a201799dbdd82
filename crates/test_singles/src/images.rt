//! Images and verdicts on boards that were changed by hand.

ghost use Rattle.std.specs.Prelude.{◌≡◌};
ghost use Rattle.envy_base.specs.Shape.{IsShape};
ghost use Rattle.envy_bench.specs.Board.{board_state};
ghost use Rattle.envy_bench.specs.Parts.{new_state};

use crate::told::same;
use envy_base::{Board, Shape};
use envy_bench::MemBoard;
use envy_image::{Audit, HeadFault, InFault, Rule, Verdict, install, read_head, write_image};
use envy_io::{Lines, MemSink, MemSource};
use envy_soundness::format_board;
use std::alloc::Global;
use std::process::Abort;

const SHAPE: Shape = Shape {
    segments: 8,
    rows: 16,
    pages: 64,
    shadows: 16,
    frames: 8,
    entries: 4,
    reserves: 0,
    sums: 0,
};

/// How many bytes the image of such a board has: its head, 128 rows of 256 bytes and 559 words of 8.
const SIZE: usize = 37_272;

/// Where the words of SRAM begin in it.
const WORDS: usize = 32_800;

/// A new board of a shape that checks.
fn new_board(rt: &impl Abort, alloc: Global, shape: &Shape) -> MemBoard
    requires { IsShape shape.now }
    ensures { board_state result ≡ new_state shape.now 0 }
{
    MemBoard::new(alloc, shape, 0).expect(rt, "no room for a board")
}

/// Writes the image of a formatted board. What ends the test ends it here: a way out by `?` would let go of the board.
fn write(rt: &impl Abort, alloc: Global, sink: &mut MemSink) {
    let mut board = new_board(rt, alloc, &SHAPE);
    same(rt, &format_board(&mut board), &Ok(()), "format");
    same(rt, &write_image(&board, sink), &Ok(()), "image");
}

/// The image of a formatted board.
fn image(rt: &impl Abort, alloc: Global) -> Vec<u8> {
    let mut sink = MemSink::new(alloc, SIZE, Vec::new(alloc)).expect(rt, "no room for a sink");
    write(rt, alloc, &mut sink);
    sink.written()
        .to_vec(alloc)
        .expect(rt, "no room for an image")
}

/// Writes a word of SRAM into an image.
fn set_word(rt: &impl Abort, bytes: &mut Vec<u8>, w: usize, word: u64) {
    let at = WORDS + 8 * w.min(558);
    assert!(rt; at + 8 <= bytes.len());
    bytes[at..at + 8].copy_from_slice(&word.to_le_bytes());
}

/// What becomes of an image that is read into a new board.
#[derive(Clone, Copy, Debug, PartialEq, Eq)]
enum Found {
    Judged(Verdict),
    NoHead(HeadFault),
    NotInstalled(InFault),
}

/// What an audit finds of a board.
fn verdict(rt: &impl Abort, alloc: Global, board: &MemBoard) -> Found {
    let mut audit = Audit::new(alloc, &board.shape()).expect(rt, "no room for an audit");
    Found::Judged(audit.check(board).expect(rt, "no power"))
}

fn judge(rt: &impl Abort, alloc: Global, bytes: Vec<u8>) -> Found {
    let mut source = MemSource::new(bytes, 4096, Vec::new(alloc));
    let mut lines = Lines::new(1_000_000);
    match read_head(&mut lines, &mut source) {
        Ok(shape) => {
            shape.check().expect(rt, "the shape");
            let mut board = new_board(rt, alloc, &shape);
            match install(&mut board, &mut lines, &mut source) {
                Ok(()) => verdict(rt, alloc, &board),
                Err(fault) => Found::NotInstalled(fault),
            }
        }
        Err(fault) => Found::NoHead(fault),
    }
}

/// The text at these places of an image.
fn check_text(rt: &impl Abort, bytes: &[u8], from: usize, text: &[u8]) {
    let found = bytes.get(from..from.saturating_add(text.len()));
    same(rt, &found, &Some(text), "bytes");
}

#[test]
fn a_formatted_board_comes_back(rt: HostRuntime) {
    let bytes = image(&rt, rt.alloc());
    same(&rt, &bytes.len(), &SIZE, "size");
    check_text(&rt, &bytes, 0, b"eNVyIMG1\x08\0\0\0\x10\0\0\0");
    // the first word of SRAM, its lowest byte first
    check_text(&rt, &bytes, WORDS, b"HSLFyVNe");
    let found = judge(&rt, rt.alloc(), bytes);
    same(&rt, &found, &Found::Judged(Verdict::Sound), "verdict");
}

/// Words of SRAM that break a point first, on a board that was just formatted. In its map the fills begin at word
/// 80, the positions at 88, the places at 95, two to a word, and the undos at 127; segment 7 is the spare.
const BROKEN: [(Rule, &str, &[(usize, u64)]); 11] = [
    // slot 0 holds no state
    (Rule::A, "point A", &[(8, 3)]),
    // two positions name segment 0
    (Rule::B, "point B", &[(89, 0)]),
    // pages 0 and 1 stand in frame 0
    (Rule::C, "point C", &[(95, 0x2_0000_0002)]),
    // pages 0 and 1 stand in row 0
    (Rule::D, "point D", &[(95, 0x1_0000_0001), (80, 1)]),
    // page 0 stands in row 0, which wasn't claimed
    (Rule::E, "point E", &[(95, 1)]),
    // the spare has a row though no job runs
    (Rule::G, "point G", &[(87, 1)]),
    // page 0 stands in a row of the spare while the spare is to be erased
    (Rule::H, "point H", &[(5, 3), (87, 1), (95, 449)]),
    // the spare is copied
    (Rule::I, "point I", &[(5, 29)]),
    // while segment 0 is switched page 0 stands in its row 0, and its shadow is the copy of that row
    (
        Rule::J,
        "point J",
        &[(5, 2), (8, 1), (80, 1), (87, 1), (95, 1), (127, 28_674)],
    ),
    // 17 pages are owned by slot 0, which is active
    (
        Rule::K,
        "point K",
        &[
            (8, 1),
            (127, 0x1_0000_0001),
            (128, 0x1_0000_0001),
            (129, 0x1_0000_0001),
            (130, 0x1_0000_0001),
            (131, 0x1_0000_0001),
            (132, 0x1_0000_0001),
            (133, 0x1_0000_0001),
            (134, 0x1_0000_0001),
            (135, 1),
        ],
    ),
    // page 0 is owned by slot 0, which is vacant
    (Rule::L, "point L", &[(127, 1)]),
];

/// Changes an image, judges it, and tells the name where that is found otherwise.
fn check(
    rt: &impl Abort,
    alloc: Global,
    whole: &[u8],
    words: &[(usize, u64)],
    wanted: Verdict,
    name: &str,
) {
    let mut bytes = whole.to_vec(alloc).expect(rt, "no room for an image");
    for (w, word) in words {
        set_word(rt, &mut bytes, *w, *word);
    }
    same(rt, &judge(rt, alloc, bytes), &Found::Judged(wanted), name);
}

/// Words of SRAM with which a board isn't formatted.
const OTHERS: [(&str, usize, u64); 2] = [
    ("first word is not the magic word", 0, 0),
    ("neither of the two versions", 1, 3),
];

#[test]
fn each_point_is_found_broken(rt: HostRuntime) {
    let whole = image(&rt, rt.alloc());
    for (rule, name, words) in BROKEN.as_slice() {
        check(&rt, rt.alloc(), &whole, words, Verdict::Broken(*rule), name);
    }
    for (name, w, word) in OTHERS.as_slice() {
        check(
            &rt,
            rt.alloc(),
            &whole,
            &[(*w, *word)],
            Verdict::Unformatted,
            name,
        );
    }
    // a row that wasn't claimed isn't all ones
    let mut bytes = whole;
    assert!(&rt; bytes.len() > 32);
    bytes[32] = 0;
    let found = judge(&rt, rt.alloc(), bytes);
    same(
        &rt,
        &found,
        &Found::Judged(Verdict::Broken(Rule::F)),
        "row that is not claimed is not all ones",
    );
}
