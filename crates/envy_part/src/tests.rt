ghost use Rattle.std.specs.Prelude.{None};

use super::*;
use crate::{orders, rows};
use envy_base::Shape;

const SHAPE: Shape = Shape {
    segments: 4,
    rows: 2,
    pages: 4,
    shadows: 0,
    frames: 2,
    entries: 1,
    reserves: 0,
    sums: 0,
};

/// How a port carries out an order.
#[derive(Clone, Copy, Debug, PartialEq, Eq)]
enum Manner {
    Right,
    // nothing happens
    Bad,
    // the order before this one happens
    Late,
    // the first half happens
    Half,
    // it happens to the next word of the row, or to all rows but the last
    Elsewhere,
    // it happens, and the port notes that it went wrong
    ToldBad,
    // bits are set that were clear
    Upward,
}

/// A port that carries out orders over plain memory in one of these manners.
#[derive(Drop)]
struct Fake {
    manner: Manner,
    before: [u8; 256],
    told_bad: bool,
}

impl Fake {
    fn new(manner: Manner) -> Fake {
        Fake {
            manner,
            before: [0xFF; 256],
            told_bad: false,
        }
    }
}

// Clears the bits of the first so many bytes of a page, so many bytes further on in the row.
fn clear(row: &mut [u8; 256], page: &[u8; 256], count: usize, shift: usize) {
    for i in 0..count.min(256) {
        let at = (i + shift % 256) % 256;
        row[at] &= page[i];
    }
}

impl Port for Fake {
    ghost orders = { λ _. None };

    fn program(&mut self, row: &mut [u8; 256], page: &[u8; 256]) {
        match self.manner {
            Manner::Right => clear(row, page, 256, 0),
            Manner::Bad => {}
            Manner::Late => {
                clear(row, &self.before, 256, 0);
                self.before = *page;
            }
            Manner::Half => clear(row, page, 128, 0),
            Manner::Elsewhere => clear(row, page, 256, 8),
            Manner::ToldBad => {
                clear(row, page, 256, 0);
                self.told_bad = true;
            }
            Manner::Upward => *row = [0xFF; 256],
        }
    }

    fn erase(&mut self, rows: &mut [[u8; 256]]) {
        let most = rows.len();
        let count = match self.manner {
            Manner::Right | Manner::ToldBad | Manner::Upward => most,
            Manner::Bad | Manner::Late => 0,
            Manner::Half => most / 2,
            Manner::Elsewhere => most - most.min(1),
        };
        for q in 0..count {
            rows[q] = [0xFF; 256];
        }
    }

    fn barrier(&mut self, _word: &u64) {}
}

// The page that is ordered: its words are neither alike nor all ones.
fn page() -> [u64; 32] {
    let mut page = [3; 32];
    page[31] = 5;
    page
}

// Whether the program of an erased row is found done, and whether the row is the page then.
fn program_by(manner: Manner) -> (bool, bool) {
    let mut port = Fake::new(manner);
    let mut row = [0xFF; 256];
    let done = orders::program(&mut port, &mut row, &page());
    (done, row == rows::bytes_of(&page()))
}

#[test]
fn a_program_is_done_where_its_row_is_the_page(rt: HostRuntime) {
    let table = [
        (Manner::Right, true),
        (Manner::ToldBad, true),
        (Manner::Bad, false),
        (Manner::Late, false),
        (Manner::Half, false),
        (Manner::Elsewhere, false),
        (Manner::Upward, false),
    ];
    for (manner, done) in table {
        assert_eq!(rt; program_by(manner), (done, done), "{manner:?}");
    }
}

// Whether the erase of four rows of zeros is found done, and whether all of them are ones then.
fn erase_by(manner: Manner) -> (bool, bool) {
    let mut port = Fake::new(manner);
    let mut rows = [[0; 256]; 4];
    let done = orders::erase(&mut port, &mut rows);
    (done, rows == [[0xFF; 256]; 4])
}

#[test]
fn an_erase_is_done_where_each_row_is_ones(rt: HostRuntime) {
    let table = [
        (Manner::Right, true),
        (Manner::ToldBad, true),
        (Manner::Bad, false),
        (Manner::Late, false),
        (Manner::Half, false),
        (Manner::Elsewhere, false),
    ];
    for (manner, done) in table {
        assert_eq!(rt; erase_by(manner), (done, done), "{manner:?}");
    }
}

fn places(flash: u64, flash_bytes: u64, sram: u64, sram_bytes: u64) -> Places {
    Places {
        flash,
        flash_bytes,
        sram,
        sram_bytes,
    }
}

// Whether a board of the shape may stand there.
fn checked(places: Places) -> Option<Result<(), PlaceFault>> {
    if SHAPE.check().is_err() {
        return None;
    }
    Some(places.check(&SHAPE))
}

#[test]
fn places_are_refused_by_their_first_fault(rt: HostRuntime) {
    let top = u64::MAX - 2047;
    let table = [
        (places(0x1000, 2048, 0x1800, 1288), Ok(())),
        (places(0x1800, 2048, 0x1000, 1288), Ok(())),
        (
            places(0x1008, 2048, 0x4000, 1288),
            Err(PlaceFault::FlashAddress),
        ),
        (places(0, 2048, 0x4000, 1288), Err(PlaceFault::FlashAddress)),
        (
            places(0x1000, 2048, 0x4004, 1288),
            Err(PlaceFault::SramAddress),
        ),
        (places(0x1000, 2048, 0, 1288), Err(PlaceFault::SramAddress)),
        (
            places(0x1000, 2304, 0x4000, 1288),
            Err(PlaceFault::FlashSize),
        ),
        (
            places(0x1000, 2048, 0x4000, 1280),
            Err(PlaceFault::SramSize),
        ),
        (places(top, 2048, 0x4000, 1288), Err(PlaceFault::Past)),
        (places(0x1000, 2048, 0x17F8, 1288), Err(PlaceFault::Overlap)),
        (places(0x1800, 2048, 0x1400, 1288), Err(PlaceFault::Overlap)),
    ];
    for (places, answer) in table {
        assert_eq!(rt; checked(places), Some(answer), "{places:?}");
    }
}
