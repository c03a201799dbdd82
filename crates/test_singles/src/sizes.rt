//! Sizes that a board may have, and records that an array has room for.

use crate::told::same_of;
use envy_array::Area;
use envy_base::{Shape, ShapeFault};

/// A shape of so many segments, rows, pages, shadows, frames and entries.
fn shape(sizes: &[u32; 6]) -> Shape {
    Shape {
        segments: sizes[0],
        rows: sizes[1],
        pages: sizes[2],
        shadows: sizes[3],
        frames: sizes[4],
        entries: sizes[5],
        reserves: 0,
        sums: 0,
    }
}

/// Sizes, and the first rule that they break.
type Row = ([u32; 6], Result<(), ShapeFault>);

const EDGES: [Row; 22] = [
    ([8, 16, 64, 16, 8, 4], Ok(())),
    ([3, 16, 1, 0, 8, 4], Err(ShapeFault::Segments)),
    ([4, 16, 16, 16, 8, 4], Ok(())),
    ([4096, 256, 64, 16, 8, 4], Ok(())),
    ([4097, 16, 64, 16, 8, 4], Err(ShapeFault::Segments)),
    ([8, 1, 1, 0, 8, 4], Err(ShapeFault::Rows)),
    ([8, 2, 12, 0, 8, 4], Ok(())),
    ([256, 65536, 64, 16, 8, 4], Ok(())),
    ([8, 65537, 64, 16, 8, 4], Err(ShapeFault::Rows)),
    ([8, 16, 0, 16, 8, 4], Err(ShapeFault::Pages)),
    ([8, 16, 1, 16, 8, 4], Ok(())),
    ([8, 16, 64, 16, 1, 4], Err(ShapeFault::Frames)),
    ([8, 16, 64, 16, 2, 4], Ok(())),
    ([8, 16, 64, 16, 65536, 4], Ok(())),
    ([8, 16, 64, 16, 65537, 4], Err(ShapeFault::Frames)),
    ([8, 16, 64, 16, 8, 0], Err(ShapeFault::Entries)),
    ([8, 16, 64, 16, 8, 1], Ok(())),
    ([8, 16, 64, 16, 8, 65536], Ok(())),
    ([8, 16, 64, 16, 8, 65537], Err(ShapeFault::Entries)),
    ([8, 16, 80, 16, 8, 4], Ok(())),
    ([8, 16, 81, 16, 8, 4], Err(ShapeFault::Share)),
    ([257, 65281, 64, 16, 8, 4], Err(ShapeFault::Total)),
];

#[test]
fn each_rule_holds_to_its_edge(rt: HostRuntime) {
    for (sizes, wanted) in EDGES.as_slice() {
        let shape = shape(sizes);
        same_of(&rt, &shape.check(), wanted, &shape);
    }
}

const MOST: u32 = u32::MAX;

/// Each breaks the rules behind its own too.
const FIRST: [([u32; 6], ShapeFault); 7] = [
    ([0, 0, 0, MOST, 0, 0], ShapeFault::Segments),
    ([4096, 0, 0, MOST, 0, 0], ShapeFault::Rows),
    ([4096, 65536, 0, MOST, 0, 0], ShapeFault::Pages),
    ([4096, 65536, MOST, MOST, 0, 0], ShapeFault::Frames),
    ([4096, 65536, MOST, MOST, 2, 0], ShapeFault::Entries),
    ([4096, 65536, MOST, MOST, 2, 1], ShapeFault::Share),
    ([4096, 65536, 1, 0, 2, 1], ShapeFault::Total),
];

#[test]
fn the_first_rule_that_fails_is_answered(rt: HostRuntime) {
    for (sizes, wanted) in FIRST.as_slice() {
        let shape = shape(sizes);
        same_of(&rt, &shape.check(), &Err(*wanted), &shape);
    }
}

/// At most all positions but three may be in reserve, and no board keeps sums yet. Both rules are asked right after that of
/// the segments.
#[test]
fn reserves_and_sums_are_asked_after_the_segments(rt: HostRuntime) {
    let asked = |segments, reserves, sums| Shape {
        reserves,
        sums,
        ..shape(&[segments, 0, 0, 0, 0, 0])
    };
    for (shape, wanted) in [
        (asked(3, 1, 1), ShapeFault::Segments),
        (asked(8, 5, 1), ShapeFault::Reserves),
        (asked(8, 4, 1), ShapeFault::Sums),
        (asked(8, 4, 0), ShapeFault::Rows),
    ] {
        same_of(&rt, &shape.check(), &Err(wanted), &shape);
    }
}

/// Branches, accounts and transfers, and whether their records fit 12,288 words. The balances of the first have 8,012 words,
/// and each transfer has 4.
const AREAS: [([u32; 3], bool); 6] = [
    ([1, 8000, 1000], true),
    ([1, 8000, 1069], true),
    ([1, 8000, 1070], false),
    ([0, 8000, 0], false),
    ([1, 0, 0], false),
    ([MOST, MOST, MOST], false),
];

#[test]
fn the_records_fit_to_the_last_word(rt: HostRuntime) {
    for (records, wanted) in AREAS.as_slice() {
        let area = Area {
            branches: records[0],
            accounts: records[1],
            transfers: records[2],
        };
        same_of(&rt, &area.fits(384), wanted, &area);
    }
}
