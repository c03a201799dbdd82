//! Boards with segments in reserve, which stand in for those whose erase is bad. The values are from a model that was
//! written apart from this program.

use crate::filled::{changed, put_pieces};
use crate::generated::written;
use crate::images::image;
use crate::played_run::NO_ROOM;
use crate::rows::{check_behind, check_table, parted};
use crate::told::{holds, same};
use std::alloc::Global;
use std::process::Abort;

/// Runs in which erases are bad. The small board has 3 positions in use and 2 in reserve.
const RUNS: &str = "\
~ one is retired
$ run --segments 6 --rows 2 --pages 4 --shadows 0 --frames 2 --entries 1 --reserves 2
> store 0 1;store 32 2;store 64 3;store 96 4;store 0 5;store 32 6;store 64 7;store 96 8;
< ok;ok;ok;ok;ok;ok;ok;ok;
> bad 1 0;store 0 9;load 0;load 32;load 64;load 96;stat;
< armed;ok;9;6;7;8;stat hits 1 misses 12 flushes 7 copies 0 moves 0 erases 1 swaps 0 cost 0;
~ two are retired, and no more
$ run --segments 6 --rows 2 --pages 4 --shadows 0 --frames 2 --entries 1 --reserves 2
> store 0 1;store 32 2;store 64 3;store 96 4;store 0 5;store 32 6;store 64 7;store 96 8;
< ok;ok;ok;ok;ok;ok;ok;ok;
> bad 1 0;store 0 9;store 32 10;bad 1 0;store 64 11;store 96 12;bad 1 0;store 0 13;store 0 13;
< armed;ok;ok;armed;ok;ok;armed;fault;ok;
> load 0;load 32;load 64;load 96;stat;
< 13;10;11;12;stat hits 2 misses 16 flushes 11 copies 0 moves 0 erases 3 swaps 0 cost 0;
~ a bad program retires none
$ run --segments 6 --rows 2 --pages 4 --shadows 0 --frames 2 --entries 1 --reserves 2
> store 0 1;store 32 2;store 64 3;store 96 4;store 0 5;store 32 6;store 64 7;store 96 8;
< ok;ok;ok;ok;ok;ok;ok;ok;
> bad 2 0;store 0 9;load 0;load 32;load 64;load 96;store 0 9;load 0;
< armed;fault;5;6;7;8;ok;9;
~ a part is above the positions in use
$ run --segments 6 --rows 2 --pages 4 --shadows 0 --frames 2 --entries 1 --reserves 2 --policy hybrid --part 5
> store 0 1;store 32 2;store 64 3;store 96 4;store 0 5;store 32 6;store 64 7;store 96 8;
< ok;ok;ok;ok;ok;ok;ok;ok;
~ pages that are parted by their lives
$ run --segments 6 --rows 2 --pages 4 --shadows 0 --frames 2 --entries 1 --reserves 2 --policy lifetime
> store 0 1;store 32 2;store 64 3;store 96 4;store 0 5;store 32 6;store 64 7;store 96 8;
< ok;ok;ok;ok;ok;ok;ok;ok;
> bad 1 0;store 0 9;store 32 10;bad 1 0;store 64 11;load 0;load 32;load 64;load 96;stat;
< armed;ok;ok;armed;ok;9;10;11;8;stat hits 0 misses 15 flushes 9 copies 0 moves 0 erases 2 swaps 0 cost 0;
~ a side of a pair retires one
$ mirror --segments 6 --rows 2 --pages 4 --shadows 0 --frames 2 --entries 1 --reserves 2
> side 1;store 0 1;store 32 2;store 64 3;store 96 4;store 0 5;store 32 6;store 64 7;store 96 8;
< ok;ok;ok;ok;ok;ok;ok;ok;ok;
> bad 1 0;store 0 9;power;store 32 10;catch;
< armed;ok;gone;ok;woken;
* 0 4 catch;|copied %;
> catch;load 0;load 32;load 64;load 96;side 0;power;load 0;load 32;load 64;load 96;
< joined;9;10;7;8;ok;gone;9;10;7;8;
~ the usual rows and pages
$ run --segments 10 --reserves 2
* 0 120 store @ %;|ok;
> bad 1 0;store 1792 120;stat;
< armed;ok;stat hits 0 misses 121 flushes 113 copies 0 moves 0 erases 1 swaps 0 cost 0;
";

#[test]
fn a_segment_in_reserve_stands_in(rt: HostRuntime) {
    check_table(&rt, RUNS);
}

/// Power that fails in a retirement: at the wear, the erase, the fill, the position or the job, before or after its put.
const CUTS: [&str; 10] = [
    "1 0", "1 1", "2 0", "2 1", "3 0", "3 1", "4 0", "4 1", "5 0", "5 1",
];

#[test]
fn power_may_fail_in_a_retirement(rt: HostRuntime) {
    for cut in CUTS.as_slice() {
        let row = format!(in rt.alloc();
            "~ cut {cut}
$ run --segments 6 --rows 2 --pages 4 --shadows 0 --frames 2 --entries 1 --policy fifo --mark 2 --reserves 2
> store 0 1;store 32 2;store 64 3;store 96 4;store 0 5;store 64 6;store 96 7;store 0 8;tick;tick;tick;tick;
< ok;ok;ok;ok;ok;ok;ok;ok;ok;ok;ok;ok;
> bad 1 0;cut {cut};tick;tick;load 0;load 32;load 64;load 96;
< armed;armed;lost;restarted;ok;8;2;6;7;
"
        )
        .expect(&rt, NO_ROOM);
        check_table(&rt, &row);
    }
}

/// Commands, the lines that they save a board after, and its segments.
const MAPS: &str = "\
~ one is retired
$ save --segments 6 --rows 2 --pages 4 --shadows 0 --frames 2 --entries 1 --reserves 2
> store 0 1;store 32 2;store 64 3;store 96 4;store 0 5;store 32 6;store 64 7;store 96 8;bad 1 0;store 0 9;
< 5,0,1,1,1,1,0;1,1,1,2,0,0,2;2,2,1,2,1,0,1;0,retired,2,2,0,0,2;4,reserve,1,0,0,2,0;3,spare,1,0,0,2,0;
~ two are retired
$ save --segments 6 --rows 2 --pages 4 --shadows 0 --frames 2 --entries 1 --reserves 2
> store 0 1;store 32 2;store 64 3;store 96 4;store 0 5;store 32 6;store 64 7;store 96 8;bad 1 0;store 0 9;
> store 32 10;bad 1 0;store 64 11;store 96 12;bad 1 0;store 0 13;store 0 13;
< 4,0,1,1,1,1,0;3,1,1,2,1,0,1;2,2,1,2,0,0,2;0,retired,2,2,0,0,2;1,retired,2,2,0,0,2;5,spare,2,2,0,0,2;
~ none is retired
$ save --segments 6 --rows 2 --pages 4 --shadows 0 --frames 2 --entries 1 --reserves 2
> store 0 1;store 32 2;store 64 3;store 96 4;store 0 5;store 32 6;store 64 7;store 96 8;bad 2 0;store 0 9;store 0 9;
< 5,0,1,2,1,0,1;1,1,1,2,0,0,2;2,2,1,2,1,0,1;3,reserve,1,0,0,2,0;4,reserve,1,0,0,2,0;0,spare,2,0,0,2,0;
~ power fails behind the position
$ save --segments 6 --rows 2 --pages 4 --shadows 0 --frames 2 --entries 1 --policy fifo --mark 2 --reserves 2
> store 0 1;store 32 2;store 64 3;store 96 4;store 0 5;store 64 6;store 96 7;store 0 8;tick;tick;tick;tick;
> bad 1 0;cut 4 1;tick;tick;
< 5,0,1,1,1,1,0;1,1,1,2,0,0,2;2,2,1,2,1,0,1;0,retired,2,2,0,0,2;4,reserve,1,0,0,2,0;3,spare,2,0,0,2,0;
~ power fails behind the erase
$ save --segments 6 --rows 2 --pages 4 --shadows 0 --frames 2 --entries 1 --policy fifo --mark 2 --reserves 2
> store 0 1;store 32 2;store 64 3;store 96 4;store 0 5;store 64 6;store 96 7;store 0 8;tick;tick;tick;tick;
> bad 1 0;cut 2 1;tick;tick;
< 5,0,1,1,1,1,0;1,1,1,2,0,0,2;2,2,1,2,1,0,1;3,reserve,1,0,0,2,0;4,reserve,1,0,0,2,0;0,spare,3,0,0,2,0;
~ the usual rows and pages
$ save --segments 10 --reserves 2
* 0 120 store @ %;|
> bad 1 0;store 1792 120;
< 9,0,1,1,1,15,0;1,1,1,16,0,0,16;2,2,1,16,0,0,16;3,3,1,16,7,0,9;4,4,1,16,16,0,0;5,5,1,16,16,0,0;6,6,1,16,16,0,0;
< 0,retired,2,16,0,0,16;8,reserve,1,0,0,16,0;7,spare,1,0,0,16,0;
";

/// The line before the segments.
const HEADING: &[u8] = b"segment,position,wear,fill,kept,free,dead\n";

/// The board that a row saves has the segments that the row says.
fn check_segments(rt: &(impl Abort + Alloc<A = Global>), row: &str) {
    let mut trace = Vec::new(rt.alloc());
    let mut segments = HEADING.to_vec(rt.alloc()).expect(rt, NO_ROOM);
    put_pieces(rt, row, &mut trace, &mut segments);
    for line in row.split('\n') {
        let (word, command) = parted(line, ' ');
        if word == "$" {
            let bytes = image(rt, command, &trace, b"");
            holds(
                rt,
                written(rt, "map", &bytes) == segments,
                command,
                "segments",
            );
        }
    }
}

#[test]
fn a_map_tells_segments_in_reserve(rt: HostRuntime) {
    for row in MAPS.split('~') {
        if !row.is_empty() {
            check_segments(&rt, row);
        }
    }
}

/// The command that saves the image of a small board with two segments in reserve, of this many bytes, and its lines.
const SAVED: &str =
    "save --segments 6 --rows 2 --pages 4 --shadows 0 --frames 2 --entries 1 --reserves 2";

/// The same without them.
const WITHOUT: &str = "save --segments 6 --rows 2 --pages 4 --shadows 0 --frames 2 --entries 1";

const SIZE: u64 = 4480;

const EIGHT: &[u8] =
    b"store 0 1\nstore 32 2\nstore 64 3\nstore 96 4\nstore 0 5\nstore 32 6\nstore 64 7\nstore 96 8\n";

/// How this image is judged. Its rows begin at byte 40, and its words at byte 3112.
const JUDGED: &str = "\
~ it is sound
$ audit
< sound;
ends 0 0 0
taken 4480
~ it is resumed
$ resume
> load 0;load 32;load 64;load 96;
< 5;6;7;8;
ends 0 0 4
~ its head has neither reserves nor sums, or too many of either
$ audit
$ resume
byte 32 0
byte 32 3
byte 36 2
ends 10 3 0 envy: image has a bad shape
boards 0
~ another mark
$ audit
$ resume
byte 7 51
ends 10 2 0 envy: not an image
boards 0
~ its last byte is missing
$ audit
$ resume
left 4479 4479
ends 10 1 0 envy: image ends early
~ its map has a version that isn't of its shape
$ audit
byte 3120 2
byte 3120 1
byte 3120 4
< unformatted;
ends 0 0 0
~ its map has other reserves, or sums, or a back beyond 32 bits
$ audit
byte 3160 1
byte 3160 3
byte 3168 1
byte 3860 1
< unsound a;
ends 0 0 0
~ a bit of a free row
$ audit
byte 1576 127
< unsound f;
ends 0 0 0
";

/// A position in use and one in reserve have exchanged their segments.
const EXCHANGED: &str = "\
~ a kept row in a segment in reserve
$ audit
< unsound m;
ends 0 0 0
~ it isn't resumed
$ resume
ends 10 5 0 envy: image is not sound
";

/// A map of the third version behind the first mark, which is that of a board with neither reserves nor sums.
const OTHER_VERSION: &str = "\
~ the third version behind the first mark
$ audit
byte 3112 3
< unformatted;
ends 0 0 0
";

#[test]
fn an_image_keeps_reserves(rt: HostRuntime) {
    let bytes = image(&rt, SAVED, EIGHT, b"");
    same(&rt, bytes.len() as u64, SIZE, SAVED, "length");
    check_behind(&rt, JUDGED, &bytes);
    let half = changed(&rt, &bytes, "3800 3");
    check_behind(&rt, EXCHANGED, &changed(&rt, &half, "3808 2"));
    let plain = image(&rt, WITHOUT, EIGHT, b"");
    check_behind(&rt, OTHER_VERSION, &plain);
}

/// The rules, in their order, and words that don't take the option.
const REFUSED: &str = "\
~ more than the segments less four
$ run --reserves 5
$ run --reserves 5 --rows 1
$ save --reserves 4294967295
ends 2 18 0 envy: reserves must be at most segments - 4
~ segments come first
$ run --segments 3 --reserves 9
ends 2 1 0 envy: segments must be 4 to 4096
~ the rows of segments in reserve are no share
$ run --reserves 2
$ run --reserves 4
ends 2 6 0 envy: pages and shadows exceed the share
~ a part is at most the segments less one
$ run --policy hybrid --part 8 --reserves 1
ends 2 8 0 envy: part must be 1 to segments less 1
~ words that don't take it
$ plain --reserves 0
$ gen --reserves 0
$ resume --reserves 1
$ audit --reserves 1
$ map --reserves 1
$ run --sums 0
$ run --reserves 4294967296
ends 2 0 0 envy: words not understood
";

#[test]
fn reserves_are_ruled(rt: HostRuntime) {
    check_table(&rt, REFUSED);
}
