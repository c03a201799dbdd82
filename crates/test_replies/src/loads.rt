//! Loads and stores, failures of power, and lines that are refused.

use crate::played_run::{calm, play};
use crate::rows::{check_played, check_table, stops};
use crate::told::{holds, same};

const LOADS: &str = "\
~ an empty trace
$ run
$ plain
~ a first load
$ run
$ plain
> load 0;
< 0;
~ the last word
$ run
$ plain
> store 2047 18446744073709551615;load 2047;
< ok;18446744073709551615;
~ out of range
$ run
$ plain
> store 2048 1;load 4294967295;
< range;range;
~ blanks and comments
$ run
$ plain
> # day one;\tstore  007 1\r;;load 7
< ok;1;
~ a look
$ run
$ plain
> store 5 1;look 5;look 2048;
< ok;1;range;
~ power between stores
$ run
$ plain
> store 5 1;power;load 5;power;
< ok;restarted;1;restarted;
~ a cut store that isn't done
$ run
> store 5 1;cut 1 0;store 5 2;load 5;
< ok;armed;lost;restarted;1;
~ a cut store that is done
$ run
> store 5 1;cut 1 1;store 5 2;load 5;
< ok;armed;lost;restarted;2;
~ nothing fails on the plain machine
$ plain
> tick;cut 1 0;bad 1 0;store 5 1;stat;
< ok;armed;armed;ok;stat hits 0 misses 0 flushes 0 copies 0 moves 0 erases 0 swaps 0 cost 0;
";

#[test]
fn loads_and_stores_are_answered(rt: HostRuntime) {
    check_table(&rt, LOADS);
}

const REFUSED: &str = "\
~ a field too many
$ run
$ plain
> load 5 6;
ends 5 3 0 envy: line 1: wrong count of fields
~ no word of a line
$ run
$ plain
> jump 1;
ends 5 1 0 envy: line 1: unknown word
~ a number past 32 bits
$ run
$ plain
> load 4294967296;
ends 5 2 0 envy: line 1: bad number
~ a cut of no operation
$ run
$ plain
> cut 0 1;
ends 5 2 0 envy: line 1: bad number
~ a comment of 121 bytes
$ run
$ plain
> #########################################################################################################################
ends 5 4 0 envy: line 1: longer than 120 bytes
~ a field too few in the third line
$ run
$ plain
> store 5 1;load 5;store 5;
< ok;1;
ends 5 3 2 envy: line 3: wrong count of fields
";

#[test]
fn refused_lines_are_named(rt: HostRuntime) {
    check_table(&rt, REFUSED);
}

/// The SRAM word of the first place, on the usual board.
const TABLE: usize = 95;

/// The SRAM word with which the frames begin.
const FRAMES: u64 = 303;

#[test]
fn power_that_does_not_return_ends_the_run(rt: HostRuntime) {
    let given = calm("run --lives 0", b"store 5 1\npower\n");
    let told = play(&rt, &given);
    let ends = stops(6, 0, 2, "envy: power did not return after 2 lines");
    check_played(&rt, "no lives", &given, &told, ends, b"ok\n");
    // page 0 stands in a frame, whose sixth word was stored
    let place = told.word(TABLE).unwrap_or(0) % (1 << 32);
    same(&rt, place % 4, 2, "no lives", "place");
    let word = FRAMES + 32 * (place / 4) + 5;
    holds(&rt, told.word(word as usize) == Some(1), "no lives", "word");
}
