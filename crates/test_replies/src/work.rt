//! Pages that go out to flash, cleaning, and wear: what is counted of them. A small array stores into its pages in turn
//! before it is cleaned; greedy and locality choose alike there.

use crate::rows::check_table;

const FLUSHES: &str = "\
~ hits of the cache
$ run
> load 0;load 1;load 128;load 0;stat;
< 0;0;0;0;stat hits 1 misses 3 flushes 0 copies 0 moves 0 erases 0 swaps 0 cost 0;
~ a first flush
$ run
> store 0 10;store 32 11;store 64 12;store 96 13;store 128 14;store 160 15;store 192 16;store 224 17;
> store 256 18;
< ok;ok;ok;ok;ok;ok;ok;ok;ok;
> load 0;stat;
< 10;stat hits 0 misses 10 flushes 1 copies 0 moves 0 erases 0 swaps 0 cost 0;
~ ten rounds of stores
$ run
* 0 640 store @ %;|ok;
* 576 64 load @;|%;
> stat;
< stat hits 0 misses 704 flushes 632 copies 0 moves 0 erases 33 swaps 0 cost 0;
~ a bad flush
$ run
* 0 8 store @ 1;|ok;
> bad 1 7;store 256 5;load 256;store 256 5;load 256;stat;
< armed;fault;0;ok;5;stat hits 3 misses 9 flushes 2 copies 0 moves 0 erases 0 swaps 0 cost 0;
";

#[test]
fn flushes_are_counted(rt: HostRuntime) {
    check_table(&rt, FLUSHES);
}

const CLEANINGS: &str = "\
~ a small array is cleaned with nothing to copy
$ run --segments 4 --rows 4 --pages 7 --shadows 1 --frames 2 --policy greedy
$ run --segments 4 --rows 4 --pages 7 --shadows 1 --frames 2 --policy locality
> store 0 0;store 32 1;store 64 2;store 96 3;store 128 4;store 160 5;store 192 6;store 128 7;store 160 8;
> store 192 9;store 128 10;store 160 11;store 192 12;store 0 13;
< ok;ok;ok;ok;ok;ok;ok;ok;ok;ok;ok;ok;ok;ok;
> store 32 14;stat;
< ok;stat hits 6 misses 9 flushes 13 copies 0 moves 0 erases 1 swaps 0 cost 0;
~ a small array is cleaned in turn
$ run --segments 4 --rows 4 --pages 7 --shadows 1 --frames 2 --policy fifo
> store 0 0;store 32 1;store 64 2;store 96 3;store 128 4;store 160 5;store 192 6;store 128 7;store 160 8;
> store 192 9;store 128 10;store 160 11;store 192 12;store 0 13;
< ok;ok;ok;ok;ok;ok;ok;ok;ok;ok;ok;ok;ok;ok;
> store 32 14;stat;
< ok;stat hits 6 misses 9 flushes 13 copies 3 moves 0 erases 1 swaps 0 cost 23;
~ a cleaning is cut twenty times
$ run --segments 4 --rows 4 --pages 7 --shadows 1 --frames 2 --policy fifo
> store 0 0;store 32 1;store 64 2;store 96 3;store 128 4;store 160 5;store 192 6;store 128 7;store 160 8;
> store 192 9;store 128 10;store 160 11;store 192 12;store 0 13;
< ok;ok;ok;ok;ok;ok;ok;ok;ok;ok;ok;ok;ok;ok;
* 0 20 tick;cut 4 %;tick;tick;|ok;armed;lost;restarted;ok;
> load 0;load 32;load 64;load 96;load 128;load 160;load 192;
< 13;1;2;3;10;11;12;
> stat;
< stat hits 6 misses 15 flushes 12 copies 20 moves 0 erases 20 swaps 0 cost 166;
~ a bad erase is done again
$ run --segments 4 --rows 4 --pages 7 --shadows 1 --frames 2 --policy fifo
> store 0 0;store 32 1;store 64 2;store 96 3;store 128 4;store 160 5;store 192 6;store 128 7;store 160 8;
> store 192 9;store 128 10;store 160 11;store 192 12;store 0 13;
< ok;ok;ok;ok;ok;ok;ok;ok;ok;ok;ok;ok;ok;ok;
* 0 6 tick;|ok;
> bad 1 5;tick;tick;
< armed;fault;ok;
> stat;
< stat hits 6 misses 8 flushes 12 copies 3 moves 0 erases 2 swaps 0 cost 25;
~ after a bad copy the target is erased
$ run --segments 4 --rows 4 --pages 7 --shadows 1 --frames 2 --policy fifo
> store 0 0;store 32 1;store 64 2;store 96 3;store 128 4;store 160 5;store 192 6;store 128 7;store 160 8;
> store 192 9;store 128 10;store 160 11;store 192 12;store 0 13;
< ok;ok;ok;ok;ok;ok;ok;ok;ok;ok;ok;ok;ok;ok;
> tick;bad 1 5;tick;tick;
< ok;armed;fault;ok;
> stat;
< stat hits 6 misses 8 flushes 12 copies 1 moves 0 erases 1 swaps 0 cost 8;
";

#[test]
fn cleanings_are_counted(rt: HostRuntime) {
    check_table(&rt, CLEANINGS);
}

/// The smallest array that swaps, and the small array whose cold page moves.
const WEAR: &str = "\
~ the worn and the young change places
$ run --segments 4 --rows 2 --pages 2 --shadows 0 --frames 2 --mark 1 --limit 1
* 1 6 store 0 %;tick;|ok;ok;
> store 0 7;tick;tick;tick;tick;tick;store 0 8;tick;
< ok;ok;ok;ok;ok;ok;ok;ok;
> store 0 9;tick;tick;tick;tick;tick;store 0 10;tick;
< ok;ok;ok;ok;ok;ok;ok;ok;
> store 0 11;tick;tick;tick;tick;tick;store 0 12;tick;
< ok;ok;ok;ok;ok;ok;ok;ok;
> store 0 13;
< ok;
* 0 19 tick;|ok;
> load 0;stat;
< 13;stat hits 13 misses 1 flushes 13 copies 2 moves 0 erases 7 swaps 1 cost 15;
~ a cold page moves to the neighbour in a store
$ run --segments 4 --rows 4 --pages 7 --shadows 1 --frames 2 --mark 1 --policy locality
> store 160 1;tick;
< ok;ok;
* 2 3 store 192 %;tick;|ok;ok;
> store 192 5;store 0 6;store 32 7;load 160;load 192;
< ok;ok;ok;1;5;
> stat;
< stat hits 4 misses 5 flushes 5 copies 0 moves 1 erases 1 swaps 0 cost 20;
~ a cold page moves to the neighbour in a tick
$ run --segments 4 --rows 4 --pages 7 --shadows 1 --frames 2 --mark 1 --policy locality
> store 160 1;tick;
< ok;ok;
* 2 3 store 192 %;tick;|ok;ok;
> store 192 5;
< ok;
* 0 6 tick;|ok;
> load 160;load 192;
< 1;5;
> stat;
< stat hits 5 misses 2 flushes 5 copies 0 moves 1 erases 1 swaps 0 cost 20;
";

#[test]
fn pages_and_segments_change_places(rt: HostRuntime) {
    check_table(&rt, WEAR);
}
