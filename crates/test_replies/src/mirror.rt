//! Traces over a mirrored pair of boards.

use crate::rows::check_table;

const LIVING: &str = "\
~ catching up
$ mirror
> store 5 1;power;store 5 2;load 5;
< ok;gone;ok;2;
> catch;
< woken;
* 0 64 catch;|copied %;
> catch;catch;
< joined;whole;
> side 1;power;load 5;
< ok;gone;2;
~ both sides cut
$ mirror
> store 5 1;power;side 1;power;load 5;
< ok;gone;ok;restarted;1;
~ waiting for a slot
$ mirror
> begin;put 0 5 7;power;catch;catch;commit 0;catch;
< tx 0;ok;gone;woken;waiting 0;ok;copied 0;
~ waiting for the lowest slot
$ mirror
> begin;begin;begin;commit 0;power;catch;catch;abort 1;catch;abort 2;catch;
< tx 0;tx 1;tx 2;ok;gone;woken;waiting 1;ok;waiting 2;ok;copied 0;
~ a store makes a copied page stale again
$ mirror --pages 4
> store 5 1;power;store 5 2;load 5;
< ok;gone;ok;2;
> catch;begin;put 0 40 7;catch;commit 0;
< woken;tx 0;ok;waiting 0;ok;
* 0 3 catch;|copied %;
> store 6 3;catch;catch;catch;catch;
< ok;copied 0;copied 3;joined;whole;
> side 1;power;load 5;load 6;load 40;
< ok;gone;2;3;7;
> side 0;power;load 40;catch;catch;
< ok;restarted;7;woken;copied 0;
~ a pair that is whole, and lines as of one board
$ mirror
> # one;;catch;load 2047;store 2048 1;look 5;commit 9;tick;catch;
< whole;0;range;0;closed;ok;whole;
";

#[test]
fn a_side_catches_up(rt: HostRuntime) {
    check_table(&rt, LIVING);
}

const FAILING: &str = "\
~ loads ask the first side alone
$ mirror
> load 0;load 1;load 128;load 0;stat;side 1;stat;
< 0;0;0;0;stat hits 1 misses 3 flushes 0 copies 0 moves 0 erases 0 swaps 0 cost 0;ok;
< stat hits 0 misses 0 flushes 0 copies 0 moves 0 erases 0 swaps 0 cost 0;
~ a copy that is cut
$ mirror
> store 5 1;power;catch;cut 1 0;catch;catch;catch;
< ok;gone;woken;armed;slipped;woken;copied 0;
~ a copy whose flush is bad
$ mirror
> store 5 1;power;catch;bad 1 3;
< ok;gone;woken;armed;
* 0 8 catch;|copied %;
> catch;catch;
< fault;copied 8;
~ a store that is bad on one side leaves the other
$ mirror
> bad 1 7;
< armed;
* 0 8 store @ 1;|ok;
> store 256 5;load 256;side 1;catch;power;load 256;
< ok;5;ok;woken;restarted;5;
~ a store that is bad on both sides
$ mirror
> bad 1 7;side 1;bad 1 7;
< armed;ok;armed;
* 0 8 store @ 1;|ok;
> store 256 5;load 256;catch;store 256 5;load 256;
< fault;0;whole;ok;5;
~ a store that is cut on both sides and not done
$ mirror
> store 5 1;cut 1 0;side 1;cut 1 0;store 5 2;load 5;catch;
< ok;armed;ok;armed;lost;restarted;1;woken;
~ a store that is cut on both sides and done on the second
$ mirror
> store 5 1;cut 1 0;side 1;cut 1 1;store 5 2;load 5;catch;
< ok;armed;ok;armed;lost;restarted;2;woken;
~ a store that is cut on the first side
$ mirror
> store 5 1;cut 1 0;store 5 2;load 5;catch;
< ok;armed;ok;2;woken;
~ a side that doesn't come back
$ mirror --lives 0
> store 5 1;power;catch;load 5;catch;
< ok;gone;dead;1;dead;
~ both sides without lives
$ mirror --lives 0
> store 5 1;power;side 1;power;
< ok;gone;ok;
ends 6 0 4 envy: power did not return after 4 lines
~ a store that is cut on both sides without lives
$ mirror --lives 0
> cut 1 0;side 1;cut 1 0;store 5 2;load 5;
< armed;ok;armed;lost;
ends 6 0 4 envy: power did not return after 4 lines
~ no side 2
$ mirror
> side 2;
ends 5 2 0 envy: line 1: bad number
~ a field after a catch
$ mirror
> catch;catch 1;
< whole;
ends 5 3 1 envy: line 2: wrong count of fields
";

#[test]
fn a_side_fails(rt: HostRuntime) {
    check_table(&rt, FAILING);
}

/// A failure that is planned for either board, and what becomes of the run.
const PLANNED: &str = "\
~ a bad operation on the first
$ mirror
> store 5 1;load 5;
ends 7 0 0 envy: bad flash operation
first bad 1 3
cuts 0
bads 1
cuts-2 0
bads-2 0
~ a bad operation on the second
$ mirror
> store 5 1;load 5;
ends 7 0 0 envy: bad flash operation
second bad 1 3
cuts 0
bads 0
cuts-2 0
bads-2 1
~ a cut of the first, which has no lives
$ mirror --lives 0
> store 5 1;load 5;
ends 6 0 0 envy: power did not return after 0 lines
first cut 5 2
cuts 1
bads 0
cuts-2 0
bads-2 0
~ a cut of the second, which has no lives
$ mirror --lives 0
> store 5 1;load 5;
ends 6 0 0 envy: power did not return after 0 lines
second cut 5 2
cuts 0
bads 0
cuts-2 1
bads-2 0
~ a cut of the first
$ mirror
> store 5 1;load 5;
< ok;1;
first cut 5 2
cuts 1
bads 0
cuts-2 0
bads-2 0
~ a cut of the second, whose one life serves
$ mirror --lives 1
> store 5 1;load 5;
< ok;1;
second cut 5 2
cuts 0
bads 0
cuts-2 1
bads-2 0
";

#[test]
fn either_board_may_fail_in_formatting(rt: HostRuntime) {
    check_table(&rt, PLANNED);
}
