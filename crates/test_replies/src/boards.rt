//! What is seen of the board: how often it is read, and failures while it is formatted or restarted.

use crate::rows::{check_row, check_table};
use crate::told::same;

/// A page that is stored and then loaded so often.
const FEWER: &str = " a hundred loads\n$ run\n> store 0 1;\n< ok;\n* 0 100 load 0;|1;\n";

const MORE: &str = " two hundred loads\n$ run\n> store 0 1;\n< ok;\n* 0 200 load 0;|1;\n";

#[test]
fn a_load_that_hits_a_frame_makes_one_read(rt: HostRuntime) {
    let fewer = check_row(&rt, FEWER, b"");
    let more = check_row(&rt, MORE, b"");
    same(&rt, more, fewer.saturating_add(100), "reads", "load 0");
}

/// Traces where power fails once in formatting, and how often it fails in all.
const CUT_IN_FORMATTING: &str = "\
~ cut once, drawn from 2
$ run
> begin;begin;put 0 5 1;store 6 9;put 1 7 9;store 32 9;
< tx 0;tx 1;ok;held 0;held 0;ok;
first cut 5 2
cuts 1
~ cut once, drawn from 3
$ run
> begin;begin;put 0 5 1;store 6 9;put 1 7 9;store 32 9;
< tx 0;tx 1;ok;held 0;held 0;ok;
first cut 5 3
cuts 1
~ cut twice, drawn from 2
$ run
> store 5 1;cut 1 0;store 5 2;load 5;
< ok;armed;lost;restarted;1;
first cut 5 2
cuts 2
~ cut twice, drawn from 3
$ run
> store 5 1;cut 1 0;store 5 2;load 5;
< ok;armed;lost;restarted;1;
first cut 5 3
cuts 2
";

#[test]
fn a_cut_while_formatting_is_not_told(rt: HostRuntime) {
    check_table(&rt, CUT_IN_FORMATTING);
}

/// Power fails by hand, and by the plan in the restart.
const CUT_IN_RESTARTING: &str = "\
~ cut in restarting
$ run
> store 5 1;begin;put 0 5 2;cut 1 0;power;load 5;store 5 3;load 5;
< ok;tx 0;ok;armed;restarted;1;ok;3;
cuts 2
";

#[test]
fn a_cut_while_restarting_is_not_told(rt: HostRuntime) {
    check_table(&rt, CUT_IN_RESTARTING);
}

/// Commands whose formatting fails: the first word of SRAM then, and how many operations were bad.
const FAILURES: &str = "\
~ run, whose formatting is bad
$ run
> store 5 1;
ends 7 0 0 envy: bad flash operation
taken 0
first bad 1 3
word 0
bads 1
~ index, whose formatting is bad
$ index
> store 5 1;
ends 7 0 0 envy: bad flash operation
taken 0
first bad 1 3
word 0
bads 1
~ save, whose formatting is bad
$ save
> store 5 1;
ends 7 0 0 envy: bad flash operation
taken 0
first bad 1 3
word 0
bads 1
~ run, whose formatting is cut
$ run --lives 0
> store 5 1;
ends 6 0 0 envy: power did not return after 0 lines
taken 0
first cut 5 2
word 0
bads 0
~ index, whose formatting is cut
$ index --lives 0
> store 5 1;
ends 6 0 0 envy: power did not return after 0 lines
taken 0
first cut 5 2
word 0
bads 0
~ save, whose formatting is cut
$ save --lives 0
> store 5 1;
ends 6 0 0 envy: power did not return after 0 lines
taken 0
first cut 5 2
word 0
bads 0
";

#[test]
fn failures_while_formatting_end_the_run(rt: HostRuntime) {
    check_table(&rt, FAILURES);
}
