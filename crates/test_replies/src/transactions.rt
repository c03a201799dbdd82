//! Transactions: what is held, what a commit keeps, and what a failure of power takes back.

use crate::rows::check_table;

const ROWS: &str = "\
~ an abort of an absent page
$ run
$ plain
> begin;put 0 5 7;load 5;abort 0;load 5;
< tx 0;ok;7;ok;0;
~ an abort of a stored page
$ run
$ plain
> store 5 1;begin;put 0 5 2;put 0 5 3;abort 0;load 5;
< ok;tx 0;ok;ok;ok;1;
~ a held page
$ run
$ plain
> begin;begin;put 0 5 1;store 6 9;put 1 7 9;store 32 9;
< tx 0;tx 1;ok;held 0;held 0;ok;
~ a committed word
$ run
$ plain
> store 5 1;begin;put 0 5 2;look 5;load 5;put 0 6 9;look 6;commit 0;look 5;look 2048;
< ok;tx 0;ok;1;2;ok;0;ok;2;range;
~ full and closed
$ run
$ plain
> begin;
< tx 0;
* 0 16 put 0 @ 1;|ok;
> put 0 512 1;put 0 0 2;store 640 1;commit 0;put 0 512 1;
< full;ok;ok;ok;closed;
~ busy and the lowest slot
$ run
$ plain
* 0 64 begin;|tx %;
> begin;commit 3;begin;
< busy;ok;tx 3;
~ closed slots
$ run
$ plain
> commit 9;begin;commit 0;commit 0;put 16 0 1;abort 255;
< closed;tx 0;ok;closed;closed;closed;
~ a restart puts back
$ run
$ plain
> store 5 1;begin;put 0 5 2;power;load 5;put 0 5 3;
< ok;tx 0;ok;restarted;1;closed;
~ a cut commit that isn't done
$ run
> store 5 1;store 40 1;begin;put 0 5 2;put 0 40 2;cut 1 0;commit 0;load 5;load 40;
< ok;ok;tx 0;ok;ok;armed;lost;restarted;1;1;
~ a cut commit that is done
$ run
> store 5 1;store 40 1;begin;put 0 5 2;put 0 40 2;cut 1 1;commit 0;load 5;load 40;
< ok;ok;tx 0;ok;ok;armed;lost;restarted;2;2;
";

#[test]
fn transactions_are_answered(rt: HostRuntime) {
    check_table(&rt, ROWS);
}
