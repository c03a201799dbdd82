//! Loads of transfers, and their reports. Sums and counters were made with an independent program, from the rules of
//! the load, the policies and the order of device operations.

use crate::filled::{put_number, put_text};
use crate::played_run::{Given, NO_ROOM, Told, calm, play};
use crate::rows::{check_run, check_table, first_lines, number_of, parted, stops};
use crate::told::{holds, same};
use std::alloc::Global;
use std::process::Abort;

/// The first six lines of the report on a thousand transfers.
pub(crate) const SUMS: &str =
    "transfers 1000\nbranches -37333876\ntellers -37333876\naccounts -37333876\nhistory -37333876\ndeltas -37333876\n";

/// The report on no transfers.
const NONE: &str = "\
transfers 0
branches 0
tellers 0
accounts 0
history 0
deltas 0
cuts 0
stat hits 0 misses 0 flushes 0 copies 0 moves 0 erases 0 swaps 0 cost 0
";

/// The counters of a thousand transfers under `lifetime`, where power fails before each seventh.
const FORGETFUL: &str =
    "stat hits 9914 misses 1711 flushes 2996 copies 1954 moves 0 erases 149 swaps 0 cost 65\n";

// in the last row the first transfer is cut
const REPORTS: &str = "\
~ a thousand transfers, and greedy by default
$ tpca
$ tpca --policy greedy --every 0
> load 0;
< transfers 1000;branches -37333876;tellers -37333876;accounts -37333876;history -37333876;
< deltas -37333876;
< cuts 0;stat hits 9695 misses 1305 flushes 2989 copies 2454 moves 0 erases 155 swaps 0 cost 82;
ends 0 0 0
taken 0
~ a load whose power fails
$ tpca --every=7
< transfers 1000;branches -37333876;tellers -37333876;accounts -37333876;history -37333876;
< deltas -37333876;
< cuts 143;stat hits 9916 misses 1731 flushes 3002 copies 2548 moves 0 erases 168 swaps 0 cost 84;
ends 0 0 0
taken 0
~ no transfers
$ tpca --transfers 0
< transfers 0;branches 0;tellers 0;accounts 0;history 0;deltas 0;cuts 0;
< stat hits 0 misses 0 flushes 0 copies 0 moves 0 erases 0 swaps 0 cost 0;
ends 0 0 0
taken 0
~ no lives
$ tpca --transfers 1 --every 1 --lives 0
ends 6 0 0 envy: power did not return after 0 lines
";

/// Loads that are done under the other policies.
const OF_POLICIES: &str = "\
~ under first in, first out
$ tpca --policy fifo
$ tpca --policy fifo --every 0
< transfers 1000;branches -37333876;tellers -37333876;accounts -37333876;history -37333876;
< deltas -37333876;
< cuts 0;stat hits 9695 misses 1305 flushes 2990 copies 2606 moves 0 erases 160 swaps 0 cost 87;
ends 0 0 0
taken 0
~ under locality
$ tpca --policy locality
$ tpca --policy locality --every 0
< transfers 1000;branches -37333876;tellers -37333876;accounts -37333876;history -37333876;
< deltas -37333876;
< cuts 0;stat hits 9695 misses 1305 flushes 2993 copies 4927 moves 128 erases 238 swaps 0 cost 168;
ends 0 0 0
taken 0
~ under the hybrid
$ tpca --policy hybrid
$ tpca --policy hybrid --every 0
< transfers 1000;branches -37333876;tellers -37333876;accounts -37333876;history -37333876;
< deltas -37333876;
< cuts 0;stat hits 9695 misses 1305 flushes 2994 copies 5959 moves 134 erases 270 swaps 0 cost 203;
ends 0 0 0
taken 0
~ where pages are parted by their lives
$ tpca --policy lifetime
$ tpca --policy lifetime --part 0
< transfers 1000;branches -37333876;tellers -37333876;accounts -37333876;history -37333876;
< deltas -37333876;
< cuts 0;stat hits 9695 misses 1305 flushes 2990 copies 2049 moves 0 erases 143 swaps 0 cost 68;
ends 0 0 0
taken 0
";

#[test]
fn counters_are_those_of_the_policy(rt: HostRuntime) {
    check_table(&rt, OF_POLICIES);
}

#[test]
fn transfers_are_reported(rt: HostRuntime) {
    check_table(&rt, REPORTS);
}

/// The report on a thousand transfers up to the first words behind the cuts.
fn report_of(rt: &(impl Abort + Alloc<A = Global>), cuts: u64, behind: &str) -> Vec<u8> {
    let mut report = SUMS.as_bytes().to_vec(rt.alloc()).expect(rt, NO_ROOM);
    put_text(rt, &mut report, b"cuts ");
    put_number(rt, &mut report, cuts);
    put_text(rt, &mut report, b"\n");
    put_text(rt, &mut report, behind.as_bytes());
    report
}

/// A run of this command did all, power failed in it, and its report begins so.
fn check_report(rt: &(impl Abort + Alloc<A = Global>), command: &str, told: &Told, behind: &str) {
    same(rt, u64::from(told.status), 0, command, "status");
    // on this board power fails nowhere else, and it returned each time
    let cuts = told.first.cuts;
    holds(rt, cuts > 0 && told.boards > 0, command, "cuts");
    let front = report_of(rt, cuts, behind);
    holds(rt, told.written.starts_with(&front), command, "report");
}

// What lives are noted is forgotten at each restart. How often power fails is read off the board.
#[test]
fn lives_are_forgotten_where_power_fails(rt: HostRuntime) {
    let command = "tpca --policy lifetime --every 7";
    let told = play(&rt, &calm(command, b""));
    check_report(&rt, command, &told, FORGETFUL);
    let count = report_of(&rt, told.first.cuts, FORGETFUL).len();
    holds(&rt, told.written.len() == count, command, "report");
}

/// The loads under each policy whose power fails.
const FAILING: &str = "\
tpca --every=7 --policy greedy
tpca --every=7 --policy fifo
tpca --every=7 --policy locality
tpca --every=7 --policy hybrid
tpca --every=7 --policy lifetime";

#[test]
fn sums_stay_where_power_fails(rt: HostRuntime) {
    for command in FAILING.split('\n') {
        let told = play(&rt, &calm(command, b""));
        check_report(&rt, command, &told, "stat hits ");
    }
}

// The ninth call is the flush. A line and its newline are one write.
#[test]
fn each_write_of_a_report_may_fail(rt: HostRuntime) {
    let ends = stops(4, 0, 0, "envy: write fault after 0 lines");
    for call in 1..10_u64 {
        let given = Given {
            sink_fails: call,
            ..calm("tpca --transfers 0", b"")
        };
        let front = first_lines(NONE.as_bytes(), call - 1);
        check_run(&rt, "a failing write", &given, ends, front);
    }
}

/// A bad operation, and the first word of SRAM then, which on a formatted board is the mark. Formatting makes 16
/// operations of flash, so that the hundredth comes in the load.
const BAD_AT: &str = "\
~ a bad operation at 1
$ tpca
ends 7 0 0 envy: bad flash operation
first bad 1 3
word 0
bads 1
~ a bad operation at 100
$ tpca
ends 7 0 0 envy: bad flash operation
first bad 100 3
word 7299867124884591432
bads 1
";

#[test]
fn a_bad_operation_is_not_reported(rt: HostRuntime) {
    check_table(&rt, BAD_AT);
}

/// A load, and the cut that was planned last: at which operation, and the number from which it was drawn.
const CUTS: &str = "\
tpca --every 7 --transfers 1:1 0
tpca --every 7 --transfers 7:1 0
tpca --every 7 --transfers 8:260 7
tpca --every 7 --transfers 15:7 14";

// Thirty-seven times 7 is 259, and times 14 it is 518, which is 6 modulo 512.
#[test]
fn a_cut_is_planned_at_the_number_of_the_transfer(rt: HostRuntime) {
    for row in CUTS.split('\n') {
        let (command, cut) = parted(row, ':');
        let (k, g) = parted(cut, ' ');
        let (last, drawn) = play(&rt, &calm(command, b"")).first.last_cut;
        same(&rt, u64::from(last), number_of(&rt, k), command, "last cut");
        same(
            &rt,
            drawn,
            number_of(&rt, g),
            command,
            "last cut drawn from",
        );
    }
}
