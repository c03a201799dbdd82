//! Images whose board or sink fails.

use crate::played_run::{NO_ROOM, calm, play};
use crate::rows::check_behind;
use crate::told::same;
use std::alloc::Global;
use std::process::Abort;

/// The image of a board after this trace, and lines behind it.
pub(crate) fn image(
    rt: &(impl Abort + Alloc<A = Global>),
    command: &str,
    trace: &[u8],
    behind: &[u8],
) -> Vec<u8> {
    let mut told = play(rt, &calm(command, trace));
    same(rt, u64::from(told.status), 0, command, "status");
    same(rt, u64::from(told.why), 0, command, "why");
    told.written.extend_from_slice(behind).expect(rt, NO_ROOM);
    told.written
}

/// A failure that is planned, and what becomes of an image with two lines behind it. Installing erases 8 segments,
/// programs 128 rows and puts 559 words. In the row of the audit nothing is done to the board behind the image.
const PLANNED: &str = "\
~ the first erase is bad
$ audit
ends 11 0 0 envy: image could not be installed
first bad 1 3
cuts 0
~ the last row is bad
$ audit
ends 11 0 0 envy: image could not be installed
first bad 136 3
cuts 0
~ the first operation is cut
$ audit
ends 11 0 0 envy: image could not be installed
first cut 1 2
cuts 1
~ the last operation is cut
$ audit
ends 11 0 0 envy: image could not be installed
first cut 695 3
cuts 1
~ the first erase is bad
$ resume
ends 11 0 0 envy: image could not be installed
first bad 1 3
cuts 0
~ the last row is bad
$ resume
ends 11 0 0 envy: image could not be installed
first bad 136 3
cuts 0
~ the first operation is cut
$ resume
ends 11 0 0 envy: image could not be installed
first cut 1 2
cuts 1
~ the last operation is cut
$ resume
ends 11 0 0 envy: image could not be installed
first cut 695 3
cuts 1
~ nothing is done to the board behind the image
$ audit
< sound;
ends 0 0 0
first cut 696 2
cuts 0
~ a cut while the transaction is put back
$ resume
< 1;tx 0;
ends 0 0 2
first cut 696 2
cuts 1
~ a cut while the transaction is put back, and no lives
$ resume --lives 0
ends 6 0 0 envy: power did not return after 0 lines
first cut 696 2
cuts 1
";

#[test]
fn a_board_may_fail_under_an_image(rt: HostRuntime) {
    let behind = b"load 5\nbegin\n";
    let bytes = image(&rt, "save", b"store 5 1\nbegin\nput 0 5 2\n", behind);
    check_behind(&rt, PLANNED, &bytes);
}

/// A call of the sink that fails, and how a run over an image with two lines behind it ends then.
const FAILING: &str = "\
~ audit whose sink fails at call 1
$ audit
ends 4 0 0 envy: write fault after 0 lines
sink 1
~ audit whose sink fails at call 2
$ audit
< sound;
ends 4 0 0 envy: write fault after 0 lines
sink 2
~ resume whose sink fails at call 1
$ resume
ends 4 0 1 envy: write fault after 1 lines
sink 1
~ resume whose sink fails at call 2
$ resume
< 1;
ends 4 0 2 envy: write fault after 2 lines
sink 2
~ resume whose sink fails at call 3
$ resume
< 1;tx 0;
ends 4 0 2 envy: write fault after 2 lines
sink 3
";

#[test]
fn a_sink_may_fail_behind_an_image(rt: HostRuntime) {
    let bytes = image(&rt, "save", b"store 5 1\n", b"load 5\nbegin\n");
    check_behind(&rt, FAILING, &bytes);
}
