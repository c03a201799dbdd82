//! Words of a command line that are refused.

use crate::told::same;
use crate::words::check;
use envy_args::{WordsFault, read_words};
use std::alloc::Global;
use std::process::Abort;

// None of these is in the form.
const OTHER_FORMS: [&str; 67] = [
    "",
    "fly",
    "Run",
    "ru",
    "--rows 16",
    "help",
    "run run",
    "run 16",
    "run -",
    "run --rows",
    "run --rows=",
    "run --rows ",
    "run  --rows 16",
    "run --rows=16=16",
    "run --rows +16",
    "run --rows=-16",
    "run --rows -16",
    "run --rows 1e1",
    "run --rows 0x10",
    "run --rows sixteen",
    "run --rows --",
    "run --rows=--",
    "run --rows -- 16",
    "run -- --rows 16",
    "run -- --",
    "run --rows --shadows 16",
    "run --rows 16 16",
    "run --rows 16 --rows 16",
    "run --rows=16 --rows 17",
    "run --row 16",
    "run --ROWS 16",
    "run -rows 16",
    "run -r 16",
    "run rows 16",
    "run --=16",
    "run ---rows 16",
    "run 16--rows",
    "run --policy lifo",
    "run --policy=",
    "run --policy Greedy",
    "run --policy 1",
    "run --part greedy",
    "run --help",
    "run -h",
    "run --version",
    "run -V",
    "run --start 1",
    "run --lines 1",
    "run --every 1",
    "plain --lives 1",
    "gen --rows 16",
    "gen --lives 1",
    "tpca --lines 1",
    "save --start 1",
    "resume --rows 16",
    "resume --mark 4294967296",
    "resume --policy lifo",
    "audit --rows 16",
    "audit --lives 1",
    "map --rows 16",
    "run --hot 5",
    "index --pairs 1",
    "mirror --side 1",
    "gen --large 1",
    "index --large 1",
    "plain --large 0",
    "run --large 2",
];

// The first rule that fails is told.
const RULES: [(&str, u8); 50] = [
    ("run --segments 3", 1),
    ("run --segments=3 --pages 0 --mark 9", 1),
    ("run --rows 1", 2),
    ("run --pages 0", 3),
    ("run --frames 1", 4),
    ("run --entries 0", 5),
    ("run --pages 81", 6),
    ("run --segments 17 --rows 65536", 7),
    ("run --policy hybrid --part 8", 8),
    ("run --limit 0", 9),
    ("run --mark 9", 10),
    ("plain --mark 0", 10),
    ("tpca --transfers 1070", 11),
    ("tpca --branches 0", 11),
    ("tpca --shadows 4", 12),
    ("tpca --shadows 4 --transfers 1070", 11),
    ("tpca --mark 17 --shadows 4", 10),
    ("gen --pages 0", 3),
    ("gen --pages 1048577", 7),
    ("gen --hot 0 --share 10", 15),
    ("gen --hot 10 --share 100", 15),
    ("gen --stores 0", 15),
    ("gen --stores 100 --hot 5", 15),
    ("gen --hot 5", 16),
    ("gen --share 5", 16),
    ("gen --pages 0 --hot 0", 3),
    ("save --limit 0", 9),
    ("mirror --pages 0", 3),
    ("index --shadows 31", 13),
    ("index --pages 19", 14),
    ("index --pages 19 --shadows 31", 13),
    ("index --rows 1 --shadows 31", 2),
    ("run --segments 17 --rows 61681", 7),
    ("run --segments 17 --rows 61681 --large 0", 7),
    ("run --segments 257 --rows 65281", 7),
    ("run --segments 257 --rows 65281 --large 1", 17),
    ("save --segments 17 --rows 61681", 7),
    ("save --segments 17 --rows 61681 --large 0", 7),
    ("save --segments 257 --rows 65281", 7),
    ("save --segments 257 --rows 65281 --large 1", 17),
    ("mirror --segments 17 --rows 61681", 7),
    ("mirror --segments 17 --rows 61681 --large 0", 7),
    ("mirror --segments 257 --rows 65281", 7),
    ("mirror --segments 257 --rows 65281 --large 1", 17),
    ("tpca --segments 17 --rows 61681", 7),
    ("tpca --segments 17 --rows 61681 --large 0", 7),
    ("tpca --segments 257 --rows 65281", 7),
    ("tpca --segments 257 --rows 65281 --large 1", 17),
    ("plain --segments 17 --rows 61681", 7),
    ("index --segments 17 --rows 61681", 7),
];

/// Tests that each line is in another form, and that no words at all are.
fn check_forms(rt: &impl Abort, alloc: Global) {
    for line in OTHER_FORMS.as_slice() {
        check(rt, alloc, line, Err(WordsFault::Form));
    }
    same(
        rt,
        read_words(alloc, &[]),
        Err(WordsFault::Form),
        "no words",
    );
}

/// Tests the first rule that fails in each line.
fn check_rules(rt: &impl Abort, alloc: Global) {
    for row in RULES.as_slice() {
        let (line, rule) = *row;
        check(rt, alloc, line, Err(WordsFault::Setup(rule)));
    }
}

#[test]
fn words_are_refused(rt: HostRuntime) {
    check_forms(&rt, rt.alloc());
    check_rules(&rt, rt.alloc());
}
