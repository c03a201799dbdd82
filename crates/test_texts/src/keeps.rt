//! What the words behind `keep` are read as.

use crate::told::{same, same_bytes};
use crate::words::split;
use envy_args::{KeepOptions, Sizes, WordsFault, read_keep};
use envy_policy::Policy;
use std::alloc::Global;
use std::process::Abort;

/// Words, their path, and their options.
type Row = (&'static str, &'static str, KeepOptions);

const UNNAMED: Sizes = Sizes {
    segments: None,
    rows: None,
    pages: None,
    shadows: None,
    frames: None,
    entries: None,
};

const USUAL: KeepOptions = KeepOptions {
    sizes: UNNAMED,
    policy: Policy::Greedy,
    limit: 100,
    mark: None,
    compact: false,
};

// These words are in the form. A size that is given is named, also where it is the usual one or breaks a rule.
const FORMS: [Row; 12] = [
    ("--file a", "a", USUAL),
    ("--file=a --", "a", USUAL),
    ("--file=a=b", "a=b", USUAL),
    ("--part 3 --file /x/y", "/x/y", USUAL),
    (
        "--file a --segments 8",
        "a",
        KeepOptions {
            sizes: Sizes {
                segments: Some(8),
                ..UNNAMED
            },
            ..USUAL
        },
    ),
    (
        "--rows=016 --pages 0 --file a",
        "a",
        KeepOptions {
            sizes: Sizes {
                rows: Some(16),
                pages: Some(0),
                ..UNNAMED
            },
            ..USUAL
        },
    ),
    (
        "--file a --shadows 1 --frames 2 --entries 3",
        "a",
        KeepOptions {
            sizes: Sizes {
                shadows: Some(1),
                frames: Some(2),
                entries: Some(3),
                ..UNNAMED
            },
            ..USUAL
        },
    ),
    (
        "--file a --policy hybrid --part 3 --limit 7 --mark 4294967295",
        "a",
        KeepOptions {
            policy: Policy::Hybrid(3),
            limit: 7,
            mark: Some(4294967295),
            ..USUAL
        },
    ),
    (
        "--policy fifo --file a",
        "a",
        KeepOptions {
            policy: Policy::Fifo,
            ..USUAL
        },
    ),
    ("--file a --compact 0", "a", USUAL),
    ("--compact=01 --file a", "a", COMPACT),
    (
        "--limit 18446744073709551615 --file a",
        "a",
        KeepOptions {
            limit: 18446744073709551615,
            ..USUAL
        },
    ),
];

const COMPACT: KeepOptions = KeepOptions {
    compact: true,
    ..USUAL
};

// Whether these words say that the file is written byte by byte.
const PREMISES: [(&str, bool, KeepOptions); 4] = [
    ("--file a", false, USUAL),
    ("--file a --bytewise 0", false, USUAL),
    ("--bytewise=1 --file a", true, USUAL),
    ("--compact 1 --file a --bytewise 01", true, COMPACT),
];

// None of these is.
const OTHERS: [&str; 21] = [
    "",
    "a",
    "keep --file a",
    "--pages 3",
    "--file",
    "--file=",
    "--file -a",
    "--file=-a",
    "--file --",
    "--file a --file b",
    "--file=a --file=a",
    "--file a b",
    "--file a --lives 3",
    "--file a --rows ten",
    "--file a --compact 2",
    "--file a --compact yes",
    "--file a --bytewise 2",
    "--file a --bytewise 1 --bytewise 1",
    "--file a --policy lru",
    "--file a --mark 4294967296",
    "--File a",
];

/// What these words say of how the file is written, and the options. Of words that aren't refused the path is this one.
fn said(
    rt: &impl Abort,
    words: &[String],
    alloc: Global,
    line: &str,
    path: &str,
) -> Result<(bool, KeepOptions), WordsFault> {
    let said = read_keep(alloc, words)?;
    same_bytes(rt, said.file.as_bytes(), path.as_bytes(), line);
    Ok((said.bytewise, said.options))
}

/// Tests that a line of words says this.
fn check(
    rt: &impl Abort,
    alloc: Global,
    line: &str,
    path: &str,
    wanted: Result<(bool, KeepOptions), WordsFault>,
) {
    let words = split(rt, alloc, line);
    same(rt, said(rt, &words, alloc, line, path), wanted, line);
}

#[test]
fn words_of_keep_name_a_file_and_its_options(rt: HostRuntime) {
    for (line, path, options) in FORMS.as_slice() {
        check(&rt, rt.alloc(), line, path, Ok((false, *options)));
    }
}

#[test]
fn words_of_keep_say_how_the_file_is_written(rt: HostRuntime) {
    for (line, bytewise, options) in PREMISES.as_slice() {
        check(&rt, rt.alloc(), line, "a", Ok((*bytewise, *options)));
    }
}

#[test]
fn other_words_of_keep_are_refused(rt: HostRuntime) {
    for line in OTHERS.as_slice() {
        check(&rt, rt.alloc(), line, "", Err(WordsFault::Form));
    }
    let none: [String; 0] = [];
    let found = said(&rt, &none, rt.alloc(), "no words", "");
    same(&rt, found, Err(WordsFault::Form), "no words");
}
