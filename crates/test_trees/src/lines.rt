use crate::told::{same, same_text};
use arrayvec::ArrayVec;
use envy_btree::{IndexLine, IndexReply, index_text, read_index_line};
use envy_trace::LineFault;
use std::process::Abort;

const LINES: [(&str, Result<IndexLine, LineFault>); 12] = [
    ("", Ok(IndexLine::Empty)),
    ("# a comment", Ok(IndexLine::Empty)),
    ("get 5", Ok(IndexLine::Get { key: 5 })),
    (
        "\tinsert  5 050\r",
        Ok(IndexLine::Insert { key: 5, value: 50 }),
    ),
    (
        "remove 18446744073709551615",
        Ok(IndexLine::Remove { key: u64::MAX }),
    ),
    ("power", Ok(IndexLine::Power)),
    ("cut 1 0", Ok(IndexLine::Cut { k: 1, g: 0 })),
    ("bad 2 7", Ok(IndexLine::Bad { k: 2, g: 7 })),
    ("load 5", Err(LineFault::Word)),
    ("insert 5", Err(LineFault::Count)),
    ("get 18446744073709551616", Err(LineFault::Number)),
    ("cut 0 0", Err(LineFault::Number)),
];

#[test]
fn lines_are_read(rt: HostRuntime) {
    for (text, line) in LINES.as_slice() {
        same(&rt, &read_index_line(text.as_bytes()), line, text);
    }
    let found = read_index_line(&[b' '; 121]);
    same(&rt, &found, &Err(LineFault::Long), "121 blanks");
}

const REPLIES: [(IndexReply, &str); 7] = [
    (IndexReply::Value(51), "51"),
    (IndexReply::Missing, "none"),
    (IndexReply::Full, "full"),
    (IndexReply::Fault, "fault"),
    (IndexReply::Lost, "lost"),
    (IndexReply::Restarted, "restarted"),
    (IndexReply::Armed, "armed"),
];

fn check_reply(rt: &impl Abort, reply: &IndexReply, text: &str) {
    let mut out = ArrayVec::new();
    index_text(reply, &mut out);
    same_text(rt, &out, text);
}

#[test]
fn replies_are_written(rt: HostRuntime) {
    for (reply, text) in REPLIES.as_slice() {
        check_reply(&rt, reply, text);
    }
}
