// Files that are read in several pieces.
use crate::open;
use crate::opened_file::PIECE;
use std::fs;
use std::process::Abort;

const PATH: &str = "envy_hostfile_pieces";

// A file of so many bytes, no two pieces of which are alike, is read as it was written.
fn is_read_whole(abort: &impl Abort, rt: &HostRuntime, size: usize) {
    let mut written = Vec::new(rt.alloc());
    written
        .extend_from_slice(b"\x01eNVyJNL")
        .expect(abort, "no room");
    for at in written.len()..size {
        written.push((at % 251) as u8).expect(abort, "no room");
    }
    fs::write(rt, PATH, written.as_slice()).expect(abort, "not written");
    let (_file, bytes) = open(rt, PATH, false).expect(abort, "not opened");
    assert!(abort;
        bytes.as_slice() == written.as_slice(),
        "{size} bytes are read otherwise"
    );
    fs::remove_file(rt, PATH).expect(abort, "not removed");
}

#[test]
fn a_file_is_read_whole_whatever_its_length(rt: HostRuntime) {
    for size in [8, PIECE - 1, PIECE, PIECE + 1, 2 * PIECE, 2 * PIECE + 9] {
        is_read_whole(&rt, &rt, size);
    }
}
