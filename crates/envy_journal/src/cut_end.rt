// What opening a file cuts off, and whether a sync may be lost with it.
ghost use Rattle.std.specs.Prelude.{◌≡◌, ◌≤◌, false, length, drop};
ghost use Rattle.envy_journal.specs.Cutting.{begins_batch as begins_one, cut_batch as cut_of, ends_batch as ends_one, has_batch as has_one, unread};

use crate::counted::{is_open, is_whole, size_behind};
use crate::head::HEAD;
use crate::operation::{COUNTED, OPEN, STOP, TOTAL};

// Where the gate is at which reading stops: at the end of the bytes if reading comes to it, or breaks off.
fn unread_at(bytes: &[u8]) -> usize
    requires { 33 ≤ length bytes.now }
    ensures from { drop result bytes.now ≡ unread false 33 bytes.now }
    ensures within { result ≤ length bytes.now }
{
    let mut at = HEAD;
    let mut within = false;
    while at < bytes.len() {
        let tag = bytes[at];
        if !within {
            if !is_open(tag, &bytes[at + 1..]) {
                return at;
            }
            within = true;
            at += 1;
        } else if tag == STOP {
            within = false;
            at += 1;
        } else if tag == TOTAL {
            within = false;
            at += 9;
        } else {
            let size = size_behind(tag);
            if size == 0 {
                return bytes.len();
            }
            at += size + 1;
        }
    }
    bytes.len()
}

// Whether whole operations are there, and then the end of their batch.
fn ends_batch(bytes: &[u8]) -> bool
    ensures { result ≡ ends_one 0 bytes.now }
{
    let mut at = 0;
    while at < bytes.len() {
        if bytes[at] == STOP {
            return true;
        }
        let size = size_behind(bytes[at]);
        if size == 0 {
            return false;
        }
        at += size + 1;
    }
    false
}

// Whether a whole batch is at the front, with its gate open.
fn begins_batch(bytes: &[u8]) -> bool
    ensures { result ≡ begins_one bytes.now }
{
    if bytes.len() < 2 {
        return false;
    }
    if bytes[0] == OPEN {
        bytes[1] != STOP && ends_batch(&bytes[1..])
    } else {
        bytes[0] == COUNTED && is_whole(&bytes[1..])
    }
}

// Whether one begins at some place.
fn has_batch(bytes: &[u8]) -> bool
    ensures { result ≡ has_one bytes.now }
{
    let mut at = 0;
    while at < bytes.len() {
        if begins_batch(&bytes[at..]) {
            return true;
        }
        at += 1;
    }
    false
}

/// How many bytes at the end of a journal opening it cuts off, if they hold what reads as a whole batch with an open gate:
/// then a sync may be lost with them, so copy the file first. Else 0. A crash may leave such bytes, and damage too.
pub fn cut_batch(bytes: &[u8]) -> usize
    ensures { result ≡ cut_of bytes.now }
{
    if bytes.len() < HEAD {
        return 0;
    }
    let rest = &bytes[unread_at(bytes)..];
    if has_batch(rest) { rest.len() } else { 0 }
}
