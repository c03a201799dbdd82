// A batch whose zeros are counted, for a file that is written byte by byte.
ghost use Rattle.std.specs.Prelude.{◌≡◌, ◌+◌, ◌<◌, ◌≤◌, ◌++◌, ◌∷◌, [], length, drop, slice_index};
ghost use Rattle.envy_journal.specs.Reading.{behind_tag, is_open as leads_in, whole, word_bytes, zeros as zeros_of};

use crate::operation::{
    CLOSED, COUNTED, ERASE, ERASE_SIZE, OPEN, PROGRAM, PROGRAM_SIZE, TOTAL, copy_behind, word_at,
    words_of_tag,
};

/// How many bytes the end of a counted batch takes: a mark and a number.
pub(crate) const TOTAL_SIZE: usize = 9;

// How many of a few bytes are zeros. Their number is a byte too, so that sixteen of them are counted at a time.
fn zeros_of_few(bytes: &[u8]) -> u8
    requires { length bytes.now < 256 }
    ensures { result ≡ zeros_of bytes.now }
{
    let mut count = 0;
    for byte in bytes {
        if *byte == 0 {
            count += 1;
        }
    }
    count
}

/// How many of the bytes are zeros.
pub(crate) fn zeros(bytes: &[u8]) -> usize
    ensures value { result ≡ zeros_of bytes.now }
    ensures few { result ≤ length bytes.now }
{
    let (pieces, rest) = bytes.as_chunks::<128>();
    let mut count = usize::from(zeros_of_few(rest));
    for piece in pieces {
        count += usize::from(zeros_of_few(piece));
    }
    count
}

/// How many bytes of an operation stand behind its tag; none where no operation begins.
pub(crate) fn size_behind(tag: u8) -> usize
    ensures value { result ≡ behind_tag tag }
    ensures few { result ≤ 516 }
{
    if tag == PROGRAM {
        return PROGRAM_SIZE - 1;
    }
    if tag == ERASE {
        return ERASE_SIZE - 1;
    }
    let words = words_of_tag(tag);
    if words == 0 { 0 } else { 4 + 8 * words }
}

/// Whether a counted batch is whole, of which nothing is lost.
pub(crate) fn is_whole(bytes: &[u8]) -> bool
    ensures { result ≡ whole 0 0 bytes.now }
{
    let mut at = 0;
    let mut count = 0;
    while at < bytes.len() {
        let rest = &bytes[at + 1..];
        if bytes[at] == TOTAL {
            return rest.len() >= 8 && word_at(rest, 0) == count as u64;
        }
        let size = size_behind(bytes[at]);
        if size == 0 || size > rest.len() {
            return false;
        }
        count += zeros(&rest[..size]);
        at += size + 1;
    }
    false
}

/// Whether the gate before the bytes leads into a batch.
pub(crate) fn is_open(gate: u8, bytes: &[u8]) -> bool
    ensures { result ≡ leads_in gate bytes.now }
{
    gate == OPEN || gate == COUNTED && is_whole(bytes)
}

/// The end of a counted batch, and a closed gate.
pub(crate) fn counted_end(count: u64) -> [u8; 10]
    ensures { result ≡ 7 ∷ word_bytes count ++ 0 ∷ [] }
{
    let mut bytes = [TOTAL; 10];
    copy_behind(&mut bytes, 1, &count.to_le_bytes());
    copy_behind(&mut bytes, TOTAL_SIZE, &[CLOSED]);
    bytes
}
