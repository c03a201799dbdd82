// A row of a part, as bytes and as words.
ghost use Rattle.std.specs.Prelude.{◌≡◌, ◌<◌, slice_index};
ghost use Rattle.envy_base.specs.State.{ands};
ghost use Rattle.envy_bank.specs.Lanes.{lane_of, row_from};

use envy_base::{PAGE_LENGTH, PAGE_WORDS, Page};

// The word `i` of a row, whose first byte is the least significant.
#[inline]
pub fn word(row: &[u8; 256], i: usize) -> u64
    requires { i < PAGE_WORDS }
    ensures { result ≡ slice_index (row_from row.now) i }
{
    let mut bytes = [0u8; 8];
    for j in 0..8 {
        bytes[j] = row[8 * i + j];
    }
    u64::from_le_bytes(bytes)
}

// The words of a row.
pub fn words(row: &[u8; 256]) -> Page
    ensures { result ≡ row_from row.now }
{
    let mut found = [0; PAGE_LENGTH];
    for i in 0..PAGE_LENGTH {
        found[i] = word(row, i);
    }
    found
}

// The byte `j` of a page, the least significant of a word first.
#[inline]
#[tactic(auto, unfolding(envy_bank::specs::Lanes::lane_of))]
fn byte(page: &Page, j: usize) -> u8
    requires { j < 256 }
    ensures { result ≡ lane_of page.now j }
{
    page[j / 8].to_le_bytes()[j % 8]
}

// The bytes of a page.
pub fn bytes_of(page: &Page) -> [u8; 256]
    ensures { row_from result ≡ page.now }
{
    let mut bytes = [0; 256];
    for j in 0..256usize {
        bytes[j] = byte(page, j);
    }
    bytes
}

// The bitwise AND of two rows.
pub fn anded(row: &Page, page: &Page) -> Page
    ensures { result ≡ ands row.now page.now }
{
    let mut both = [0; PAGE_LENGTH];
    for i in 0..32usize {
        both[i] = row[i] & page[i];
    }
    both
}
