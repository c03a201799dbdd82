/// Words of 64 bits in a page, which is also what a row and a frame hold.
pub const PAGE_WORDS: u32 = 32;

/// The words of a page as a count of an array's elements.
pub const PAGE_LENGTH: usize = PAGE_WORDS as usize;

/// Bytes of a page.
pub const PAGE_BYTES: u32 = 8 * PAGE_WORDS;

/// The words of a page, row or frame.
pub type Page = [u64; PAGE_LENGTH];
