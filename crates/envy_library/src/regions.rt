// Regions of memory that a caller in C gives for good.
ghost use Rattle.std.specs.Prelude.{◌≡◌, ℕ, List};
ghost use Rattle.std.specs.Borrow.{MutBor};
ghost use Rattle.envy_library.specs.Lent.{words_own, words_row, rows_own, rows_row};
ghost use denote.RawPtr.{InBlock};

use envy_base::Page;
use std::marker::Model;

/// So many words.
#[repr(C)]
#[derive(Drop)]
pub struct EnvyWords {
    pub at: *mut u64,
    pub len: usize,
    pub ghost words: { MutBor (List ℕ) } by { words_row.coded },
}

impl Model for EnvyWords {
    ghost also_owns = { λ h. words_own h.at h.len h.words };
}

impl EnvyWords {
    /// The words.
    pub fn into_slice(self) -> &'static mut [u64]
        requires { InBlock self.at }
        ensures { result ≡ self.words }
    {
        let EnvyWords { at, len } = self;
        unsafe { std::slice::from_raw_parts_mut(at, len) }
    }
}

/// So many rows of 32 words.
#[repr(C)]
#[derive(Drop)]
pub struct EnvyRows {
    pub at: *mut u64,
    pub len: usize,
    pub ghost rows: { MutBor (List (List ℕ)) } by { rows_row.coded },
}

impl Model for EnvyRows {
    ghost also_owns = { λ h. rows_own h.at h.len h.rows };
}

impl EnvyRows {
    /// The rows.
    pub fn into_slice(self) -> &'static mut [Page]
        requires { InBlock self.at }
        ensures { result ≡ self.rows }
    {
        let EnvyRows { at, len } = self;
        unsafe { std::slice::from_raw_parts_mut(at as *mut Page, len) }
    }
}
