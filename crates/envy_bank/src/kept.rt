ghost use Rattle.std.specs.Prelude.{◌≡◌, ◌+◌, ◌-◌, ◌<◌, ◌≤◌, ◌↔◌, ◌++◌, ◌∷◌, IsTrue, IfOk, [], length, replicate, slice_index, slice_index_or, slice_set, vec_capacity};
ghost use Rattle.envy_base.specs.State.{ands, ones};
ghost use Rattle.envy_bank.specs.Kept.{MarksRange, ErasesRange};

use envy_base::{PAGE_LENGTH, PAGE_WORDS, Page};
use std::alloc::{AllocError, Global};
use std::marker::Model;

/// Rows of 32 words, each a page in one run of memory. An erased row is marked, and its page isn't
/// touched until the row is written: pages are made up to the last row that was written yet, in memory that was
/// taken for all of them at the start.
#[derive(Drop)]
pub struct KeptRows {
    pages: Vec<Page>,
    erased: Vec<bool>,
}

impl Model for KeptRows {
    ghost use Rattle.std.specs.Prelude.{◌≤◌, ℕ, List, length, vec_capacity};
    ghost use Rattle.envy_bank.specs.Kept.{kept_rows, ArePaged};

    ghost Value = { List (List ℕ) };

    ghost view = { λ a. kept_rows a.erased.items a.pages.items };

    ghost invariant = { λ a. ArePaged a.erased.items a.pages.items × (length a.erased.items ≤ vec_capacity a.pages) };
}

// Clears in the row the bits that are clear in the page. Answers whether it is the page then.
fn clear_bits(row: &mut Page, page: &Page) -> bool
    ensures row { row.new ≡ ands row.old page.now }
    ensures held { IsTrue result ↔ (row.new ≡ page.now) }
{
    let mut held = true;
    for i in 0..PAGE_LENGTH {
        let word = row[i] & page[i];
        held &= word == page[i];
        row[i] = word;
    }
    held
}

// Marks the rows from `first` on up to the one before `end`.
fn mark_range(marks: &mut [bool], first: usize, end: usize)
    requires order { first ≤ end }
    requires end { end ≤ length marks.old }
    ensures { MarksRange first end marks.old marks.new }
{
    for row in first..end {
        marks[row] = true;
    }
}

// Makes the pages up to the one before a row's.
fn fill(pages: &mut Vec<Page>, row: usize)
    requires behind { length pages.old.items ≤ row }
    requires room { row < vec_capacity pages.old }
    ensures pages { pages.new.items ≡ pages.old.items ++ replicate (row - length pages.old.items) (replicate PAGE_WORDS 0) }
    ensures capacity { vec_capacity pages.old ≤ vec_capacity pages.new }
{
    if pages.resize(row, [0; PAGE_LENGTH]).is_err() {
        unreachable!();
    }
}

// Adds a page behind the last one, in memory that is there.
#[inline(always)]
fn append(pages: &mut Vec<Page>, page: &Page)
    requires room { length pages.old.items < vec_capacity pages.old }
    ensures pages { pages.new.items ≡ pages.old.items ++ page.now ∷ [] }
    ensures capacity { vec_capacity pages.old ≤ vec_capacity pages.new }
{
    // Said before, it leaves no path on which memory is asked for.
    if pages.capacity() <= pages.len() || pages.push(*page).is_err() {
        unreachable!();
    }
}

// Adds the page of a row that isn't the next one.
#[cold]
#[inline(never)]
fn append_at(pages: &mut Vec<Page>, row: usize, page: &Page)
    requires behind { length pages.old.items ≤ row }
    requires room { row < vec_capacity pages.old }
    ensures pages { pages.new.items ≡ pages.old.items ++ replicate (row - length pages.old.items) (replicate PAGE_WORDS 0) ++ page.now ∷ [] }
    ensures capacity { vec_capacity pages.old ≤ vec_capacity pages.new }
{
    fill(pages, row);
    append(pages, page);
}

// Sets the page of a row, which is made where it isn't there yet.
#[inline(always)]
fn set_page(pages: &mut Vec<Page>, row: usize, page: &Page)
    requires { row < vec_capacity pages.old }
    ensures pages { pages.new.items
        ≡ slice_set (pages.old.items ++ replicate (row + 1 - length pages.old.items) (replicate PAGE_WORDS 0)) row page.now }
    ensures capacity { vec_capacity pages.old ≤ vec_capacity pages.new }
{
    if row < pages.len() {
        pages[row] = *page;
    } else if row == pages.len() {
        append(pages, page);
    } else {
        append_at(pages, row, page);
    }
}

impl KeptRows {
    /// Erased rows, so many.
    pub fn new(alloc: Global, count: usize) -> Result<KeptRows, AllocError>
        ensures { IfOk result (λ rows. rows ≡ replicate count ones) }
    {
        Ok(KeptRows {
            pages: Vec::with_capacity(alloc, count)?,
            erased: vec![in alloc; true; count]?,
        })
    }

    /// The word `i` of a row.
    #[inline]
    pub fn word(&self, row: usize, i: usize) -> u64
        requires row { row < length self.now }
        requires i { i < PAGE_WORDS }
        ensures { result ≡ slice_index (slice_index_or self.now row []) i }
    {
        if self.erased[row] {
            return u64::MAX;
        }
        self.pages[row][i]
    }

    /// Sets a row to the page.
    #[inline(always)]
    pub fn write(&mut self, row: usize, page: &Page)
        requires { row < length self.old }
        ensures { self.new ≡ slice_set self.old row page.now }
    {
        self.erased[row] = false;
        set_page(&mut self.pages, row, page);
    }

    /// Makes a row its AND with the page. Answers whether it is the page then.
    pub fn program(&mut self, row: usize, page: &Page) -> bool
        requires { row < length self.old }
        ensures row { self.new ≡ slice_set self.old row (ands (slice_index_or self.old row []) page.now) }
        ensures held { IsTrue result ↔ (slice_index_or self.new row [] ≡ page.now) }
    {
        if self.erased[row] {
            self.write(row, page);
            return true;
        }
        clear_bits(&mut self.pages[row], page)
    }

    /// Erases the rows from `first` on up to the one before `end`.
    pub fn erase(&mut self, first: usize, end: usize)
        requires order { first ≤ end }
        requires end { end ≤ length self.old }
        ensures { ErasesRange first end self.old self.new }
    {
        mark_range(&mut self.erased, first, end);
    }
}
