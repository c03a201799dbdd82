// A journal is made anew of what the board holds, so that it tells no more than that.
ghost use Rattle.std.specs.Prelude.{◌≡◌, ◌⊎◌, ℕ, ◌+◌, ◌-◌, ◌*◌, ◌<◌, ◌≤◌, false, List, IsTrue, length, take, slice_index_or, OnOk, OnErr, IsErrOf};
ghost use Rattle.envy_base.specs.Map.{words_of};
ghost use Rattle.envy_base.specs.Shape.{IsShape};
ghost use Rattle.envy_base.specs.State.{row_of};
ghost use Rattle.envy_device.specs.Device.{LeavesOnly};
ghost use Rattle.envy_device.specs.declared.device.ReplaceError.TheVariants.{Second, Failed};
ghost use Rattle.envy_journal.specs.Content.{blank, content_of, holds};
ghost use Rattle.envy_journal.specs.Journal.{IsAtRest, IsFileOf};
ghost use Rattle.envy_journal.specs.Log.{HasRuns};
ghost use Rattle.envy_journal.specs.Reading.{operations, Leads};
ghost use Rattle.envy_journal.specs.Snapshot.{Gathers, Hinders, IsAside, IsUntouched, Makes, gathered, limit_of, most_of, with_rows, with_words};

use crate::head::HEAD;
use crate::log::Log;
use crate::operation::{PROGRAM_SIZE, PUT_SIZE, program_bytes, put_bytes};
use crate::steady::Steady;
use envy_base::{PAGE_LENGTH, PAGE_WORDS, Page, Shape};
use envy_device::{ReplaceError, Replaceable, SecondFailed};
use envy_map::words;

/// A shorter log isn't compacted by a sync.
pub(crate) const LEAST: usize = 1 << 20;

/// A row on which nothing was programmed.
pub(crate) const ERASED: Page = [u64::MAX; PAGE_LENGTH];

// How many bytes a snapshot takes at most.
fn most(shape: &Shape) -> usize
    requires { IsShape shape.now }
    ensures { result ≡ most_of shape.now }
{
    let rows = shape.segments * shape.rows;
    HEAD + 3 + PUT_SIZE * words(shape) as usize + PROGRAM_SIZE * rows as usize
}

/// A longer log is compacted by a sync.
pub(crate) fn limit(shape: &Shape) -> usize
    requires { IsShape shape.now }
    ensures { result ≡ limit_of shape.now }
{
    (2 * most(shape)).max(LEAST)
}

/// A word of SRAM.
pub(crate) fn word_of<B: Steady>(board: &B, w: u32) -> u64
    requires { w < length (B.state board.now).sram }
    ensures { result ≡ slice_index_or (B.state board.now).sram w 0 }
{
    match board.get(w) {
        Ok(v) => v,
        Err(_) => unreachable!(),
    }
}

// A word of a row.
fn word_in_row<B: Steady>(board: &B, row: u32, i: u32) -> u64
    requires row { row < length (B.state board.now).flash }
    requires place { i < PAGE_WORDS }
    ensures { result ≡ slice_index_or (row_of (B.state board.now) row) i 0 }
{
    match board.read(row, i) {
        Ok(v) => v,
        Err(_) => unreachable!(),
    }
}

/// A row.
pub(crate) fn page_in<B: Steady>(board: &B, row: u32) -> Page
    requires { row < length (B.state board.now).flash }
    ensures { result ≡ row_of (B.state board.now) row }
{
    let mut page = [0; PAGE_LENGTH];
    for i in 0..32u32 {
        page[i as usize] = word_in_row(board, row, i);
    }
    page
}

// Adds what makes a word, unless it is zero.
fn copy_word<B: Steady, D: Replaceable>(
    board: &B,
    log: &mut Log<D>,
    w: u32,
) -> Result<(), SecondFailed>
    requires word { w < length (B.state board.now).sram }
    requires gathers { Gathers D.second log.old }
    requires makes { Makes (B.state board.now).shape (with_words (B.state board.now) w) (34 + 13 * w)
        (gathered D.second log.old) }
    ensures gathers { OnOk result (Gathers D.second log.new) }
    ensures makes { OnOk result (Makes (B.state board.now).shape (with_words (B.state board.now) (w + 1))
        (34 + 13 * (w + 1)) (gathered D.second log.new)) }
    ensures aside { IsAside log.old log.new }
    ensures untouched { IsUntouched D.seen D.may_leave D.moment D.left_since D.synced D.bytewise
        log.old.device log.new.device }
    ensures hindered { Hinders D.goes_on D.goes_on D.hindered log.old.device result log.new.device }
{
    let v = word_of(board, w);
    if v == 0 {
        return Ok(());
    }
    log.append_second(&put_bytes(w, v))
}

// Adds what makes all words of SRAM.
fn copy_words<B: Steady, D: Replaceable>(board: &B, log: &mut Log<D>) -> Result<(), SecondFailed>
    requires gathers { Gathers D.second log.old }
    requires makes { Makes (B.state board.now).shape (blank (B.state board.now).shape) 34 (gathered D.second log.old) }
    ensures gathers { OnOk result (Gathers D.second log.new) }
    ensures makes { OnOk result (Makes (B.state board.now).shape (with_rows (B.state board.now) 0)
        (34 + 13 * words_of (B.state board.now).shape) (gathered D.second log.new)) }
    ensures aside { IsAside log.old log.new }
    ensures untouched { IsUntouched D.seen D.may_leave D.moment D.left_since D.synced D.bytewise
        log.old.device log.new.device }
    ensures hindered { Hinders D.goes_on D.goes_on D.hindered log.old.device result log.new.device }
{
    for w in 0..words(&board.shape()) {
        copy_word(board, log, w)?;
    }
    Ok(())
}

// Adds what makes a row, unless it is erased.
fn copy_row<B: Steady, D: Replaceable>(
    board: &B,
    log: &mut Log<D>,
    row: u32,
) -> Result<(), SecondFailed>
    requires row { row < length (B.state board.now).flash }
    requires gathers { Gathers D.second log.old }
    requires makes { Makes (B.state board.now).shape (with_rows (B.state board.now) row)
        (34 + 13 * words_of (B.state board.now).shape + 261 * row) (gathered D.second log.old) }
    ensures gathers { OnOk result (Gathers D.second log.new) }
    ensures makes { OnOk result (Makes (B.state board.now).shape (with_rows (B.state board.now) (row + 1))
        (34 + 13 * words_of (B.state board.now).shape + 261 * (row + 1)) (gathered D.second log.new)) }
    ensures aside { IsAside log.old log.new }
    ensures untouched { IsUntouched D.seen D.may_leave D.moment D.left_since D.synced D.bytewise
        log.old.device log.new.device }
    ensures hindered { Hinders D.goes_on D.goes_on D.hindered log.old.device result log.new.device }
{
    let page = page_in(board, row);
    if page == ERASED {
        return Ok(());
    }
    log.append_second(&program_bytes(row, &page))
}

// Adds what makes all rows.
fn copy_rows<B: Steady, D: Replaceable>(board: &B, log: &mut Log<D>) -> Result<(), SecondFailed>
    requires gathers { Gathers D.second log.old }
    requires makes { Makes (B.state board.now).shape (with_rows (B.state board.now) 0)
        (34 + 13 * words_of (B.state board.now).shape) (gathered D.second log.old) }
    ensures gathers { OnOk result (Gathers D.second log.new) }
    ensures makes { OnOk result
        (Makes (B.state board.now).shape (content_of (B.state board.now)) (most_of (B.state board.now).shape - 2)
        (gathered D.second log.new)) }
    ensures aside { IsAside log.old log.new }
    ensures untouched { IsUntouched D.seen D.may_leave D.moment D.left_since D.synced D.bytewise
        log.old.device log.new.device }
    ensures hindered { Hinders D.goes_on D.goes_on D.hindered log.old.device result log.new.device }
{
    let shape = board.shape();
    for row in 0..shape.segments * shape.rows {
        copy_row(board, log, row)?;
    }
    Ok(())
}

// Adds what makes the board.
fn copy_board<B: Steady, D: Replaceable>(board: &B, log: &mut Log<D>) -> Result<(), SecondFailed>
    requires gathers { Gathers D.second log.old }
    requires makes { Makes (B.state board.now).shape (blank (B.state board.now).shape) 34 (gathered D.second log.old) }
    ensures gathers { OnOk result (Gathers D.second log.new) }
    ensures makes { OnOk result
        (Makes (B.state board.now).shape (content_of (B.state board.now)) (most_of (B.state board.now).shape - 2)
        (gathered D.second log.new)) }
    ensures aside { IsAside log.old log.new }
    ensures untouched { IsUntouched D.seen D.may_leave D.moment D.left_since D.synced D.bytewise
        log.old.device log.new.device }
    ensures hindered { Hinders D.goes_on D.goes_on D.hindered log.old.device result log.new.device }
{
    copy_words(board, log)?;
    copy_rows(board, log)
}

// Gathers what makes the board in a second file, in place of what the log held.
fn gather<B: Steady, D: Replaceable>(board: &B, log: &mut Log<D>) -> Result<(), SecondFailed>
    requires room { 263 ≤ length log.old.buffer.items }
    ensures gathers { OnOk result (Gathers D.second log.new) }
    ensures makes { OnOk result
        (Makes (B.state board.now).shape (content_of (B.state board.now)) (most_of (B.state board.now).shape - 2)
        (gathered D.second log.new)) }
    ensures aside { IsAside log.old log.new }
    ensures untouched { IsUntouched D.seen D.may_leave D.moment D.left_since D.synced D.bytewise
        log.old.device log.new.device }
    ensures hindered { Hinders (λ d. D.has_failed d ≡ false) D.goes_on D.hindered log.old.device result
        log.new.device }
{
    log.begin_second(&board.shape())?;
    copy_board(board, log)
}

// Puts a journal of what the board holds in the file's place. A crash in it leaves what it might have left before, or that
// journal.
fn replaced<B: Steady, D: Replaceable>(board: &B, log: &mut Log<D>) -> Result<(), ReplaceError>
    requires room { 263 ≤ length log.old.buffer.items }
    ensures rest { OnOk result (IsAtRest D.seen D.may_leave D.moment D.synced log.new.device log.new.gate
        × (log.new.end ≡ log.new.gate + 1) × (log.new.used ≡ 0) × (log.new.zeros ≡ 0)) }
    ensures size { OnOk result (length (D.seen log.new.device) ≡ log.new.size) }
    ensures leads { OnOk result
        (Leads false 33 (take log.new.gate (D.seen log.new.device))
        (operations (take log.new.gate (D.seen log.new.device))) false) }
    ensures file { OnOk result (IsFileOf (B.state board.now) (take log.new.gate (D.seen log.new.device))) }
    ensures runs { OnOk result (HasRuns (take log.new.gate (D.seen log.new.device))) }
    ensures short { OnOk result (length (D.seen log.new.device) ≤ most_of (B.state board.now).shape) }
    ensures room { length log.new.buffer.items ≡ length log.old.buffer.items }
    ensures aside { OnErr result (IsAside log.old log.new) }
    ensures untouched { IsErrOf result Second
        → IsUntouched D.seen D.may_leave D.moment D.left_since D.synced D.bytewise log.old.device log.new.device }
    ensures failed { IsErrOf result Failed → IsTrue (D.has_failed log.new.device) }
    ensures hindered { D.has_failed log.old.device ≡ false → IsErrOf result Second
        → D.hindered log.old.device < D.hindered log.new.device }
    ensures any_moment { LeavesOnly D.moment D.left_since log.old.device log.new.device
        (λ c. D.may_leave log.old.device c ⊎ IsFileOf (B.state board.now) c) }
    ensures any_moment_ok { OnOk result (LeavesOnly D.moment D.left_since log.old.device log.new.device
        (λ c. D.may_leave log.old.device c ⊎ c ≡ D.seen log.new.device)) }
{
    gather(board, log)?;
    log.replace()?;
    Ok(())
}

/// The same, of a log whose buffer holds nothing. If the second file fails, the log is as it was.
pub(crate) fn rewrite<B: Steady, D: Replaceable>(
    board: &B,
    log: &mut Log<D>,
) -> Result<(), ReplaceError>
    requires room { 263 ≤ length log.old.buffer.items }
    requires spilled { log.old.used ≡ 0 }
    ensures rest { OnOk result (IsAtRest D.seen D.may_leave D.moment D.synced log.new.device log.new.gate
        × (log.new.end ≡ log.new.gate + 1) × (log.new.used ≡ 0) × (log.new.zeros ≡ 0)) }
    ensures size { OnOk result (length (D.seen log.new.device) ≡ log.new.size) }
    ensures leads { OnOk result
        (Leads false 33 (take log.new.gate (D.seen log.new.device))
        (operations (take log.new.gate (D.seen log.new.device))) false) }
    ensures file { OnOk result (IsFileOf (B.state board.now) (take log.new.gate (D.seen log.new.device))) }
    ensures runs { OnOk result (HasRuns (take log.new.gate (D.seen log.new.device))) }
    ensures short { OnOk result (length (D.seen log.new.device) ≤ most_of (B.state board.now).shape) }
    ensures room { length log.new.buffer.items ≡ length log.old.buffer.items }
    ensures aside { OnErr result (IsAside log.old log.new × (log.new.used ≡ 0)) }
    ensures untouched { IsErrOf result Second
        → IsUntouched D.seen D.may_leave D.moment D.left_since D.synced D.bytewise log.old.device log.new.device }
    ensures failed { IsErrOf result Failed → IsTrue (D.has_failed log.new.device) }
    ensures hindered { D.has_failed log.old.device ≡ false → IsErrOf result Second
        → D.hindered log.old.device < D.hindered log.new.device }
    ensures any_moment { LeavesOnly D.moment D.left_since log.old.device log.new.device
        (λ c. D.may_leave log.old.device c ⊎ IsFileOf (B.state board.now) c) }
    ensures any_moment_ok { OnOk result (LeavesOnly D.moment D.left_since log.old.device log.new.device
        (λ c. D.may_leave log.old.device c ⊎ c ≡ D.seen log.new.device)) }
{
    match replaced(board, log) {
        Ok(()) => Ok(()),
        Err(error) => {
            log.used = 0;
            Err(error)
        }
    }
}
