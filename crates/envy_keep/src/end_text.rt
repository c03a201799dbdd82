// What the program says at the end of a kept memory's trace.
ghost use Rattle.std.specs.Prelude.{◌≡◌, ◌-◌, ◌^◌, ◌<◌, ◌++◌, [], codes, decimal};
ghost use Rattle.envy_run.specs.Texts.{end_bytes};
ghost use Rattle.envy_keep.specs.Texts.{journal_bytes, keep_end_bytes, unopened_bytes};

use arrayvec::ArrayVec;
use envy_run::{Ended, end_text};
use envy_trace::{push_number, push_text};

/// Writes what is said on standard error, without a newline: nothing where all was done.
#[tactic(auto, unfolding(crate::specs::Texts::keep_end_bytes))]
pub fn keep_end_text(status: u8, why: u8, lines: u64, place: u64, out: &mut ArrayVec<u8, 128>)
    requires empty { out.old.items ≡ [] }
    requires lines { lines < 2 ^ 64 - 1 }
    ensures { out.new.items ≡ keep_end_bytes status why lines place }
{
    match status {
        6 => failed(out, lines),
        10 => journal(out, why, place),
        11 => unopened(out, why),
        _ => others(status, why, lines, out),
    }
}

// The file failed.
fn failed(out: &mut ArrayVec<u8, 128>, lines: u64)
    requires { out.old.items ≡ [] }
    ensures { out.new.items ≡ codes "envy: the journal failed after " ++ decimal lines ++ codes " lines" }
{
    push_text(out, b"envy: the journal failed after ");
    push_number(out, lines);
    push_text(out, b" lines");
}

// Why a file is refused.
#[tactic(auto, unfolding(crate::specs::Texts::journal_bytes))]
fn journal(out: &mut ArrayVec<u8, 128>, why: u8, place: u64)
    requires { out.old.items ≡ [] }
    ensures { out.new.items ≡ journal_bytes why place }
{
    match why {
        6 => push_text(out, b"envy: no journal"),
        7 => push_text(out, b"envy: a journal of another version"),
        8 => push_text(out, b"envy: the journal has other sizes"),
        9 => push_text(out, b"envy: the options break a rule with the journal"),
        10 => damaged(out, place),
        _ => {}
    }
}

// The file breaks off.
fn damaged(out: &mut ArrayVec<u8, 128>, place: u64)
    requires { out.old.items ≡ [] }
    ensures { out.new.items ≡ codes "envy: the journal is damaged at byte " ++ decimal place }
{
    push_text(out, b"envy: the journal is damaged at byte ");
    push_number(out, place);
}

// Why a file wasn't opened.
#[tactic(auto, unfolding(crate::specs::Texts::unopened_bytes))]
fn unopened(out: &mut ArrayVec<u8, 128>, why: u8)
    requires { out.old.items ≡ [] }
    ensures { out.new.items ≡ unopened_bytes why }
{
    match why {
        1 => push_text(out, b"envy: the journal can't be read"),
        2 => push_text(out, b"envy: the journal is in use"),
        3 => push_text(out, b"envy: no file can be made beside the journal"),
        _ => {}
    }
}

// What is said as of any trace.
fn others(status: u8, why: u8, lines: u64, out: &mut ArrayVec<u8, 128>)
    requires empty { out.old.items ≡ [] }
    requires lines { lines < 2 ^ 64 - 1 }
    ensures { out.new.items ≡ end_bytes status why lines }
{
    let ended: Ended<()> = Ended {
        status,
        why,
        lines,
        taken: 0,
        board: None,
        second: None,
    };
    end_text(&ended, out);
}
