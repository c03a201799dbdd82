ghost use Rattle.std.specs.Prelude.{◌≡◌, ℕ, ◌^◌, ◌<◌, ◌≤◌, [], length, slice_index};
ghost use Rattle.arrayvec.specs.ArrayVec.{array_vec_len};
ghost use Rattle.envy_trace.specs.Commands.{name_of};
ghost use Rattle.envy_trace.specs.Grammar.{line_of};
ghost use Rattle.envy_trace.specs.Replies.{reply_bytes};
ghost use Rattle.envy_trace.specs.Spelling.{HasPlace, IsLine, written, line_bytes};

use crate::command::Command;
use crate::line::Line;
use crate::reply::Reply;
use crate::{push_number, push_text, stat_text};
use arrayvec::ArrayVec;

/// Writes the line into an empty buffer, without a newline: the command word, and before each number one
/// space. Of an empty line nothing is written. A planned fault has a place from 1 on.
pub fn line_text(line: &Line, out: &mut ArrayVec<u8, 120>)
    requires empty { out.old.items ≡ [] }
    requires place { HasPlace line.now }
    ensures text { out.new.items ≡ line_bytes line.now }
    ensures reads_back { line_of out.new.items ≡ Ok line.now }
    ensures short { array_vec_len out.new ≤ 69 }
{
    write_line(line, out);
}

// The command of the line, and its numbers.
#[tactic(auto, unfolding(crate::specs::Spelling::line_bytes))]
fn write_line(line: &Line, out: &mut ArrayVec<u8, 120>)
    requires empty { out.old.items ≡ [] }
    ensures text { out.new.items ≡ line_bytes line.now }
    ensures ranges { HasPlace line.now → IsLine line.now }
    ensures short { array_vec_len out.new ≤ 69 }
{
    match *line {
        Line::Empty => {}
        Line::Load { address } => write_command(Command::Load, &[u64::from(address)], out),
        Line::Look { address } => write_command(Command::Look, &[u64::from(address)], out),
        Line::Store { address, word } => {
            write_command(Command::Store, &[u64::from(address), word], out);
        }
        Line::Begin => write_command(Command::Begin, &[], out),
        Line::Put {
            slot,
            address,
            word,
        } => {
            let numbers = [u64::from(slot), u64::from(address), word];
            write_command(Command::Put, &numbers, out);
        }
        Line::Commit { slot } => write_command(Command::Commit, &[u64::from(slot)], out),
        Line::Abort { slot } => write_command(Command::Abort, &[u64::from(slot)], out),
        Line::Tick => write_command(Command::Tick, &[], out),
        Line::Power => write_command(Command::Power, &[], out),
        Line::Cut { k, g } => write_command(Command::Cut, &[u64::from(k), g], out),
        Line::Bad { k, g } => write_command(Command::Bad, &[u64::from(k), g], out),
        Line::Stat => write_command(Command::Stat, &[], out),
    }
}

#[inline(always)]
fn write_command(command: Command, numbers: &[u64], out: &mut ArrayVec<u8, 120>)
    requires empty { out.old.items ≡ [] }
    requires few { length numbers.now ≤ 3 }
    ensures text { out.new.items ≡ written (name_of command) numbers.now }
    ensures ranges { (k : ℕ) → slice_index numbers.now k < 2 ^ 64 }
    ensures short { array_vec_len out.new ≤ 69 }
{
    push_text(out, command.name());
    for number in numbers {
        out.push(b' ');
        push_number(out, *number);
    }
}

/// Writes the reply into an empty buffer, without a newline.
#[tactic(auto, unfolding(crate::specs::Replies::reply_bytes))]
pub fn reply_text(reply: &Reply, out: &mut ArrayVec<u8, 512>)
    requires { out.old.items ≡ [] }
    ensures text { out.new.items ≡ reply_bytes reply.now }
    ensures short { array_vec_len out.new ≤ 252 }
{
    match reply {
        Reply::Word(word) => push_number(out, *word),
        Reply::Done => push_text(out, b"ok"),
        Reply::Started(slot) => {
            push_text(out, b"tx ");
            push_number(out, u64::from(*slot));
        }
        Reply::Range => push_text(out, b"range"),
        Reply::Held(slot) => {
            push_text(out, b"held ");
            push_number(out, u64::from(*slot));
        }
        Reply::Closed => push_text(out, b"closed"),
        Reply::Full => push_text(out, b"full"),
        Reply::Busy => push_text(out, b"busy"),
        Reply::Fault => push_text(out, b"fault"),
        Reply::Lost => push_text(out, b"lost"),
        Reply::Restarted => push_text(out, b"restarted"),
        Reply::Armed => push_text(out, b"armed"),
        Reply::Stat(counts) => stat_text(counts, out),
    }
}
