ghost use Rattle.std.specs.Prelude.{◌≡◌};
ghost use Rattle.envy_trace.specs.Grammar.{pieces, look_up, one, two, word, place};
ghost use Rattle.envy_btree.specs.Commands.{name_of};
ghost use Rattle.envy_btree.specs.Grammar.{index_commands, index_line_of};

use crate::command::Command;
use crate::line::IndexLine;
use envy_trace::{Bounds, LineFault, no_number, one_number, split_command, two_numbers};

/// Reads a line of a trace of the index, without its newline. Its fields and faults are those of any
/// trace: see `envy_trace::read_line`.
pub fn read_index_line(bytes: &[u8]) -> Result<IndexLine, LineFault>
    ensures { result ≡ index_line_of bytes.now }
{
    let Some((name, rest)) = split_command(bytes)? else {
        return Ok(IndexLine::Empty);
    };
    let command = Command::named(name).ok_or(LineFault::Word)?;
    read_fields(command, rest)
}

// What the fields after a command word make of it.
fn read_fields(command: Command, rest: &[u8]) -> Result<IndexLine, LineFault>
    ensures { result ≡ look_up index_commands (name_of command) (pieces rest.now) }
{
    match command {
        Command::Get => {
            let key = read_word(rest)?;
            Ok(IndexLine::Get { key })
        }
        Command::Insert => {
            let (key, value) = read_words(rest)?;
            Ok(IndexLine::Insert { key, value })
        }
        Command::Remove => {
            let key = read_word(rest)?;
            Ok(IndexLine::Remove { key })
        }
        Command::Power => {
            no_number(rest)?;
            Ok(IndexLine::Power)
        }
        Command::Cut => {
            let (k, g) = read_place_and_word(rest)?;
            Ok(IndexLine::Cut { k, g })
        }
        Command::Bad => {
            let (k, g) = read_place_and_word(rest)?;
            Ok(IndexLine::Bad { k, g })
        }
    }
}

fn read_word(rest: &[u8]) -> Result<u64, LineFault>
    ensures { result ≡ one word (λ x. x) (pieces rest.now) }
{
    one_number(rest, Bounds::WORD)
}

fn read_words(rest: &[u8]) -> Result<(u64, u64), LineFault>
    ensures { result ≡ two word word (λ x y. (x, y)) (pieces rest.now) }
{
    two_numbers(rest, Bounds::WORD, Bounds::WORD)
}

fn read_place_and_word(rest: &[u8]) -> Result<(u32, u64), LineFault>
    ensures { result ≡ two place word (λ x y. (x, y)) (pieces rest.now) }
{
    let (place, word) = two_numbers(rest, Bounds::PLACE, Bounds::WORD)?;
    Ok((place as u32, word))
}
