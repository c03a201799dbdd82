ghost use Rattle.std.specs.Prelude.{◌≡◌};
ghost use Rattle.envy_trace.specs.Commands.{name_of};
ghost use Rattle.envy_trace.specs.Grammar.{line_of, pieces, commands, look_up, one, two, three, slot, address, word, place};

use crate::bounds::Bounds;
use crate::command::Command;
use crate::fault::LineFault;
use crate::fields::split_command;
use crate::line::Line;
use crate::numbers::{no_number, one_number, three_numbers, two_numbers};

/// Reads a line of a trace, without its newline.
///
/// Fields stand between blanks, spaces or tabs. One carriage return at the very end is taken off first. A
/// line without fields is empty, and so is one whose first field begins with `#`.
pub fn read_line(bytes: &[u8]) -> Result<Line, LineFault>
    ensures { result ≡ line_of bytes.now }
{
    let Some((name, rest)) = split_command(bytes)? else {
        return Ok(Line::Empty);
    };
    let command = Command::named(name).ok_or(LineFault::Word)?;
    read_fields(command, rest)
}

// What the fields after a command word make of it.
fn read_fields(command: Command, rest: &[u8]) -> Result<Line, LineFault>
    ensures { result ≡ look_up commands (name_of command) (pieces rest.now) }
{
    match command {
        Command::Load => {
            let address = read_address(rest)?;
            Ok(Line::Load { address })
        }
        Command::Look => {
            let address = read_address(rest)?;
            Ok(Line::Look { address })
        }
        Command::Store => {
            let (address, word) = read_address_and_word(rest)?;
            Ok(Line::Store { address, word })
        }
        Command::Begin => {
            no_number(rest)?;
            Ok(Line::Begin)
        }
        Command::Put => {
            let (slot, address, word) = read_slot_address_and_word(rest)?;
            Ok(Line::Put {
                slot,
                address,
                word,
            })
        }
        Command::Commit => {
            let slot = read_slot(rest)?;
            Ok(Line::Commit { slot })
        }
        Command::Abort => {
            let slot = read_slot(rest)?;
            Ok(Line::Abort { slot })
        }
        Command::Tick => {
            no_number(rest)?;
            Ok(Line::Tick)
        }
        Command::Power => {
            no_number(rest)?;
            Ok(Line::Power)
        }
        Command::Cut => {
            let (k, g) = read_place_and_word(rest)?;
            Ok(Line::Cut { k, g })
        }
        Command::Bad => {
            let (k, g) = read_place_and_word(rest)?;
            Ok(Line::Bad { k, g })
        }
        Command::Stat => {
            no_number(rest)?;
            Ok(Line::Stat)
        }
    }
}

fn read_slot(rest: &[u8]) -> Result<u8, LineFault>
    ensures { result ≡ one slot (λ x. x) (pieces rest.now) }
{
    Ok(one_number(rest, Bounds::SLOT)? as u8)
}

fn read_address(rest: &[u8]) -> Result<u32, LineFault>
    ensures { result ≡ one address (λ x. x) (pieces rest.now) }
{
    Ok(one_number(rest, Bounds::ADDRESS)? as u32)
}

fn read_address_and_word(rest: &[u8]) -> Result<(u32, u64), LineFault>
    ensures { result ≡ two address word (λ x y. (x, y)) (pieces rest.now) }
{
    let (address, word) = two_numbers(rest, Bounds::ADDRESS, Bounds::WORD)?;
    Ok((address as u32, word))
}

fn read_place_and_word(rest: &[u8]) -> Result<(u32, u64), LineFault>
    ensures { result ≡ two place word (λ x y. (x, y)) (pieces rest.now) }
{
    let (place, word) = two_numbers(rest, Bounds::PLACE, Bounds::WORD)?;
    Ok((place as u32, word))
}

fn read_slot_address_and_word(rest: &[u8]) -> Result<(u8, u32, u64), LineFault>
    ensures { result ≡ three slot address word (λ x y z. (x, y, z)) (pieces rest.now) }
{
    let (slot, address, word) = three_numbers(rest, Bounds::SLOT, Bounds::ADDRESS, Bounds::WORD)?;
    Ok((slot as u8, address as u32, word))
}
