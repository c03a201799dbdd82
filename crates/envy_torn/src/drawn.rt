// What a crash makes of a write or a cut, drawn.
ghost use Rattle.std.specs.Prelude.{◌<◌};

use crate::Dice;
use std::alloc::AllocError;

// Bytes over what is there, and past the end.
pub(crate) fn write_over(file: &mut Vec<u8>, at: usize, bytes: &[u8]) -> Result<(), AllocError> {
    if at > file.len() {
        return Ok(());
    }
    let over = bytes.len().min(file.len() - at);
    file[at..at + over].copy_from_slice(&bytes[..over]);
    file.extend_from_slice(&bytes[over..])
}

// Bytes in place of all.
pub(crate) fn write_anew(file: &mut Vec<u8>, bytes: &[u8]) -> Result<(), AllocError> {
    file.truncate(0);
    file.extend_from_slice(bytes)
}

// So many bytes of a write share what is drawn: a long one is torn in some 256 pieces.
fn grain_of(bytes: &[u8]) -> usize
    ensures { 0 < result }
{
    bytes.len() / 256 + 1
}

// The same, done in part: to any length, and each byte old or new; one behind the old end is new or 0.
pub(crate) fn mix(
    file: &mut Vec<u8>,
    at: usize,
    bytes: &[u8],
    dice: &mut Dice,
) -> Result<(), AllocError> {
    let most = if dice.below(2) == 0 {
        bytes.len()
    } else {
        dice.below(bytes.len().saturating_add(1))
    };
    // of four bytes so many are new
    let share = dice.below(5);
    let grain = grain_of(bytes);
    let mut is_new = true;
    for i in 0..most.min(bytes.len()) {
        if i % grain == 0 {
            is_new = dice.below(4) < share;
        }
        match at.checked_add(i) {
            Some(place) if place < file.len() => {
                if is_new {
                    file[place] = bytes[i];
                }
            }
            _ => file.push(if is_new { bytes[i] } else { 0 })?,
        }
    }
    Ok(())
}

// The same, done in part: to any length, and each byte old, new or neither.
pub(crate) fn tear(
    file: &mut Vec<u8>,
    at: usize,
    bytes: &[u8],
    dice: &mut Dice,
) -> Result<(), AllocError> {
    let way = dice.below(6);
    if way == 0 {
        return Ok(());
    }
    let most = if way <= 2 {
        bytes.len()
    } else {
        dice.below(bytes.len().saturating_add(1))
    };
    let grain = grain_of(bytes);
    let mut kind = 0;
    let mut is_kept = false;
    for i in 0..most.min(bytes.len()) {
        if i % grain == 0 {
            kind = dice.below(4);
            is_kept = way != 1 && dice.below(3) == 0;
        }
        let byte = match (way, kind) {
            (5, 0) => (dice.below(256) % 256) as u8,
            (4 | 5, 1) => 0,
            _ => bytes[i],
        };
        match at.checked_add(i) {
            Some(place) if place < file.len() => {
                if !is_kept {
                    file[place] = byte;
                }
            }
            _ => file.push(byte)?,
        }
    }
    Ok(())
}

pub(crate) fn cut_some(file: &mut Vec<u8>, len: usize, dice: &mut Dice) {
    if len < file.len() {
        let more = dice.below((file.len() - len).saturating_add(1));
        let keep = len.saturating_add(more);
        if dice.below(3) > 0 {
            file.truncate(keep);
        } else {
            file.truncate(len);
        }
    }
}
