ghost use Rattle.std.specs.Prelude.{◌≡◌, ◌<◌, ◌≤◌, [], ◌∷◌, length, not, position, MatchOption, MatchResult};
ghost use Rattle.std.specs.Option.{option_map};
ghost use Rattle.envy_trace.specs.Grammar.{is_blank, pieces, without_return, fields_of, command_in};

use crate::fault::LineFault;

/// The most bytes that a line has, its newline apart.
const MOST_BYTES: usize = 120;

/// Splits the command word off a line: it, and the bytes after it. `None` where the line is empty or a
/// comment. The fault is `Long`.
#[inline(always)]
pub fn split_command(line: &[u8]) -> Result<Option<(&[u8], &[u8])>, LineFault>
    ensures { MatchResult result
        (λ found. (length line.now ≤ 120)
        × (command_in (fields_of line.now) ≡ option_map (λ c. (c.0.now, pieces c.1.now)) found))
        (λ fault. (fault ≡ LineFault.Long) × (120 < length line.now)) }
{
    if line.len() > MOST_BYTES {
        return Err(LineFault::Long);
    }
    match next_field(without_return(line)) {
        Some((name, rest)) if !name.starts_with(b"#") => Ok(Some((name, rest))),
        _ => Ok(None),
    }
}

// One carriage return at the very end doesn't belong to the line.
#[inline(always)]
fn without_return(line: &[u8]) -> &[u8]
    ensures { result.now ≡ without_return line.now }
{
    line.strip_suffix(b"\r").unwrap_or(line)
}

/// Splits off the first field: it, and the bytes after it. `None` where no field is left.
#[inline(always)]
pub fn next_field(bytes: &[u8]) -> Option<(&[u8], &[u8])>
    ensures { MatchOption result (pieces bytes.now ≡ [])
        (λ found. pieces bytes.now ≡ found.0.now ∷ pieces found.1.now) }
{
    let start = field_start(bytes)?;
    let (_, rest) = bytes.split_at(start);
    let end = field_end(rest).unwrap_or(rest.len());
    Some(rest.split_at(end))
}

/// Where the first field starts, if there is one.
#[inline(always)]
pub fn field_start(bytes: &[u8]) -> Option<usize>
    ensures { result ≡ position (λ byte. not (is_blank byte)) bytes.now }
{
    bytes.iter().position(|byte| !is_blank(*byte))
}

#[inline(always)]
fn field_end(bytes: &[u8]) -> Option<usize>
    ensures { result ≡ position is_blank bytes.now }
{
    bytes.iter().position(|byte| is_blank(*byte))
}

/// A space or a tab.
#[inline(always)]
pub fn is_blank(byte: u8) -> bool
    ensures { result ≡ is_blank byte }
{
    byte == b' ' || byte == b'\t'
}
