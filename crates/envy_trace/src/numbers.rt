ghost use Rattle.std.specs.Prelude.{◌≡◌, ◌^◌, ◌<◌, ◌≤◌, [], ◌∷◌, Ok, Err, if◌then◌else◌, length, slice_index, take, IsTrue, IfOk, IfSome, MatchResult};
ghost use Rattle.std.specs.Option.{SomeIff};
ghost use Rattle.std.specs.Str.{all_ascii_digits};
ghost use Rattle.std.specs.Str.Parse.{AllDigits, digits_value};
ghost use Rattle.envy_trace.specs.Grammar.{is_blank, pieces, lies_in, number_in, none, one, two, three};

use crate::bounds::Bounds;
use crate::fault::LineFault;
use crate::fields::{field_start, is_blank, next_field};

/// So many decimal digits fit 64 bits, whatever they are.
const SAFE_DIGITS: usize = 19;

/// Reads a number: one decimal digit or more, of a value within the bounds. Leading zeros make no
/// difference. The fault is `Number`.
#[inline(always)]
pub fn read_number(field: &[u8], bounds: Bounds) -> Result<u64, LineFault>
    ensures { result ≡ number_in bounds field.now }
{
    match value(field) {
        Some(n) if !field.is_empty() && bounds.least <= n && n <= bounds.greatest => Ok(n),
        _ => Err(LineFault::Number),
    }
}

// A number, where it lies within the bounds.
#[inline(always)]
fn within(n: u64, bounds: Bounds) -> Result<u64, LineFault>
    ensures { result ≡ (if lies_in bounds n then Ok n else Err LineFault.Number) }
{
    if bounds.least <= n && n <= bounds.greatest {
        Ok(n)
    } else {
        Err(LineFault::Number)
    }
}

// What decimal digits come to, where they are so few that 64 bits always hold it.
#[inline(always)]
fn short_value(field: &[u8]) -> Option<u64>
    requires { length field.now ≤ 19 }
    ensures { SomeIff result (IsTrue (all_ascii_digits field.now)) (digits_value 10 field.now) }
{
    let mut value: u64 = 0;
    for byte in field {
        if !byte.is_ascii_digit() {
            return None;
        }
        value = 10 * value + u64::from(*byte - b'0');
    }
    Some(value)
}

// What decimal digits come to, within 64 bits.
#[inline(always)]
fn value(field: &[u8]) -> Option<u64>
    ensures { SomeIff result
        (IsTrue (all_ascii_digits field.now) × (digits_value 10 field.now < 2 ^ 64))
        (digits_value 10 field.now) }
{
    let (front, back) = field.split_at(field.len().min(SAFE_DIGITS));
    let mut value = short_value(front)?;
    for byte in back {
        if !byte.is_ascii_digit() {
            return None;
        }
        value = value.checked_mul(10)?.checked_add(u64::from(*byte - b'0'))?;
    }
    Some(value)
}

// The first field, and the bytes after it.
#[inline(always)]
fn need_field(rest: &[u8]) -> Result<(&[u8], &[u8]), LineFault>
    ensures { MatchResult result
        (λ found. pieces rest.now ≡ found.0.now ∷ pieces found.1.now)
        (λ fault. (fault ≡ LineFault.Count) × (pieces rest.now ≡ [])) }
{
    next_field(rest).ok_or(LineFault::Count)
}

// The digits that the bytes begin with, at most so many that 64 bits hold them: what they come to, and how many
// they are.
#[inline(always)]
fn front_number(bytes: &[u8]) -> (u64, usize)
    ensures within { result.1 ≤ length bytes.now }
    ensures digits { AllDigits 10 (take result.1 bytes.now) }
    ensures value { result.0 ≡ digits_value 10 (take result.1 bytes.now) }
{
    let most = bytes.len().min(SAFE_DIGITS);
    let (mut value, mut end) = (0, 0);
    while end < most {
        let byte = bytes[end];
        if !byte.is_ascii_digit() {
            return (value, end);
        }
        value = 10 * value + u64::from(byte - b'0');
        end += 1;
    }
    (value, end)
}

// Whether a field that begins with the bytes ends before one of them, or behind the last.
#[inline(always)]
fn ends_at(bytes: &[u8], end: usize) -> bool
    requires { end ≤ length bytes.now }
    ensures { IsTrue result → end < length bytes.now → IsTrue (is_blank (slice_index bytes.now end)) }
{
    end == bytes.len() || is_blank(bytes[end])
}

// The first field, where it is a few digits: it, what they come to, and the bytes after it. One pass is made over
// its bytes.
#[inline(always)]
fn short_number(bytes: &[u8]) -> Option<(&[u8], u64, &[u8])>
    ensures { IfSome result (λ found. (pieces bytes.now ≡ found.0.now ∷ pieces found.2.now)
        × (0 < length found.0.now) × IsTrue (all_ascii_digits found.0.now)
        × (found.1 ≡ digits_value 10 found.0.now)) }
{
    let start = field_start(bytes)?;
    let (_, rest) = bytes.split_at(start);
    let (value, end) = front_number(rest);
    if end == 0 || !ends_at(rest, end) {
        return None;
    }
    let (field, after) = rest.split_at(end);
    Some((field, value, after))
}

// The first field: it, the number that it is within the bounds, or why it is none, and the bytes after it.
#[inline(always)]
fn need_number(
    rest: &[u8],
    bounds: Bounds,
) -> Result<(&[u8], Result<u64, LineFault>, &[u8]), LineFault>
    ensures { MatchResult result
        (λ found. (pieces rest.now ≡ found.0.now ∷ pieces found.2.now) × (found.1 ≡ number_in bounds found.0.now))
        (λ fault. (fault ≡ LineFault.Count) × (pieces rest.now ≡ [])) }
{
    if let Some((field, value, after)) = short_number(rest) {
        return Ok((field, within(value, bounds), after));
    }
    let (field, after) = need_field(rest)?;
    Ok((field, read_number(field, bounds), after))
}

/// Nothing is left. The fault is `Count`.
#[inline(always)]
pub fn no_number(rest: &[u8]) -> Result<(), LineFault>
    ensures { result ≡ none tt (pieces rest.now) }
{
    match next_field(rest) {
        None => Ok(()),
        Some(_) => Err(LineFault::Count),
    }
}

/// The one number that is left. The fault is `Count` or `Number`.
#[inline(always)]
pub fn one_number(rest: &[u8], bounds: Bounds) -> Result<u64, LineFault>
    ensures value { result ≡ one bounds (λ x. x) (pieces rest.now) }
    ensures within { IfOk result (λ x. x ≤ bounds.greatest) }
{
    let (_, first, rest) = need_number(rest, bounds)?;
    no_number(rest)?;
    first
}

/// The two numbers that are left. The fault is `Count` or `Number`.
#[inline(always)]
pub fn two_numbers(rest: &[u8], first: Bounds, second: Bounds) -> Result<(u64, u64), LineFault>
    ensures value { result ≡ two first second (λ x y. (x, y)) (pieces rest.now) }
    ensures within { IfOk result (λ p. (p.0 ≤ first.greatest) × (p.1 ≤ second.greatest)) }
{
    let (_, x, rest) = need_number(rest, first)?;
    let (_, y, rest) = need_number(rest, second)?;
    no_number(rest)?;
    Ok((x?, y?))
}

/// The three numbers that are left. The fault is `Count` or `Number`.
pub fn three_numbers(
    rest: &[u8],
    first: Bounds,
    second: Bounds,
    third: Bounds,
) -> Result<(u64, u64, u64), LineFault>
    ensures value { result ≡ three first second third (λ x y z. (x, y, z)) (pieces rest.now) }
    ensures within { IfOk result
        (λ p. (p.0 ≤ first.greatest) × (p.1 ≤ second.greatest) × (p.2 ≤ third.greatest)) }
{
    let (_, x, rest) = need_number(rest, first)?;
    let (_, y, rest) = need_number(rest, second)?;
    let (_, z, rest) = need_number(rest, third)?;
    no_number(rest)?;
    Ok((x?, y?, z?))
}
