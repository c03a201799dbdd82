ghost use Rattle.std.specs.Prelude.{◌≡◌, ◌+◌, ◌≤◌, ◌++◌, length, decimal};
ghost use Rattle.arrayvec.specs.ArrayVec.{array_vec_len};

use arrayvec::ArrayVec;
use itoa::write_digits;

/// The most digits that a number of 64 bits has.
const MOST_DIGITS: usize = 20;

/// Appends bytes, for which there is room.
pub fn push_text<const CAP: usize>(out: &mut ArrayVec<u8, CAP>, text: &[u8])
    requires { array_vec_len out.old + length text.now ≤ CAP }
    ensures { out.new.items ≡ out.old.items ++ text.now }
{
    let _ = out.try_extend_from_slice(text);
}

/// Appends a number in decimal digits, without leading zeros. There is room for 20 digits, the most
/// that 64 bits need.
pub fn push_number<const CAP: usize>(out: &mut ArrayVec<u8, CAP>, number: u64)
    requires { array_vec_len out.old + 20 ≤ CAP }
    ensures text { out.new.items ≡ out.old.items ++ decimal number }
    ensures few { length (decimal number) ≤ 20 }
{
    let mut digits = [0u8; MOST_DIGITS];
    let start = write_digits(number, &mut digits, MOST_DIGITS);
    push_text(out, &digits[start..]);
}
