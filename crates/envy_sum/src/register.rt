ghost use Rattle.std.specs.Prelude.{◌≡◌, ◌<◌, ◌≤◌};
ghost use Rattle.std.specs.Int.{bit_at};
ghost use Rattle.envy_sum.specs.Register.{taken_in, register_after, bytes_sum};

// The polynomial 1EDC6F41 with its bits in reverse order, since the lowest bit comes first.
const POLYNOMIAL: u32 = 0x82F6_3B78;

// What the register starts as, and what is xored in at the end.
pub(crate) const ALL_ONES: u32 = u32::MAX;

// The register after one bit.
fn after_bit(register: u32, bit: u32) -> u32
    requires { bit < 2 }
    ensures { result ≡ taken_in register bit }
{
    if register % 2 == bit {
        register / 2
    } else {
        register / 2 ^ POLYNOMIAL
    }
}

// The register after the lowest bits of a word, `count` of them.
pub(crate) fn after_bits(register: u32, word: u64, count: u32) -> u32
    requires { count ≤ 64 }
    ensures { result ≡ register_after register (bit_at word) count }
{
    let mut after = register;
    for i in 0..count {
        after = after_bit(after, ((word >> i) & 1) as u32);
    }
    after
}

/// CRC-32C of bytes, made bit by bit.
pub fn sum_of_bytes(bytes: &[u8]) -> u32
    ensures { result ≡ bytes_sum bytes.now }
{
    let mut register = ALL_ONES;
    for byte in bytes {
        register = after_bits(register, u64::from(*byte), 8);
    }
    register ^ ALL_ONES
}
