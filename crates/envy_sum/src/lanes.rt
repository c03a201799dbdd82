ghost use Rattle.std.specs.Prelude.{◌≡◌, ◌<◌, ◌≤◌, ◌++◌, IfOk, map, bit_xor};
ghost use Rattle.envy_sum.specs.Lanes.{IsLane};

use crate::NoMemory;
use crate::register::after_bits;
use std::alloc::Global;

// Appends each of the entries, xored with `turned`.
fn doubled(mut entries: Vec<u32>, turned: u32) -> Result<Vec<u32>, NoMemory>
    ensures { IfOk result (λ grown. grown.items ≡ entries.items ++ map (λ entry. bit_xor entry turned) entries.items) }
{
    for i in 0..entries.len() {
        entries.push(entries[i] ^ turned)?;
    }
    Ok(entries)
}

// The lane of the values of `width` bits, each followed by bits 0 up to `bits` in all.
pub(crate) fn lane(alloc: Global, width: u32, bits: u32) -> Result<Vec<u32>, NoMemory>
    requires width { width < 32 }
    requires bits { bits ≤ 64 }
    ensures { IfOk result (λ entries. IsLane width bits entries.items) }
{
    let mut entries = Vec::with_capacity(alloc, 1 << width)?;
    entries.push(0)?;
    for bit in 0..width {
        entries = doubled(entries, after_bits(1 << bit, 0, bits))?;
    }
    Ok(entries)
}
