ghost use Rattle.std.specs.Prelude.{◌≡◌, ◌+◌, ◌≤◌, ◌++◌, [], length, decimal};
ghost use Rattle.arrayvec.specs.ArrayVec.{array_vec_len};
ghost use Rattle.envy_trace.specs.Stat.{cost_of, stat_bytes};

use crate::text::{push_number, push_text};
use arrayvec::ArrayVec;
use envy_array::Counts;

/// The cost of cleaning in hundredths: how many pages the cleaner wrote for 100 pages flushed, rounded
/// down, and 0 where none was flushed. The cleaning cost of the paper, times 100.
pub fn cost(counts: &Counts) -> u128
    ensures { result ≡ cost_of counts.now }
{
    if counts.flushes == 0 {
        0
    } else {
        let written = u128::from(counts.copies) + u128::from(counts.moves);
        100 * written / u128::from(counts.flushes)
    }
}

/// Writes the line `stat`, without a newline, into an empty buffer.
pub fn stat_text(counts: &Counts, out: &mut ArrayVec<u8, 512>)
    requires { out.old.items ≡ [] }
    ensures text { out.new.items ≡ stat_bytes counts.now }
    ensures short { array_vec_len out.new ≤ 252 }
{
    push_text(out, b"stat");
    push_count(out, b" hits ", counts.hits);
    push_count(out, b" misses ", counts.misses);
    push_count(out, b" flushes ", counts.flushes);
    push_count(out, b" copies ", counts.copies);
    push_count(out, b" moves ", counts.moves);
    push_count(out, b" erases ", counts.erases);
    push_count(out, b" swaps ", counts.swaps);
    push_text(out, b" cost ");
    push_wide(out, cost(counts));
}

fn push_count(out: &mut ArrayVec<u8, 512>, name: &[u8], count: u64)
    requires name { length name.now ≤ 9 }
    requires room { array_vec_len out.old + 29 ≤ 512 }
    ensures text { out.new.items ≡ out.old.items ++ name.now ++ decimal count }
    ensures len { array_vec_len out.new ≤ array_vec_len out.old + 29 }
{
    push_text(out, name);
    push_number(out, count);
}

// Division is slow at 128 bits: only the digits that 64 bits can't hold are made there.
fn push_wide(out: &mut ArrayVec<u8, 512>, number: u128)
    requires { array_vec_len out.old + 39 ≤ 512 }
    ensures text { out.new.items ≡ out.old.items ++ decimal number }
    ensures len { array_vec_len out.new ≤ array_vec_len out.old + 39 }
{
    if number <= u64::MAX as u128 {
        push_number(out, number as u64);
    } else {
        push_wide(out, number / 10);
        out.push(b'0' + (number % 10) as u8);
    }
}
