ghost use Rattle.envy_calls.specs.Reserves.{DoesWear};

use crate::code::Code;
use envy_base::Board;
use envy_memory::Memory;

/// How many segments in reserve are retired, since an erase of theirs or of the segment that they took the place of was
/// bad, and how many are left. Together they are all that are in reserve.
pub fn worn<B: Board>(slot: &Option<Memory<B>>, retired: &mut u32, left: &mut u32) -> u32
    ensures { DoesWear slot.now retired.old left.old result retired.new left.new }
{
    let Some(memory) = slot else {
        return Code::Empty.number();
    };
    let Ok(found) = memory.worn() else {
        return Code::Off.number();
    };
    *retired = found.retired;
    *left = found.left;
    Code::Done.number()
}
