//! Laws of runs.

ghost use Rattle.envy_run.specs.Equal.{WriteAlike};

use envy_array::step_gives_one_answer;

/// The memory and the plain machine write the same bytes for one setup and one trace without lines of
/// counters, where both do it to its end and nothing failed but power cut by hand.
pub fn memory_and_plain_machine_write_alike()
    ensures { WriteAlike }
{
    step_gives_one_answer();
}
