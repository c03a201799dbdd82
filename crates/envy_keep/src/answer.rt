ghost use Rattle.std.specs.Prelude.{◌≡◌, IfOk, IsTrue, Err};
ghost use Rattle.envy_keep.specs.Answers.{AnswersKeep, SyncsTo};
ghost use Rattle.envy_trace.specs.declared.keep_line.KeepLine.TheVariants.{Trace};
ghost use Rattle.envy_run.specs.Answers.{line_beside};
ghost use Rattle.envy_run.specs.declared.answers.BoardRequest.{BoardRequest};

use envy_base::Off;
use envy_device::Replaceable;
use envy_journal::Steady;
use envy_memory::Memory;
use envy_run::{BoardRequest, answer};
use envy_synced::Kept;
use envy_trace::{KeepLine, KeepReply, Reply};

/// Brings all that was done to the disk. `Synced` is the answer only behind a sync that succeeded; where it failed power is
/// off.
fn sync<B: Steady, D: Replaceable>(memory: &mut Memory<Kept<B, D>>) -> KeepReply
    requires { IsTrue memory.old.chart.on }
    ensures { SyncsTo result memory.old memory.new }
{
    match memory.sync() {
        Ok(()) => KeepReply::Synced,
        Err(Off) => KeepReply::Trace(Reply::Lost),
    }
}

/// Does one line, and the reply. What else a line asks for is handed back, and nothing changes.
pub(crate) fn answer_kept<B: Steady, D: Replaceable>(
    memory: &mut Memory<Kept<B, D>>,
    line: &KeepLine,
) -> Result<KeepReply, BoardRequest>
    requires { IsTrue memory.old.chart.on }
    ensures answers { IfOk result (λ reply. AnswersKeep line.now reply memory.old memory.new) }
    ensures beside { (other : BoardRequest) → result ≡ Err other → (line.now ≡ Trace (line_beside other))
        × (memory.new ≡ memory.old) }
{
    match *line {
        KeepLine::Trace(ref plain) => match answer(memory, plain) {
            Ok(reply) => Ok(KeepReply::Trace(reply)),
            Err(beside) => Err(beside),
        },
        KeepLine::Sync => Ok(sync(memory)),
    }
}
