ghost use Rattle.std.specs.Prelude.{◌≡◌, false};
ghost use Rattle.envy_array.specs.Words.{Spends, Keeps};
ghost use Rattle.envy_btree.specs.Answers.{Tried, Ends};

use crate::fault::TreeFault;
use envy_array::Words;
use envy_base::{Off, Trouble};

/// Ends the transaction in which a change was tried: keeps it where it is done, and undoes it else.
pub(crate) fn close<W: Words>(words: &mut W, done: Result<(), Trouble>) -> Result<(), TreeFault>
    requires tried { Tried done (W.sheet words.old) }
    ensures keeps { Keeps (W.sheet words.old) (W.sheet words.new) }
    ensures spends { Spends 0 (W.sheet words.old) (W.sheet words.new) }
    ensures shut { (W.sheet words.new).started ≡ false }
    ensures ends { Ends done (W.sheet words.old) result (W.sheet words.new) }
{
    match done {
        Ok(()) => match words.finish() {
            Ok(()) => Ok(()),
            Err(Off) => Err(TreeFault::Off),
        },
        Err(Trouble::Off) => Err(TreeFault::Off),
        Err(Trouble::Bad) => match words.undo() {
            Ok(()) => Err(TreeFault::Bad),
            Err(Off) => Err(TreeFault::Off),
        },
    }
}
