// How a map begins.
ghost use Rattle.std.specs.Prelude.{◌≡◌, ◌+◌, ◌≤◌, length, false, IsTrue, OnOk};
ghost use Rattle.std.specs.Option.{ForSome};
ghost use Rattle.envy_array.specs.Words.{Fails, Keeps, OnPage, Spends, Works};
ghost use Rattle.envy_calls.specs.Codes.{number_of};
ghost use Rattle.envy_index_calls.specs.Loading.{Marks, marking_puts};
ghost use Rattle.envy_index_calls.specs.Ranged.{marked};
ghost use Rattle.envy_index_calls.specs.Indexed.{Blanks, DoesCreate, EndsTry, HoldsArray, IsTried, blanked, creation_puts, made_code};

use crate::words::{return_words, words_of};
use envy_array::Words;
use envy_base::{Board, Trouble};
use envy_calls::Code;
use envy_memory::Memory;

// So many words at the front are 0 where a map has no pairs.
const FRONT: u32 = 4;

/// The word after them marks a map that was made in a range: `envy map` in bytes, the lowest first.
pub const MAP_MARK: u64 = 0x7061_6d20_7976_6e65;

// Makes the words at the front 0, in the open transaction. They lie in one page.
fn blank<W: Words>(words: &mut W) -> Result<(), Trouble>
    requires begun { IsTrue (W.sheet words.old).started }
    requires room { length (W.sheet words.old).pages + 1 ≤ (W.sheet words.old).room }
    requires size { 4 ≤ length (W.sheet words.old).words }
    ensures page { OnPage 0 (W.sheet words.old) (W.sheet words.new) }
    ensures spends { Spends 4 (W.sheet words.old) (W.sheet words.new) }
    ensures fails { Fails (W.sheet words.old) result (W.sheet words.new) }
    ensures blanks { OnOk result ((W.sheet words.new).words ≡ blanked (W.sheet words.old).words) }
{
    for a in 0..FRONT {
        words.put(a, 0)?;
    }
    Ok(())
}

/// The same, and marks the map.
pub(crate) fn mark_blank<W: Words>(words: &mut W) -> Result<(), Trouble>
    requires begun { IsTrue (W.sheet words.old).started }
    requires room { length (W.sheet words.old).pages + 1 ≤ (W.sheet words.old).room }
    requires size { 5 ≤ length (W.sheet words.old).words }
    ensures works { Works 1 (W.sheet words.old) (W.sheet words.new) }
    ensures spends { Spends 5 (W.sheet words.old) (W.sheet words.new) }
    ensures fails { Fails (W.sheet words.old) result (W.sheet words.new) }
    ensures marks { OnOk result ((W.sheet words.new).words ≡ marked (W.sheet words.old).words) }
{
    blank(words)?;
    words.put(FRONT, MAP_MARK)
}

// Ends the transaction in which that was tried: keeps it where it is done, and undoes it else.
fn end<W: Words>(words: &mut W, done: Result<(), Trouble>) -> Result<(), Trouble>
    requires tried { IsTried done (W.sheet words.old) }
    ensures keeps { Keeps (W.sheet words.old) (W.sheet words.new) }
    ensures spends { Spends 0 (W.sheet words.old) (W.sheet words.new) }
    ensures shut { (W.sheet words.new).started ≡ false }
    ensures ends { EndsTry done (W.sheet words.old) result (W.sheet words.new) }
{
    match done {
        Ok(()) => words.finish()?,
        Err(Trouble::Off) => {}
        Err(Trouble::Bad) => words.undo()?,
    }
    done
}

// Makes a map of no pairs, as a transaction of its own.
fn create_alone<W: Words>(words: &mut W) -> Result<(), Trouble>
    requires shut { (W.sheet words.old).started ≡ false }
    requires room { 1 ≤ (W.sheet words.old).room }
    requires size { 4 ≤ length (W.sheet words.old).words }
    ensures keeps { Keeps (W.sheet words.old) (W.sheet words.new) }
    ensures spends { Spends creation_puts (W.sheet words.old) (W.sheet words.new) }
    ensures shut { (W.sheet words.new).started ≡ false }
    ensures blanks { Blanks (W.sheet words.old) result (W.sheet words.new) }
{
    words.start()?;
    let done = blank(words);
    end(words, done)
}

/// Makes a map of no pairs and marks it, as a transaction of its own.
pub(crate) fn mark_alone<W: Words>(words: &mut W) -> Result<(), Trouble>
    requires shut { (W.sheet words.old).started ≡ false }
    requires room { 1 ≤ (W.sheet words.old).room }
    requires size { 5 ≤ length (W.sheet words.old).words }
    ensures keeps { Keeps (W.sheet words.old) (W.sheet words.new) }
    ensures spends { Spends marking_puts (W.sheet words.old) (W.sheet words.new) }
    ensures shut { (W.sheet words.new).started ≡ false }
    ensures marks { Marks (W.sheet words.old) result (W.sheet words.new) }
{
    words.start()?;
    let done = mark_blank(words);
    end(words, done)
}

// The code of that.
fn told(made: Result<(), Trouble>) -> Code
    ensures { result ≡ made_code made }
{
    match made {
        Ok(()) => Code::Done,
        Err(Trouble::Off) => Code::Off,
        Err(Trouble::Bad) => Code::Bad,
    }
}

/// Makes a map of no pairs, whatever the array holds.
pub fn create<B: Board + Drop>(slot: &mut Option<Memory<B>>) -> Code
    requires { ForSome slot.old HoldsArray }
    ensures { DoesCreate slot.old slot.new (number_of result) }
{
    let mut words = match words_of(slot) {
        Ok(words) => words,
        Err(code) => return code,
    };
    let made = create_alone(&mut words);
    return_words(slot, words);
    told(made)
}
