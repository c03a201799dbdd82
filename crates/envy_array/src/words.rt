ghost use Rattle.std.specs.Prelude.{◌≡◌, ◌⊎◌, ◌/◌, ◌%◌, ◌+◌, ◌<◌, ◌≤◌, ◌^◌, IsTrue, false, length};
ghost use Rattle.envy_array.specs.Words.{
  Sheet,
  IsSheet,
  Works,
  Spends,
  OnPage,
  Keeps,
  Loads,
  LoadsRun,
  Searches,
  Puts,
  PutsRun,
  Starts,
  Finishes,
  Undoes,
  has,
};

use envy_base::{Off, PAGE_WORDS, Trouble};

/// The place of a key among words that rise: how many are at most it, the last of these, and the greatest number below
/// the next.
#[derive(Clone, Copy)]
pub struct KeyPlace {
    pub index: u32,
    pub low: u64,
    pub top: u64,
}

/// A memory of words of 64 bits, 32 to a page, with one transaction at a time. A transaction may put
/// words in a limited number of pages. Where power fails, the transaction is undone, but one that was
/// being finished may stand. Flash work is bounded in puts, by the most that one put may begin.
pub trait Words {
    ghost sheet: { Self → Sheet };

    /// How many words there are. It never changes.
    fn size(&self) -> u32
        ensures { result ≡ length (sheet self.now).words };

    /// How many pages a transaction may put words in. It never changes.
    fn room(&self) -> u32
        ensures { result ≡ (sheet self.now).room };

    /// The word at address `a`, with what an open transaction put.
    fn load(&mut self, a: u32) -> Result<u64, Off>
        requires { a < length (sheet self.old).words }
        ensures works { Works 0 (sheet self.old) (sheet self.new) }
        ensures spends { Spends 0 (sheet self.old) (sheet self.new) }
        ensures answer { Loads (sheet self.old) a result (sheet self.new) };

    /// The words from address `a` on, as many as there is room for in `into`. After an error nothing is said of `into`
    /// but its length.
    fn load_run(&mut self, a: u32, into: &mut [u64]) -> Result<(), Off>
        requires { a + length into.old ≤ length (sheet self.old).words }
        ensures works { Works 0 (sheet self.old) (sheet self.new) }
        ensures spends { Spends 0 (sheet self.old) (sheet self.new) }
        ensures long { length into.new ≡ length into.old }
        ensures answer { LoadsRun (sheet self.old) a into.new result (sheet self.new) }
    {
        for i in 0..into.len() {
            let word = self.load(a + i as u32)?;
            into[i] = word;
        }
        Ok(())
    }

    /// The place of a key among the `n` words from address `a` on, within one page, which are halved until it is found: of
    /// 31 words five are read. Where none is on one side, `low` or `top` is the bound that was passed. If they don't rise,
    /// it is a place where the words beside it fit the key.
    fn search(&mut self, a: u32, n: u32, key: u64, low: u64, top: u64) -> Result<KeyPlace, Off>
        requires within { a + n ≤ length (sheet self.old).words }
        requires page { a % PAGE_WORDS + n ≤ PAGE_WORDS }
        requires above { low ≤ key }
        requires below { key ≤ top }
        ensures works { Works 0 (sheet self.old) (sheet self.new) }
        ensures spends { Spends 0 (sheet self.old) (sheet self.new) }
        ensures answer { Searches (sheet self.old) a n key low top result (sheet self.new) }
    {
        let mut place = KeyPlace { index: 0, low, top };
        let mut end = n;
        while place.index < end {
            let middle = place.index + (end - place.index) / 2;
            let word = self.load(a + middle)?;
            if key < word {
                end = middle;
                place.top = word - 1;
            } else {
                place.index = middle + 1;
                place.low = word;
            }
        }
        Ok(place)
    }

    /// Opens a transaction. It counts as a put, so a bound on work bounds the transactions too.
    fn start(&mut self) -> Result<(), Off>
        requires { (sheet self.old).started ≡ false }
        ensures keeps { Keeps (sheet self.old) (sheet self.new) }
        ensures spends { Spends 1 (sheet self.old) (sheet self.new) }
        ensures answer { Starts (sheet self.old) result (sheet self.new) };

    /// Puts `w` at address `a` in the open transaction. `Bad` leaves the words as they were.
    fn put(&mut self, a: u32, w: u64) -> Result<(), Trouble>
        requires address { a < length (sheet self.old).words }
        requires begun { IsTrue (sheet self.old).started }
        requires room { IsTrue (has (sheet self.old).pages (a / PAGE_WORDS))
            ⊎ (length (sheet self.old).pages < (sheet self.old).room) }
        ensures works { OnPage (a / PAGE_WORDS) (sheet self.old) (sheet self.new) }
        ensures spends { Spends 1 (sheet self.old) (sheet self.new) }
        ensures answer { Puts (sheet self.old) a w result (sheet self.new) };

    /// Puts the words of `list` at address `a` and behind it, within one page. After `Bad` those before the word at which it
    /// came are put.
    fn put_run(&mut self, a: u32, list: &[u64]) -> Result<(), Trouble>
        requires within { a + length list.now ≤ length (sheet self.old).words }
        requires page { a % PAGE_WORDS + length list.now ≤ PAGE_WORDS }
        requires begun { IsTrue (sheet self.old).started }
        requires room { IsTrue (has (sheet self.old).pages (a / PAGE_WORDS))
            ⊎ (length (sheet self.old).pages < (sheet self.old).room) }
        ensures works { OnPage (a / PAGE_WORDS) (sheet self.old) (sheet self.new) }
        ensures spends { Spends (length list.now) (sheet self.old) (sheet self.new) }
        ensures answer { PutsRun (sheet self.old) a list.now result (sheet self.new) }
    {
        for i in 0..list.len() {
            self.put(a + i as u32, list[i])?;
        }
        Ok(())
    }

    /// Keeps what the open transaction put, and closes it. After `Off` it stands or is undone.
    fn finish(&mut self) -> Result<(), Off>
        requires { IsTrue (sheet self.old).started }
        ensures keeps { Keeps (sheet self.old) (sheet self.new) }
        ensures spends { Spends 0 (sheet self.old) (sheet self.new) }
        ensures answer { Finishes (sheet self.old) result (sheet self.new) };

    /// Takes back what the open transaction put, and closes it.
    fn undo(&mut self) -> Result<(), Off>
        requires { IsTrue (sheet self.old).started }
        ensures keeps { Keeps (sheet self.old) (sheet self.new) }
        ensures spends { Spends 0 (sheet self.old) (sheet self.new) }
        ensures answer { Undoes (sheet self.old) result (sheet self.new) };

    ghost lawful: { (words : Self) → IsSheet (sheet words) };
}
