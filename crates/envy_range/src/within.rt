ghost use Rattle.std.specs.Prelude.{◌≡◌, ◌≤◌, ◌+◌, ◌%◌, length};
ghost use Rattle.envy_base.specs.declared.page.TheConstants.{PAGE_WORDS};
ghost use Rattle.envy_range.specs.Ranges.{within};

use envy_array::{KeyPlace, Words};
use envy_base::{Off, Trouble};

/// The words of a range, as a memory of words that begins at address 0. Its pages are the range's, and
/// a transaction is the memory's own: what it has put outside the range counts against its room too.
#[derive(Drop)]
pub struct Within<W: Words> {
    words: W,
    first: u32,
    count: u32,
    ghost starts: { first % PAGE_WORDS ≡ 0 },
    ghost whole: { count % PAGE_WORDS ≡ 0 },
    ghost fits: { first + count ≤ length (W.sheet words).words },
}

impl<W: Words> Within<W> {
    /// The `count` words from `first` on, whether a transaction is open or not.
    pub fn of(words: W, first: u32, count: u32) -> Within<W>
        requires starts { first % PAGE_WORDS ≡ 0 }
        requires whole { count % PAGE_WORDS ≡ 0 }
        requires fits { first + count ≤ length (W.sheet words).words }
        ensures words { result.words ≡ words }
        ensures first { result.first ≡ first }
        ensures count { result.count ≡ count }
    {
        Within {
            words,
            first,
            count,
        }
    }

    /// Gives the words back.
    pub fn into_words(self) -> W
        ensures same { result ≡ self.words }
        ensures fits { self.first + self.count ≤ length (W.sheet result).words }
    {
        let Within {
            words,
            first: _,
            count: _,
        } = self;
        words
    }
}

impl<W: Words> Words for Within<W> {
    ghost use Rattle.envy_range.specs.Lawful.{lawful_view};

    ghost sheet = { λ v. within v.first v.count (W.sheet v.words) };

    ghost lawful = { λ v. lawful_view v.first v.count (W.sheet v.words) v.fits (W.lawful v.words) };

    fn size(&self) -> u32 {
        self.count
    }

    fn room(&self) -> u32 {
        self.words.room()
    }

    fn load(&mut self, a: u32) -> Result<u64, Off> {
        self.words.load(self.first + a)
    }

    fn load_run(&mut self, a: u32, into: &mut [u64]) -> Result<(), Off> {
        self.words.load_run(self.first + a, into)
    }

    fn search(&mut self, a: u32, n: u32, key: u64, low: u64, top: u64) -> Result<KeyPlace, Off> {
        self.words.search(self.first + a, n, key, low, top)
    }

    fn start(&mut self) -> Result<(), Off> {
        self.words.start()
    }

    fn put(&mut self, a: u32, w: u64) -> Result<(), Trouble> {
        self.words.put(self.first + a, w)
    }

    fn put_run(&mut self, a: u32, list: &[u64]) -> Result<(), Trouble> {
        if list.is_empty() {
            return Ok(());
        }
        self.words.put_run(self.first + a, list)
    }

    fn finish(&mut self) -> Result<(), Off> {
        self.words.finish()
    }

    fn undo(&mut self) -> Result<(), Off> {
        self.words.undo()
    }
}
