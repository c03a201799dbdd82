ghost use Rattle.std.specs.Prelude.{◌≡◌, ◌<◌, ◌≤◌, ◌^◌, IfOk, length, replicate, false, []};
ghost use Rattle.std.proofs.Props.{props};
ghost use Rattle.envy_array.specs.Words.{IsSheet};
ghost use Rattle.envy_heap.specs.Sheets.{sheet_of};

use envy_array::Words;
use envy_base::{NoMemory, Off, PAGE_WORDS, Trouble};
use std::alloc::Global;

/// Words over plain vectors, which power never leaves and whose puts never fail.
#[derive(Drop)]
pub struct VecWords {
    words: Vec<u64>,
    kept: Vec<u64>,
    started: bool,
    /// The pages put in the transaction are the first `used` of these.
    pages: Vec<u32>,
    used: usize,
    ghost sound: { IsSheet (sheet_of words.items kept.items started pages.items used) } by { Prim.hlevel props },
    ghost within: { used ≤ length pages.items },
    ghost small: { length pages.items < 2 ^ 32 },
}

impl VecWords {
    ghost use Rattle.envy_heap.specs.Vectors.{vec_sheet};

    /// `size` words, all 0, with no transaction open. A transaction may put words in `room` pages. It
    /// takes all memory that it ever needs.
    pub fn new(alloc: Global, size: u32, room: u32) -> Result<VecWords, NoMemory>
        ensures words { IfOk result (λ v. (vec_sheet v).words ≡ replicate size 0) }
        ensures shut { IfOk result (λ v. (vec_sheet v).started ≡ false) }
        ensures room { IfOk result (λ v. (vec_sheet v).room ≡ room) }
    {
        Ok(VecWords {
            words: vec![in alloc; 0; size as usize]?,
            kept: vec![in alloc; 0; size as usize]?,
            started: false,
            pages: vec![in alloc; 0; room as usize]?,
            used: 0,
        })
    }
}

impl Words for VecWords {
    ghost use Rattle.envy_heap.specs.Vectors.{vec_sheet};

    ghost sheet = { vec_sheet };

    ghost lawful = { λ words. words.sound };

    fn size(&self) -> u32 {
        self.words.len() as u32
    }

    fn room(&self) -> u32 {
        self.pages.len() as u32
    }

    fn load(&mut self, a: u32) -> Result<u64, Off> {
        Ok(self.words[a as usize])
    }

    fn start(&mut self) -> Result<(), Off> {
        self.used = 0;
        self.started = true;
        Ok(())
    }

    fn put(&mut self, a: u32, w: u64) -> Result<(), Trouble> {
        self.words[a as usize] = w;
        let page = a / PAGE_WORDS;
        if !self.pages[..self.used].contains(&page) {
            self.pages[self.used] = page;
            self.used += 1;
        }
        Ok(())
    }

    fn finish(&mut self) -> Result<(), Off> {
        self.kept.copy_from_slice(&self.words);
        self.started = false;
        Ok(())
    }

    fn undo(&mut self) -> Result<(), Off> {
        self.words.copy_from_slice(&self.kept);
        self.started = false;
        Ok(())
    }
}
