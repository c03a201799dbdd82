ghost use Rattle.std.specs.Prelude.{◌≡◌, ◌<◌, IfOk, length, replicate, slice_index, slice_set};

use crate::NoMemory;
use std::alloc::Global;
use std::marker::Model;

/// Battery-backed SRAM: 64-bit words, numbered from 0. It keeps them while power is off.
#[derive(Drop)]
pub struct Sram {
    words: Vec<u64>,
}

impl Model for Sram {
    ghost use Rattle.std.specs.Prelude.{ℕ, List};

    ghost Value = { List ℕ };

    ghost view = { λ s. s.words.items };
}

impl Sram {
    /// Makes an SRAM of so many words, all zeros.
    pub fn new(alloc: Global, words: u32) -> Result<Sram, NoMemory>
        ensures { IfOk result (λ sram. sram ≡ replicate words 0) }
    {
        let words = vec![in alloc; 0; words as usize]?;
        Ok(Sram { words })
    }

    /// Word `w`.
    pub fn get(&self, w: u32) -> u64
        requires { w < length self.now }
        ensures { result ≡ slice_index self.now w }
    {
        self.words[w as usize]
    }

    /// Sets word `w` to `v`.
    pub fn put(&mut self, w: u32, v: u64)
        requires { w < length self.old }
        ensures { self.new ≡ slice_set self.old w v }
    {
        self.words[w as usize] = v;
    }
}
