ghost use Rattle.std.specs.Prelude.{None};

use crate::Fence;
use crate::ordered_board::put_word;

/// A fence that notes the word that it was called after.
#[derive(Drop)]
struct Noted {
    word: u64,
    calls: u32,
}

impl Fence for Noted {
    ghost words = { λ _. None };

    fn fence(&mut self, word: &u64) {
        self.word = *word;
        self.calls = self.calls.saturating_add(1);
    }
}

#[test]
fn a_word_is_stored_before_its_fence(rt: HostRuntime) {
    let mut fence = Noted { word: 0, calls: 0 };
    let mut sram = [1, 2, 3];
    put_word(&mut fence, &mut sram, 1, 7);
    assert_eq!(rt; (sram, fence.word, fence.calls), ([1, 7, 3], 7, 1));
}
