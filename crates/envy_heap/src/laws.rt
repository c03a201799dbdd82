ghost use Rattle.std.specs.Prelude.{◌≡◌, ◌≤◌, ◌<◌, ℕ, List, [], ◌∷◌, length, replicate};
ghost use Rattle.envy_heap.specs.Examples.{nine, with_first};
ghost use Rattle.envy_heap.specs.Pieces.{IsHeap, at, handed, pieces};

/// No word belongs to two pieces, and each piece lies within the words.
pub fn pieces_never_overlap()
    ensures apart { (p q i j : ℕ) → i < 64 → j < 64 → at p i ≡ at q j → (p ≡ q) × (i ≡ j) }
    ensures within { (words : List ℕ) (p i : ℕ) → p < pieces words → i < 64 → at p i < length words }
{}

/// The words of a heap tell which pieces are free.
pub fn free_pieces_are_known()
    ensures { (words free others : List ℕ) → IsHeap words free → IsHeap words others → free ≡ others }
{}

/// Words that are all 0 are a heap of which no piece is handed out.
pub fn zeros_are_a_heap()
    ensures heap { (size : ℕ) → 640 ≤ size → IsHeap (replicate size 0) [] }
    ensures none { (size p : ℕ) → handed (replicate size 0) [] p ≡ 0 }
{}

/// Words made by hand that break one rule are no heap: one piece more handed out than there are, a word too few, free
/// pieces that go round in a circle, and a free piece that was never handed out.
pub fn broken_words_are_no_heap()
    ensures many { (free : List ℕ) → IsHeap (nine (0 ∷ 0 ∷ 10 ∷ [])) free → ⊥ }
    ensures short { (free : List ℕ) → IsHeap (replicate 639 0) free → ⊥ }
    ensures circle { (free : List ℕ) → IsHeap (with_first (0 ∷ 1 ∷ 1 ∷ 0 ∷ []) 1) free → ⊥ }
    ensures never_out { (free : List ℕ) → IsHeap (nine (0 ∷ 1 ∷ 0 ∷ [])) free → ⊥ }
{}
