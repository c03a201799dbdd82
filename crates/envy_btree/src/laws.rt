ghost use Rattle.std.specs.Prelude.{◌≡◌, ◌↔◌, ◌+◌, ◌*◌, ◌<◌, ◌≤◌, ℕ, List, [], ◌∷◌, length, replicate, slice_index, Ok, Err};
ghost use Rattle.envy_trace.specs.declared.fault.LineFault.{LineFault};
ghost use Rattle.envy_btree.specs.declared.line.IndexLine.{IndexLine};
ghost use Rattle.envy_btree.specs.Grammar.{index_line_of};
ghost use Rattle.envy_btree.specs.Spelling.{ReadsIndex};
ghost use Rattle.envy_heap.specs.Pieces.{IsHeap};
ghost use Rattle.envy_btree.specs.Examples.{one_leaf, two_levels, row_of, named_twice, uneven, idle_piece, free_root, too_many, crowded, one_child, crossed, three_levels};
ghost use Rattle.envy_btree.specs.Index.{IsIndex};
ghost use Rattle.envy_btree.specs.Nearest.{Scans, pairs_from};
ghost use Rattle.envy_btree.specs.Rules.{ObeysRules};

/// What is read is spelled so, and what is spelled so is read. Only its length makes a line too long.
pub fn index_grammar_holds_both_ways()
    ensures spelled { (bytes : List ℕ) (line : IndexLine) → (index_line_of bytes ≡ Ok line) ↔ ReadsIndex bytes line }
    ensures long { (bytes : List ℕ) → (index_line_of bytes ≡ Err LineFault.Long) ↔ (120 < length bytes) }
{}

/// Words that stand for a map, with a root, obey each rule of the tree. Words that break one stand for no map.
pub fn maps_obey_the_rules()
    ensures { (words free : List ℕ) (root : ℕ) (es : List (ℕ × ℕ)) → IsIndex words es → IsHeap words free
        → slice_index words 0 ≡ root + 1 → ObeysRules words free root es }
{}

/// Words made by hand that stand for a map: one leaf, and two levels at the least fill.
pub fn hand_made_words_are_maps()
    ensures leaf { IsIndex (one_leaf 1 (5 ∷ []) (50 ∷ [])) ((5, 50) ∷ []) }
    ensures levels { IsIndex (two_levels 15 15) (row_of 0 30) }
{}

/// Words made by hand that break one rule stand for no map: a leaf of 14 pairs under a root or of 32, a key
/// of the root that is one too small or too large, keys that fall in a leaf, another number of pairs, a
/// piece named twice, a leaf deeper than another, a piece handed out that is no node, a root that is free,
/// one pair more than the pieces have room for, a root of one child, keys that fall in a root, and inner
/// nodes of 15 children under a root.
pub fn broken_words_are_no_map()
    ensures leaf { (es : List (ℕ × ℕ)) → (IsIndex (two_levels 14 14) es → ⊥) × (IsIndex crowded es → ⊥) }
    ensures key { (es : List (ℕ × ℕ)) → (IsIndex (two_levels 15 14) es → ⊥)
        × (IsIndex (two_levels 15 16) es → ⊥) }
    ensures falling { (es : List (ℕ × ℕ)) → IsIndex (one_leaf 2 (6 ∷ 5 ∷ []) (60 ∷ 50 ∷ [])) es → ⊥ }
    ensures miscounted { (es : List (ℕ × ℕ)) → IsIndex (one_leaf 2 (5 ∷ []) (50 ∷ [])) es → ⊥ }
    ensures twice { (es : List (ℕ × ℕ)) → IsIndex named_twice es → ⊥ }
    ensures deeper { (es : List (ℕ × ℕ)) → IsIndex uneven es → ⊥ }
    ensures idle { (es : List (ℕ × ℕ)) → IsIndex idle_piece es → ⊥ }
    ensures free { (es : List (ℕ × ℕ)) → IsIndex free_root es → ⊥ }
    ensures too_many { (es : List (ℕ × ℕ)) → IsIndex too_many es → ⊥ }
    ensures one_child { (es : List (ℕ × ℕ)) → IsIndex one_child es → ⊥ }
    ensures falling_above { (es : List (ℕ × ℕ)) → IsIndex crossed es → ⊥ }
    ensures inner_of_15 { (es : List (ℕ × ℕ)) → IsIndex (three_levels 15) es → ⊥ }
{}

/// A loop that asks for the least pair from a key on, and then each time for the least above the key that it saw,
/// until there is none, sees the pairs from that key on, each once and in their order: from 0 on all of the map.
pub fn a_scan_sees_every_pair_once()
    ensures from { (words : List ℕ) (es seen : List (ℕ × ℕ)) (key : ℕ) → IsIndex words es → Scans key es seen
        → seen ≡ pairs_from key es }
    ensures all { (words : List ℕ) (es seen : List (ℕ × ℕ)) → IsIndex words es → Scans 0 es seen → seen ≡ es }
{}

/// Words that are all 0 stand for the empty map.
pub fn zeros_are_the_empty_map()
    ensures { (size : ℕ) → 640 ≤ size → IsIndex (replicate size 0) [] }
{}
