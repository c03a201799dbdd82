//! Pieces of 64 words, handed out and given back inside a memory of words, and such a memory over
//! plain vectors.
//!
//! The first 64 words are the head: word 1 has the first free piece, word 2 how many pieces were ever
//! handed out. Words 0 and 3 are free for whoever uses the pieces. Piece i is the 64 words from
//! `64 + 64 * i`. The free pieces are a chain: the first word of each has the next one plus 1, or 0.
#![tactic(auto)]

mod laws;
mod pieces;
mod vec_words;

pub use laws::{
    broken_words_are_no_heap, free_pieces_are_known, pieces_never_overlap, zeros_are_a_heap,
};
pub use pieces::{give, take};
pub use vec_words::VecWords;
