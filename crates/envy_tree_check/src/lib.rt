//! Whether words stand for an ordered map, and the first rule that they break if they don't.
//!
//! A check takes time linear in the words, whatever they are: it reads each node once, since two nodes whose keys are as
//! the nodes above them set have no key in common. That no node is free is told by 64 marks: the first word of a node is
//! below 64, and no two free pieces have the same first word.
#![tactic(auto)]

mod child;
mod fault;
mod free;
mod keys;
mod levels;
mod node;
mod sizes;
mod tree;
mod verdict;

pub use fault::MapFault;
pub use verdict::check;
