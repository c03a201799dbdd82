//! An index tree on pieces of words.
#![tactic(auto)]

mod appending;
mod bulk;
mod changes;
mod command;
mod drop_root;
mod ends;
mod fault;
mod gap;
mod halves;
mod insertion;
mod insertion_path;
mod laws;
mod leaf;
mod leaf_pairs;
mod line;
mod line_fields;
mod lookup;
mod new_root;
mod node;
mod part;
mod place;
mod ranks;
mod rebalance;
mod removal;
mod removal_path;
mod reply;
mod scans;
mod search;
mod sizes;
mod spot;
mod turn;
mod way;

pub use bulk::append;
pub use changes::{insert_within, remove_within};
pub use fault::{ChangeFault, LookFault, TreeFault};
pub use insertion::{insert, most_pairs};
pub use laws::{
    a_scan_sees_every_pair_once, broken_words_are_no_map, hand_made_words_are_maps,
    index_grammar_holds_both_ways, maps_obey_the_rules, zeros_are_the_empty_map,
};
pub use leaf_pairs::leaf_size;
pub use line::IndexLine;
pub use line_fields::read_index_line;
pub use lookup::get;
pub use removal::remove;
pub use reply::{IndexReply, index_text};
pub use scans::{count, last, next, next_above, scan, scan_down, walk};
pub use sizes::MOST_KEYS;
pub use way::Way;
