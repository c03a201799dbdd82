//! A direct-mapped cache of the page table: a page uses the entry whose number is the page's modulo the number
//! of entries. Only `Cache::new` takes memory.
#![tactic(auto)]

mod cache;

pub use cache::Cache;
