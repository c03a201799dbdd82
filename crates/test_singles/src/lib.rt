//! Tests of one crate each, by what it gives to all: sizes of a board, codes of the map, the cache of the table, chips and
//! banks of them, the driver of a flash part, frames in their order, the plain machine, and images of boards that were
//! changed by hand. Tests alone.
#![tactic(auto)]

#[cfg(test)]
mod banks;
#[cfg(test)]
mod caches;
#[cfg(test)]
mod chips;
#[cfg(test)]
mod codes;
#[cfg(test)]
mod drivers;
#[cfg(test)]
mod frames;
#[cfg(test)]
mod images;
#[cfg(test)]
mod plain;
#[cfg(test)]
mod sizes;
#[cfg(test)]
mod told;
