//! Words over plain vectors, and the index tree over them: beside a map of the library, filled and emptied in several
//! orders, with the transactions and the nodes that its calls take; two maps in two ranges; and the lines of an index.
//! Tests alone.
#![tactic(auto)]

#[cfg(test)]
mod calls;
#[cfg(test)]
mod lines;
#[cfg(test)]
mod maps;
#[cfg(test)]
mod ranges;
#[cfg(test)]
mod told;
#[cfg(test)]
mod vectors;
#[cfg(test)]
mod watched;
#[cfg(test)]
mod within;
