//! Tests: a journal whose device fails at each of its calls, and whose machine crashes then and while the file is opened;
//! and the process after it, if the machine goes on.
#![tactic(auto)]

#[cfg(test)]
mod condensed;
#[cfg(test)]
mod crashes;
#[cfg(test)]
mod left;
#[cfg(test)]
mod runs;
