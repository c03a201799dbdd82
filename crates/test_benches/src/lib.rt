//! Boards in memory: calls of a board with their answers, failures of power and bad operations among them, how many
//! rows a second are programmed, read and erased, and the supply of power under them. Tests alone.
#![tactic(auto)]

#[cfg(test)]
mod calls;
#[cfg(test)]
mod speed;
#[cfg(test)]
mod steps;
#[cfg(test)]
mod supplies;
#[cfg(test)]
mod told;
