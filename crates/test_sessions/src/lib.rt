//! Sessions with a memory: tables of calls, failures of power among them, and the answer that each must have. Such with a
//! pair of memories. And what calls cost: how often they read the board.
//!
//! One function makes the steps of all sessions. The board under them also sees whether a row is programmed twice
//! between erases, or out of order within its segment, and counts its reads.
#![tactic(auto)]

#[cfg(test)]
mod asked;
#[cfg(test)]
mod calls;
#[cfg(test)]
mod costs;
#[cfg(test)]
mod cuts;
#[cfg(test)]
mod drawn;
#[cfg(test)]
mod failures;
#[cfg(test)]
mod formats;
#[cfg(test)]
mod mirrors;
#[cfg(test)]
mod ordered;
#[cfg(test)]
mod orders;
#[cfg(test)]
mod reserved;
#[cfg(test)]
mod rules;
#[cfg(test)]
mod session;
#[cfg(test)]
mod setups;
#[cfg(test)]
mod steps;
#[cfg(test)]
mod told;
#[cfg(test)]
mod worn;
