//! Relocations of a segment beside what stands around them: swaps, which are made of relocations, and owners of pages,
//! whose shadows move with them. Tests, as tables of steps and of facts that stand on a board, and which of the calls that
//! claim rows a step is.
#![tactic(auto)]

#[cfg(test)]
mod boards;
mod calls;
#[cfg(test)]
mod cuts;
#[cfg(test)]
mod facts;
#[cfg(test)]
mod owners;
#[cfg(test)]
mod relocations;
#[cfg(test)]
mod rig;
#[cfg(test)]
mod steps;
#[cfg(test)]
mod swaps;
#[cfg(test)]
mod told;

pub use calls::{a_retirement_is_a_call, a_step_is_a_call, step_once};
