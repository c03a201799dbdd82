//! Which position a page is written to, and which is cleaned: the choices of the policies by lists of rows and by
//! questions to the pool of rows, setups, and the pool's own answers. Tests alone, over `envy_policy`, `envy_space` and
//! `envy_victims`.
#![tactic(auto)]

#[cfg(test)]
mod lifetimes;
#[cfg(test)]
mod policies;
#[cfg(test)]
mod pooled;
#[cfg(test)]
mod pools;
#[cfg(test)]
mod told;
