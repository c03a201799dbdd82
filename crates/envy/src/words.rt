use std::env;
use std::rt::Env;
use thiserror::Error;

/// The words can't be had from the system.
#[derive(Debug, Drop, Error)]
#[error("envy: no words")]
pub struct NoWords;

/// The words behind the program's name.
pub fn words(rt: &HostRuntime) -> Result<Vec<String>, NoWords> {
    let mut words = Vec::new(rt.alloc());
    for word in env::args(rt).map_err(|_| NoWords)?.skip(1) {
        words.push(word).map_err(|_| NoWords)?;
    }
    Ok(words)
}
