//! A file as a device that a program in C serves: an order goes out, and an answer comes back, done or failed.
//!
//! Orders go through the kit's `io`, as `write` and `read` of a number; `c/envy_port.c` serves them under other names. An
//! order is 24 bytes (`Order::header`), and after those of a write come the bytes themselves, where they lie. The answer is
//! one byte, 0 for done; anything else, and no answer, is a failure. Of the order to put the second file in the file's place
//! 2 says that it wasn't put there, and that the file is as it was. What is noted of a call is what was ordered, and each
//! order is noted.
//!
//! What is trusted of the program is what `envy_device` says of a file's calls: that it does what it answers as done, and
//! nothing else to the file.
#![tactic(auto)]

mod order;
mod port;
#[cfg(test)]
mod tests;

pub use port::{FilePort, PortFile};
