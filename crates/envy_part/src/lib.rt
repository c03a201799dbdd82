//! A board over a flash part that is mapped into memory, where a port carries out each order.
//!
//! Flash is read from the map, as rows of 256 bytes. A program or an erase is ordered of the part's port, and what
//! the map shows afterwards is compared with what was asked for: an order that did anything else is `Bad`. So no
//! clause here asks anything of a port. SRAM lies in memory of the caller's.
//!
//! Power doesn't fail here: a machine whose power fails stops, and what it finds afterwards is taken up anew.
#![tactic(auto)]

mod board;
mod fault;
mod laws;
mod orders;
mod places;
mod port;
mod rows;
#[cfg(test)]
mod tests;

pub use board::PartBoard;
pub use fault::PartFault;
pub use laws::a_restart_reads_no_dead_row;
pub use places::{PlaceFault, Places};
pub use port::{IoPort, Port};
