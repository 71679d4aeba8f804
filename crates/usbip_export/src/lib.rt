//! The instrument at the end of a USB/IP connection: from bytes to bytes.
//!
//! A [`Node`] is fed what a client sends, in any pieces. It lists and exports the instrument, and behind the import it takes
//! each message in as one step of the law of `tmc_law` and puts out the spelling of each answer. [`Node::drive`] and
//! [`Node::calm`] let the instrument act. [`serve_link`] serves a client over any link.
#![tactic(auto)]

mod body;
mod calming;
mod driving;
mod fed;
mod identity;
mod laws;
mod node;
mod operations;
mod serving;
mod spelling;
mod taking;
#[cfg(test)]
mod tests;

pub use fed::Fed;
pub use laws::{calls_join, calm_moves_end, each_message_is_one_step};
pub use node::Node;
pub use serving::{ServeEnd, serve_link};
pub use tmc_device::{DevEvent, Drove, Log, LogEntry};
