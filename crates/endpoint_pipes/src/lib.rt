//! The endpoints of the instrument as pipes (USB 2.0, section 5.3.2): queues of pending submits, packets, halts.
//!
//! [`Pipes`] are the part of a lawful device that knows no message and no header: the pending submits of each endpoint with
//! the bytes that were moved, and which endpoints are halted. The submits lie in a slab, and each queue is a list of keys.
#![tactic(auto)]

mod entry;
mod outcome;
mod part;
mod pipes;
mod queues;
#[cfg(test)]
mod tests;

pub use outcome::{Over, Pending, PipeFault, Unlinked};
pub use part::pipes_are_a_part;
pub use pipes::Pipes;
