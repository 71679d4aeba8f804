//! The message exchange (IEEE 488.2, section 6): program messages come in parts and wait for execution, and responses
//! wait to be read.
//!
//! An [`Exchange`] is the part of a lawful device that knows no endpoint and no packet: the unfinished message or the
//! one that waits, the plain instrument with its unread output, and the log. Each call is a step of the law on that
//! part: its contract holds for every state of a device whose part this is.
#![tactic(auto)]

mod exchange;
#[cfg(test)]
mod tests;

pub use exchange::Exchange;
