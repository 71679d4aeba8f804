//! Program messages of IEEE 488.2: units of a header and decimal numbers, and where a message goes wrong.
//!
//! [`units`] reads a whole message. It answers the units exactly where the grammar has them, and else the
//! place of the first byte after which no continuation is a message. [`Nrf::rounded`] makes a whole number
//! of a decimal one, with no floating point.
#![tactic(auto)]

mod args;
mod fault;
mod head;
mod kind;
mod laws;
mod nrf;
mod number;
mod place;
mod scan;
mod unit;

pub use args::Args;
pub use fault::SyntaxFault;
pub use head::Head;
pub use laws::{a_message_or_a_fault, one_fault, one_reading};
pub use nrf::Nrf;
pub use scan::units;
pub use unit::Unit;

#[cfg(test)]
mod tests;
