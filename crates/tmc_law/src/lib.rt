//! The lawful device: what a USB test instrument may do, and what must follow.
//!
//! The definitions in `specs/` are the law: the states of a device, its steps and its runs, by USB 2.0, USBTMC 1.0,
//! USB488 1.0 and IEEE 488.2. A device is proved against them, and a host is proved over every device that keeps
//! them. The functions of [`laws`] and [`worked`] do nothing. A contract of the first says what holds of all lawful runs; one
//! of the second shows a session that the law allows, or a move that it refuses.
//!
//! The types here are the data that a device and its users share.
#![tactic(auto)]

mod answers;
mod determined;
mod dev_event;
mod halt_causes;
mod input;
mod instances;
pub mod laws;
mod layouts;
mod log;
mod numbers;
mod output;
mod reachable;
mod setups;
mod steps;
#[cfg(test)]
mod tests;
pub mod worked;

pub use dev_event::DevEvent;
pub use input::Input;
pub use instr_plain::{LogEntry, RemoteAct};
pub use log::Log;
pub use output::Output;
