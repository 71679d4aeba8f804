//! The device: the instrument at the end of a USB link, event by event.
//!
//! A [`Device`] takes in submits and unlinks, does what a [`DevEvent`] says, and puts out answers. What a contract sees of
//! it is the state of the law of `tmc_law` and the list of what was put out and not yet dropped. Each accepted input is one
//! lawful step, and each event that is applied is the lawful step that it names; an event is declined exactly where the law
//! has no such step. The calls that take memory take all of it before their first change.
#![tactic(auto)]

mod aborts;
mod answer;
mod begin;
mod body;
mod checks;
mod class;
mod device;
mod device_fault;
mod drive;
mod drove;
mod endings;
mod endpoints;
mod exec;
mod fill;
mod halt;
mod header;
mod input;
mod notify;
mod outputs;
mod packets;
mod poll;
mod postpone;
mod read_standard;
mod running;
mod side;
mod standard;
mod status;
mod take;
#[cfg(test)]
mod tests;
mod transfer;
mod unplug;

pub use device::Device;
pub use device_fault::DeviceFault;
pub use drove::Drove;
pub use tmc_law::{DevEvent, Input, Log, LogEntry, Output};
