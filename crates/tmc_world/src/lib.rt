//! The instrument in memory, at the other end of a link.
//!
//! A [`LoopLink`] is a link that holds the instrument's node, what was sent to it and what was taken from it. It always
//! tells its run: what is told is a lawful run of the instrument from power-on, and fits the bytes sent and taken. A [`World`]
//! is a hub over such a link, whose events are those of a script.
#![tactic(auto)]

mod applied;
mod events;
mod history;
mod line;
mod loop_act;
mod loop_link;
mod pace;
#[cfg(test)]
mod played;
mod rest;
#[cfg(test)]
mod rest_tests;
mod resting;
mod runs;
mod tally;
mod tape;
#[cfg(test)]
mod tests;
mod world;
#[cfg(test)]
mod world_tests;

pub use applied::Applied;
pub use loop_act::LoopAct;
pub use loop_link::LoopLink;
pub use resting::{instruments_come_to_rest, worlds_come_to_rest};
pub use runs::world_runs_keep_the_laws;
pub use usbip_export::{DevEvent, Log, LogEntry};
pub use world::World;
