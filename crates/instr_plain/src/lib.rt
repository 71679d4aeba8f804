//! The plain instrument: what it answers to program messages and how it reports its status, by IEEE 488.2, with
//! no transfer and no packet.
//!
//! [`Instrument`] executes messages and keeps the response that waits to be read. Each of its calls is an entry
//! of a log, [`LogEntry`]. The definitions in `specs/` say what a message does, by the table of commands, and
//! where a log leads; each call is proved to be one step of that.
#![tactic(auto)]

mod answer;
mod command;
mod decimal;
mod header;
mod instrument;
mod laws;
mod log;
mod outcome;
mod output;
mod plain;
mod range;
mod remote;
mod run;
mod status;
#[cfg(test)]
mod tests;

pub use answer::Answer;
pub use command::Command;
pub use instrument::Instrument;
pub use laws::{
    each_entry_leads_to_one_standing, each_message_has_one_outcome, grows, keeps_responses,
    one_response, one_standing, responds, what_is_unread_is_short,
};
pub use log::LogEntry;
pub use plain::Plain;
pub use remote::{RemoteAct, RemoteState};
