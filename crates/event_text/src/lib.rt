//! The texts of the bench link: scripts, and what is printed of them.
//!
//! [`put_shown`] reads the pieces of one direction of a link and prints their messages. [`read_script`] reads a script of
//! events, and [`put_report`] prints what came of it.
#![tactic(auto)]

mod answer;
mod behind;
mod book;
mod dev_line;
mod event;
mod event_line;
mod event_script;
#[cfg(test)]
mod event_tests;
mod field;
mod laws;
mod limits;
mod line_fault;
mod line_stop;
mod log;
mod outcome;
mod printed;
mod reading;
mod refusal;
mod report;
#[cfg(test)]
mod report_tests;
mod script;
mod shown;
mod stream;
#[cfg(test)]
mod tests;
mod text;
mod way;
mod words;

pub use answer::EventAnswer;
pub use book::put_book;
pub use dev_line::read_dev;
pub use event::{Event, Events, Script};
pub use event_script::read_script;
pub use field::put_field;
pub use laws::{
    event_scripts_are_determined, events_have_their_lines, pieces_are_one_text,
    reports_are_determined, scripts_are_determined, words_spell_their_values,
};
pub use limits::{LINE_MOST, LINES_MOST, script_limits_are_the_products};
pub use line_fault::{LineFault, LineWhat};
pub use log::put_log;
pub use outcome::put_outcome;
pub use refusal::put_refusal;
pub use report::put_report;
pub use shown::put_shown;
pub use stream::put_stream;
pub use words::{read_hex, read_number, split_line};
