//! The traits of the outside, the limits of the bench link, and the small types that every layer shares.
//!
//! A [`Source`] gives bytes and a [`Sink`] takes them. Each counts its faults, and answers `Failed`
//! exactly where that count rises. Each call goes by a relation of the object's own, so that a contract
//! can say by which reads and writes a function went. A [`Link`] is bytes to another end and from it, and tells what it
//! can: nothing, the bytes, or the bytes with the run of its peer. Implementations in memory tell what they hold; the
//! adapters of standard input, standard output and TCP streams tell nothing of content.
#![tactic(auto)]

mod count;
mod fail_plan;
mod field;
mod limits;
mod link;
mod mem_link;
mod mem_sink;
mod mem_source;
mod memory;
mod octets;
mod reading;
mod run_step;
mod sink;
mod source;
mod std_sink;
mod std_source;
mod tcp_link;
#[cfg(test)]
mod tests;
mod writing;

pub use field::{Field, Layer, Name};
pub use limits::{BULK_IN_SUBMIT, RESPONSE_MAX, SUBMIT_MAX, limits_are_the_products};
pub use link::{Link, PollStep, SendStep, TendStep};
pub use mem_link::MemLink;
pub use mem_sink::MemSink;
pub use mem_source::MemSource;
pub use memory::Memory;
pub use octets::Octets;
pub use reading::{ReadFault, read_all, read_up_to};
pub use run_step::RunStep;
pub use sink::{Sink, WriteStep};
pub use source::{ReadStep, Source};
pub use std_sink::StdSink;
pub use std_source::StdSource;
pub use tcp_link::TcpLink;
pub use writing::write_all;
