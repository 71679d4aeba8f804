//! The USB Test and Measurement Class (USBTMC 1.0) and its subclass USB488 1.0, on the wire.
//!
//! [`out_bytes`] and [`read_out`], [`in_bytes`] and [`read_in`] write and read bulk headers by one relation, and
//! what was written is read again. [`class_setup`] and [`read_class`] go by one table of class requests,
//! [`read_answer`] by the layouts of their answers. [`read_notify`] reads Interrupt-IN packets. Nothing here takes
//! memory.
#![tactic(auto)]

mod class_answer;
mod class_request;
mod fields;
mod header;
mod header_fault;
mod laws;
mod notify;
#[cfg(test)]
mod tests;
mod usb488;
mod usbtmc;

pub use class_answer::{ClassAnswer, read_answer};
pub use class_request::{ClassRequest, class_setup, read_class};
pub use header::{InHeader, OutHeader, in_bytes, out_bytes, read_in, read_out};
pub use header_fault::HeaderFault;
pub use laws::{
    header_offsets_are_laid_out, headers_are_read_again, requests_are_read_again,
    transfers_are_read_again,
};
pub use notify::{Notify, read_notify};
pub use usb488::STATUS_INTERRUPT_IN_BUSY;
pub use usbtmc::{
    BULK_HEADER, STATUS_FAILED, STATUS_PENDING, STATUS_SPLIT_IN_PROGRESS,
    STATUS_SPLIT_NOT_IN_PROGRESS, STATUS_SUCCESS, STATUS_TRANSFER_NOT_IN_PROGRESS,
};
