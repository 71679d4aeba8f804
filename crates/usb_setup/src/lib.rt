//! Setup packets and descriptors: USB 2.0, chapter 9.
//!
//! A [`Setup`] is the eight bytes of a control request. [`device_descriptor`], [`configuration`] and
//! [`put_string`] are what the instrument says of itself. [`find_interface`] reads what a device says, and
//! finds the USBTMC interface with its endpoints, or the place of the first wrong length.
#![tactic(auto)]

mod desc_fault;
mod descriptor;
mod ends;
mod identity;
mod laws;
mod offsets;
mod scan;
mod setup;
mod standard;
#[cfg(test)]
mod tests;

pub use desc_fault::DescFault;
pub use ends::{Ends, find_interface};
pub use identity::{configuration, device_descriptor, put_string};
pub use laws::setups_are_eight_bytes;
pub use offsets::offsets_are_laid_out;
pub use setup::Setup;
