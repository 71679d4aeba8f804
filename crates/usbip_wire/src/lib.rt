//! USB/IP messages, version 0x0111, as the Linux kernel documents them. All fields are big-endian.
//!
//! Each `put_` call appends one spelling of its message, and takes no memory.
//!
//! A client and a server call them in this order:
//!
//! 1. The client asks by `put_op_request`. The server reads it by `UpReader::ops`, and answers a list by
//!    `put_device_list` and an import by `put_import_reply`, which the client reads by `DownReader::ops`.
//! 2. Behind an import both take new readers: the server `UpReader::urbs` for the devid of the device, and the
//!    client `DownReader::urbs`.
//! 3. The client writes `put_submit` and `put_unlink`, and first adds each to its `Dirs`, since an answer is read by
//!    what is outstanding. The server answers by `put_ret_submit` and `put_ret_unlink`, in any order.
//! 4. Each side feeds what comes in any pieces: `feed` uses bytes up to the end of one message and gives it, and is
//!    called again with the rest until it gives `More`. `data` has the bytes of the message that was given last.
//! 5. The client takes an answered number out of its `Dirs` by `Dirs::remove`. At `Bad` the connection is to be
//!    closed: the reader uses nothing more.
#![tactic(auto)]

mod device;
mod device_list;
mod dirs;
mod down;
mod down_reader;
mod down_reading;
mod fields;
mod import_reply;
mod laws;
mod op;
mod op_request;
mod reading;
mod ret_submit;
mod ret_unlink;
mod room;
mod stop;
mod submit;
mod unlink;
mod up;
mod up_reader;
mod up_reading;
mod urb;

pub use device::{DEVICE_RECORD, DeviceRecord};
pub use device_list::put_device_list;
pub use dirs::{DIRS_MAX, Dirs, Outstanding};
pub use down::{Down, DownStep};
pub use down_reader::DownReader;
pub use import_reply::put_import_reply;
pub use laws::{
    answers_are_determined, answers_are_read_in_turn, answers_take_out, bad_fields_are_alone,
    bad_fields_are_refused, bad_fields_stay, bad_is_the_first_refused,
    client_pieces_are_one_stream, device_lists_are_determined, device_pieces_are_one_stream,
    entries_may_be_added, good_bytes_go_on, messages_have_spellings, numbers_are_the_protocols,
    parts_are_determined, requests_are_determined, streams_are_read, urbs_are_determined,
};
pub use op_request::{OpRequest, put_op_request};
pub use ret_submit::{RetSubmitHead, put_ret_submit};
pub use ret_unlink::{RetUnlinkHead, put_ret_unlink};
pub use submit::{SubmitHead, put_submit};
pub use unlink::{UnlinkHead, put_unlink};
pub use up::{Up, UpStep};
pub use up_reader::UpReader;
pub use urb::{Dir, ENDPOINT_MAX, URB_HEADER};

#[cfg(test)]
mod tests;
