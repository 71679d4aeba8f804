//! The class requests, by their setup packets: USBTMC 1.0 section 4.2.1 and table 15, USB488 1.0 section 4.3 and table 9.
//! Numbers of two bytes are little-endian; wLength is the length of the answer in bytes.
//!
//! | Offset | Size | Field | Value |
//! |---|---|---|---|
//! | 0 | 1 | bmRequestType | 0xA2 to an endpoint, 0xA1 to the interface |
//! | 1 | 1 | bRequest | as below |
//! | 2 | 2 | wValue | a tag, 1 or 0 for remote enable, else 0 |
//! | 4 | 2 | wIndex | the endpoint's address, or the interface's number |
//! | 6 | 2 | wLength | as below |
//!
//! | bRequest | Name | To | wValue | wLength |
//! |---|---|---|---|---|
//! | 1 | INITIATE_ABORT_BULK_OUT | Bulk-OUT | tag | 2 |
//! | 2 | CHECK_ABORT_BULK_OUT_STATUS | Bulk-OUT | 0 | 8 |
//! | 3 | INITIATE_ABORT_BULK_IN | Bulk-IN | tag | 2 |
//! | 4 | CHECK_ABORT_BULK_IN_STATUS | Bulk-IN | 0 | 8 |
//! | 5 | INITIATE_CLEAR | interface | 0 | 1 |
//! | 6 | CHECK_CLEAR_STATUS | interface | 0 | 2 |
//! | 7 | GET_CAPABILITIES | interface | 0 | 24 |
//! | 64 | INDICATOR_PULSE | interface | 0 | 1 |
//! | 128 | READ_STATUS_BYTE | interface | tag | 3 |
//! | 160 | REN_CONTROL | interface | 1 or 0 | 1 |
//! | 161 | GO_TO_LOCAL | interface | 0 | 1 |
//! | 162 | LOCAL_LOCKOUT | interface | 0 | 1 |

ghost use Rattle.std.specs.Prelude.{◌≡◌, ◌%◌, ◌↔◌, Some, None, IfSome};
ghost use Rattle.tmc_wire.specs.declared.class_request.ClassRequest.{ClassRequest};
ghost use Rattle.tmc_wire.specs.ControlTable.{fields, row, TagFits, IsRow};
ghost use Rattle.tmc_wire.specs.Candidate.{HasCode, IsOnly};

use crate::usb488::{
    GO_TO_LOCAL, LOCAL_LOCKOUT, READ_STATUS_ANSWER, READ_STATUS_BYTE, REN_CONTROL,
};
use crate::usbtmc::{
    ABORT_ANSWER, CAPABILITIES_ANSWER, CHECK_ABORT_BULK_IN_STATUS, CHECK_ABORT_BULK_OUT_STATUS,
    CHECK_ANSWER, CHECK_CLEAR_ANSWER, CHECK_CLEAR_STATUS, GET_CAPABILITIES, INDICATOR_PULSE,
    INITIATE_ABORT_BULK_IN, INITIATE_ABORT_BULK_OUT, INITIATE_CLEAR, OF_ENDPOINT, OF_INTERFACE,
    STATUS_ANSWER,
};
use usb_setup::{Ends, Setup};

/// A class request on the control endpoint: USBTMC 1.0 section 4.2.1 and USB488 1.0 section 4.3.
///
/// A tag is that of the transfer that an abort names, 1 to 255, or that of a status read, 2 to 127; a device
/// answers any other, 0 among them, with a failure.
#[derive(Clone, Copy, Debug, PartialEq, Eq)]
pub enum ClassRequest {
    /// INITIATE_ABORT_BULK_OUT.
    AbortOut { tag: u8 },
    /// CHECK_ABORT_BULK_OUT_STATUS.
    CheckOut,
    /// INITIATE_ABORT_BULK_IN.
    AbortIn { tag: u8 },
    /// CHECK_ABORT_BULK_IN_STATUS.
    CheckIn,
    /// INITIATE_CLEAR.
    Clear,
    /// CHECK_CLEAR_STATUS.
    CheckClear,
    /// GET_CAPABILITIES.
    Capabilities,
    /// INDICATOR_PULSE.
    Pulse,
    /// READ_STATUS_BYTE.
    ReadStatus { tag: u8 },
    /// REN_CONTROL: remote enable is asserted where `on`.
    Ren { on: bool },
    /// GO_TO_LOCAL.
    GoLocal,
    /// LOCAL_LOCKOUT.
    Lockout,
}

/// The one request that may have a setup with this bRequest and wValue.
fn candidate(request: u8, value: u16) -> Option<ClassRequest>
    ensures fits { IfSome result (λ found. TagFits found × HasCode request found) }
    ensures only { IsOnly request value result }
{
    let tag = (value % 256) as u8;
    match request {
        INITIATE_ABORT_BULK_OUT => Some(ClassRequest::AbortOut { tag }),
        CHECK_ABORT_BULK_OUT_STATUS => Some(ClassRequest::CheckOut),
        INITIATE_ABORT_BULK_IN => Some(ClassRequest::AbortIn { tag }),
        CHECK_ABORT_BULK_IN_STATUS => Some(ClassRequest::CheckIn),
        INITIATE_CLEAR => Some(ClassRequest::Clear),
        CHECK_CLEAR_STATUS => Some(ClassRequest::CheckClear),
        GET_CAPABILITIES => Some(ClassRequest::Capabilities),
        INDICATOR_PULSE => Some(ClassRequest::Pulse),
        READ_STATUS_BYTE => Some(ClassRequest::ReadStatus { tag }),
        REN_CONTROL => Some(ClassRequest::Ren { on: value == 1 }),
        GO_TO_LOCAL => Some(ClassRequest::GoLocal),
        LOCAL_LOCKOUT => Some(ClassRequest::Lockout),
        _ => None,
    }
}

/// The class request of a setup, or `None` where the setup is no row of the table of class requests for these
/// ends. wLength may be any: a device answers with at most that many bytes.
pub fn read_class(setup: &Setup, ends: &Ends) -> Option<ClassRequest>
    ensures some { (request : ClassRequest) →
        (result ≡ Some request) ↔ IsRow ends.now request setup.now }
    ensures none { (result ≡ None) ↔ ((request : ClassRequest) → ¬ IsRow ends.now request setup.now) }
{
    let request = candidate(setup.request, setup.value)?;
    let row = class_setup(request, ends);
    let is_row = setup.request_type == row.request_type
        && setup.value == row.value
        && setup.index == row.index;
    is_row.then_some(request)
}

/// The setup of a class request: its row of the table for these ends. wIndex is the address of the bulk endpoint
/// that an abort's request or check is about, and else the interface's number. wLength is the length of the
/// answer's layout in bytes.
pub fn class_setup(request: ClassRequest, ends: &Ends) -> Setup
    ensures { result ≡ row ends.now request }
{
    use ClassRequest::{
        AbortIn, AbortOut, Capabilities, CheckClear, CheckIn, CheckOut, Clear, GoLocal, Lockout,
        Pulse, ReadStatus, Ren,
    };
    match request {
        AbortOut { tag } => of_endpoint(INITIATE_ABORT_BULK_OUT, tag, ends.bulk_out, ABORT_ANSWER),
        CheckOut => of_endpoint(CHECK_ABORT_BULK_OUT_STATUS, 0, ends.bulk_out, CHECK_ANSWER),
        AbortIn { tag } => of_endpoint(INITIATE_ABORT_BULK_IN, tag, ends.bulk_in, ABORT_ANSWER),
        CheckIn => of_endpoint(CHECK_ABORT_BULK_IN_STATUS, 0, ends.bulk_in, CHECK_ANSWER),
        Clear => of_interface(INITIATE_CLEAR, 0, ends, STATUS_ANSWER),
        CheckClear => of_interface(CHECK_CLEAR_STATUS, 0, ends, CHECK_CLEAR_ANSWER),
        Capabilities => of_interface(GET_CAPABILITIES, 0, ends, CAPABILITIES_ANSWER),
        Pulse => of_interface(INDICATOR_PULSE, 0, ends, STATUS_ANSWER),
        ReadStatus { tag } => of_interface(READ_STATUS_BYTE, tag, ends, READ_STATUS_ANSWER),
        Ren { on } => of_interface(REN_CONTROL, u8::from(on), ends, STATUS_ANSWER),
        GoLocal => of_interface(GO_TO_LOCAL, 0, ends, STATUS_ANSWER),
        Lockout => of_interface(LOCAL_LOCKOUT, 0, ends, STATUS_ANSWER),
    }
}

/// A request to the bulk endpoint with this address. `value` is the low byte of wValue.
fn of_endpoint(request: u8, value: u8, address: u8, length: u16) -> Setup
    ensures { result ≡ fields 0xA2 request value address length }
{
    Setup {
        request_type: OF_ENDPOINT,
        request,
        value: u16::from(value),
        index: u16::from(address),
        length,
    }
}

/// A request to the interface. `value` is the low byte of wValue.
fn of_interface(request: u8, value: u8, ends: &Ends, length: u16) -> Setup
    ensures { result ≡ fields 0xA1 request value ends.now.interface length }
{
    Setup {
        request_type: OF_INTERFACE,
        request,
        value: u16::from(value),
        index: u16::from(ends.interface),
        length,
    }
}
