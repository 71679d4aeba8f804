use super::session::Row::{
    Answered, Ask, Class, Control, Filled, Goes, Send, Silent, Stays, Taken, Told, Unlink, Unlinked,
};
use super::session::{READ_47, REQUEST, Request, Row, runs};
use crate::{DevEvent, Device};
use std::test::Fail;
use tmc_wire::ClassRequest::{AbortIn, AbortOut, CheckClear, CheckIn, CheckOut, Clear, ReadStatus};

/// The first packet of a transfer of 128 bytes, a message with the tag 1.
const FIRST_PACKET: [u8; 64] = [
    1, 1, 254, 0, // DEV_DEP_MSG_OUT
    116, 0, 0, 0, // TransferSize
    1, 0, 0, 0, // EOM
    b' ', b' ', b' ', b' ', b' ', b' ', b' ', b' ', b' ', b' ', b' ', b' ', b' ', b' ', b' ', b' ',
    b' ', b' ', b' ', b' ', b' ', b' ', b' ', b' ', b' ', b' ', b' ', b' ', b' ', b' ', b' ', b' ',
    b' ', b' ', b' ', b' ', b' ', b' ', b' ', b' ', b' ', b' ', b' ', b' ', b' ', b' ', b' ', b' ',
    b' ', b' ', b' ', b' ',
];

/// A response of 52 bytes is requested and its piece begins: with its header it is one full packet and an empty one. The
/// first packet goes into a submit that is longer.
const ONE_PACKET_OF_TWO: [Row<'static>; 10] = [
    Send(1, &READ_47),
    Goes(DevEvent::Take(1)),
    Taken(1, 0, 20),
    Goes(DevEvent::Exec),
    Send(2, &REQUEST),
    Goes(DevEvent::Take(1)),
    Taken(2, 0, 12),
    Goes(DevEvent::Begin(100)),
    Ask(3, 2, 128),
    Goes(DevEvent::Fill(1)),
];

#[test]
fn bulk_out_is_aborted(rt: HostRuntime) -> Result<(), Fail> {
    let mut device = Device::new(rt.alloc())?;
    runs(
        &rt,
        &mut device,
        &[
            Class(1, AbortOut { tag: 1 }, &[0x80, 0]), // FAILED: no transfer is in progress
            Send(2, &FIRST_PACKET),
            Goes(DevEvent::Take(1)),
            Taken(2, 0, 64),
            Class(3, AbortOut { tag: 9 }, &[0x81, 1]), // TRANSFER_NOT_IN_PROGRESS: another tag is
            Class(4, AbortOut { tag: 1 }, &[0x01, 1]), // SUCCESS
            Class(5, AbortOut { tag: 1 }, &[0x83, 0]), // SPLIT_IN_PROGRESS
            Control(6, (0xA2, 2, 0, 0x01, 8)),
            Goes(DevEvent::Pending),
            Answered(6, 0, &[0x02, 0, 0, 0, 0, 0, 0, 0]), // PENDING
            Class(7, CheckOut, &[0x01, 0, 0, 0, 0, 0, 0, 0]), // SUCCESS, NBYTES_RXD 0
            Class(8, CheckOut, &[0x82, 0, 0, 0, 0, 0, 0, 0]), // SPLIT_NOT_IN_PROGRESS
            Send(9, &[]),
            Taken(9, -32, 0),
            Silent,
        ],
    )
}

#[test]
fn bulk_in_is_aborted(rt: HostRuntime) -> Result<(), Fail> {
    let mut device = Device::new(rt.alloc())?;
    runs(&rt, &mut device, &ONE_PACKET_OF_TWO)?;
    runs(
        &rt,
        &mut device,
        &[
            Class(4, AbortIn { tag: 2 }, &[0x01, 2]), // SUCCESS
            Class(5, CheckIn, &[0x02, 1, 0, 0, 52, 0, 0, 0]), // PENDING: a packet is to be read
            Goes(DevEvent::Fill(1)),
            Filled(3, 0, 64),
            Class(6, CheckIn, &[0x01, 0, 0, 0, 52, 0, 0, 0]), // SUCCESS, NBYTES_TXD 52
            Class(7, AbortIn { tag: 2 }, &[0x80, 0]), // FAILED
            Silent,
        ],
    )
}

#[test]
fn the_status_byte_is_read(rt: HostRuntime) -> Result<(), Fail> {
    let mut device = Device::new(rt.alloc())?;
    runs(
        &rt,
        &mut device,
        &[
            Class(1, ReadStatus { tag: 1 }, &[0x80, 1, 0]), // FAILED
            Stays(DevEvent::Notify),
            Class(2, ReadStatus { tag: 5 }, &[0x01, 5, 0]), // SUCCESS, and a packet is queued
            Class(3, ReadStatus { tag: 6 }, &[0x20, 6, 0]), // INTERRUPT_IN_BUSY
            Ask(4, 3, 8),
            Goes(DevEvent::Notify),
            Answered(4, 0, &[0x85, 0]),
            Control(5, (0xA1, 128, 7, 0, 3)),
            Goes(DevEvent::Poll),
            Stays(DevEvent::Poll),
            Unlink(6, 5),
            Answered(5, 0, &[0x01, 7, 0]),
            Unlinked(6, 0),
            Silent,
        ],
    )
}

#[test]
fn a_clear_ends_what_is_in_progress(rt: HostRuntime) -> Result<(), Fail> {
    let mut device = Device::new(rt.alloc())?;
    runs(&rt, &mut device, &ONE_PACKET_OF_TWO)?;
    runs(
        &rt,
        &mut device,
        &[
            Send(4, &[0; 12]),
            Class(5, Clear, &[0x01]),
            Filled(3, 0, 64),
            Taken(4, -32, 0),
            Class(6, CheckClear, &[0x01, 0]),
            Class(7, CheckClear, &[0x82, 0]),
            Stays(DevEvent::Fill(1)),
            Silent,
        ],
    )
}

/// The requests of the instrument with the length of their answer in place of wLength.
const LAYOUTS: [Request; 28] = [
    (0x80, 0, 0, 0, 2), // GET_STATUS of the device
    (0x81, 0, 0, 0, 2), // of the interface
    (0x82, 0, 0, 0x00, 2), // of the control endpoint
    (0x82, 0, 0, 0x83, 2), // of Interrupt-IN
    (0x02, 1, 0, 0x82, 0), // CLEAR_FEATURE
    (0x80, 6, 0x0100, 0, 18), // GET_DESCRIPTOR of the device
    (0x80, 6, 0x0200, 0, 39), // of the configuration
    (0x80, 6, 0x0300, 0, 4), // of the strings
    (0x80, 6, 0x0301, 0x0409, 16), //
    (0x80, 6, 0x0302, 0x0409, 10), //
    (0x80, 6, 0x0303, 0x0409, 4), //
    (0x80, 8, 0, 0, 1), // GET_CONFIGURATION
    (0x00, 9, 1, 0, 0), // SET_CONFIGURATION
    (0x81, 10, 0, 0, 1), // GET_INTERFACE
    (0x01, 11, 0, 0, 0), // SET_INTERFACE
    (0xA2, 1, 7, 0x01, 2), // INITIATE_ABORT_BULK_OUT
    (0xA2, 2, 0, 0x01, 8), // CHECK_ABORT_BULK_OUT_STATUS
    (0xA2, 3, 7, 0x82, 2), // INITIATE_ABORT_BULK_IN
    (0xA2, 4, 0, 0x82, 8), // CHECK_ABORT_BULK_IN_STATUS
    (0xA1, 5, 0, 0, 1), // INITIATE_CLEAR
    (0xA1, 6, 0, 0, 2), // CHECK_CLEAR_STATUS
    (0xA1, 7, 0, 0, 24), // GET_CAPABILITIES
    (0xA1, 64, 0, 0, 1), // INDICATOR_PULSE
    (0xA1, 128, 7, 0, 3), // READ_STATUS_BYTE
    (0xA1, 160, 1, 0, 1), // REN_CONTROL, on
    (0xA1, 160, 0, 0, 1), // and off
    (0xA1, 161, 0, 0, 1), // GO_TO_LOCAL
    (0xA1, 162, 0, 0, 1), // LOCAL_LOCKOUT
];

#[test]
fn answers_are_cut_to_what_is_asked_for(rt: HostRuntime) -> Result<(), Fail> {
    for (request_type, request, value, index, length) in LAYOUTS {
        for asked in [0, 1, length, 65_535] {
            let mut device = Device::new(rt.alloc())?;
            runs(
                &rt,
                &mut device,
                &[
                    Control(1, (request_type, request, value, index, asked)),
                    Goes(DevEvent::Answer),
                    Filled(1, 0, u32::from(length.min(asked))),
                    Silent,
                ],
            )?;
        }
    }
    Ok(())
}
