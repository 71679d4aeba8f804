//! What the tests share: a session with a device, row by row.

use crate::endpoints::ENDS;
use crate::{DevEvent, Device, Drove, Input, Output};
use std::process::Abort;
use std::test::Fail;
use tmc_wire::{ClassRequest, class_setup};
use usb_setup::Setup;
use usbip_wire::{Dir, SubmitHead, UnlinkHead};

/// bmRequestType, bRequest, wValue, wIndex and wLength of a setup packet (USB 2.0, table 9-2).
pub(super) type Request = (u8, u8, u16, u16, u16);

/// A row of a session: what arrives, what the device does, or what it answers next. Each message begins with its number.
#[derive(Clone, Copy)]
pub(super) enum Row<'a> {
    /// A Bulk-OUT submit with these bytes.
    Send(u32, &'a [u8]),
    /// An IN submit of this endpoint, for so many bytes.
    Ask(u32, u32, u32),
    /// A control submit.
    Control(u32, Request),
    /// A control submit that is answered at once, with status 0 and these bytes.
    Told(u32, Request, &'a [u8]),
    /// The same for a class request.
    Class(u32, ClassRequest, &'a [u8]),
    /// An unlink of the submit with this number.
    Unlink(u32, u32),
    /// The event is applied.
    Goes(DevEvent),
    /// The event is not enabled.
    Stays(DevEvent),
    /// A submit is answered with this status and these bytes.
    Answered(u32, i32, &'a [u8]),
    /// An OUT submit is answered with this status, and so many of its bytes were taken.
    Taken(u32, i32, u32),
    /// An IN submit is answered with this status and so many bytes.
    Filled(u32, i32, u32),
    /// An unlink is answered with this status.
    Unlinked(u32, i32),
    /// Nothing more was put out.
    Silent,
}

/// Goes through the rows of a session.
pub(super) fn runs(rt: &impl Abort, device: &mut Device, rows: &[Row<'_>]) -> Result<(), Fail> {
    for row in rows {
        passes(rt, device, *row)?;
    }
    Ok(())
}

/// Goes through one row.
fn passes(rt: &impl Abort, device: &mut Device, row: Row<'_>) -> Result<(), Fail> {
    match row {
        Row::Send(seqnum, bytes) => send(rt, device, seqnum, bytes)?,
        Row::Ask(seqnum, ep, length) => ask(rt, device, seqnum, ep, length)?,
        Row::Control(seqnum, request) => control(rt, device, seqnum, setup_of(request))?,
        Row::Told(seqnum, request, bytes) => told(rt, device, seqnum, setup_of(request), bytes)?,
        Row::Class(seqnum, request, bytes) => {
            told(rt, device, seqnum, class_setup(request, &ENDS), bytes)?;
        }
        Row::Unlink(seqnum, target) => unlink(rt, device, seqnum, target)?,
        Row::Goes(event) => assert_eq!(rt; device.drive(event), Drove::Applied, "{event:?}"),
        Row::Stays(event) => assert_eq!(rt; device.drive(event), Drove::NotEnabled, "{event:?}"),
        Row::Answered(seqnum, status, bytes) => answered(rt, device, seqnum, status, bytes),
        Row::Taken(seqnum, status, actual) => taken(rt, device, seqnum, status, actual),
        Row::Filled(seqnum, status, actual) => filled(rt, device, seqnum, status, actual),
        Row::Unlinked(seqnum, status) => unlinked(rt, device, seqnum, status),
        Row::Silent => assert!(rt; device.first_output().is_none()),
    }
    Ok(())
}

fn setup_of(request: Request) -> Setup {
    let (request_type, request, value, index, length) = request;
    Setup {
        request_type,
        request,
        value,
        index,
        length,
    }
}

/// A submit arrives at a device that is plugged.
fn arrive(
    rt: &impl Abort,
    device: &mut Device,
    head: SubmitHead,
    bytes: &[u8],
) -> Result<(), Fail> {
    assert!(rt; !device.closed());
    match head.dir {
        Dir::Out => assert!(rt; bytes.len() == head.length as usize),
        Dir::In => assert!(rt; bytes.is_empty()),
    }
    device.input(Input::Submit(head), bytes)?;
    Ok(())
}

/// A Bulk-OUT submit arrives.
fn send(rt: &impl Abort, device: &mut Device, seqnum: u32, bytes: &[u8]) -> Result<(), Fail> {
    assert!(rt; bytes.len() < 1_000);
    let head = SubmitHead {
        seqnum,
        devid: 0x0001_0002,
        dir: Dir::Out,
        ep: 1,
        length: bytes.len() as u32,
        setup: [0; 8],
    };
    arrive(rt, device, head, bytes)
}

/// An IN submit of an endpoint arrives.
fn ask(
    rt: &impl Abort,
    device: &mut Device,
    seqnum: u32,
    ep: u32,
    length: u32,
) -> Result<(), Fail> {
    let head = SubmitHead {
        seqnum,
        devid: 0x0001_0002,
        dir: Dir::In,
        ep,
        length,
        setup: [0; 8],
    };
    arrive(rt, device, head, &[])
}

/// A control submit arrives. An IN one has room for any answer.
fn control(rt: &impl Abort, device: &mut Device, seqnum: u32, setup: Setup) -> Result<(), Fail> {
    let (dir, length) = if setup.request_type < 128 {
        (Dir::Out, 0)
    } else {
        (Dir::In, 65_535)
    };
    let head = SubmitHead {
        seqnum,
        devid: 0x0001_0002,
        dir,
        ep: 0,
        length,
        setup: setup.to_bytes(),
    };
    arrive(rt, device, head, &[])
}

/// A control submit arrives and is answered at once, with status 0 and these bytes.
fn told(
    rt: &impl Abort,
    device: &mut Device,
    seqnum: u32,
    setup: Setup,
    bytes: &[u8],
) -> Result<(), Fail> {
    control(rt, device, seqnum, setup)?;
    assert_eq!(rt;
        device.drive(DevEvent::Answer),
        Drove::Applied,
        "at {seqnum}"
    );
    answered(rt, device, seqnum, 0, bytes);
    Ok(())
}

/// An unlink arrives at a device that is plugged.
fn unlink(rt: &impl Abort, device: &mut Device, seqnum: u32, target: u32) -> Result<(), Fail> {
    assert!(rt; !device.closed());
    let head = UnlinkHead {
        seqnum,
        devid: 0x0001_0002,
        target,
    };
    device.input(Input::Unlink(head), &[])?;
    Ok(())
}

/// The next output is this answer to a submit, with this data.
fn answered(rt: &impl Abort, device: &mut Device, seqnum: u32, status: i32, bytes: &[u8]) {
    match device.first_output() {
        Some((Output::Submit(head), data)) => {
            assert_eq!(rt; head.seqnum, seqnum);
            assert_eq!(rt; head.status, status, "of {seqnum}");
            assert_eq!(rt; data, bytes, "of {seqnum}");
            device.drop_output();
        }
        _ => assert!(rt; false, "nothing answers {seqnum}"),
    }
}

/// The next output answers an OUT submit of which so many bytes were taken.
fn taken(rt: &impl Abort, device: &mut Device, seqnum: u32, status: i32, actual: u32) {
    match device.first_output() {
        Some((Output::Submit(head), data)) => {
            assert_eq!(rt; head.seqnum, seqnum);
            assert_eq!(rt; head.status, status, "of {seqnum}");
            assert_eq!(rt; head.actual, actual, "of {seqnum}");
            assert!(rt; data.is_empty(), "of {seqnum}");
            device.drop_output();
        }
        _ => assert!(rt; false, "nothing answers {seqnum}"),
    }
}

/// The next output answers an IN submit with so many bytes.
fn filled(rt: &impl Abort, device: &mut Device, seqnum: u32, status: i32, actual: u32) {
    match device.first_output() {
        Some((Output::Submit(head), data)) => {
            assert_eq!(rt; head.seqnum, seqnum);
            assert_eq!(rt; head.status, status, "of {seqnum}");
            assert_eq!(rt; head.actual, actual, "of {seqnum}");
            assert_eq!(rt; data.len(), actual as usize, "of {seqnum}");
            device.drop_output();
        }
        _ => assert!(rt; false, "nothing answers {seqnum}"),
    }
}

/// The next output answers an unlink.
fn unlinked(rt: &impl Abort, device: &mut Device, seqnum: u32, status: i32) {
    match device.first_output() {
        Some((Output::Unlink(head), _)) => {
            assert_eq!(rt; head.seqnum, seqnum);
            assert_eq!(rt; head.status, status, "of {seqnum}");
            device.drop_output();
        }
        _ => assert!(rt; false, "nothing answers the unlink {seqnum}"),
    }
}

/// The transfer of a request for at most 100 bytes, with the tag 2.
pub(super) const REQUEST: [u8; 12] = [
    2, 2, 253, 0, // REQUEST_DEV_DEP_MSG_IN
    100, 0, 0, 0, // TransferSize
    0, 0, 0, 0, //
];

/// The transfer of `READ? 47`, with the tag 1, whose response is 52 bytes long.
pub(super) const READ_47: [u8; 20] = [
    1, 1, 254, 0, // DEV_DEP_MSG_OUT
    8, 0, 0, 0, // TransferSize
    1, 0, 0, 0, // EOM
    b'R', b'E', b'A', b'D', b'?', b' ', b'4', b'7',
];
