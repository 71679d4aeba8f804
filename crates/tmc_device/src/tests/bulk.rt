use super::session::Row::{
    Answered, Ask, Filled, Goes, Send, Silent, Stays, Taken, Unlink, Unlinked,
};
use super::session::{READ_47, REQUEST, runs};
use crate::{DevEvent, Device, LogEntry};
use std::alloc::Global;
use std::process::Abort;
use std::test::Fail;

/// The transfer of `*IDN?`, with the tag 1.
const IDENTIFY: [u8; 20] = [
    1, 1, 254, 0, // DEV_DEP_MSG_OUT
    5, 0, 0, 0, // TransferSize
    1, 0, 0, 0, // EOM
    b'*', b'I', b'D', b'N', b'?', 0, 0, 0,
];

/// The first 8 bytes of its response.
const FIRST_PIECE: [u8; 20] = [
    2, 2, 253, 0, // DEV_DEP_MSG_IN
    8, 0, 0, 0, // TransferSize
    0, 0, 0, 0, //
    b'E', b'X', b'A', b'M', b'P', b'L', b'E', b',',
];

/// The rest of it, with one alignment byte.
const LAST_PIECE: [u8; 24] = [
    2, 2, 253, 0, // DEV_DEP_MSG_IN
    11, 0, 0, 0, // TransferSize
    1, 0, 0, 0, // EOM
    b'T', b'M', b'C', b'1', b',', b'0', b',', b'1', b'.', b'0', b'\n', 0,
];

#[test]
fn a_query_is_answered_in_two_pieces(rt: HostRuntime) -> Result<(), Fail> {
    let mut device = Device::new(rt.alloc())?;
    runs(
        &rt,
        &mut device,
        &[
            Stays(DevEvent::Take(1)),
            Send(1, &IDENTIFY),
            Goes(DevEvent::Take(1)),
            Taken(1, 0, 20),
            Goes(DevEvent::Exec),
            Send(2, &REQUEST),
            Goes(DevEvent::Take(1)),
            Taken(2, 0, 12),
            Ask(3, 2, 64),
            Stays(DevEvent::Fill(1)),
            Stays(DevEvent::Begin(0)),
            Goes(DevEvent::Begin(8)),
            Stays(DevEvent::Fill(0)),
            Goes(DevEvent::Fill(1)),
            Answered(3, 0, &FIRST_PIECE),
            Send(4, &REQUEST),
            Goes(DevEvent::Take(1)),
            Taken(4, 0, 12),
            Ask(5, 2, 64),
            Goes(DevEvent::Begin(4_294_967_295)),
            Goes(DevEvent::Fill(4_294_967_295)),
            Answered(5, 0, &LAST_PIECE),
            Silent,
        ],
    )?;
    assert!(rt;
        matches!(
            device.log().entries(),
            [
                LogEntry::Exec { seq: 1, .. },
                LogEntry::Took { n: 8 },
                LogEntry::Took { n: 11 }
            ]
        )
    );
    Ok(())
}

/// The first bytes of a transfer of this length, a message with the tag 1 that goes on in the next transfer.
fn part(transfer: u8) -> [u8; 128] {
    let mut bytes = [b' '; 128];
    bytes[0] = 1;
    bytes[1] = 1;
    bytes[2] = 254;
    bytes[3] = 0;
    bytes[4] = transfer.saturating_sub(12);
    bytes[5] = 0;
    bytes[6] = 0;
    bytes[7] = 0;
    bytes[8] = 0;
    bytes
}

/// A submit of this length begins a transfer of that one: its status, and how many bytes of it are taken.
fn judged(
    rt: &impl Abort,
    alloc: Global,
    length: usize,
    transfer: u8,
    status: i32,
    actual: u32,
) -> Result<(), Fail> {
    assert!(rt; length <= 128);
    let mut device = Device::new(alloc)?;
    let bytes = part(transfer);
    runs(
        rt,
        &mut device,
        &[
            Send(7, &bytes[..length]),
            Goes(DevEvent::Take(2)),
            Taken(7, status, actual),
            Silent,
        ],
    )
}

#[test]
fn submits_are_judged_and_taken_by_their_length(rt: HostRuntime) -> Result<(), Fail> {
    let rows = [
        (0, 64, 0, 0),
        (12, 64, -32, 0),
        (63, 64, -32, 0),
        (64, 64, 0, 64),
        (64, 128, 0, 64),
        (65, 68, -32, 0),
        (65, 64, -32, 0),
        (128, 128, 0, 128),
    ];
    for (length, transfer, status, actual) in rows {
        judged(&rt, rt.alloc(), length, transfer, status, actual)?;
    }
    Ok(())
}

#[test]
fn a_transfer_comes_in_two_submits(rt: HostRuntime) -> Result<(), Fail> {
    let mut device = Device::new(rt.alloc())?;
    let bytes = part(128);
    runs(
        &rt,
        &mut device,
        &[
            Send(1, &bytes[..64]),
            Goes(DevEvent::Take(9)),
            Taken(1, 0, 64),
            Send(2, &bytes[64..]),
            Goes(DevEvent::Take(9)),
            Taken(2, 0, 64),
            Send(3, &REQUEST), // inside the message, which goes on
            Goes(DevEvent::Take(1)),
            Taken(3, -32, 0),
            Silent,
        ],
    )
}

#[test]
fn submits_are_filled_by_their_length(rt: HostRuntime) -> Result<(), Fail> {
    // the length of a submit that gets one full packet and an empty one; its status, and how many bytes go into it
    let rows = [
        (0, -32, 0),
        (12, -32, 0),
        (63, -32, 0),
        (64, 0, 64),
        (65, 0, 64),
        (128, 0, 64),
    ];
    for (length, status, actual) in rows {
        let mut device = Device::new(rt.alloc())?;
        runs(
            &rt,
            &mut device,
            &[
                Send(1, &READ_47),
                Goes(DevEvent::Take(1)),
                Taken(1, 0, 20),
                Goes(DevEvent::Exec),
                Send(2, &REQUEST),
                Goes(DevEvent::Take(1)),
                Taken(2, 0, 12),
                Goes(DevEvent::Begin(100)),
                Ask(3, 2, length),
                Goes(DevEvent::Fill(9)),
                Filled(3, status, actual),
                Silent,
            ],
        )?;
    }
    Ok(())
}

#[test]
fn an_unlinked_message_is_not_executed(rt: HostRuntime) -> Result<(), Fail> {
    let mut device = Device::new(rt.alloc())?;
    runs(
        &rt,
        &mut device,
        &[
            Send(1, &REQUEST),
            Unlink(2, 1),
            Unlinked(2, -104),
            Unlink(3, 1),
            Unlinked(3, 0),
            Stays(DevEvent::Take(1)),
            Silent,
        ],
    )
}
