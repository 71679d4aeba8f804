//! What the tests share: a client's session with a node, row by row, and its bytes.

use crate::{DevEvent, Drove, Fed, Node};
use std::alloc::Global;
use std::process::Abort;
use std::test::Fail;
use tmc_base::Field;

/// A row of a session: what the client sends, what the instrument does, or what is pending then.
#[derive(Clone, Copy)]
pub(super) enum Row<'a> {
    /// The client sends these bytes.
    Sends(&'a [u8]),
    /// The client sends these bytes one by one, and the calm moves are made behind each.
    SendsEach(&'a [u8]),
    /// The client asks for the import of this bus id.
    Imports([u8; 3]),
    /// The client sends an IN submit with this number, on the interrupt endpoint.
    Submits(u32),
    /// The client sends such submits, with the numbers up to this.
    SubmitsUpTo(u32),
    /// The client sends these bytes, of which a field is refused.
    Fails(&'a [u8], Field),
    /// The client sends such a submit, of which a field is refused.
    SubmitFails(u32, Field),
    /// The client sends two such submits in one piece, of which a field is refused.
    PairFails(u32, u32, Field),
    /// The event is applied.
    Goes(DevEvent),
    /// The event is not enabled.
    Stays(DevEvent),
    /// The calm moves are made.
    Calm,
    /// So many bytes are pending, the last of them these.
    Pending(usize, &'a [u8]),
    /// The reply to the import is pending, and these answers behind it.
    Answers(&'a [u8]),
    /// The node takes nothing in any more, and this field was refused.
    Closed(Option<Field>),
}

/// A session of a node that awaits operations.
pub(super) fn from_start(rt: &impl Abort, alloc: Global, rows: &[Row<'_>]) -> Result<(), Fail> {
    let mut node = Node::new(alloc)?;
    runs(rt, &mut node, rows)
}

/// A session of a node that was imported.
pub(super) fn behind_import(rt: &impl Abort, alloc: Global, rows: &[Row<'_>]) -> Result<(), Fail> {
    let mut node = Node::imported(alloc)?;
    runs(rt, &mut node, rows)
}

/// Goes through the rows of a session.
pub(super) fn runs(rt: &impl Abort, node: &mut Node, rows: &[Row<'_>]) -> Result<(), Fail> {
    for row in rows {
        passes(rt, node, *row)?;
    }
    Ok(())
}

/// Goes through one row.
fn passes(rt: &impl Abort, node: &mut Node, row: Row<'_>) -> Result<(), Fail> {
    match row {
        Row::Sends(bytes) => feeds(rt, node, bytes, Fed::Ok),
        Row::SendsEach(bytes) => sends_each(rt, node, bytes)?,
        Row::Imports(busid) => feeds(rt, node, &import(busid), Fed::Ok),
        Row::Submits(seqnum) => feeds(rt, node, &submit(seqnum), Fed::Ok),
        Row::SubmitsUpTo(last) => submits_up_to(rt, node, last),
        Row::Fails(bytes, field) => feeds(rt, node, bytes, Fed::Refused(field)),
        Row::SubmitFails(seqnum, field) => feeds(rt, node, &submit(seqnum), Fed::Refused(field)),
        Row::PairFails(first, second, field) => {
            feeds(
                rt,
                node,
                &pair(submit(first), submit(second)),
                Fed::Refused(field),
            );
        }
        Row::Goes(event) => drives(rt, node, event, Drove::Applied),
        Row::Stays(event) => drives(rt, node, event, Drove::NotEnabled),
        Row::Calm => node.calm()?,
        Row::Pending(count, last) => pending(rt, node, count, last),
        Row::Answers(answers) => answered(rt, node.pending_out(), answers),
        Row::Closed(field) => closed(rt, node, field),
    }
    Ok(())
}

fn feeds(rt: &impl Abort, node: &mut Node, bytes: &[u8], fed: Fed) {
    assert_eq!(rt; node.feed(bytes), fed);
}

fn drives(rt: &impl Abort, node: &mut Node, event: DevEvent, drove: Drove) {
    assert_eq!(rt; node.drive(event), drove, "{event:?}");
}

/// The node takes nothing in any more, and this field was refused.
fn closed(rt: &impl Abort, node: &Node, field: Option<Field>) {
    assert!(rt; node.closed());
    assert_eq!(rt; node.refused(), field);
}

/// The client sends these bytes one by one, and the calm moves are made behind each.
fn sends_each(rt: &impl Abort, node: &mut Node, bytes: &[u8]) -> Result<(), Fail> {
    for byte in bytes {
        assert_eq!(rt; node.feed(&[*byte]), Fed::Ok);
        node.calm()?;
    }
    Ok(())
}

/// The client sends submits with the numbers up to this.
fn submits_up_to(rt: &impl Abort, node: &mut Node, last: u32) {
    for seqnum in 1..=last {
        assert_eq!(rt; node.feed(&submit(seqnum)), Fed::Ok, "at {seqnum}");
    }
}

/// So many bytes are pending, the last of them these.
fn pending(rt: &impl Abort, node: &Node, count: usize, last: &[u8]) {
    assert_eq!(rt; node.pending_out().len(), count);
    assert!(rt; node.pending_out().ends_with(last), "of {count}");
}

/// These bytes are the reply to the import of the instrument, and the answers behind it.
pub(super) fn answered(rt: &impl Abort, bytes: &[u8], answers: &[u8]) {
    assert_eq!(rt; bytes.len(), 320 + answers.len());
    let (reply, behind) = bytes.split_at(320);
    assert!(rt; reply.starts_with(&PATH));
    assert!(rt; reply.ends_with(&RECORD));
    assert_eq!(rt; behind, answers);
}

/// What the client sends: it imports the instrument, sets the configuration, sends `*IDN?` and the request for its
/// response, takes that, and unlinks what was answered.
pub(super) const UP: [u8; 312] = [
    1, 17, 128, 3, 0, 0, 0, 0, // OP_REQ_IMPORT
    b'1', b'-', b'1', 0, 0, 0, 0, 0, // of the bus id
    0, 0, 0, 0, 0, 0, 0, 0, 0, 0, 0, 0, 0, 0, 0, 0, 0, 0, 0, 0, 0, 0, 0, 0, //
    0, 0, 0, 1, 0, 0, 0, 1, 0, 1, 0, 2, 0, 0, 0, 0, 0, 0, 0, 0, // USBIP_CMD_SUBMIT 1: OUT, endpoint 0
    0, 0, 0, 0, 0, 0, 0, 0, 0, 0, 0, 0, 0, 0, 0, 0, 0, 0, 0, 0, // no data
    0, 9, 1, 0, 0, 0, 0, 0, // SET_CONFIGURATION
    0, 0, 0, 1, 0, 0, 0, 2, 0, 1, 0, 2, 0, 0, 0, 0, 0, 0, 0, 1, // USBIP_CMD_SUBMIT 2: OUT, endpoint 1
    0, 0, 0, 0, 0, 0, 0, 20, 0, 0, 0, 0, 0, 0, 0, 0, 0, 0, 0, 0, // 20 bytes
    0, 0, 0, 0, 0, 0, 0, 0, //
    1, 1, 254, 0, 6, 0, 0, 0, 1, 0, 0, 0, // DEV_DEP_MSG_OUT with 6 bytes, EOM
    b'*', b'I', b'D', b'N', b'?', b'\n', 0, 0, //
    0, 0, 0, 1, 0, 0, 0, 3, 0, 1, 0, 2, 0, 0, 0, 0, 0, 0, 0, 1, // USBIP_CMD_SUBMIT 3: OUT, endpoint 1
    0, 0, 0, 0, 0, 0, 0, 12, 0, 0, 0, 0, 0, 0, 0, 0, 0, 0, 0, 0, // 12 bytes
    0, 0, 0, 0, 0, 0, 0, 0, //
    2, 2, 253, 0, 0, 1, 0, 0, 0, 0, 0, 0, // REQUEST_DEV_DEP_MSG_IN for 256 bytes
    0, 0, 0, 1, 0, 0, 0, 4, 0, 1, 0, 2, 0, 0, 0, 1, 0, 0, 0, 2, // USBIP_CMD_SUBMIT 4: IN, endpoint 2
    0, 0, 0, 0, 0, 0, 2, 0, 0, 0, 0, 0, 0, 0, 0, 0, 0, 0, 0, 0, // 512 bytes
    0, 0, 0, 0, 0, 0, 0, 0, //
    0, 0, 0, 2, 0, 0, 0, 5, 0, 1, 0, 2, 0, 0, 0, 0, 0, 0, 0, 0, // USBIP_CMD_UNLINK 5
    0, 0, 0, 4, 0, 0, 0, 0, 0, 0, 0, 0, 0, 0, 0, 0, 0, 0, 0, 0, // of submit 4
    0, 0, 0, 0, 0, 0, 0, 0, //
];

/// What it is answered behind the reply to the import.
pub(super) const DOWN: [u8; 272] = [
    0, 0, 0, 3, 0, 0, 0, 1, 0, 0, 0, 0, 0, 0, 0, 0, 0, 0, 0, 0, // USBIP_RET_SUBMIT 1
    0, 0, 0, 0, 0, 0, 0, 0, // status, no bytes
    0, 0, 0, 0, 255, 255, 255, 255, 0, 0, 0, 0, 0, 0, 0, 0, 0, 0, 0, 0, //
    0, 0, 0, 3, 0, 0, 0, 2, 0, 0, 0, 0, 0, 0, 0, 0, 0, 0, 0, 0, // USBIP_RET_SUBMIT 2
    0, 0, 0, 0, 0, 0, 0, 20, // status, 20 bytes
    0, 0, 0, 0, 255, 255, 255, 255, 0, 0, 0, 0, 0, 0, 0, 0, 0, 0, 0, 0, //
    0, 0, 0, 3, 0, 0, 0, 3, 0, 0, 0, 0, 0, 0, 0, 0, 0, 0, 0, 0, // USBIP_RET_SUBMIT 3
    0, 0, 0, 0, 0, 0, 0, 12, // status, 12 bytes
    0, 0, 0, 0, 255, 255, 255, 255, 0, 0, 0, 0, 0, 0, 0, 0, 0, 0, 0, 0, //
    0, 0, 0, 3, 0, 0, 0, 4, 0, 0, 0, 0, 0, 0, 0, 0, 0, 0, 0, 0, // USBIP_RET_SUBMIT 4
    0, 0, 0, 0, 0, 0, 0, 32, // status, 32 bytes
    0, 0, 0, 0, 255, 255, 255, 255, 0, 0, 0, 0, 0, 0, 0, 0, 0, 0, 0, 0, //
    2, 2, 253, 0, 19, 0, 0, 0, 1, 0, 0, 0, // DEV_DEP_MSG_IN with 19 bytes, EOM
    b'E', b'X', b'A', b'M', b'P', b'L', b'E', b',', b'T', b'M', b'C', b'1', b',', b'0', b',', b'1',
    b'.', b'0', b'\n', 0, //
    0, 0, 0, 4, 0, 0, 0, 5, 0, 0, 0, 0, 0, 0, 0, 0, 0, 0, 0, 0, // USBIP_RET_UNLINK 5
    0, 0, 0, 0, 0, 0, 0, 0, 0, 0, 0, 0, 0, 0, 0, 0, 0, 0, 0, 0, 0, 0, 0, 0, 0, 0, 0, 0, // status
];

/// The reply to the import up to the path, which zeros follow.
const PATH: [u8; 28] = *b"\x01\x11\0\x03\0\0\0\0/sys/devices/tmc/1-1";

/// What the device record says behind the path and the bus id.
const RECORD: [u8; 24] = [
    0, 0, 0, 1, 0, 0, 0, 2, 0, 0, 0, 2, // busnum, devnum, speed
    240, 85, 4, 136, 1, 0, // idVendor, idProduct, bcdDevice
    0, 0, 0, 1, 1, 1, // the device's class, its configuration, one interface
];

/// A request for the import of a bus id.
fn import(busid: [u8; 3]) -> [u8; 40] {
    let mut request = [0; 40];
    request[..4].copy_from_slice(&[1, 0x11, 0x80, 3]);
    request[8..11].copy_from_slice(&busid);
    request
}

/// An IN submit on the interrupt endpoint.
fn submit(seqnum: u32) -> [u8; 48] {
    let mut bytes = [0; 48];
    bytes[..4].copy_from_slice(&[0, 0, 0, 1]);
    bytes[4..8].copy_from_slice(&seqnum.to_be_bytes());
    bytes[8..12].copy_from_slice(&[0, 1, 0, 2]);
    bytes[15] = 1;
    bytes[19] = 3;
    bytes[27] = 2;
    bytes
}

/// Two messages in one piece.
fn pair(first: [u8; 48], second: [u8; 48]) -> [u8; 96] {
    let mut bytes = [0; 96];
    bytes[..48].copy_from_slice(&first);
    bytes[48..].copy_from_slice(&second);
    bytes
}
