use super::session::Row::{Goes, Submits};
use super::session::{DOWN, Row, UP, answered, runs};
use crate::{DevEvent, Node, ServeEnd, serve_link};
use std::alloc::{AllocError, Global};
use std::process::Abort;
use std::test::Fail;
use tmc_base::{Field, Layer, MemLink, Memory, Name};

/// A client: what it sends, in pieces of at most `most_poll` bytes, the most bytes that it takes at once, and the numbers
/// of the send and of the poll that fail.
#[derive(Clone, Copy)]
struct Client<'a> {
    gives: &'a [u8],
    most_send: usize,
    most_poll: usize,
    fail_send: u32,
    fail_poll: u32,
}

/// The link to a client.
fn link(alloc: Global, client: Client<'_>) -> Result<MemLink, Memory> {
    MemLink::new(
        alloc,
        client.gives.to_vec(alloc)?,
        65_536,
        client.most_send.max(1),
        client.most_poll.max(1),
        [client.fail_send].to_vec(alloc)?,
        [client.fail_poll].to_vec(alloc)?,
    )
}

/// Serves a client by calls in a row: each in at most so many turns, with its end.
fn serve(rt: &impl Abort, node: &mut Node, link: &mut MemLink, calls: &[(u64, ServeEnd)]) {
    for (turns, end) in calls {
        assert_eq!(rt; serve_link(node, link, *turns), *end, "in {turns}");
    }
}

/// A client is served by a node that was imported, behind these rows: so many bytes are sent.
fn serves(
    rt: &impl Abort,
    alloc: Global,
    rows: &[Row<'_>],
    client: Client<'_>,
    calls: &[(u64, ServeEnd)],
    sent: usize,
) -> Result<(), Fail> {
    let mut node = Node::imported(alloc)?;
    runs(rt, &mut node, rows)?;
    let mut link = link(alloc, client)?;
    serve(rt, &mut node, &mut link, calls);
    assert_eq!(rt; link.sent().len(), sent);
    Ok(())
}

/// The session without its unlink, and what it is answered: the response comes in the last answer.
const CLIENT: usize = 264;

const ANSWERS: usize = 224;

/// The session is served whole.
fn serves_session(
    rt: &impl Abort,
    alloc: Global,
    client: Client<'_>,
    calls: &[(u64, ServeEnd)],
) -> Result<(), Fail> {
    let mut node = Node::new(alloc)?;
    let mut link = link(alloc, client)?;
    serve(rt, &mut node, &mut link, calls);
    answered(rt, link.sent(), &DOWN[..ANSWERS]);
    Ok(())
}

/// The session is served in exactly so many calls, with pieces of at most so many bytes.
fn served_in(
    rt: &impl Abort,
    alloc: Global,
    most_send: usize,
    most_poll: usize,
    turns: u64,
) -> Result<(), Fail> {
    let client = Client {
        gives: &UP[..CLIENT],
        most_send,
        most_poll,
        fail_send: 0,
        fail_poll: 0,
    };
    let calls = [(turns, ServeEnd::Spent), (1, ServeEnd::Closed)];
    serves_session(rt, alloc, client, &calls)
}

#[test]
fn served_in_pieces(rt: HostRuntime) -> Result<(), Fail> {
    // the most bytes of a send and of a poll, and how many calls on the link serve the session
    let rows = [
        (1, 1, 808),
        (7, 7, 117),
        (1, 4_096, 545),
        (4_096, 1, 269),
        (4_096, 4_096, 2),
    ];
    for (most_send, most_poll, turns) in rows {
        served_in(&rt, rt.alloc(), most_send, most_poll, turns)?;
    }
    Ok(())
}

/// The send or the poll of this number fails, and then the session is served on.
fn served_behind_a_fault(
    rt: &impl Abort,
    alloc: Global,
    fail_send: u32,
    fail_poll: u32,
) -> Result<(), Fail> {
    let client = Client {
        gives: &UP[..CLIENT],
        most_send: 64,
        most_poll: 64,
        fail_send,
        fail_poll,
    };
    let calls = [(100, ServeEnd::LinkFault), (100, ServeEnd::Closed)];
    serves_session(rt, alloc, client, &calls)
}

#[test]
fn served_until_a_call_fails(rt: HostRuntime) -> Result<(), Fail> {
    // in pieces of 64 bytes, the session takes 10 sends and 6 polls
    for number in 1..=10 {
        served_behind_a_fault(&rt, rt.alloc(), number, 0)?;
    }
    for number in 1..=6 {
        served_behind_a_fault(&rt, rt.alloc(), 0, number)?;
    }
    Ok(())
}

/// A client that sends these bytes and takes at most 7 at once.
fn client_of(gives: &[u8]) -> Client<'_> {
    Client {
        gives,
        most_send: 7,
        most_poll: 7,
        fail_send: 0,
        fail_poll: 0,
    }
}

#[test]
fn served_until_the_client_closes(rt: HostRuntime) -> Result<(), Fail> {
    let calls = [(0, ServeEnd::Spent), (1, ServeEnd::Closed)];
    serves(&rt, rt.alloc(), &[], client_of(&[]), &calls, 0)
}

#[test]
fn served_until_the_instrument_is_unplugged(rt: HostRuntime) -> Result<(), Fail> {
    let rows = [Submits(1), Goes(DevEvent::Unplug)];
    let calls = [(6, ServeEnd::Spent), (1, ServeEnd::Closed)];
    serves(&rt, rt.alloc(), &rows, client_of(&UP), &calls, 48)
}

#[test]
fn served_until_a_field_is_refused(rt: HostRuntime) -> Result<(), Fail> {
    let refused = ServeEnd::Refused(Field {
        layer: Layer::Urb,
        name: Name::Command,
        offset: 0,
    });
    let calls = [(9, refused), (0, refused)];
    serves(&rt, rt.alloc(), &[], client_of(&[9; 48]), &calls, 0)
}

/// `READ? 59992` in a submit, to which the response is 60,000 bytes.
const READ: [u8; 72] = [
    0, 0, 0, 1, 0, 0, 0, 1, 0, 1, 0, 2, 0, 0, 0, 0, 0, 0, 0, 1, // USBIP_CMD_SUBMIT 1
    0, 0, 0, 0, 0, 0, 0, 24, 0, 0, 0, 0, 0, 0, 0, 0, 0, 0, 0, 0, // 24 bytes
    0, 0, 0, 0, 0, 0, 0, 0, //
    1, 1, 254, 0, 11, 0, 0, 0, 1, 0, 0, 0, // DEV_DEP_MSG_OUT with 11 bytes, EOM
    b'R', b'E', b'A', b'D', b'?', b' ', b'5', b'9', b'9', b'9', b'2', 0, //
];

/// A request for 16,384 bytes in a submit, and a submit that has room for the piece.
const NEXT_PIECE: [u8; 108] = [
    0, 0, 0, 1, 0, 0, 0, 2, 0, 1, 0, 2, 0, 0, 0, 0, 0, 0, 0, 1, // USBIP_CMD_SUBMIT 2
    0, 0, 0, 0, 0, 0, 0, 12, 0, 0, 0, 0, 0, 0, 0, 0, 0, 0, 0, 0, // 12 bytes
    0, 0, 0, 0, 0, 0, 0, 0, //
    2, 2, 253, 0, 0, 64, 0, 0, 0, 0, 0, 0, // REQUEST_DEV_DEP_MSG_IN
    0, 0, 0, 1, 0, 0, 0, 3, 0, 1, 0, 2, 0, 0, 0, 1, 0, 0, 0, 2, // USBIP_CMD_SUBMIT 3
    0, 0, 0, 0, 0, 0, 64, 64, 0, 0, 0, 0, 0, 0, 0, 0, 0, 0, 0, 0, // 16,448 bytes
    0, 0, 0, 0, 0, 0, 0, 0, //
];

/// `READ?`, and four requests for a piece of its response.
fn long_session(alloc: Global) -> Result<Vec<u8>, AllocError> {
    let mut bytes = READ.to_vec(alloc)?;
    for _ in 0..4 {
        bytes.extend_from_slice(&NEXT_PIECE)?;
    }
    Ok(bytes)
}

#[test]
fn a_long_response_is_served(rt: HostRuntime) -> Result<(), Fail> {
    let bytes = long_session(rt.alloc())?;
    let client = Client {
        gives: bytes.as_slice(),
        most_send: 1,
        most_poll: 36, // the next request never comes with the submit for a piece
        fail_send: 0,
        fail_poll: 0,
    };
    // nine answers with 48 bytes each, four of them with a header and their part of the response
    let sent = 9 * 48 + 4 * 12 + 60_000;
    serves(
        &rt,
        rt.alloc(),
        &[],
        client,
        &[(70_000, ServeEnd::Closed)],
        sent,
    )
}
