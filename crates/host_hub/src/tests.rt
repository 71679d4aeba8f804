//! What no clause says: whole exchanges, by bytes that the standards give.

use super::*;
use std::alloc::Global;
use std::process::Abort;
use std::test::Fail;
use tmc_base::{Field, Layer, MemLink, Memory, Name};
use usb_setup::Ends;

const DEVID: u32 = 0x0001_0002;

const ENDS: Ends = Ends {
    configuration: 1,
    interface: 0,
    protocol: 1,
    bulk_out: 0x01,
    bulk_in: 0x82,
    notify: Some(0x83),
    notify_size: 8,
};

/// What is sent for `*IDN?` with the limit 4,000.
const SENT: &[u8] = &[
    0, 0, 0, 1, 0, 0, 0, 1, 0, 1, 0, 2, 0, 0, 0, 0, 0, 0, 0, 1, // submit 1, OUT, endpoint 1
    0, 0, 0, 0, 0, 0, 0, 20, 0, 0, 0, 0, 0xFF, 0xFF, 0xFF, 0xFF, 0, 0, 0, 0, // of 20 bytes
    0, 0, 0, 0, 0, 0, 0, 0, // no setup packet
    1, 1, 0xFE, 0, 5, 0, 0, 0, 1, 0, 0, 0, // DEV_DEP_MSG_OUT, tag 1, 5 bytes, EOM
    b'*', b'I', b'D', b'N', b'?', 0, 0, 0, // the message, and its alignment
    0, 0, 0, 1, 0, 0, 0, 2, 0, 1, 0, 2, 0, 0, 0, 0, 0, 0, 0, 1, // submit 2, OUT, endpoint 1
    0, 0, 0, 0, 0, 0, 0, 12, 0, 0, 0, 0, 0xFF, 0xFF, 0xFF, 0xFF, 0, 0, 0, 0, // of 12 bytes
    0, 0, 0, 0, 0, 0, 0, 0, //
    2, 2, 0xFD, 0, 0xA0, 0x0F, 0, 0, 0, 0, 0, 0, // REQUEST_DEV_DEP_MSG_IN, tag 2, 4,000 bytes
    0, 0, 0, 1, 0, 0, 0, 3, 0, 1, 0, 2, 0, 0, 0, 1, 0, 0, 0, 2, // submit 3, IN, endpoint 2
    0, 0, 0, 0, 0, 0, 0x10, 0, 0, 0, 0, 0, 0xFF, 0xFF, 0xFF, 0xFF, 0, 0, 0, 0, // of 4,096 bytes
    0, 0, 0, 0, 0, 0, 0, 0,
];

/// What the instrument answers.
const ANSWERED: &[u8] = &[
    0, 0, 0, 3, 0, 0, 0, 1, 0, 0, 0, 0, 0, 0, 0, 0, 0, 0, 0, 0, // answer to submit 1
    0, 0, 0, 0, 0, 0, 0, 20, 0, 0, 0, 0, 0xFF, 0xFF, 0xFF, 0xFF, 0, 0, 0, 0, // status 0, 20 bytes
    0, 0, 0, 0, 0, 0, 0, 0, //
    0, 0, 0, 3, 0, 0, 0, 2, 0, 0, 0, 0, 0, 0, 0, 0, 0, 0, 0, 0, // answer to submit 2
    0, 0, 0, 0, 0, 0, 0, 12, 0, 0, 0, 0, 0xFF, 0xFF, 0xFF, 0xFF, 0, 0, 0, 0, // status 0, 12 bytes
    0, 0, 0, 0, 0, 0, 0, 0, //
    0, 0, 0, 3, 0, 0, 0, 3, 0, 0, 0, 0, 0, 0, 0, 0, 0, 0, 0, 0, // answer to submit 3
    0, 0, 0, 0, 0, 0, 0, 32, 0, 0, 0, 0, 0xFF, 0xFF, 0xFF, 0xFF, 0, 0, 0, 0, // status 0, 32 bytes
    0, 0, 0, 0, 0, 0, 0, 0, //
    2, 2, 0xFD, 0, 19, 0, 0, 0, 1, 0, 0, 0, // DEV_DEP_MSG_IN, tag 2, 19 bytes, EOM
    b'E', b'X', b'A', b'M', b'P', b'L', b'E', b',', b'T', b'M', b'C', b'1', b',', b'0', b',', b'1',
    b'.', b'0', b'\n', 0, // the response, and its alignment
];

/// The response to `*IDN?`.
const RESPONSE: &[u8] = b"EXAMPLE,TMC1,0,1.0\n";

/// Asks `*IDN?` so many times over a link that gives these bytes in pieces of at most `polls`, and takes pieces of at most `sends`;
/// turns until the hub ends.
fn asked(
    alloc: Global,
    queries: u16,
    gives: &[u8],
    sends: usize,
    polls: usize,
    limit: u32,
) -> Result<(Book, MemLink), Memory> {
    let link = MemLink::new(
        alloc,
        gives.to_vec(alloc)?,
        200_000,
        sends.max(1),
        polls.max(1),
        Vec::new(alloc),
        Vec::new(alloc),
    )?;
    let mut hub = match Hub::new(alloc, link, DEVID, ENDS, 1, 1) {
        Ok(hub) => hub,
        Err((_, memory)) => return Err(memory),
    };
    for _ in 0..queries {
        let _ = hub.ask(3, b"*IDN?", limit);
    }
    for _ in 0..20_000 {
        if let Turn::Ended(_) = hub.turn() {
            break;
        }
    }
    Ok(hub.into_parts())
}

/// What the instrument answers where the query is the one behind so many others.
fn answered_behind(alloc: Global, queries: u16) -> Result<Vec<u8>, Memory> {
    let queries = u32::from(queries);
    let mut answers = ANSWERED.to_vec(alloc)?;
    for (place, number) in [
        (4, 3 * queries + 1),
        (52, 3 * queries + 2),
        (100, 3 * queries + 3),
    ] {
        for (offset, byte) in number.to_be_bytes().into_iter().enumerate() {
            if let Some(changed) = answers.get_mut(place + offset) {
                *changed = byte;
            }
        }
    }
    // Each query draws a tag for its message and then one for its request, from 1 to 255 and again.
    let tag = ((2 * queries + 1) % 255 + 1) as u8;
    for (place, byte) in [(145, tag), (146, !tag)] {
        if let Some(changed) = answers.get_mut(place) {
            *changed = byte;
        }
    }
    Ok(answers)
}

/// This field is refused.
const fn refused(layer: Layer, name: Name, offset: u32) -> Outcome {
    Outcome::PeerFault(Field {
        layer,
        name,
        offset,
    })
}

#[test]
fn a_query_in_pieces(rt: HostRuntime) -> Result<(), Fail> {
    for (sends, polls) in [(4_096, 48), (4_096, 1), (68, 48), (68, 16)] {
        let (book, link) = asked(rt.alloc(), 1, ANSWERED, sends, polls, 4_000)?;
        let view = book.view(1).expect(&rt, "a ticket");
        assert_eq!(rt; view.bytes, RESPONSE, "by {polls}");
        assert_eq!(rt; view.outcome, Outcome::Complete, "by {polls}");
        assert_eq!(rt; link.sent(), SENT, "by {polls}");
    }
    Ok(())
}

#[test]
fn what_a_peer_may_not_say(rt: HostRuntime) -> Result<(), Fail> {
    let early = refused(Layer::Urb, Name::Seqnum, 4);
    let large = refused(Layer::Bulk, Name::Size, 4);
    for (sends, polls, limit, outcome, sent) in [
        (4_096, 47, 4_000, early, 68),
        (4_096, 8_192, 4_000, early, 68),
        (1, 48, 4_000, early, 1),
        (1, 1, 4_000, early, 8),
        (4_096, 48, 18, large, 176),
        (4_096, 48, 19, Outcome::Complete, 176),
        (4_096, 48, 65_535, Outcome::Complete, 176),
    ] {
        let (book, link) = asked(rt.alloc(), 1, ANSWERED, sends, polls, limit)?;
        let view = book.view(1).expect(&rt, "a ticket");
        assert_eq!(rt; view.outcome, outcome, "by {polls}, limit {limit}");
        assert_eq!(rt; link.sent().len(), sent, "by {polls}, limit {limit}");
    }
    Ok(())
}

#[test]
fn a_thousand_queries_in_a_row(rt: HostRuntime) -> Result<(), Fail> {
    let mut gives = Vec::new(rt.alloc());
    for queries in 0..1_000 {
        gives.extend_from_slice(answered_behind(rt.alloc(), queries)?.as_slice())?;
    }
    let (book, link) = asked(rt.alloc(), 1_000, gives.as_slice(), 4_096, 16, 4_000)?;
    assert_eq!(rt; link.sent().len(), 176_000);
    for ticket in 1..=1_000 {
        let view = book.view(ticket).expect(&rt, "a ticket");
        assert_eq!(rt; view.last, 3 * ticket - 2);
        assert_eq!(rt; view.bytes, RESPONSE, "of {ticket}");
        assert_eq!(rt; view.outcome, Outcome::Complete, "of {ticket}");
    }
    Ok(())
}

#[test]
fn one_byte_of_a_longer_response(rt: HostRuntime) -> Result<(), Fail> {
    let mut gives = ANSWERED.to_vec(rt.alloc())?;
    // The answer to submit 3 has 16 bytes, and its transfer 1 byte of data, without EOM.
    for (place, byte) in [(123, 16), (148, 1), (152, 0)] {
        if let Some(changed) = gives.get_mut(place) {
            *changed = byte;
        }
    }
    gives.truncate(160);
    let (book, link) = asked(rt.alloc(), 1, gives.as_slice(), 4_096, 16, 1)?;
    let view = book.view(1).expect(&rt, "a ticket");
    assert_eq!(rt; view.bytes, b"E".as_slice());
    assert_eq!(rt; view.outcome, Outcome::Limit);
    assert_eq!(rt; link.sent().len(), 176);
    Ok(())
}

#[test]
fn one_byte_that_is_another(rt: HostRuntime) -> Result<(), Fail> {
    for (at, byte, outcome) in [
        (3, 5, refused(Layer::Urb, Name::Command, 0)),
        (7, 9, refused(Layer::Urb, Name::Seqnum, 4)),
        (23, 1, Outcome::DeviceFault(1)),
        (27, 19, refused(Layer::Urb, Name::ActualLength, 24)),
        (27, 21, refused(Layer::Urb, Name::ActualLength, 24)),
        (144, 3, refused(Layer::Bulk, Name::MsgId, 0)),
        (145, 3, refused(Layer::Bulk, Name::Inverse, 2)),
        (146, 0, refused(Layer::Bulk, Name::Inverse, 2)),
        (148, 21, refused(Layer::Bulk, Name::Length, 12)),
        (148, 15, refused(Layer::Bulk, Name::Length, 12)),
        (149, 16, refused(Layer::Bulk, Name::Size, 4)),
        (152, 0, Outcome::Unplugged),
    ] {
        let mut gives = ANSWERED.to_vec(rt.alloc())?;
        if let Some(changed) = gives.get_mut(at) {
            *changed = byte;
        }
        let (book, _) = asked(rt.alloc(), 1, gives.as_slice(), 4_096, 48, 4_000)?;
        let view = book.view(1).expect(&rt, "a ticket");
        assert_eq!(rt; view.outcome, outcome, "{byte} at {at}");
    }
    Ok(())
}

#[test]
fn refusals_in_their_order(rt: HostRuntime) -> Result<(), Fail> {
    let link = MemLink::new(
        rt.alloc(),
        Vec::new(rt.alloc()),
        4_096,
        4_096,
        4_096,
        Vec::new(rt.alloc()),
        Vec::new(rt.alloc()),
    )?;
    let mut hub = match Hub::new(rt.alloc(), link, DEVID, ENDS, 1, 1) {
        Ok(hub) => hub,
        Err(_) => return Ok(()),
    };
    assert_eq!(rt; hub.ask(16, b"", 0), Err(AskFault::NoSession));
    assert_eq!(rt; hub.ask(15, b"", 0), Err(AskFault::EmptyMessage));
    assert_eq!(rt; hub.ask(15, &[b' '; 4_097], 0), Err(AskFault::LongMessage));
    assert_eq!(rt; hub.ask(15, b"*OPC?", 0), Err(AskFault::BadLimit));
    assert_eq!(rt; hub.tell(15, b"*CLS"), Ok(1));
    assert_eq!(rt; hub.turn(), Turn::Ended(End::Unplugged));
    assert_eq!(rt; hub.ask(16, b"", 0), Err(AskFault::Down(End::Unplugged)));
    assert_eq!(rt; hub.turn(), Turn::Ended(End::Unplugged));
    Ok(())
}
