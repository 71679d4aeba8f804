use super::session::Row::{
    Answers, Calm, Closed, Fails, Goes, Imports, PairFails, Pending, Sends, SendsEach, Stays,
    SubmitFails, Submits, SubmitsUpTo,
};
use super::session::{DOWN, UP, behind_import, from_start};
use crate::DevEvent;
use std::test::Fail;
use tmc_base::{Field, Layer, Name};

/// A submit while 256 are pending.
const TOO_MANY: Field = Field {
    layer: Layer::Urb,
    name: Name::Pending,
    offset: 4,
};

/// A submit whose number is pending.
const TWICE: Field = Field {
    layer: Layer::Urb,
    name: Name::Seqnum,
    offset: 4,
};

#[test]
fn a_session_is_answered_byte_by_byte(rt: HostRuntime) -> Result<(), Fail> {
    from_start(&rt, rt.alloc(), &[SendsEach(&UP), Answers(&DOWN)])
}

#[test]
fn operations_go_on_until_the_import(rt: HostRuntime) -> Result<(), Fail> {
    from_start(
        &rt,
        rt.alloc(),
        &[
            Sends(&[1, 0x11, 0x80, 5, 0, 0, 0, 0]), // OP_REQ_DEVLIST
            Pending(328, &[0xFE, 3, 1, 0]),
            Imports(*b"9-9"),
            Pending(336, &[1, 0x11, 0, 3, 0, 0, 0, 1]),
            Stays(DevEvent::Unplug),
            Imports(*b"1-1"),
            Pending(656, &[0, 0, 0, 1, 1, 1]),
            Goes(DevEvent::Unplug),
        ],
    )
}

#[test]
fn a_submit_too_many_is_refused(rt: HostRuntime) -> Result<(), Fail> {
    behind_import(
        &rt,
        rt.alloc(),
        &[
            SubmitsUpTo(256),
            SubmitFails(257, TOO_MANY),
            Closed(Some(TOO_MANY)),
            SubmitFails(258, TOO_MANY),
            Stays(DevEvent::Unplug),
            Pending(0, &[]),
        ],
    )
}

#[test]
fn a_pending_number_is_refused_and_nothing_behind_it_is_taken(rt: HostRuntime) -> Result<(), Fail> {
    from_start(
        &rt,
        rt.alloc(),
        &[
            Sends(&UP),
            Pending(368, &[0, 0, 0, 0]),
            Submits(6),
            PairFails(6, 7, TWICE),
            Closed(Some(TWICE)),
            Pending(368, &[0, 0, 0, 0]),
            Calm,
            Pending(368, &[0, 0, 0, 0]),
            Fails(&[], TWICE),
        ],
    )
}

#[test]
fn an_unplugged_node_takes_nothing_in(rt: HostRuntime) -> Result<(), Fail> {
    behind_import(
        &rt,
        rt.alloc(),
        &[
            Submits(1),
            Goes(DevEvent::Unplug),
            Closed(None),
            Pending(48, &[]),
            Submits(1),
            Sends(&UP),
            Calm,
            Pending(48, &[]),
        ],
    )
}
