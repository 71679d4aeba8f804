//! What no clause says: a session end to end, with bytes that the standards give.

use crate::{DevEvent, LoopAct, LoopLink};
use std::process::Abort;
use std::test::Fail;
use tmc_base::{Link, PollStep, SendStep, TendStep};

/// A row of a session: a call on the link, and its answer.
#[derive(Clone, Copy)]
enum Row<'a> {
    /// These bytes are offered.
    Sends(&'a [u8], SendStep),
    /// Each of these bytes is sent alone, in a room of 1.
    SendsEach(&'a [u8]),
    /// At most so many bytes are asked for.
    Polls(usize, PollStep),
    /// So many bytes are taken one by one, in rooms of 1.
    PollsEach(usize),
    /// The act is done.
    Does(LoopAct),
    /// The instrument makes this step.
    Goes(DevEvent),
    /// The instrument cannot.
    Stays(DevEvent),
}

use Row::{Does, Goes, Polls, PollsEach, Sends, SendsEach, Stays};

/// Goes through the rows of a session.
fn goes<L: Link<Act = LoopAct>>(rt: &impl Abort, link: &mut L, rows: &[Row<'_>]) {
    for row in rows {
        passes(rt, link, *row);
    }
}

/// Goes through one row.
fn passes<L: Link<Act = LoopAct>>(rt: &impl Abort, link: &mut L, row: Row<'_>) {
    match row {
        Sends(piece, step) => sends(rt, link, piece, step),
        SendsEach(bytes) => sends_each(rt, link, bytes),
        Polls(most, step) => polls(rt, link, most, step),
        PollsEach(count) => polls_each(rt, link, count),
        Does(act) => tends(rt, link, act, TendStep::Did),
        Goes(event) => tends(rt, link, LoopAct::Dev(event), TendStep::Did),
        Stays(event) => tends(rt, link, LoopAct::Dev(event), TendStep::NotNow),
    }
}

fn sends<L: Link>(rt: &impl Abort, link: &mut L, piece: &[u8], step: SendStep) {
    if !piece.is_empty() {
        assert_eq!(rt; link.send(piece), step);
    }
}

fn sends_each<L: Link<Act = LoopAct>>(rt: &impl Abort, link: &mut L, bytes: &[u8]) {
    for byte in bytes {
        tends(rt, link, LoopAct::RoomSend(1), TendStep::Did);
        sends(rt, link, &[*byte, 0], SendStep::Took(1));
    }
}

fn polls<L: Link>(rt: &impl Abort, link: &mut L, most: usize, step: PollStep) {
    let mut buf = [0; 512];
    let most = most.clamp(1, 512);
    assert_eq!(rt; link.poll(&mut buf[..most]), step);
}

fn polls_each<L: Link<Act = LoopAct>>(rt: &impl Abort, link: &mut L, count: usize) {
    for _ in 0..count {
        tends(rt, link, LoopAct::RoomPoll(1), TendStep::Did);
        polls(rt, link, 2, PollStep::Got(1));
    }
}

fn tends<L: Link>(rt: &impl Abort, link: &mut L, act: L::Act, step: TendStep) {
    assert_eq!(rt; link.tend(act), step);
}

/// The bytes that crossed the link, and how many entries the log has.
fn crossed(rt: &impl Abort, link: &LoopLink, sent: &[u8], taken: &[u8], entries: usize) {
    assert_eq!(rt; link.sent(), sent);
    assert_eq!(rt; link.taken(), taken);
    assert_eq!(rt; link.log().entries().len(), entries);
}

/// What a client sends to an imported instrument: `*IDN?`, and the request for its response.
pub(crate) const UP: [u8; 176] = [
    0, 0, 0, 1, 0, 0, 0, 1, 0, 1, 0, 2, 0, 0, 0, 0, 0, 0, 0, 1, // USBIP_CMD_SUBMIT 1: OUT, endpoint 1
    0, 0, 0, 0, 0, 0, 0, 20, 0, 0, 0, 0, 255, 255, 255, 255, 0, 0, 0, 0, // 20 bytes
    0, 0, 0, 0, 0, 0, 0, 0, //
    1, 1, 254, 0, 5, 0, 0, 0, 1, 0, 0, 0, // DEV_DEP_MSG_OUT with 5 bytes, EOM
    b'*', b'I', b'D', b'N', b'?', 0, 0, 0, //
    0, 0, 0, 1, 0, 0, 0, 2, 0, 1, 0, 2, 0, 0, 0, 0, 0, 0, 0, 1, // USBIP_CMD_SUBMIT 2: OUT, endpoint 1
    0, 0, 0, 0, 0, 0, 0, 12, 0, 0, 0, 0, 255, 255, 255, 255, 0, 0, 0, 0, // 12 bytes
    0, 0, 0, 0, 0, 0, 0, 0, //
    2, 2, 253, 0, 160, 15, 0, 0, 0, 0, 0, 0, // REQUEST_DEV_DEP_MSG_IN for 4000 bytes
    0, 0, 0, 1, 0, 0, 0, 3, 0, 1, 0, 2, 0, 0, 0, 1, 0, 0, 0, 2, // USBIP_CMD_SUBMIT 3: IN, endpoint 2
    0, 0, 0, 0, 0, 0, 16, 0, 0, 0, 0, 0, 255, 255, 255, 255, 0, 0, 0, 0, // 4096 bytes
    0, 0, 0, 0, 0, 0, 0, 0, //
];

/// What it is answered.
pub(crate) const DOWN: [u8; 176] = [
    0, 0, 0, 3, 0, 0, 0, 1, 0, 0, 0, 0, 0, 0, 0, 0, 0, 0, 0, 0, // USBIP_RET_SUBMIT 1
    0, 0, 0, 0, 0, 0, 0, 20, // status, 20 bytes
    0, 0, 0, 0, 255, 255, 255, 255, 0, 0, 0, 0, 0, 0, 0, 0, 0, 0, 0, 0, //
    0, 0, 0, 3, 0, 0, 0, 2, 0, 0, 0, 0, 0, 0, 0, 0, 0, 0, 0, 0, // USBIP_RET_SUBMIT 2
    0, 0, 0, 0, 0, 0, 0, 12, // status, 12 bytes
    0, 0, 0, 0, 255, 255, 255, 255, 0, 0, 0, 0, 0, 0, 0, 0, 0, 0, 0, 0, //
    0, 0, 0, 3, 0, 0, 0, 3, 0, 0, 0, 0, 0, 0, 0, 0, 0, 0, 0, 0, // USBIP_RET_SUBMIT 3
    0, 0, 0, 0, 0, 0, 0, 32, // status, 32 bytes
    0, 0, 0, 0, 255, 255, 255, 255, 0, 0, 0, 0, 0, 0, 0, 0, 0, 0, 0, 0, //
    2, 2, 253, 0, 19, 0, 0, 0, 1, 0, 0, 0, // DEV_DEP_MSG_IN with 19 bytes, EOM
    b'E', b'X', b'A', b'M', b'P', b'L', b'E', b',', b'T', b'M', b'C', b'1', b',', b'0', b',', b'1',
    b'.', b'0', b'\n', 0, //
];

#[test]
fn a_session_goes_byte_by_byte(rt: HostRuntime) -> Result<(), Fail> {
    let mut link = LoopLink::paced(rt.alloc())?;
    let (message, behind) = UP.split_at(68);
    let (request, read) = behind.split_at(60);
    goes(
        &rt,
        &mut link,
        &[
            SendsEach(message),
            Stays(DevEvent::Exec),
            Goes(DevEvent::Take(9)),
            Goes(DevEvent::Exec),
            PollsEach(48),
            SendsEach(request),
            Goes(DevEvent::Take(9)),
            PollsEach(48),
            SendsEach(read),
            Goes(DevEvent::Begin(999)),
            Goes(DevEvent::Fill(9)),
            PollsEach(80),
        ],
    );
    crossed(&rt, &link, &UP, &DOWN, 2);
    Ok(())
}

#[test]
fn a_calm_instrument_answers_at_the_poll(rt: HostRuntime) -> Result<(), Fail> {
    let mut link = LoopLink::calm(rt.alloc())?;
    goes(
        &rt,
        &mut link,
        &[
            Polls(512, PollStep::Idle),
            Sends(&UP, SendStep::Took(176)),
            Does(LoopAct::RoomPoll(1)),
            Polls(100, PollStep::Got(100)),
            Polls(100, PollStep::Got(76)),
            Polls(100, PollStep::Idle),
        ],
    );
    crossed(&rt, &link, &UP, &DOWN, 2);
    Ok(())
}

#[test]
fn a_room_is_for_one_call(rt: HostRuntime) -> Result<(), Fail> {
    let mut link = LoopLink::paced(rt.alloc())?;
    goes(
        &rt,
        &mut link,
        &[
            Sends(&UP, SendStep::Idle),
            Does(LoopAct::RoomSend(1)),
            Sends(&UP, SendStep::Took(1)),
            Sends(&[0], SendStep::Idle),
            Does(LoopAct::RoomSend(999)),
            Sends(&UP[1..], SendStep::Took(175)),
            Goes(DevEvent::Take(9)),
            Polls(9, PollStep::Idle),
            Does(LoopAct::RoomPoll(50)),
            Polls(9, PollStep::Got(9)),
            Polls(9, PollStep::Idle),
        ],
    );
    let (first, _) = DOWN.split_at(9);
    crossed(&rt, &link, &UP, first, 0);
    Ok(())
}

#[test]
fn a_call_that_is_to_fail_does_so_once(rt: HostRuntime) -> Result<(), Fail> {
    let mut link = LoopLink::paced(rt.alloc())?;
    goes(
        &rt,
        &mut link,
        &[
            Does(LoopAct::RoomSend(9)),
            Does(LoopAct::FailSend),
            Sends(&UP, SendStep::Failed),
            Sends(&UP, SendStep::Idle),
            Does(LoopAct::RoomPoll(9)),
            Does(LoopAct::FailPoll),
            Polls(9, PollStep::Failed),
            Polls(9, PollStep::Idle),
        ],
    );
    crossed(&rt, &link, &[], &[], 0);
    Ok(())
}

#[test]
fn a_closed_node_says_so_behind_its_answers(rt: HostRuntime) -> Result<(), Fail> {
    let mut link = LoopLink::paced(rt.alloc())?;
    let (message, _) = UP.split_at(68);
    goes(
        &rt,
        &mut link,
        &[
            SendsEach(message),
            Goes(DevEvent::Unplug),
            Stays(DevEvent::Unplug),
            SendsEach(&[7, 7]),
            PollsEach(48),
            Does(LoopAct::RoomPoll(1)),
            Polls(1, PollStep::Closed),
        ],
    );
    assert!(rt; link.sent().ends_with(&[7, 7]));
    Ok(())
}

#[test]
fn a_refused_command_closes(rt: HostRuntime) -> Result<(), Fail> {
    let mut link = LoopLink::calm(rt.alloc())?;
    goes(
        &rt,
        &mut link,
        &[
            Sends(&[0, 0, 0, 5], SendStep::Took(4)),
            Polls(9, PollStep::Closed),
            Stays(DevEvent::Unplug),
        ],
    );
    crossed(&rt, &link, &[0, 0, 0, 5], &[], 0);
    Ok(())
}

/// A link may go to another thread.
#[test]
fn a_link_can_be_sent(rt: HostRuntime) -> Result<(), Fail> {
    let link = LoopLink::paced(rt.alloc())?;
    can_be_sent(&link);
    Ok(())
}

fn can_be_sent<T: Send>(_: &T) {}
