//! What no clause says: exchanges by events, with the bytes that the standards give and the response that the instrument gives.

use crate::played::{DONE, Played, Row, play};
use crate::tests::{DOWN, UP};
use crate::{Applied, DevEvent};
use Applied::{Answer, NotEnabled};
use Row::{Ask, Dev, Down, DownEach, FailPoll, FailSend, GiveUp, Tell, Up, UpEach};
use event_text::EventAnswer;
use host_hub::{AskFault, End, Outcome};
use std::process::Abort;
use std::test::Fail;

/// All that there is.
const ALL: u32 = u32::MAX;

/// Session 3 asks for the identity.
const ASK: Row<'static> = Ask(3, b"*IDN?", 4_000);

/// It has the first ticket.
const ASKED: Applied = Answer(EventAnswer::Ticket(1));

/// What became of ticket 1 and of the hub, and how many entries the log has.
fn shows(
    rt: &impl Abort,
    played: &Played,
    response: &[u8],
    outcome: Outcome,
    end: Option<End>,
    entries: usize,
) {
    let outcomes = [(outcome, response.len())];
    assert_eq!(rt; played.outcomes.as_slice(), outcomes.as_slice());
    assert_eq!(rt; played.response.as_slice(), response);
    assert_eq!(rt; played.end, end);
    assert_eq!(rt; played.entries, entries);
}

/// What became of each row.
fn answered(rt: &impl Abort, played: &Played, answers: &[Applied]) {
    assert_eq!(rt; played.answers.as_slice(), answers);
}

/// The bytes that crossed the link.
fn crossed(rt: &impl Abort, played: &Played, sent: &[u8], taken: &[u8]) {
    assert_eq!(rt; played.sent.as_slice(), sent);
    assert_eq!(rt; played.taken.as_slice(), taken);
}

const IDENTITY: &[u8] = b"EXAMPLE,TMC1,0,1.0\n";

#[test]
fn a_query_goes_by_events(rt: HostRuntime) -> Result<(), Fail> {
    let played = play(
        rt.alloc(),
        &[
            Dev(DevEvent::Take(9)),
            ASK,
            Up(ALL),
            Dev(DevEvent::Exec),
            Dev(DevEvent::Take(9)),
            Dev(DevEvent::Exec),
            Down(ALL),
            Up(ALL),
            Dev(DevEvent::Take(9)),
            Down(ALL),
            Up(ALL),
            Dev(DevEvent::Begin(9_999)),
            Dev(DevEvent::Fill(9)),
            Down(ALL),
        ],
    )?;
    answered(
        &rt,
        &played,
        &[
            NotEnabled, ASKED, DONE, NotEnabled, DONE, DONE, DONE, DONE, DONE, DONE, DONE, DONE,
            DONE, DONE,
        ],
    );
    shows(&rt, &played, IDENTITY, Outcome::Complete, None, 2);
    crossed(&rt, &played, &UP, &DOWN);
    Ok(())
}

#[test]
fn a_query_goes_byte_by_byte(rt: HostRuntime) -> Result<(), Fail> {
    let played = play(
        rt.alloc(),
        &[
            ASK,
            UpEach(67),
            Dev(DevEvent::Take(1)),
            UpEach(2),
            Down(1),
            Dev(DevEvent::Take(1)),
            Dev(DevEvent::Exec),
            DownEach(47),
            Up(1),
            DownEach(2),
            UpEach(60),
            Dev(DevEvent::Take(1)),
            DownEach(48),
            UpEach(48),
            Dev(DevEvent::Begin(4_000)),
            Dev(DevEvent::Fill(1)),
            DownEach(79),
        ],
    )?;
    answered(
        &rt,
        &played,
        &[
            ASKED, DONE, NotEnabled, NotEnabled, NotEnabled, DONE, DONE, DONE, NotEnabled,
            NotEnabled, DONE, DONE, DONE, DONE, DONE, DONE, DONE,
        ],
    );
    shows(&rt, &played, b"", Outcome::Live, None, 2);
    crossed(&rt, &played, &UP, DOWN.split_at(175).0);
    Ok(())
}

#[test]
fn a_send_fails(rt: HostRuntime) -> Result<(), Fail> {
    let played = play(
        rt.alloc(),
        &[
            ASK,
            UpEach(3),
            FailSend,
            Up(0),
            Up(ALL),
            Up(1),
            Down(1),
            ASK,
        ],
    )?;
    let down = Answer(EventAnswer::Refused(AskFault::Down(End::LinkFault)));
    answered(
        &rt,
        &played,
        &[
            ASKED, DONE, DONE, NotEnabled, DONE, NotEnabled, NotEnabled, down,
        ],
    );
    shows(
        &rt,
        &played,
        b"",
        Outcome::LinkFault,
        Some(End::LinkFault),
        0,
    );
    crossed(&rt, &played, UP.split_at(3).0, &[]);
    Ok(())
}

/// An `up` polls too, once its bytes are sent.
#[test]
fn a_poll_fails(rt: HostRuntime) -> Result<(), Fail> {
    let played = play(rt.alloc(), &[ASK, FailPoll, Down(1), Up(1), Up(1)])?;
    answered(&rt, &played, &[ASKED, DONE, NotEnabled, DONE, NotEnabled]);
    shows(
        &rt,
        &played,
        b"",
        Outcome::LinkFault,
        Some(End::LinkFault),
        0,
    );
    crossed(&rt, &played, UP.split_at(1).0, &[]);
    Ok(())
}

#[test]
fn the_instrument_is_unplugged(rt: HostRuntime) -> Result<(), Fail> {
    let played = play(
        rt.alloc(),
        &[
            ASK,
            Up(ALL),
            Dev(DevEvent::Take(9)),
            Dev(DevEvent::Unplug),
            Dev(DevEvent::Unplug),
            Dev(DevEvent::Exec),
            Down(0),
            DownEach(48),
            Down(1),
            Down(1),
        ],
    )?;
    answered(
        &rt,
        &played,
        &[
            ASKED, DONE, DONE, DONE, NotEnabled, NotEnabled, NotEnabled, DONE, DONE, NotEnabled,
        ],
    );
    shows(
        &rt,
        &played,
        b"",
        Outcome::Unplugged,
        Some(End::Unplugged),
        0,
    );
    crossed(&rt, &played, UP.split_at(68).0, DOWN.split_at(48).0);
    Ok(())
}

#[test]
fn a_world_is_given_up(rt: HostRuntime) -> Result<(), Fail> {
    let played = play(
        rt.alloc(),
        &[
            ASK,
            Up(ALL),
            Dev(DevEvent::Take(9)),
            GiveUp,
            Down(1),
            GiveUp,
        ],
    )?;
    answered(&rt, &played, &[ASKED, DONE, DONE, DONE, NotEnabled, DONE]);
    shows(&rt, &played, b"", Outcome::GivenUp, Some(End::GivenUp), 0);
    Ok(())
}

#[test]
fn what_is_not_there_is_refused(rt: HostRuntime) -> Result<(), Fail> {
    let played = play(
        rt.alloc(),
        &[
            Ask(16, b"*IDN?", 4_000),
            Tell(16, b"*RST"),
            Up(1),
            Down(1),
            Dev(DevEvent::Take(0)),
            Dev(DevEvent::Halt(4)),
            Dev(DevEvent::Halt(1)),
            Dev(DevEvent::Halt(1)),
        ],
    )?;
    let refused = Answer(EventAnswer::Refused(AskFault::NoSession));
    answered(
        &rt,
        &played,
        &[
            refused, refused, NotEnabled, NotEnabled, NotEnabled, NotEnabled, DONE, NotEnabled,
        ],
    );
    assert_eq!(rt; played.outcomes.len(), 0);
    Ok(())
}
