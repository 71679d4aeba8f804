//! What no clause says: worlds that come to rest, with the responses that their instruments give.

use crate::DevEvent;
use crate::played::{Played, Row, play};
use Row::{Ask, Dev, FailPoll, Rest, Tell, Up};
use host_hub::{End, Outcome};
use std::process::Abort;
use std::test::Fail;

/// No move is enabled, and this became of the tickets, with so many bytes.
fn rested(rt: &impl Abort, played: &Played, outcomes: &[(Outcome, usize)]) {
    assert!(rt; played.still);
    assert_eq!(rt; played.outcomes.as_slice(), outcomes);
}

#[test]
fn a_world_that_was_asked_comes_to_rest(rt: HostRuntime) -> Result<(), Fail> {
    let played = play(
        rt.alloc(),
        &[
            Ask(3, b"*IDN?", 4_000),
            Ask(4, b"*IDN?", 2),
            Tell(3, b"CONF 7"),
            Rest,
        ],
    )?;
    rested(
        &rt,
        &played,
        &[
            (Outcome::Complete, 19),
            (Outcome::Limit, 2),
            (Outcome::Done, 0),
        ],
    );
    Ok(())
}

#[test]
fn a_world_that_was_not_asked_is_at_rest(rt: HostRuntime) -> Result<(), Fail> {
    let played = play(rt.alloc(), &[Rest])?;
    assert_eq!(rt; played.turned, 0);
    rested(&rt, &played, &[]);
    Ok(())
}

#[test]
fn a_long_response_comes_whole(rt: HostRuntime) -> Result<(), Fail> {
    let played = play(rt.alloc(), &[Ask(3, b"READ? 60000", 65_535), Up(9), Rest])?;
    rested(&rt, &played, &[(Outcome::Complete, 60_008)]);
    Ok(())
}

#[test]
fn a_world_rests_behind_the_end_of_its_hub(rt: HostRuntime) -> Result<(), Fail> {
    let played = play(rt.alloc(), &[Ask(3, b"*IDN?", 4_000), FailPoll, Rest])?;
    assert_eq!(rt; played.end, Some(End::LinkFault));
    rested(&rt, &played, &[(Outcome::LinkFault, 0)]);
    Ok(())
}

#[test]
fn an_instrument_that_is_unplugged_ends_the_hub(rt: HostRuntime) -> Result<(), Fail> {
    let played = play(
        rt.alloc(),
        &[
            Ask(3, b"*IDN?", 4_000),
            Up(u32::MAX),
            Dev(DevEvent::Unplug),
            Rest,
        ],
    )?;
    assert_eq!(rt; played.end, Some(End::Unplugged));
    rested(&rt, &played, &[(Outcome::Unplugged, 0)]);
    Ok(())
}
