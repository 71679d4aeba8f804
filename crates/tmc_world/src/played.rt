//! A world that went through events, as tests see it: plain values.

use crate::{Applied, DevEvent, World};
use event_text::{Event, EventAnswer};
use host_hub::{End, Outcome};
use std::alloc::Global;
use tmc_base::{Memory, Octets};

/// A row of events.
#[derive(Clone, Copy)]
pub(crate) enum Row<'a> {
    /// This session asks this, with this limit.
    Ask(u8, &'a [u8], u32),
    /// This session tells this.
    Tell(u8, &'a [u8]),
    GiveUp,
    /// At most so many bytes go up.
    Up(u32),
    /// So many times a byte goes up.
    UpEach(u32),
    /// At most so many bytes go down.
    Down(u32),
    /// So many times a byte goes down.
    DownEach(u32),
    Dev(DevEvent),
    FailSend,
    FailPoll,
    Rest,
}

/// What became of a world from power-on.
#[derive(Drop)]
pub(crate) struct Played {
    /// What became of each row: the first answer but `Done`, or that.
    pub(crate) answers: Vec<Applied>,
    /// The bytes that crossed the link.
    pub(crate) sent: Vec<u8>,
    pub(crate) taken: Vec<u8>,
    /// The response of ticket 1.
    pub(crate) response: Vec<u8>,
    /// The outcome of each of the first three tickets, and the length of its response.
    pub(crate) outcomes: Vec<(Outcome, usize)>,
    pub(crate) end: Option<End>,
    /// How many entries the log has.
    pub(crate) entries: usize,
    /// How often the hub turned.
    pub(crate) turned: u64,
    /// Whether no move is enabled.
    pub(crate) still: bool,
}

/// It was enabled, and happened.
pub(crate) const DONE: Applied = Applied::Answer(EventAnswer::Done);

/// The steps that an instrument makes by itself.
const STEPS: [DevEvent; 6] = [
    DevEvent::Answer,
    DevEvent::Exec,
    DevEvent::Take(1),
    DevEvent::Begin(1),
    DevEvent::Fill(1),
    DevEvent::Notify,
];

/// A world of first number and depth 1 goes through these rows.
pub(crate) fn play(alloc: Global, rows: &[Row<'_>]) -> Result<Played, Memory> {
    let mut world = World::new(alloc, 1, 1)?;
    play_in(alloc, &mut world, rows)
}

/// A world goes through these rows, and shows what became of it.
fn play_in(alloc: Global, world: &mut World, rows: &[Row<'_>]) -> Result<Played, Memory> {
    let answers = answers_of(alloc, world, rows)?;
    shown(alloc, world, answers)
}

/// What became of each row.
fn answers_of(alloc: Global, world: &mut World, rows: &[Row<'_>]) -> Result<Vec<Applied>, Memory> {
    let mut answers = Vec::new(alloc);
    for row in rows {
        answers.push(goes(alloc, world, *row)?)?;
    }
    Ok(answers)
}

/// The event of a row.
fn event_of(alloc: Global, row: Row<'_>) -> Result<Event, Memory> {
    Ok(match row {
        Row::Ask(session, message, limit) => Event::Ask {
            session,
            limit,
            message: Octets::from_slice(alloc, message)?,
        },
        Row::Tell(session, message) => Event::Tell {
            session,
            message: Octets::from_slice(alloc, message)?,
        },
        Row::GiveUp => Event::GiveUp,
        Row::Up(most) => Event::Up(most),
        Row::UpEach(_) => Event::Up(1),
        Row::Down(most) => Event::Down(most),
        Row::DownEach(_) => Event::Down(1),
        Row::Dev(does) => Event::Dev(does),
        Row::FailSend => Event::FailSend,
        Row::FailPoll => Event::FailPoll,
        Row::Rest => Event::Rest,
    })
}

/// Goes through one row.
fn goes(alloc: Global, world: &mut World, row: Row<'_>) -> Result<Applied, Memory> {
    let event = event_of(alloc, row)?;
    let times = match row {
        Row::UpEach(times) | Row::DownEach(times) => times,
        _ => 1,
    };
    for _ in 0..times {
        let became = world.apply(&event);
        if became != DONE {
            return Ok(became);
        }
    }
    Ok(DONE)
}

/// What the world shows.
fn shown(alloc: Global, world: &mut World, answers: Vec<Applied>) -> Result<Played, Memory> {
    let sent = copied(alloc, world.hub().link().sent())?;
    let taken = copied(alloc, world.hub().link().taken())?;
    let response = response_of(alloc, world)?;
    let outcomes = outcomes_of(alloc, world)?;
    Ok(Played {
        answers,
        sent,
        taken,
        response,
        outcomes,
        end: world.hub().end(),
        entries: world.log().entries().len(),
        turned: world.hub().turned(),
        still: is_still(world),
    })
}

fn copied(alloc: Global, bytes: &[u8]) -> Result<Vec<u8>, Memory> {
    let mut copy = Vec::new(alloc);
    copy.extend_from_slice(bytes)?;
    Ok(copy)
}

/// The response of ticket 1. Where there is no such ticket, it is empty.
fn response_of(alloc: Global, world: &World) -> Result<Vec<u8>, Memory> {
    match world.hub().outcome(1) {
        Some(view) => copied(alloc, view.bytes),
        None => Ok(Vec::new(alloc)),
    }
}

/// The outcomes of the first three tickets.
fn outcomes_of(alloc: Global, world: &World) -> Result<Vec<(Outcome, usize)>, Memory> {
    let mut outcomes = Vec::new(alloc);
    for ticket in 1..4 {
        if let Some(view) = world.hub().outcome(ticket) {
            outcomes.push((view.outcome, view.bytes.len()))?;
        }
    }
    Ok(outcomes)
}

/// Whether no move is enabled; else one was made.
fn is_still(world: &mut World) -> bool {
    for does in STEPS {
        if world.apply(&Event::Dev(does)) != Applied::NotEnabled {
            return false;
        }
    }
    world.apply(&Event::Up(1)) == Applied::NotEnabled
        && world.apply(&Event::Down(1)) == Applied::NotEnabled
}
