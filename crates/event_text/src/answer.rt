//! What the events of a script answered.

ghost use Rattle.std.specs.Prelude.{◌≡◌, ◌++◌, OnOk};
ghost use Rattle.event_text.specs.Report.{answer_words, answer_line, cancel_word, drop_word, numbered};

use crate::refusal::{put_clear_refusal_words, put_refusal_words};
use crate::text::{Part, put_named_number, put_parts, put_word};
use host_hub::{AskFault, CancelAnswer, ClearFault, DropAnswer};
use tmc_base::Memory;

/// What an event that was enabled answered.
#[derive(Clone, Copy, Debug, PartialEq, Eq)]
pub enum EventAnswer {
    /// It was asked, as this ticket.
    Ticket(u32),
    /// Nothing was asked.
    Refused(AskFault),
    /// A cancel said this of its ticket.
    CancelSaid(CancelAnswer),
    /// A cancel of a session said this.
    DropSaid(DropAnswer),
    /// Nothing was cleared.
    NotCleared(ClearFault),
    /// It happened.
    Done,
}

/// Appends a line an event. `None` is an event that was not enabled.
pub(crate) fn put_answers(answers: &[Option<EventAnswer>], text: &mut Vec<u8>) -> Result<(), Memory>
    ensures { OnOk result (text.new.items ≡ text.old.items ++ numbered answer_line 1 answers.now) }
{
    let mut number = 1;
    'answers: for answer in answers {
        put_answer(number, *answer, text)?;
        number += 1;
    }
    Ok(())
}

fn put_answer(number: u64, answer: Option<EventAnswer>, text: &mut Vec<u8>) -> Result<(), Memory>
    ensures { OnOk result (text.new.items ≡ text.old.items ++ answer_line number answer) }
{
    put_parts(
        &[
            Part::Word("event "),
            Part::Number(number),
            Part::Word(" "),
            Part::Answer(answer),
            Part::Word("\n"),
        ],
        text,
    )
}

pub(crate) fn put_answer_words(
    answer: Option<EventAnswer>,
    text: &mut Vec<u8>,
) -> Result<(), Memory>
    ensures { OnOk result (text.new.items ≡ text.old.items ++ answer_words answer) }
{
    match answer {
        None => put_word("not-enabled", text),
        Some(EventAnswer::Ticket(ticket)) => put_named_number("ticket ", u64::from(ticket), text),
        Some(EventAnswer::Refused(fault)) => {
            put_word("refused ", text)?;
            put_refusal_words(fault, text)
        }
        Some(EventAnswer::CancelSaid(said)) => put_word(cancel_word(said), text),
        Some(EventAnswer::DropSaid(said)) => put_word(drop_word(said), text),
        Some(EventAnswer::NotCleared(fault)) => {
            put_word("refused ", text)?;
            put_clear_refusal_words(fault, text)
        }
        Some(EventAnswer::Done) => put_word("ok", text),
    }
}

fn cancel_word(said: CancelAnswer) -> &'static str
    ensures { result.now ≡ cancel_word said }
{
    match said {
        CancelAnswer::Begun => "begun",
        CancelAnswer::Settled => "settled",
        CancelAnswer::Unknown => "unknown",
    }
}

fn drop_word(said: DropAnswer) -> &'static str
    ensures { result.now ≡ drop_word said }
{
    match said {
        DropAnswer::Begun => "begun",
        DropAnswer::NothingLive => "nothing",
    }
}
