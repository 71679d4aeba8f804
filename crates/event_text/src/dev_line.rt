//! The line of a device's event.

ghost use Rattle.std.specs.Prelude.{◌≡◌, ◌∷◌};
ghost use Rattle.event_text.specs.Words.{words_of};
ghost use Rattle.event_text.specs.Read.{words_behind};
ghost use Rattle.event_text.specs.EventLine.{dev_said, plain_dev, count_said, endpoint_said};

use crate::behind::{Behind, first_word, number_within};
use crate::line_fault::LineWhat;
use crate::words::is;
use tmc_law::DevEvent;

/// Reads one line of a device's event, from `take` to `unplug`, without its NL. Takes no memory. The first fault of the
/// line is answered: its first word is none of these, it has too few or too many words, or its number is no number, is
/// 0, or names no endpoint from 1 to 3.
pub fn read_dev(line: &[u8]) -> Result<DevEvent, LineWhat>
    ensures { result ≡ dev_said (words_of line.now) }
{
    let (head, behind) = first_word(line);
    dev_words(head, behind)
}

/// The event of these words.
pub(crate) fn dev_words(head: &[u8], behind: Behind) -> Result<DevEvent, LineWhat>
    ensures { result ≡ dev_said (head.now ∷ words_behind behind.entry) }
{
    if is(head, "take") {
        Ok(DevEvent::Take(read_count(behind)?))
    } else if is(head, "begin") {
        Ok(DevEvent::Begin(read_count(behind)?))
    } else if is(head, "fill") {
        Ok(DevEvent::Fill(read_count(behind)?))
    } else if is(head, "halt") {
        Ok(DevEvent::Halt(read_endpoint(behind)?))
    } else {
        let event = plain_dev(head).ok_or(LineWhat::Unknown)?;
        behind.none().ok_or(LineWhat::Words)?;
        Ok(event)
    }
}

/// A number of at least 1, where it is the only word.
pub(crate) fn read_count(behind: Behind) -> Result<u32, LineWhat>
    ensures { result ≡ count_said (words_behind behind.entry) }
{
    let word = behind.one().ok_or(LineWhat::Words)?;
    number_within(word, 1, u32::MAX).ok_or(LineWhat::Number)
}

/// An endpoint, where it is the only word.
fn read_endpoint(behind: Behind) -> Result<u8, LineWhat>
    ensures { result ≡ endpoint_said (words_behind behind.entry) }
{
    let word = behind.one().ok_or(LineWhat::Words)?;
    let endpoint = number_within(word, 1, 3).ok_or(LineWhat::Number)?;
    Ok(endpoint as u8)
}

/// The event of a word that stands alone on its line.
fn plain_dev(word: &[u8]) -> Option<DevEvent>
    ensures { result ≡ plain_dev word.now }
{
    if is(word, "exec") {
        Some(DevEvent::Exec)
    } else if is(word, "answer") {
        Some(DevEvent::Answer)
    } else if is(word, "pending") {
        Some(DevEvent::Pending)
    } else if is(word, "poll") {
        Some(DevEvent::Poll)
    } else if is(word, "notify") {
        Some(DevEvent::Notify)
    } else if is(word, "unplug") {
        Some(DevEvent::Unplug)
    } else {
        None
    }
}
