//! What the lines of a script say.

ghost use Rattle.std.specs.Prelude.{◌≡◌, ◌≤◌, ◌<◌, ◌∷◌, length, IfOk, IfSome};
ghost use Rattle.tmc_base.specs.declared.limits.TheConstants.{SUBMIT_MAX};
ghost use Rattle.usbip_wire.specs.Dirs.{IsShort};
ghost use Rattle.event_text.specs.Read.{IsRead, IsJudged, IsShortLine, words_behind};
ghost use Rattle.event_text.specs.Script.{phase_of, phase_said, first_words, first_said, dir_of, length_of, submit_said, unlink_said, bytes_said, later_words, later_said, lines_most};

use crate::behind::{Behind, first_word};
use crate::limits::{LINE_MOST, LINES_MOST};
use crate::line_fault::LineWhat;
use crate::line_stop::LineStop;
use crate::way::Way;
use crate::words::{is, octets_in, read_number};
use std::mem;
use tmc_base::{Octets, SUBMIT_MAX};
use usbip_wire::{Dir, Outstanding};

/// What a script is about.
#[derive(Clone, Copy, Debug, PartialEq, Eq)]
pub(crate) enum Phase {
    /// Operations, until a device is imported.
    Op,
    /// URB messages.
    Urb,
}

/// What a line behind the first says.
#[derive(Debug, Drop)]
pub(crate) enum Line {
    /// A submit or an unlink is outstanding from here on.
    Adds(Outstanding),
    /// The next piece of the stream.
    Bytes(Octets),
}

/// What the first line says.
pub(crate) fn read_first(line: &[u8]) -> Result<Phase, LineWhat>
    ensures { result ≡ first_said line.now }
{
    judge_size(1, line)?;
    let (head, behind) = first_word(line);
    first_words(head, behind)
}

/// What this line says. The bytes of a piece come in `room`, and what that held is dropped.
pub(crate) fn read_later(
    room: &mut Vec<u8>,
    way: Way,
    number: u32,
    line: &[u8],
) -> Result<Line, LineStop>
    ensures read { IsRead result (later_said way number line.now) }
    ensures few { IfOk result (λ said. number ≤ lines_most) }
    ensures short { IfOk result IsShortLine }
{
    judge_size(number, line)?;
    let (head, behind) = first_word(line);
    later_words(room, way, head, behind)
}

/// Refuses a line that has too many before it, or is too long.
pub(crate) fn judge_size(number: u32, line: &[u8]) -> Result<(), LineWhat>
    ensures { IsJudged number line.now result }
{
    if number > LINES_MOST {
        return Err(LineWhat::TooMany);
    }
    if line.len() > LINE_MOST {
        return Err(LineWhat::TooLong);
    }
    Ok(())
}

fn first_words(head: &[u8], behind: Behind) -> Result<Phase, LineWhat>
    ensures { result ≡ first_words (head.now ∷ words_behind behind.entry) }
{
    if is(head, "phase") {
        read_phase(behind)
    } else {
        Err(LineWhat::Unknown)
    }
}

fn read_phase(behind: Behind) -> Result<Phase, LineWhat>
    ensures { result ≡ phase_said (words_behind behind.entry) }
{
    let word = behind.one().ok_or(LineWhat::Words)?;
    if is(word, "op") {
        Ok(Phase::Op)
    } else if is(word, "urb") {
        Ok(Phase::Urb)
    } else {
        Err(LineWhat::Words)
    }
}

fn later_words(room: &mut Vec<u8>, way: Way, head: &[u8], behind: Behind) -> Result<Line, LineStop>
    ensures read { IsRead result (later_words way (head.now ∷ words_behind behind.entry)) }
    ensures short { IfOk result IsShortLine }
{
    if is(head, "bytes") {
        return read_bytes(room, behind);
    }
    match way {
        Way::Down if is(head, "submit") => Ok(Line::Adds(read_submit(behind)?)),
        Way::Down if is(head, "unlink") => Ok(Line::Adds(read_unlink(behind)?)),
        _ => Err(LineStop::Wrong(LineWhat::Unknown)),
    }
}

fn read_submit(behind: Behind) -> Result<Outstanding, LineWhat>
    ensures said { result ≡ submit_said (words_behind behind.entry) }
    ensures short { IfOk result IsShort }
{
    let (number, dir, size) = behind.three().ok_or(LineWhat::Words)?;
    let dir = read_dir(dir).ok_or(LineWhat::Words)?;
    let seqnum = read_number(number).ok_or(LineWhat::Number)?;
    let length = read_length(size).ok_or(LineWhat::Number)?;
    Ok(Outstanding::Submit {
        seqnum,
        dir,
        length,
    })
}

/// The length of a submit.
fn read_length(word: &[u8]) -> Option<u32>
    ensures value { result ≡ length_of word.now }
    ensures short { IfSome result (λ size. size ≤ SUBMIT_MAX) }
{
    let size = read_number(word)?;
    if size > SUBMIT_MAX {
        return None;
    }
    Some(size)
}

/// The direction of a submit.
fn read_dir(word: &[u8]) -> Option<Dir>
    ensures { result ≡ dir_of word.now }
{
    if is(word, "in") {
        Some(Dir::In)
    } else if is(word, "out") {
        Some(Dir::Out)
    } else {
        None
    }
}

fn read_unlink(behind: Behind) -> Result<Outstanding, LineWhat>
    ensures said { result ≡ unlink_said (words_behind behind.entry) }
    ensures short { IfOk result IsShort }
{
    let number = behind.one().ok_or(LineWhat::Words)?;
    let seqnum = read_number(number).ok_or(LineWhat::Number)?;
    Ok(Outstanding::Unlink { seqnum })
}

fn read_bytes(room: &mut Vec<u8>, behind: Behind) -> Result<Line, LineStop>
    ensures read { IsRead result (bytes_said (words_behind behind.entry)) }
    ensures short { IfOk result IsShortLine }
{
    let word = behind.one().ok_or(LineWhat::Words)?;
    let none = Vec::new(*room.allocator());
    let piece = octets_in(mem::replace(room, none), word)?.ok_or(LineWhat::Hex)?;
    Ok(Line::Bytes(piece))
}
