//! What is shown of a script.

ghost use Rattle.std.specs.Prelude.{◌≡◌, ◌⊎◌, ◌++◌, Ok, Err, ℕ, List, IfOk, IfErr, OnOk, OnErr};
ghost use Rattle.event_text.specs.declared.line_fault.LineFault.TheVariants.{At, Memory};
ghost use Rattle.event_text.specs.declared.line_fault.LineWhat.{LineWhat};
ghost use Rattle.event_text.specs.Read.{LinePut, IsSound, standing_of};
ghost use Rattle.event_text.specs.Shown.{ShownOf, IsFaultOf, IsRefused, SourceShown, SourceFault};

use crate::laws::scripts_are_determined;
use crate::line_fault::{LineFault, LineWhat};
use crate::line_stop::LineStop;
use crate::reading::Reading;
use crate::script::{Line, read_first, read_later};
use crate::way::Way;
use crate::words::first_line;
use std::alloc::Global;
use usbip_wire::Dir;

/// Appends what is shown of a script: the messages of its pieces, a line each, and then the number of bytes
/// that are no whole message, or the field that is refused. `Dir::Out` is what a client sends, and `Dir::In` what
/// a device sends. After a fault `out` is as before.
pub fn put_shown(way: Dir, source: &[u8], out: &mut Vec<u8>) -> Result<(), LineFault>
    ensures shown { IfOk result (λ _. (text : List ℕ) × ShownOf way source.now text × (out.new.items ≡ out.old.items ++ text)) }
    ensures refused { IfErr result (IsFaultOf way source.now) }
    ensures kept { OnErr result (out.new.items ≡ out.old.items) }
    ensures all_shown { (text : List ℕ) → ShownOf way source.now text → (result ≡ Ok tt) ⊎ (result ≡ Err Memory) }
    ensures all_refused { (number : ℕ) (what : LineWhat) → IsRefused way source.now number what
        → (result ≡ Err (At number what)) ⊎ (result ≡ Err Memory) }
{
    scripts_are_determined();
    let text = text_of(*out.allocator(), Way::of(way), source)?;
    if out.is_empty() {
        *out = text;
        return Ok(());
    }
    out.extend_from_slice(&text).map_err(|_| LineFault::Memory)
}

/// What is shown of a script.
fn text_of(alloc: Global, way: Way, source: &[u8]) -> Result<Vec<u8>, LineFault>
    ensures shown { IfOk result (λ text. SourceShown way source.now text.items) }
    ensures refused { IfErr result (SourceFault way source.now) }
{
    if source.is_empty() {
        return Err(LineFault::At {
            line: 1,
            what: LineWhat::Unknown,
        });
    }
    let (first, mut rest) = first_line(source);
    let phase = match read_first(first) {
        Ok(phase) => phase,
        Err(what) => return Err(LineFault::At { line: 1, what }),
    };
    let mut reading = Reading::new(alloc, way, phase)?;
    let mut text = Vec::new(alloc);
    let mut room = Vec::new(alloc);
    let mut number = 2;
    'lines: while !rest.is_empty() {
        let (line, more) = first_line(rest);
        match put_line(&mut reading, way, number, line, &mut room, &mut text) {
            Ok(()) => {}
            Err(stop) => return Err(stop.at(number)),
        }
        rest = more;
        number += 1;
    }
    reading.end(&mut text)?;
    Ok(text)
}

/// Reads one line, with its bytes in `room`, and appends what it prints.
fn put_line(
    reading: &mut Reading,
    way: Way,
    number: u32,
    line: &[u8],
    room: &mut Vec<u8>,
    text: &mut Vec<u8>,
) -> Result<(), LineStop>
    requires { IsSound reading.old.reader reading.old.dirs reading.old.refused }
    ensures put { LinePut way number line.now (standing_of reading.old.reader reading.old.dirs) text.old.items result
        (standing_of reading.new.reader reading.new.dirs) text.new.items }
    ensures sound { OnOk result (IsSound reading.new.reader reading.new.dirs reading.new.refused) }
{
    match read_later(room, way, number, line)? {
        Line::Adds(entry) => reading.add(entry)?,
        Line::Bytes(piece) => {
            reading.give(piece.as_slice(), text)?;
            *room = piece.into_vec();
        }
    }
    Ok(())
}
