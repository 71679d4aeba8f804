ghost use Rattle.std.specs.Prelude.{ℕ, ◌<◌, ◌^◌, List, length, IfOk};
ghost use Rattle.ieee_syntax.specs.Kind.{IsSmall};
ghost use Rattle.ieee_syntax.specs.Automaton.{PlaceFits, Steps, Finishes, step, finish, closed, end_line};
ghost use Rattle.ieee_syntax.specs.Program.{Program, FaultAt};
ghost use Rattle.ieee_syntax.specs.Answers.{Answers, AnswersUnits, AnswersFault};
ghost use Rattle.ieee_syntax.specs.declared.unit.Unit.{Unit};

use crate::kind::Kind;
use crate::place::{Place, Refusal};
use crate::{SyntaxFault, Unit};
use std::alloc::Global;

/// The units of a program message, one NL as its last byte left out (IEEE 488.2, section 7). White space
/// alone, or nothing, is a message with no units.
///
/// The work is linear in the message. It answers `At` for bytes that are no message, and `Memory` for want
/// of memory alone.
pub fn units(alloc: Global, message: &[u8]) -> Result<Vec<Unit>, SyntaxFault>
    requires { length message.now < 2 ^ 32 }

    // What is answered holds of the bytes.
    ensures answers { Answers message.now result }

    // Where the bytes are a message, its units are answered, and where they are none the fault.
    ensures every_message { (us : List Unit) → Program message.now us → AnswersUnits result us }
    ensures every_fault { (place : ℕ) → FaultAt message.now place → AnswersFault result place }
{
    let mut units = Vec::new(alloc);
    let mut place = Place::Start;
    for (at, byte) in message.iter().enumerate() {
        match step(alloc, &mut units, place, Kind::of(*byte)) {
            Ok(next) => place = next,
            Err(refusal) => return Err(refusal.at(at as u32)),
        }
    }
    match finish(&mut units, place) {
        Ok(()) => Ok(units),
        Err(refusal) => Err(refusal.at(message.len() as u32)),
    }
}

/// The place after a byte. Where it ends a unit, that is put with the others.
fn step(alloc: Global, units: &mut Vec<Unit>, place: Place, kind: Kind) -> Result<Place, Refusal>
    requires small { IsSmall kind }
    requires fits { PlaceFits place }
    ensures value { Steps result units.new.items (step units.old.items place kind) }
    ensures fits { IfOk result PlaceFits }
{
    match kind {
        Kind::Semicolon => {
            close(units, place)?;
            Ok(Place::Separator)
        }
        Kind::NewLine => end_line(units, place),
        _ => place.advance(alloc, kind),
    }
}

/// The end of the line, behind which nothing stands.
fn end_line(units: &mut Vec<Unit>, place: Place) -> Result<Place, Refusal>
    requires { PlaceFits place }
    ensures value { Steps result units.new.items (end_line units.old.items place) }
    ensures fits { IfOk result PlaceFits }
{
    match place {
        Place::End => Err(Refusal::Byte),
        _ => {
            finish(units, place)?;
            Ok(Place::End)
        }
    }
}

/// The end of the bytes. A unit that has begun is put with the others.
fn finish(units: &mut Vec<Unit>, place: Place) -> Result<(), Refusal>
    requires { PlaceFits place }
    ensures { Finishes result units.new.items (finish units.old.items place) }
{
    match place {
        Place::Start | Place::End => Ok(()),
        _ => close(units, place),
    }
}

/// The end of a unit, which is put with the others.
fn close(units: &mut Vec<Unit>, place: Place) -> Result<(), Refusal>
    requires { PlaceFits place }
    ensures { Finishes result units.new.items (closed units.old.items place) }
{
    let unit = place.whole()?;
    units.push(unit)?;
    Ok(())
}
