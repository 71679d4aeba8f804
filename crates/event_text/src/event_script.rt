//! A script of events.

ghost use Rattle.std.specs.Prelude.{◌≡◌, ◌⊎◌, ℕ, IfOk, IfErr, Ok, Err};
ghost use Rattle.event_text.specs.declared.event.Script.{Script};
ghost use Rattle.event_text.specs.declared.line_fault.LineFault.TheVariants.{At, Memory};
ghost use Rattle.event_text.specs.declared.line_fault.LineWhat.{LineWhat};
ghost use Rattle.event_text.specs.EventScript.{IsEventScript, IsRefusedEvent, IsEventFault, MayBegin};
ghost use Rattle.event_text.specs.Read.{LineTaken};

use crate::event::{Events, Script};
use crate::event_line::{Place, Said, read_line};
use crate::line_fault::LineFault;
use crate::line_stop::LineStop;
use crate::words::first_line;
use std::alloc::Global;

/// Reads a script of events: `first N` and `depth N`, which may stand before the events, each once and in this order,
/// and then a line an event. Where `first` or `depth` is left out it is 1. Lines end with NL, which the last may lack;
/// lines are counted from 1. The first line that is wrong is named with its first fault. A hub may begin as a script says.
pub fn read_script(alloc: Global, source: &[u8]) -> Result<Script, LineFault>
    ensures read { IfOk result (IsEventScript source.now) }
    ensures begins { IfOk result (λ script. MayBegin script.first script.depth) }
    ensures refused { IfErr result (IsEventFault source.now) }
    ensures all_read { (script : Script) → IsEventScript source.now script → (result ≡ Ok script) ⊎ (result ≡ Err Memory) }
    ensures all_refused { (number : ℕ) (what : LineWhat) → IsRefusedEvent source.now number what
        → (result ≡ Err (At number what)) ⊎ (result ≡ Err Memory) }
{
    script_of(alloc, source)
}

fn script_of(alloc: Global, source: &[u8]) -> Result<Script, LineFault>
    ensures read { IfOk result (IsEventScript source.now) }
    ensures refused { IfErr result (IsEventFault source.now) }
{
    let mut script = Script {
        first: 1,
        depth: 1,
        events: Events::new(alloc),
    };
    let mut place = Place::Start;
    let mut rest = source;
    let mut number = 1;
    'lines: while !rest.is_empty() {
        let (line, more) = first_line(rest);
        match take_line(alloc, &mut script, place, number, line) {
            Ok(next) => place = next,
            Err(stop) => return Err(stop.at(number)),
        }
        rest = more;
        number += 1;
    }
    Ok(script)
}

/// Adds to a script what a line says, and tells what has been said behind it.
fn take_line(
    alloc: Global,
    script: &mut Script,
    place: Place,
    number: u32,
    line: &[u8],
) -> Result<Place, LineStop>
    ensures { LineTaken place number line.now script.old result script.new }
{
    let said = read_line(alloc, place, number, line)?;
    let next = said.place();
    match said {
        Said::First(first) => script.first = first,
        Said::Depth(depth) => script.depth = depth,
        Said::Does(event) => script.events.push(event)?,
    }
    Ok(next)
}
