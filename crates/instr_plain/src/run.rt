//! The execution of a message, unit by unit (IEEE 488.2, section 6).

ghost use Rattle.std.specs.Prelude.{◌≡◌, ◌≤◌, length, OnOk, OnErr};
ghost use Rattle.instr_plain.specs.Exec.{Progress, Executes, Exec, performed, told};
ghost use Rattle.instr_plain.specs.Output.{IsAt, Obeys};

use crate::output::Output;
use crate::status::{COMMAND_ERROR, QUERY_ERROR};
use crate::{Answer, Command, Plain};
use ieee_syntax::{SyntaxFault, Unit, units};
use std::alloc::Global;
use tmc_base::Memory;

/// Executes a message. What is written behind it is its response. After [`Memory`] nothing has changed.
pub(crate) fn execute(
    alloc: Global,
    message: &[u8],
    state: &mut Plain,
    output: &mut Output,
) -> Result<(), Memory>
    requires { length message.now ≤ 4096 }
    ensures ok { OnOk result (Exec state.old message.now state.new output.new.bytes) }
    ensures state { OnErr result (state.new ≡ state.old) }
    ensures output { OnErr result (output.new ≡ output.old) }
{
    match units(alloc, message) {
        Ok(units) => {
            execute_units(units.as_slice(), state, output);
            Ok(())
        }
        Err(SyntaxFault::At(_)) => {
            output.begin();
            state.set_event(COMMAND_ERROR);
            Ok(())
        }
        Err(SyntaxFault::Memory) => Err(Memory),
    }
}

/// Executes the units of a message.
fn execute_units(units: &[Unit], state: &mut Plain, output: &mut Output)
    ensures { Obeys state.old units.now state.new output.new.bytes }
{
    output.begin();
    obey_all(units, state, output);
    output.finish();
}

/// Obeys units one after another, up to one that is unknown.
fn obey_all(units: &[Unit], state: &mut Plain, output: &mut Output)
    ensures { (before : Progress) → IsAt before state.old output.old →
        (after : Progress) × Executes before units.now after × IsAt after state.new output.new }
{
    for unit in units {
        match Command::from_unit(unit) {
            Some(command) => obey(&command, state, output),
            None => {
                state.set_event(COMMAND_ERROR);
                return;
            }
        }
    }
}

/// Obeys a command. Behind an answer that only the end of the response ends, a query is passed over.
fn obey(command: &Command, state: &mut Plain, output: &mut Output)
    ensures { (before : Progress) → IsAt before state.old output.old → IsAt (performed command.now before) state.new output.new }
{
    if command.is_query() && output.is_ended() {
        state.set_event(QUERY_ERROR);
        return;
    }
    let available = !output.bytes().is_empty();
    if let Some(answer) = state.perform(command, available) {
        tell(&answer, state, output);
    }
}

/// Puts an answer with the others.
fn tell(answer: &Answer, state: &mut Plain, output: &mut Output)
    ensures { (before : Progress) → IsAt before state.old output.old → IsAt (told (Some answer.now) before) state.new output.new }
{
    if output.put(answer) {
        state.set_event(QUERY_ERROR);
    }
}
