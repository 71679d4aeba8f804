//! A move determines what comes of it. The function does nothing, and its contract is the law.

ghost use Rattle.std.specs.Prelude.{◌≡◌, List};
ghost use Rattle.tmc_law.specs.State.{State, start};
ghost use Rattle.tmc_law.specs.Put.{Put};
ghost use Rattle.tmc_law.specs.Step.{Move, Steps};
ghost use Rattle.tmc_law.specs.Run.{Entry, Runs};

use crate::setups::setups_have_one_meaning;
use instr_plain::{grows, one_standing};
use tmc_wire::headers_are_read_again;

/// A state that can be reached and a move determine what is put out and the next state. What a device chooses freely is the
/// move alone.
pub fn steps_are_determined()
    ensures { (run : List Entry) (s t other : State) (move : Move) (puts others : List Put) → Runs start run s
        → Steps s move puts t → Steps s move others other → (puts ≡ others) × (t ≡ other) }
{
    grows();
    one_standing();
    headers_are_read_again();
    setups_have_one_meaning();
}
