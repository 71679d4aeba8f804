//! Worked single steps: one step of a device or of a host, where the longer runs do not take it. Each function does nothing, and its contract is
//! what holds of the example.

ghost use Rattle.std.specs.Prelude.{ℕ, Some, None, List, [], ◌∷◌, drop, true, false};
ghost use Rattle.tmc_base.specs.declared.run_step.RunStep.{RunStep};
ghost use Rattle.tmc_base.specs.Told.{in_bytes, IsFront};
ghost use Rattle.usbip_wire.specs.Up as up;
ghost use Rattle.tmc_law.specs.State.{State, start, arrived};
ghost use Rattle.tmc_law.specs.Put.{success};
ghost use Rattle.tmc_law.specs.Run.{Runs};
ghost use Rattle.tmc_law.specs.WorkedQuery.{query_submit, query_text, response_submit, response_text};
ghost use Rattle.tmc_law.specs.WorkedParts.{spaced, last_text, sending_parts};
ghost use Rattle.tmc_law.specs.WorkedSession.{devid, out_submit, in_submit, notify_submit, answered};
ghost use Rattle.host_joint.specs.Stage.{Ran};
ghost use Rattle.host_joint.specs.Asking.{Asking, Cancelled};
ghost use Rattle.host_joint.specs.Positions.{IsAt, cleared};
ghost use Rattle.host_joint.specs.Hand.{Free};
ghost use Rattle.host_joint.specs.Tie.{Tie};
ghost use Rattle.host_joint.specs.Bond.{Saying, Stands, Resting, Bound};
ghost use Rattle.host_joint.specs.Joint.{TellsCalmly, TellsPlugged};
ghost use Rattle.host_joint.specs.WorkedAsks.{query_ask, query_asked};
ghost use Rattle.host_joint.specs.WorkedCancels.{race_unlinks, racing_behind};
ghost use Rattle.host_joint.specs.WorkedPieces.{requested_first, requested_second, first_log, second_log};
ghost use Rattle.host_joint.specs.WorkedRecoveries.{abort_submit, cancelled_inside, cleared_at_last};
ghost use Rattle.host_joint.specs.WorkedTies.{told_to};

use crate::{
    answers_are_the_expected, answers_come_in_turn, bonds_stay, cancelled_asks_stay, devices_rest,
    joints_stay, messages_are_cancelled, ties_begin, ties_stay, worked_asks_hand_over,
    worked_cancelled_asks_go_on, worked_hosts_are_tied, worked_pieces_are_joined,
    worked_pieces_are_read, worked_recoveries_are_joined, writes_keep_ties,
};
use tmc_law::laws::runs_join;
use tmc_law::worked::a_message_comes_in_parts;

/// A host is tied to the device that has a message of two transfers and rests. When the first piece of its response was given, the message is
/// still what ran under its number; so it is over a link, whatever the device tells when the read of the second piece was written, and when the
/// abort of it was.
pub fn worked_messages_stay()
    ensures rest { Tie Free None 3 [] [] told_to }
    ensures ran { (response : List ℕ) → Ran 2 spaced response requested_first.log → Ran 2 spaced response first_log }
    ensures told { (text response : List ℕ) (more : List RunStep) (t : State) → up.Spells devid (up.Submit (in_submit 6 4096) []) text
        → TellsCalmly devid requested_second more t → IsFront (in_bytes more) text → Ran 2 spaced response first_log → Ran 2 spaced response t.log }
    ensures aborted { (text response : List ℕ) (more : List RunStep) (t : State) → up.Spells devid (up.Submit (abort_submit 8) []) text
        → TellsPlugged devid cancelled_inside more t → IsFront (in_bytes more) text → Ran 2 spaced response second_log → Ran 2 spaced response t.log }
{
    a_message_comes_in_parts();
    worked_asks_hand_over();
    worked_pieces_are_read();
    worked_pieces_are_joined();
    worked_recoveries_are_joined();
    ties_begin();
    ties_stay();
    writes_keep_ties();
    joints_stay();
}

/// The last transfer of a message is written where it may be cancelled; when it was taken, nothing is to be aborted. A query with three unlinks on
/// their way is cancelled when its first transfer came. Behind a clear a device rests when a submit to Interrupt-IN comes. No read of a cancelled
/// query has bytes before its request was answered.
pub fn worked_steps_are_taken()
    ensures last { (s : State) × Runs s (drop 3 sending_parts) told_to × Bound (Saying 2 false true false) (Some (out_submit 2 20)) [] 3 (up.Submit (out_submit 2 20) last_text ∷ []) [] s }
    ensures whole { Bound (Saying 2 false true true) None [] 3 [] [] told_to × Bound (Stands Resting) None [] 3 [] [] told_to }
    ensures came { Cancelled query_asked race_unlinks (record query_ask { gone = true }) racing_behind [] (record start { bulk_out = arrived query_submit query_text ∷ [] }) }
    ensures cleared { IsAt cleared (record cleared_at_last { interrupt_in = arrived (notify_submit 11 2) [] ∷ [] }) }
    ensures early { (s : State) → Asking (record query_ask { answered = 1; gone = true }) [] (answered response_submit success 32 response_text ∷ []) s → ⊥ }
{
    a_message_comes_in_parts();
    runs_join();
    worked_hosts_are_tied();
    worked_cancelled_asks_go_on();
    ties_stay();
    answers_are_the_expected();
    messages_are_cancelled();
    bonds_stay();
    cancelled_asks_stay();
    devices_rest();
    answers_come_in_turn();
}
