//! What ties a host to a lawful device, while nothing disturbs them: one record that each move of the device and each move of the
//! host keeps. Each function does nothing, and its contract is the law.

ghost use Rattle.std.specs.Prelude.{◌≡◌, ℕ, ◌+◌, Bool, false, Some, None, List, [], ◌∷◌, ◌++◌, Option};
ghost use Rattle.usbip_wire.specs.declared.submit.SubmitHead.{SubmitHead};
ghost use Rattle.usbip_wire.specs.Up as up;
ghost use Rattle.tmc_law.specs.State.{State, start};
ghost use Rattle.tmc_law.specs.Put.{Put};
ghost use Rattle.tmc_law.specs.Numbers.{AllBelow, Rises, numbers};
ghost use Rattle.tmc_law.specs.Run.{Entry, Runs, inputs, outputs};
ghost use Rattle.host_joint.specs.Stage.{Ran};
ghost use Rattle.host_joint.specs.Positions.{IsAt, rests};
ghost use Rattle.host_joint.specs.Hand.{Hand, Free, Said, Pauses, Writes};
ghost use Rattle.host_joint.specs.Pieces.{IsPiece, BeginsPiece, IsFaultless, IsWhole};
ghost use Rattle.host_joint.specs.Tie.{IsUndisturbed, Tie, IsGiven, Owns, WasAccepted};

use instr_plain::one_response;
use tmc_law::laws::{
    a_step_logs_at_most_once, answers_fit, halts_have_causes, numbers_rise,
    pending_submits_are_sound, runs_join, steps_act, the_log_grows,
};
use tmc_wire::{header_offsets_are_laid_out, headers_are_read_again, transfers_are_read_again};

/// A host that has nothing in hand is tied to a device at power-on, and to one that is at rest, with no message between them.
pub fn ties_begin()
    ensures power_on { (next : ℕ) → Tie Free None next [] [] start }
    ensures rest { (run : List Entry) (next : ℕ) (s : State) → Runs start run s → IsAt rests s → s.control ≡ [] → s.interrupt_in ≡ []
        → s.halted.bulk_out ≡ false → s.halted.bulk_in ≡ false → Rises (numbers s []) → AllBelow next (numbers s []) → Tie Free None next [] [] s }
{}

/// Each run of a lawful device that nothing disturbs keeps the tie: what the device takes in stood in front of the messages on their
/// way, and what it puts out stands behind the answers on their way. A message that was executed keeps its response.
pub fn ties_stay()
    ensures tie { (run : List Entry) (hand : Hand) (waits : Option SubmitHead) (next : ℕ) (ups : List up.Message) (downs : List Put) (s t : State)
        → Runs s run t → IsUndisturbed run → Tie hand waits next (inputs run ++ ups) downs s → Tie hand waits next ups (downs ++ outputs run) t }
    ensures ran { (run : List Entry) (hand : Hand) (waits : Option SubmitHead) (next n : ℕ) (message response : List ℕ) (ups : List up.Message) (downs : List Put) (s t : State)
        → Runs s run t → Tie hand waits next (inputs run ++ ups) downs s → Ran n message response s.log → Ran n message response t.log }
{
    pending_submits_are_sound();
    steps_act();
    runs_join();
    the_log_grows();
    headers_are_read_again();
    numbers_rise();
    answers_fit();
    halts_have_causes();
    a_step_logs_at_most_once();
    one_response();
}

/// Each submit that a host writes by its hand keeps the tie: a transfer of a message, its request, or a read, with the next number,
/// where no other submit is unanswered.
pub fn writes_keep_ties()
    ensures { (before after : Hand) (head : SubmitHead) (bytes : List ℕ) (next : ℕ) (ups : List up.Message) (downs : List Put) (s : State)
        → Writes before head bytes after → head.seqnum ≡ next → Tie before None next ups downs s
        → Tie after (Some head) (next + 1) (ups ++ up.Submit head bytes ∷ []) downs s }
{
    headers_are_read_again();
    header_offsets_are_laid_out();
    transfers_are_read_again();
}

/// The next answer on its way is the one to the submit that is not answered, with its number and status 0. A transfer was taken whole.
/// A read came full or ended the piece, and nothing in the bytes of the piece is refused; with EOM they end the response, and without
/// EOM the response is longer. The host is tied then with what it has in hand behind the answer.
pub fn answers_are_the_expected()
    ensures { (hand : Hand) (head : SubmitHead) (next : ℕ) (put : Put) (ups : List up.Message) (downs : List Put) (s : State)
        → Tie hand (Some head) next ups (put ∷ downs) s → IsGiven hand head put next ups downs s }
{
    headers_are_read_again();
    header_offsets_are_laid_out();
    transfers_are_read_again();
}

/// A ticket is over where its host wants no more of it: a message that was taken whole, as that of a tell, which the device has under its
/// number or has executed; or pieces of a response, though more of it is unread.
pub fn tickets_end()
    ensures told { (last : ℕ) (message : List ℕ) (next : ℕ) (ups : List up.Message) (downs : List Put) (s : State)
        → Tie (Said last message) None next ups downs s → Tie Free None next ups downs s }
    ensures accepted { (last : ℕ) (message : List ℕ) (next : ℕ) (ups : List up.Message) (downs : List Put) (s : State)
        → Tie (Said last message) None next ups downs s → WasAccepted last message s }
    ensures read { (last : ℕ) (message sofar : List ℕ) (next : ℕ) (ups : List up.Message) (downs : List Put) (s : State)
        → Tie (Pauses last message sofar) None next ups downs s → Tie Free None next ups downs s }
{}

/// The data that a tied host has of a response is at any moment a front of the one response that the log gives to its own message.
pub fn ties_own()
    ensures { (hand : Hand) (waits : Option SubmitHead) (next : ℕ) (ups : List up.Message) (downs : List Put) (s : State)
        → Tie hand waits next ups downs s → Owns hand s }
{
    headers_are_read_again();
    header_offsets_are_laid_out();
    transfers_are_read_again();
}

/// The bytes of a piece have no fault that a host could find: in its header, against its request, or in its length.
pub fn pieces_have_no_fault()
    ensures begun { (tag size : ℕ) (bytes : List ℕ) → BeginsPiece tag size bytes → IsFaultless tag size bytes }
    ensures whole { (tag size : ℕ) (eom : Bool) (carried bytes : List ℕ) → IsPiece tag size eom carried bytes
        → IsFaultless tag size bytes × IsWhole eom carried bytes }
{
    headers_are_read_again();
    header_offsets_are_laid_out();
    transfers_are_read_again();
}
