//! Worked asks whose response is kept: what is unread behind a piece, what a read brings, and bytes that no device refuses. Each function
//! does nothing, and its contract is what holds of the example.

ghost use Rattle.std.specs.Prelude.{◌≡◌, ℕ, List, [], ◌∷◌, Option};
ghost use Rattle.tmc_base.specs.declared.field.Field.{Field};
ghost use Rattle.tmc_base.specs.declared.run_step.RunStep.{RunStep};
ghost use Rattle.tmc_base.specs.Told.{in_bytes, IsFront};
ghost use Rattle.usbip_wire.specs.declared.ret_submit.RetSubmitHead.{RetSubmitHead};
ghost use Rattle.usbip_wire.specs.declared.submit.SubmitHead.{SubmitHead};
ghost use Rattle.usbip_wire.specs.Up as up;
ghost use Rattle.tmc_law.specs.State.{State, Closed, start};
ghost use Rattle.tmc_law.specs.Logging.{unread};
ghost use Rattle.tmc_law.specs.Put.{success};
ghost use Rattle.tmc_law.specs.Run.{Runs};
ghost use Rattle.tmc_law.specs.WorkedQuery.{response_text};
ghost use Rattle.tmc_law.specs.WorkedParts.{spaces_text};
ghost use Rattle.tmc_law.specs.WorkedSession.{devid, out_submit};
ghost use Rattle.host_joint.specs.Owned.{HasMore};
ghost use Rattle.host_joint.specs.Given.{BringsPiece};
ghost use Rattle.host_joint.specs.Hand.{Hand};
ghost use Rattle.host_joint.specs.Joint.{TellsCalmly, TellsPlugged, Joint};
ghost use Rattle.host_joint.specs.WorkedAsks.{query_ask};
ghost use Rattle.host_joint.specs.WorkedLines.{halted_between};
ghost use Rattle.host_joint.specs.WorkedNotices.{deaf};
ghost use Rattle.host_joint.specs.WorkedPieces.{first_data, second_piece, behind_first, behind_second, next_job, asked_with};
ghost use Rattle.host_joint.specs.WorkedRecoveries.{abort_submit, cancelled_inside};
ghost use Rattle.host_joint.specs.WorkedKept.{noticing};

use crate::{
    answers_are_taken, asking_stays, asks_are_given_pieces, messages_are_written,
    no_bytes_are_refused, pieces_have_no_fault, what_is_unread_stays, worked_asks_are_in_hand,
    worked_hosts_are_joined, worked_pieces_are_asked, worked_pieces_are_numbered,
    worked_pieces_are_read, worked_recoveries_are_joined,
};
use tmc_law::laws::runs_join;
use tmc_law::worked::a_message_comes_in_parts;
use tmc_wire::headers_are_read_again;

/// Behind the first piece the rest of the response is unread at the device, and stays so when Bulk-IN halts, and when a submit to
/// Interrupt-IN comes and that endpoint halts. Behind the second one nothing is unread.
pub fn worked_unread_stays()
    ensures more { HasMore (asked_with 4 [] 0 first_data) behind_first }
    ensures halted { HasMore (asked_with 4 [] 0 first_data) halted_between × (unread halted_between ≡ unread behind_first) }
    ensures deaf { Runs behind_first noticing deaf × HasMore (asked_with 4 [] 0 first_data) deaf × (unread deaf ≡ unread behind_first) }
    ensures over { HasMore (asked_with 4 [] 0 first_data) behind_second → ⊥ }
{
    a_message_comes_in_parts();
    runs_join();
    headers_are_read_again();
    messages_are_written();
    worked_pieces_are_asked();
    worked_pieces_are_numbered();
    what_is_unread_stays();
}

/// The read of a query brings the piece of its response, and so does that of the second piece. No answer with the second piece brings
/// one that was requested with the tag of the first.
pub fn worked_asks_are_given_pieces()
    ensures query { BringsPiece (record query_ask { answered = 2 }) (record { seqnum = 3; status = success; actual = 32 }) response_text }
    ensures second { BringsPiece (asked_with 4 (next_job ∷ []) 1 first_data) (record { seqnum = 6; status = success; actual = 24 }) second_piece }
    ensures other { (answer : RetSubmitHead) → BringsPiece (asked_with 3 [] 0 first_data) answer second_piece → ⊥ }
{
    worked_asks_are_in_hand();
    worked_pieces_are_asked();
    worked_pieces_are_read();
    messages_are_written();
    asking_stays();
    answers_are_taken();
    asks_are_given_pieces();
    pieces_have_no_fault();
}

/// A device that tells how it took in the first transfer of a message, or the first request of a recovery, does not close at a field. No host
/// is joined to one that closed.
pub fn worked_bytes_are_taken()
    ensures told { (text : List ℕ) (more : List RunStep) (t : State) (f : Field) → up.Spells devid (up.Submit (out_submit 1 112) spaces_text) text
        → TellsCalmly devid start more t → IsFront (in_bytes more) text → t.presence ≡ Closed f → ⊥ }
    ensures aborts { (text : List ℕ) (more : List RunStep) (t : State) (f : Field) → up.Spells devid (up.Submit (abort_submit 8) []) text
        → TellsPlugged devid cancelled_inside more t → IsFront (in_bytes more) text → t.presence ≡ Closed f → ⊥ }
    ensures closed { (hand : Hand) (waits : Option SubmitHead) (next : ℕ) (written read : List ℕ) (f : Field)
        → Joint devid hand waits next written read [] (record start { presence = Closed f }) → ⊥ }
{
    no_bytes_are_refused();
    worked_hosts_are_joined();
    worked_recoveries_are_joined();
}
