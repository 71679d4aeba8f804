//! Example asks whose request or read is written ahead. Each function does nothing.

ghost use Rattle.std.specs.Prelude.{List, true, [], ◌∷◌, ◌++◌};
ghost use Rattle.usbip_wire.specs.Up as up;
ghost use Rattle.tmc_law.specs.State.{State, start};
ghost use Rattle.tmc_law.specs.Put.{Put, success, stalled};
ghost use Rattle.tmc_law.specs.Run.{Runs, inputs, outputs};
ghost use Rattle.tmc_law.specs.WorkedQuery.{request_submit, response_submit, response_text, asking, answering};
ghost use Rattle.tmc_law.specs.WorkedSession.{in_submit, answered};
ghost use Rattle.host_joint.specs.Lines.{Gives};
ghost use Rattle.host_joint.specs.Reads.{IsHalted};
ghost use Rattle.host_joint.specs.Asking.{Asking, Cancelled};
ghost use Rattle.host_joint.specs.Positions.{IsAt, out_begun, out_first};
ghost use Rattle.host_joint.specs.Turns.{InTurn};
ghost use Rattle.host_joint.specs.WorkedAsks.{query_ask};
ghost use Rattle.host_joint.specs.WorkedAhead.{ahead_asked, ahead_unlinks, cancelling_ahead, cancelling_request, cancelling_read, halted_before};
ghost use Rattle.host_joint.specs.WorkedPieces.{behind_first, first_data, spaces_job, last_job, request_job, next_job, asked_with};
ghost use Rattle.host_joint.specs.WorkedTies.{told_to, closed_before};

use crate::{
    answers_are_taken, answers_come_in_turn, answers_go_on, asking_stays, asks_ahead_hand_over,
    asks_are_settled_late, asks_begin, cancelled_asks_stay, messages_are_written,
    worked_pieces_are_asked, worked_pieces_are_read,
};
use tmc_law::laws::runs_join;
use tmc_law::worked::{a_message_comes_in_parts, a_query_is_answered};
use tmc_wire::headers_are_read_again;

/// A query is in hand when its request and its read were written behind it at once, and its answers come in turn. One whose two transfers
/// were unlinked before a packet was taken is cancelled until both unlinks were answered, and leaves a Bulk-OUT transfer with the
/// tag of the first to abort, and no part of a message. Answers in which a read has bytes before its request was taken are not in turn.
pub fn worked_asks_are_written_ahead()
    ensures written { Asking query_ask (inputs (asking ++ answering)) [] start }
    ensures turns { InTurn (outputs (asking ++ answering)) }
    ensures cancelled { Runs start cancelling_ahead start
        × Cancelled ahead_asked ahead_unlinks (record query_ask { gone = true }) (inputs cancelling_ahead) [] start
        × Cancelled ahead_asked ahead_unlinks (record query_ask { gone = true }) [] (outputs cancelling_ahead) start }
    ensures left { Asking (record query_ask { gone = true }) [] [] start × IsAt (out_first 1) start }
    ensures early { InTurn (answered response_submit success 32 response_text ∷ answered request_submit success 12 [] ∷ []) → ⊥ }
{
    a_query_is_answered();
    asks_begin();
    messages_are_written();
    asking_stays();
    cancelled_asks_stay();
    answers_are_taken();
    answers_come_in_turn();
    asks_ahead_hand_over();
}

/// Where the request of a message of two transfers was unlinked before it was taken, the ask leaves a Bulk-OUT transfer with its tag to abort. Where a
/// read was left over behind the first piece, and its unlink was answered, the ask goes on as if it had never been written.
pub fn worked_asks_are_cancelled_ahead()
    ensures request { Runs told_to cancelling_request told_to
        × Asking (record (asked_with 3 (spaces_job ∷ last_job ∷ request_job ∷ []) 2 []) { gone = true }) [] [] told_to }
    ensures left { IsAt (out_begun 3) told_to }
    ensures read { Runs behind_first cancelling_read behind_first × Asking (record (asked_with 4 [] 0 first_data) { gone = true }) [] [] behind_first }
    ensures again { Asking (asked_with 4 [] 0 first_data) [] [] behind_first }
{
    a_message_comes_in_parts();
    runs_join();
    headers_are_read_again();
    messages_are_written();
    cancelled_asks_stay();
    answers_are_taken();
    asks_ahead_hand_over();
    asks_are_settled_late();
    worked_pieces_are_asked();
}

/// Bulk-OUT halts before a packet of the query written ahead was taken, or Bulk-IN before the second piece begins, of which two reads were written: behind the
/// first answer that tells of it the ask is in hand, and the second one tells of it too. No ask is in hand whose first read of a piece was
/// answered with nothing.
pub fn worked_answers_go_on()
    ensures outs { Asking query_ask (up.Submit response_submit [] ∷ []) (answered request_submit stalled 0 [] ∷ []) closed_before
        × IsHalted (Gives request_submit (record { seqnum = 2; status = stalled; actual = 0 }) [] ∷ []) }
    ensures ins { Asking (asked_with 4 (next_job ∷ []) 1 first_data) [] (answered (in_submit 7 4096) stalled 0 [] ∷ []) halted_before
        × IsHalted (Gives (in_submit 7 4096) (record { seqnum = 7; status = stalled; actual = 0 }) [] ∷ []) }
    ensures empty { (ups : List up.Message) (downs : List Put) (s : State)
        → Asking (asked_with 4 (next_job ∷ []) 1 first_data) ups (answered (in_submit 6 4096) success 0 [] ∷ downs) s → ⊥ }
{
    worked_asks_are_written_ahead();
    worked_pieces_are_read();
    worked_pieces_are_asked();
    messages_are_written();
    asking_stays();
    answers_go_on();
}
