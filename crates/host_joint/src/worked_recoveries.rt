//! In the middle of an example ask Bulk-IN halts, or its host cancels. Each function does nothing.

ghost use Rattle.std.specs.Prelude.{◌≡◌, length, true, List, ℕ, [], ◌∷◌, ◌++◌, Option, Some, None, codes};
ghost use Rattle.usbip_wire.specs.declared.submit.SubmitHead.{SubmitHead};
ghost use Rattle.usbip_wire.specs.declared.unlink.UnlinkHead.{UnlinkHead};
ghost use Rattle.usbip_wire.specs.Up as up;
ghost use Rattle.tmc_law.specs.State.{State, start};
ghost use Rattle.tmc_law.specs.Put.{Put, Unlinked, success, stalled, unlinked};
ghost use Rattle.tmc_law.specs.Run.{Runs, outputs};
ghost use Rattle.tmc_law.specs.WorkedQuery.{identity};
ghost use Rattle.tmc_law.specs.WorkedParts.{spaced};
ghost use Rattle.tmc_law.specs.WorkedSession.{in_submit, unlink, answered};
ghost use Rattle.host_joint.specs.Stage.{Ran};
ghost use Rattle.host_joint.specs.Hand.{Free, Reads};
ghost use Rattle.host_joint.specs.Tie.{Tie, Owns};
ghost use Rattle.host_joint.specs.Bond.{Situation, Read, Stands, Resting, ToAbortIn, WantsPacket, Bound};
ghost use Rattle.host_joint.specs.Hits.{BoundTelling};
ghost use Rattle.host_joint.specs.WorkedTies.{queried, told_to};
ghost use Rattle.host_joint.specs.WorkedPieces.{first_data, requested_second, giving_second, behind_second, second_piece, next_job, spaces_job, last_job, asked_with};
ghost use Rattle.host_joint.specs.Asking.{Asking, AtRest, Cancelled};
ghost use Rattle.host_joint.specs.Turns.{InTurn};
ghost use Rattle.host_joint.specs.WorkedLines.{one_asked};
ghost use Rattle.tmc_base.specs.declared.field.Field.{Field};
ghost use Rattle.tmc_law.specs.Step.{IsOver};
ghost use Rattle.host_joint.specs.Owned.{Owned};
ghost use Rattle.host_joint.specs.Positions.{IsAt, rests, in_begun, in_wants, out_begun, out_first, anything, clears, cleared};
ghost use Rattle.host_joint.specs.Lines.{Gives};
ghost use Rattle.host_joint.specs.Requests.{RequestAt, in_aborts, in_fails, out_aborts, out_fails, out_rests, begins_clear, never, clear_checked, clear_pending, usable_cleared};
ghost use Rattle.host_joint.specs.Requests as requests;
ghost use Rattle.host_joint.specs.Drains.{DrainAt};
ghost use Rattle.host_joint.specs.WorkedRecoveries.{reading_rest, halting_second, halted_inside, aborting_none, freeing, usable_again, clearing_halted, checking_clear, freeing_out, freeing_in, cleared_log, cleared_at_last, cancelling_second, cancelled_inside, aborting_second, draining, checking_second, abort_submit, clear_submit, wanting, wanting_halted, drained, clearing_all, abort_out_submit, aborting_nothing, check_clear_submit, usable_in};

use crate::{
    answers_are_taken, answers_come_in_turn, asking_stays, asks_are_settled_late, asks_hand_over,
    bonds_stay, cancelled_answers_are_taken, cancelled_asks_own, cancelled_asks_stay,
    cancels_begin, devices_rest, drains_stay, messages_are_written, no_submit_is_refused,
    recoveries_end, recoveries_go_on, requests_stay, unlinks_tell_hits, what_is_read_is_owned,
    worked_asks_are_cancelled_ahead, worked_cancels_are_bound, worked_pieces_are_asked,
    worked_pieces_are_read, writes_keep_ties,
};
use tmc_law::laws::runs_join;

/// Bulk-IN halts when the second piece of a response has begun. The host is bound to the device from where it wrote its read, has the data of
/// the first piece still, finds that no transfer is in progress, ends the halt, and is tied to the device again; or it clears all, and is tied again
/// too. A host that waits for the packet of an abort is bound to no such device.
pub fn worked_halts_are_recovered()
    ensures runs { Runs requested_second (halting_second ++ (aborting_none ++ freeing)) usable_again }
    ensures reading { Bound reading_rest (Some (in_submit 6 4096)) [] 7 (up.Submit (in_submit 6 4096) [] ∷ []) [] requested_second }
    ensures halted { Bound reading_rest None [] 7 [] [] halted_inside × Owns (Reads 2 spaced 4 4000 first_data []) halted_inside }
    ensures aborted { Bound (Stands (ToAbortIn 4)) None [] 7 [] [] halted_inside × Bound (Stands Resting) None [] 8 [] [] halted_inside }
    ensures usable { Tie Free None 9 [] [] usable_again }
    ensures cleared { Runs halted_inside (clearing_halted ++ (checking_clear ++ (freeing_out ++ freeing_in))) cleared_at_last
        × Tie Free None 11 [] [] cleared_at_last }
    ensures waiting { (waits : Option SubmitHead) (unlinks : List UnlinkHead) (next : ℕ) (ups : List up.Message) (downs : List Put)
        → Bound (Stands WantsPacket) waits unlinks next ups downs halted_inside → ⊥ }
{
    runs_join();
    worked_pieces_are_read();
    writes_keep_ties();
    cancels_begin();
    bonds_stay();
    cancelled_answers_are_taken();
    cancelled_asks_own();
    recoveries_go_on();
    recoveries_end();
}

/// The host cancels when the second piece has begun, and its unlink hits the read. It is bound to the device from the unlink on, aborts the
/// transfer, reads its packet, checks that the abort is over, and is tied to the device again.
pub fn worked_cancels_are_recovered()
    ensures runs { Runs requested_second (cancelling_second ++ (aborting_second ++ (draining ++ checking_second))) usable_again }
    ensures cancels { Bound reading_rest (Some (in_submit 6 4096)) (unlink 7 6 ∷ []) 8
        (up.Submit (in_submit 6 4096) [] ∷ up.Unlink (unlink 7 6) ∷ []) [] requested_second }
    ensures cancelled { Bound reading_rest None [] 8 [] [] cancelled_inside × Owns (Reads 2 spaced 4 4000 first_data []) cancelled_inside }
    ensures aborts { Bound (Stands (ToAbortIn 4)) None [] 8 [] [] cancelled_inside }
    ensures recovered { Tie Free None 11 [] [] usable_again }
{
    runs_join();
    worked_pieces_are_read();
    writes_keep_ties();
    cancels_begin();
    bonds_stay();
    cancelled_answers_are_taken();
    cancelled_asks_own();
    recoveries_go_on();
    recoveries_end();
}

/// The unlink of that cancel hit, and its answer says so. That of a query whose response won the race missed, which its answer says too. A host
/// that is told of a miss, though its submit was not answered, is bound to no device.
pub fn worked_unlinks_tell_hits()
    ensures hit { BoundTelling reading_rest (Some (in_submit 6 4096)) (unlink 7 6 ∷ []) 8 []
        (Unlinked (unlink 7 6) (record { seqnum = 7; status = unlinked }) ∷ []) cancelled_inside }
    ensures missed { BoundTelling (Read 1 (codes "*IDN?") identity) None (unlink 4 3 ∷ []) 5 []
        (Unlinked (unlink 4 3) (record { seqnum = 4; status = success }) ∷ []) queried }
    ensures mistaken { (situation : Situation) (head : SubmitHead) (unlinks : List UnlinkHead) (next : ℕ) (ups : List up.Message) (downs : List Put) (s : State)
        → BoundTelling situation (Some head) unlinks next ups (Unlinked (unlink 7 6) (record { seqnum = 7; status = success }) ∷ downs) s → ⊥ }
{
    worked_cancels_are_recovered();
    worked_cancels_are_bound();
    unlinks_tell_hits();
}

/// The same halt in the terms of an ask: it is in hand while the answer to its read is on its way, and when that was taken; it owns the data of
/// the first piece; and what it leaves is a Bulk-IN transfer to abort.
pub fn worked_halts_are_asked()
    ensures halted { Asking (asked_with 4 (next_job ∷ []) 1 first_data) [] (answered (in_submit 6 4096) stalled 0 [] ∷ []) halted_inside }
    ensures taken { Asking (asked_with 4 (next_job ∷ []) 1 first_data) [] [] halted_inside × Owned (asked_with 4 (next_job ∷ []) 1 first_data) halted_inside }
    ensures left { IsAt (in_begun 4) halted_inside }
{
    worked_pieces_are_read();
    worked_pieces_are_asked();
    messages_are_written();
    asking_stays();
    answers_are_taken();
    what_is_read_is_owned();
    asks_hand_over();
}

/// The same cancel in the terms of an ask: it is cancelled until the answer to its unlink was taken, and leaves a Bulk-IN transfer to abort. Where it is
/// not cancelled, its answers come in turn, its read is not refused, and where that has the second piece its request was answered before.
pub fn worked_cancels_are_asked()
    ensures cancelled { Cancelled one_asked (unlink 7 6 ∷ []) (record (asked_with 4 (next_job ∷ []) 1 first_data) { gone = true }) []
        (Unlinked (unlink 7 6) (record { seqnum = 7; status = unlinked }) ∷ []) cancelled_inside }
    ensures left { IsAt (in_begun 4) cancelled_inside }
    ensures turns { InTurn (outputs giving_second) }
    ensures taken { (asked_with 4 (next_job ∷ []) 1 first_data).answered ≡ length (next_job ∷ []) }
    ensures accepted { (f : Field) → IsOver requested_second (in_submit 6 4096) f → ⊥ }
    ensures early { Asking (asked_with 4 (next_job ∷ []) 0 first_data) [] (answered (in_submit 6 4096) success 24 second_piece ∷ []) behind_second → ⊥ }
{
    worked_pieces_are_read();
    worked_pieces_are_asked();
    messages_are_written();
    asking_stays();
    cancelled_asks_stay();
    answers_are_taken();
    answers_come_in_turn();
    asks_hand_over();
    no_submit_is_refused();
}

/// The requests of that recovery one by one: the abort is on its way, pending and answered; so is the read of its packet; at the end an ask
/// under a new number finds the device at rest. An ask whose request is not written yet may settle its tag late, and its number while its
/// message goes on. A device that rests is none that wants the packet of an abort.
pub fn worked_requests_stay()
    ensures abort { RequestAt (abort_submit 8) (in_begun 4) (in_aborts 4) in_fails []
        (Gives (abort_submit 8) (record { seqnum = 8; status = success; actual = 2 }) (0x01 ∷ 0x04 ∷ []) ∷ []) wanting }
    ensures drain { DrainAt (in_submit 9 4096) [] (Gives (in_submit 9 4096) (record { seqnum = 9; status = success; actual = 0 }) [] ∷ []) drained }
    ensures rest { AtRest 11 usable_again }
    ensures tag { Asking (asked_with 9 (spaces_job ∷ last_job ∷ []) 2 []) [] [] told_to }
    ensures resting { IsAt in_wants usable_again → ⊥ }
{
    runs_join();
    worked_pieces_are_read();
    worked_pieces_are_asked();
    requests_stay();
    drains_stay();
    devices_rest();
    asks_are_settled_late();
}

/// The clear behind that halt is on its way, pending and answered; at its end an ask under a new number finds the device at rest. Where
/// Bulk-IN halts before the packet of an abort is read, that read is answered so, and the abort still wants its packet. A device
/// that still clears is not at rest.
pub fn worked_clears_stay()
    ensures clear { RequestAt (clear_submit 7) anything begins_clear never [] (Gives (clear_submit 7) (record { seqnum = 7; status = success; actual = 1 }) (0x01 ∷ []) ∷ []) clearing_all }
    ensures rest { AtRest 11 cleared_at_last }
    ensures halted { DrainAt (in_submit 9 4096) [] (Gives (in_submit 9 4096) (record { seqnum = 9; status = stalled; actual = 0 }) [] ∷ []) wanting_halted
        × IsAt in_wants wanting_halted }
    ensures early { AtRest 11 clearing_all → ⊥ }
{
    runs_join();
    worked_pieces_are_read();
    requests_stay();
    drains_stay();
    devices_rest();
}

/// What the ask of two pieces leaves to a recovery before its pieces: nothing where its message was taken whole, and a Bulk-OUT transfer to abort where
/// its request was unlinked before it was taken. Where Bulk-IN halted in the middle of the second piece a clear may begin. Where that
/// piece is being sent, the device is not at rest.
pub fn worked_asks_hand_over()
    ensures message { IsAt rests told_to }
    ensures request { IsAt (out_first 3) told_to }
    ensures clear { IsAt anything halted_inside }
    ensures sending { IsAt rests cancelled_inside → ⊥ }
{
    asks_hand_over();
    worked_pieces_are_asked();
    worked_asks_are_cancelled_ahead();
}

/// The other requests one by one: aborts of Bulk-OUT at power-on, which find no transfer; the check of the clear; and the ends of halts behind the abort and
/// behind the clear. Each is answered as its request says. No abort of Bulk-OUT was answered so that finds the device clearing.
pub fn worked_letters_stay()
    ensures abort_out { Runs start aborting_nothing start
        × RequestAt (abort_out_submit 1) (out_begun 1) (out_aborts 1) out_fails [] (Gives (abort_out_submit 1) (record { seqnum = 1; status = success; actual = 2 }) (0x80 ∷ 0x00 ∷ []) ∷ []) start }
    ensures abort_first { RequestAt (abort_out_submit 1) (out_first 1) (out_aborts 1) out_rests [] (Gives (abort_out_submit 1) (record { seqnum = 1; status = success; actual = 2 }) (0x80 ∷ 0x00 ∷ []) ∷ []) start }
    ensures check_clear { (s : State) × Runs clearing_all checking_clear s
        × RequestAt (check_clear_submit 8) clears clear_checked clear_pending [] (Gives (check_clear_submit 8) (record { seqnum = 8; status = success; actual = 2 }) (0x01 ∷ 0x00 ∷ []) ∷ []) s }
    ensures clear_halt { RequestAt (usable_in 8) rests requests.usable_again never [] (Gives (usable_in 8) (record { seqnum = 8; status = success; actual = 0 }) [] ∷ []) usable_again }
    ensures clear_halt_behind { RequestAt (usable_in 10) cleared usable_cleared never [] (Gives (usable_in 10) (record { seqnum = 10; status = success; actual = 0 }) [] ∷ []) cleared_at_last }
    ensures early { IsAt (out_begun 1) clearing_all → ⊥ }
{
    runs_join();
    worked_pieces_are_read();
    requests_stay();
}
