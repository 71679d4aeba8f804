//! An example ask whose response comes in two pieces. Each function does nothing.

ghost use Rattle.std.specs.Prelude.{◌≡◌, ◌<◌, ℕ, true, false, List, [], ◌∷◌, ◌++◌, length, Option, Some, None};
ghost use Rattle.usbip_wire.specs.declared.submit.SubmitHead.{SubmitHead};
ghost use Rattle.usbip_wire.specs.Up as up;
ghost use Rattle.tmc_law.specs.State.{State, start};
ghost use Rattle.tmc_law.specs.Put.{Put};
ghost use Rattle.tmc_law.specs.Run.{Runs};
ghost use Rattle.tmc_law.specs.WorkedQuery.{identity};
ghost use Rattle.tmc_law.specs.WorkedParts.{spaced, spaces_text, sending_parts};
ghost use Rattle.tmc_law.specs.WorkedSession.{out_submit};
ghost use Rattle.host_joint.specs.Stage.{Ran};
ghost use Rattle.host_joint.specs.Hand.{Free, Pauses};
ghost use Rattle.host_joint.specs.Tie.{Tie, IsOwned};
ghost use Rattle.host_joint.specs.WorkedTies.{told_to, last_request};
ghost use Rattle.host_joint.specs.WorkedPieces.{requested_first, requested_second, requesting_first, giving_first, requesting_second, giving_second, first_data, first_log, second_log, behind_first, behind_second, reading_first, reading_second, skipping, second_data, first_piece, second_piece, spaces_job, last_job, request_job, next_job, asked_with};
ghost use Rattle.host_joint.specs.Asking.{Asking};
ghost use Rattle.host_joint.specs.Hosted.{PieceEnd};
ghost use Rattle.host_joint.specs.Owned.{Owned};
ghost use Rattle.host_joint.specs.Positions.{IsAt, rests};

use crate::{
    answers_are_taken, answers_are_the_expected, asking_stays, asks_begin, asks_hand_over,
    messages_are_written, pieces_have_no_fault, tickets_end, ties_own, ties_stay,
    what_is_read_is_owned, what_ran_is_one, worked_hosts_are_tied, writes_keep_ties,
};
use tmc_law::laws::runs_join;
use tmc_law::worked::a_message_comes_in_parts;
use tmc_wire::{header_offsets_are_laid_out, headers_are_read_again, transfers_are_read_again};

/// A host that sent a message in two transfers reads its response in two pieces, and is tied to the device all the time: when it
/// wrote the first request, when that was taken, behind the first piece, of which it has the data and knows that more follows, when the
/// second request was taken, and behind the second piece, with the whole response. It may also stop behind the first one. A host that takes
/// the second piece for the first bytes of the response is never tied to that device.
pub fn worked_pieces_are_read()
    ensures runs { Runs start (sending_parts ++ (requesting_first ++ (giving_first ++ (requesting_second ++ giving_second)))) behind_second }
    ensures reached { Runs start (sending_parts ++ (requesting_first ++ (giving_first ++ requesting_second))) requested_second }
    ensures asked { Tie reading_first (Some (out_submit 3 12)) 4 (up.Submit (out_submit 3 12) last_request ∷ []) [] told_to }
    ensures requested { Runs told_to requesting_first requested_first × Tie reading_first None 4 [] [] requested_first }
    ensures paused { Tie (Pauses 2 spaced first_data) None 5 [] [] behind_first × IsOwned 2 spaced first_data behind_first
        × ((response : List ℕ) × Ran 2 spaced response first_log × (length first_data < length response)) }
    ensures again { Runs behind_first requesting_second requested_second × Tie reading_second None 6 [] [] requested_second }
    ensures whole { Tie Free None 7 [] [] behind_second × Ran 2 spaced identity second_log }
    ensures stopped { Tie Free None 5 [] [] behind_first }
    ensures skipped { (waits : Option SubmitHead) (next : ℕ) (ups : List up.Message) (downs : List Put) → Tie skipping waits next ups downs behind_second → ⊥ }
{
    a_message_comes_in_parts();
    runs_join();
    headers_are_read_again();
    worked_hosts_are_tied();
    ties_stay();
    writes_keep_ties();
    answers_are_the_expected();
    pieces_have_no_fault();
    tickets_end();
    ties_own();
    what_ran_is_one();
}

/// The same as an ask: where its first transfer was written, where its message was taken whole, behind each piece, whose data the host knows, and
/// between the two. What the host has is a front of the response; at the end the device is at rest. A host that takes the second
/// piece for the first bytes of the response does not own them.
pub fn worked_pieces_are_asked()
    ensures begins { Asking (asked_with 3 (spaces_job ∷ []) 0 []) (up.Submit (out_submit 1 112) spaces_text ∷ []) [] start }
    ensures said { Asking (asked_with 3 (spaces_job ∷ last_job ∷ []) 2 []) [] [] told_to }
    ensures first { (end : PieceEnd (asked_with 3 (spaces_job ∷ last_job ∷ request_job ∷ []) 3 []) first_piece [] [] behind_first)
        × (end.carried ≡ first_data) × (end.eom ≡ false) }
    ensures between { Asking (asked_with 4 [] 0 first_data) [] [] behind_first × Owned (asked_with 4 [] 0 first_data) behind_first }
    ensures again { Asking (asked_with 4 (next_job ∷ []) 1 first_data) [] [] requested_second }
    ensures second { (end : PieceEnd (asked_with 4 (next_job ∷ []) 1 first_data) second_piece [] [] behind_second)
        × (end.carried ≡ second_data) × (end.eom ≡ true) }
    ensures rests { IsAt rests behind_second }
    ensures skipped { Owned (record (asked_with 4 (next_job ∷ []) 1 []) { read = second_piece }) behind_second → ⊥ }
{
    a_message_comes_in_parts();
    runs_join();
    headers_are_read_again();
    header_offsets_are_laid_out();
    transfers_are_read_again();
    asks_begin();
    asking_stays();
    answers_are_taken();
    messages_are_written();
    what_is_read_is_owned();
    asks_hand_over();
    worked_pieces_are_read();
    what_ran_is_one();
}
