//! Example asks. The function does nothing.

ghost use Rattle.std.specs.Prelude.{List, ℕ, true, false, [], ◌∷◌, ◌++◌, Option, Some, None, take, codes};
ghost use Rattle.usbip_wire.specs.declared.submit.SubmitHead.{SubmitHead};
ghost use Rattle.usbip_wire.specs.declared.unlink.UnlinkHead.{UnlinkHead};
ghost use Rattle.usbip_wire.specs.Up as up;
ghost use Rattle.tmc_law.specs.Endpoint.{BulkIn};
ghost use Rattle.tmc_law.specs.State.{State, start};
ghost use Rattle.tmc_law.specs.Halts.{halt_answers};
ghost use Rattle.tmc_law.specs.Put.{Put, success};
ghost use Rattle.tmc_law.specs.Step.{Steps, Halt};
ghost use Rattle.tmc_law.specs.Run.{Runs, inputs, outputs};
ghost use Rattle.tmc_law.specs.WorkedQuery.{response_submit, response_text, identity, asking, answering, query_log};
ghost use Rattle.tmc_law.specs.WorkedParts.{spaces_text, spaced, sending_parts, parts_log};
ghost use Rattle.tmc_law.specs.WorkedSession.{out_submit, unlink, answered};
ghost use Rattle.tmc_law.specs.WorkedRead.{reading};
ghost use Rattle.host_joint.specs.Lines.{Lines};
ghost use Rattle.host_joint.specs.Asking.{Asking};
ghost use Rattle.host_joint.specs.Hosted.{PieceEnd};
ghost use Rattle.host_joint.specs.Owned.{Owned};
ghost use Rattle.host_joint.specs.Stage.{Ran};
ghost use Rattle.host_joint.specs.Hand.{Free};
ghost use Rattle.host_joint.specs.Tie.{Tie, IsOwned};
ghost use Rattle.host_joint.specs.Bond.{Reading, Saying, Read, Stands, ToAbortFirst, Bound};
ghost use Rattle.host_joint.specs.WorkedTies.{telling, told, told_to, querying, queried, foreign, last_request, stopping, closing, closed_before};
ghost use Rattle.host_joint.specs.WorkedAsks.{query_ask, read_ask, query_asked, foreign_ask};

use crate::{
    answers_are_the_expected, asking_stays, bonds_stay, cancelled_answers_are_taken,
    cancelled_asks_own, cancels_begin, messages_are_cancelled, pieces_have_no_fault, tickets_end,
    ties_begin, ties_own, ties_stay, writes_keep_ties,
};
use tmc_law::laws::{
    pending_submits_are_sound, runs_join, steps_act, the_log_grows, worked_runs_meet_the_laws,
};
use tmc_law::worked::{a_message_comes_in_parts, a_query_is_answered};
use tmc_wire::headers_are_read_again;

/// A query is in hand before its messages arrive and when all its answers are on their way back, with its submits in the
/// line of each endpoint. When these were taken, its piece was read to its end. A query whose response takes two packets
/// is in hand when the first was given, and when Bulk-IN halts then. A host that takes the bytes of an earlier response for its own does not own them.
pub fn worked_asks_are_in_hand()
    ensures begins { Asking query_ask (inputs (asking ++ answering)) [] start }
    ensures answered { Asking query_ask [] (outputs (asking ++ answering)) (record start { log = query_log }) }
    ensures read { PieceEnd (record query_ask { answered = 2 }) response_text [] [] (record start { log = query_log }) }
    ensures lines { Lines query_asked [] [] (outputs (asking ++ answering)) (record start { log = query_log }) }
    ensures halts { (s t : State) × Runs start reading s × Steps s (Halt BulkIn) (halt_answers BulkIn s) t
        × Asking read_ask [] (outputs reading) s × Asking read_ask [] (outputs reading ++ halt_answers BulkIn s) t }
    ensures foreign { Owned foreign_ask (record start { log = query_log }) → ⊥ }
{
    a_query_is_answered();
    worked_runs_meet_the_laws();
    pending_submits_are_sound();
    steps_act();
    runs_join();
    the_log_grows();
    headers_are_read_again();
}

/// A host that tells a message in two transfers is tied from power-on to the end: when it wrote the first one, when that was
/// answered, and when the message was told, which was executed under the number of the second. A host is tied that has yet to take the response to a
/// query; then it has the whole response, and nothing is left in its hand. A host that takes the bytes of an earlier response for its own
/// is never tied to the device that gave them.
pub fn worked_hosts_are_tied()
    ensures part { Tie telling (Some (out_submit 1 112)) 2 (up.Submit (out_submit 1 112) spaces_text ∷ []) [] start }
    ensures taken { (s : State) × Runs start (take 3 sending_parts) s × Tie telling None 2 [] [] s }
    ensures told { Tie told None 3 [] [] told_to × Tie Free None 3 [] [] told_to × ((response : List ℕ) × Ran 2 spaced response parts_log) }
    ensures querying { Tie querying (Some response_submit) 4 [] (answered response_submit success 32 response_text ∷ []) queried }
    ensures queried { Tie Free None 4 [] [] queried × Ran 1 (codes "*IDN?") identity query_log }
    ensures foreign { (waits : Option SubmitHead) (next : ℕ) (ups : List up.Message) (downs : List Put) → Tie foreign waits next ups downs queried → ⊥ }
{
    a_message_comes_in_parts();
    a_query_is_answered();
    runs_join();
    headers_are_read_again();
    asking_stays();
    ties_begin();
    ties_stay();
    writes_keep_ties();
    answers_are_the_expected();
    pieces_have_no_fault();
    tickets_end();
    ties_own();
}

/// A query is cancelled while its response is on the way: the host is bound before it comes, and when it came it has all of it, so the
/// completion wins the race. A query is cancelled behind its request, and a message behind its first transfer, which are not answered yet; a host that counts that
/// transfer as taken is bound to no such device. A host that takes the bytes of an earlier response for
/// its own is bound to no device that gave them.
pub fn worked_cancels_are_bound()
    ensures raced { Bound (Reading 1 (codes "*IDN?") 2 4000 [] [] true) (Some response_submit) (unlink 4 3 ∷ []) 5 (up.Unlink (unlink 4 3) ∷ [])
        (answered response_submit success 32 response_text ∷ []) queried }
    ensures complete { Bound (Read 1 (codes "*IDN?") identity) None (unlink 4 3 ∷ []) 5 (up.Unlink (unlink 4 3) ∷ []) [] queried
        × IsOwned 1 (codes "*IDN?") identity queried }
    ensures fresh { Bound (Reading 2 spaced 3 4000 [] [] false) (Some (out_submit 3 12)) (unlink 4 3 ∷ []) 5
        (up.Submit (out_submit 3 12) last_request ∷ up.Unlink (unlink 4 3) ∷ []) [] told_to }
    ensures stopped { Bound (Saying 1 true false false) (Some (out_submit 1 112)) (unlink 2 1 ∷ []) 3
        (up.Submit (out_submit 1 112) spaces_text ∷ up.Unlink (unlink 2 1) ∷ []) [] start }
    ensures untaken { Bound (Saying 1 true false true) (Some (out_submit 1 112)) (unlink 2 1 ∷ []) 3
        (up.Submit (out_submit 1 112) spaces_text ∷ up.Unlink (unlink 2 1) ∷ []) [] start → ⊥ }
    ensures foreign { (waits : Option SubmitHead) (unlinks : List UnlinkHead) (next : ℕ) (ups : List up.Message) (downs : List Put)
        → Bound (Reading 4 (codes "*IDN?") 2 4000 [] response_text true) waits unlinks next ups downs queried → ⊥ }
{
    worked_hosts_are_tied();
    writes_keep_ties();
    ties_begin();
    cancels_begin();
    messages_are_cancelled();
    cancelled_answers_are_taken();
    cancelled_asks_own();
    pieces_have_no_fault();
}

/// A message is cancelled whose first transfer was not taken: where the unlink hit, and where Bulk-OUT halted before, that transfer is to be aborted,
/// and no part of a message was taken.
pub fn worked_messages_are_cancelled()
    ensures stopped { Runs start stopping start × Bound (Saying 1 true false false) None [] 3 [] [] start × Bound (Stands (ToAbortFirst 1)) None [] 3 [] [] start }
    ensures halted { Runs start closing closed_before × Bound (Saying 1 true false false) None [] 2 [] [] closed_before
        × Bound (Stands (ToAbortFirst 1)) None [] 2 [] [] closed_before }
{
    ties_begin();
    messages_are_cancelled();
    bonds_stay();
    worked_cancels_are_bound();
}
