//! Example lists of submits that are not answered, and numbers of submits. Each function does nothing.

ghost use Rattle.std.specs.Prelude.{◌≡◌, ℕ, true, false, List, [], ◌∷◌, ◌++◌, take, Some, None};
ghost use Rattle.tmc_base.specs.declared.field.Field.{Field};
ghost use Rattle.usbip_wire.specs.declared.ret_submit.RetSubmitHead.{RetSubmitHead};
ghost use Rattle.usbip_wire.specs.Up as up;
ghost use Rattle.tmc_law.specs.Endpoint.{BulkOut, BulkIn};
ghost use Rattle.tmc_law.specs.State.{State, Pending, Waiting, start, is_halted};
ghost use Rattle.tmc_law.specs.Put.{Put, Submitted, success, stalled};
ghost use Rattle.tmc_law.specs.Numbers.{AllBelow, Rises, numbers};
ghost use Rattle.tmc_law.specs.Step.{Move, Comes, Begin, Halt, Steps, IsOver};
ghost use Rattle.tmc_law.specs.Run.{Runs, taken, inputs, outputs};
ghost use Rattle.tmc_law.specs.WorkedQuery.{identity, asking, answering, query_log};
ghost use Rattle.tmc_law.specs.WorkedParts.{spaced, spaces_text};
ghost use Rattle.tmc_law.specs.WorkedSession.{out_submit, in_submit, answered};
ghost use Rattle.host_joint.specs.Lines.{Lines, EmptyLine};
ghost use Rattle.host_joint.specs.Stage.{NoExec, IsAnother, Ran};
ghost use Rattle.host_joint.specs.Asking.{Asking};
ghost use Rattle.host_joint.specs.WorkedAsks.{query_asked};
ghost use Rattle.host_joint.specs.WorkedLines.{none_asked, one_asked, halting_between, halted_between};
ghost use Rattle.host_joint.specs.WorkedPieces.{requested_second, behind_first, behind_second, first_log, second_log, first_data, second_piece, next_request, asked_with};
ghost use Rattle.host_joint.specs.WorkedRecoveries.{halted_inside, cleared_log};
ghost use Rattle.host_joint.specs.WorkedTies.{told_to, last_request};

use crate::{
    asking_stays, asks_halt_nothing, hosts_keep_lines, lines_stay, messages_are_written,
    new_numbers_are_unused, new_numbers_rise, no_submit_is_refused, nothing_comes_unasked,
    what_is_answered_is_over, what_ran_is_kept, worked_pieces_are_asked, worked_pieces_are_read,
};
use tmc_law::laws::runs_join;
use tmc_law::worked::{a_message_comes_in_parts, a_query_is_answered};
use tmc_wire::headers_are_read_again;

/// The submits of a query are in line from where the host wrote them, and its last answer leaves none. The read of a piece is, until Bulk-IN
/// halts and its answer was taken. A host that still lists the submits of a query, though no answer is on its way, is in line
/// with no such device.
pub fn worked_lines_are_kept()
    ensures written { Lines query_asked [] (inputs (asking ++ answering)) [] start }
    ensures answered { Lines query_asked [] [] (outputs (asking ++ answering)) (record start { log = query_log }) }
    ensures over { Lines none_asked [] [] [] (record start { log = query_log }) × EmptyLine BulkIn [] [] (record start { log = query_log }) }
    ensures halted { Lines one_asked [] [] (answered (in_submit 6 4096) stalled 0 [] ∷ []) halted_inside
        × Lines none_asked [] [] [] halted_inside × EmptyLine BulkIn [] [] halted_inside }
    ensures forgotten { Lines query_asked [] [] [] (record start { log = query_log }) → ⊥ }
{
    a_query_is_answered();
    runs_join();
    hosts_keep_lines();
    lines_stay();
    what_is_answered_is_over();
    worked_pieces_are_read();
}

/// Behind a message of two transfers the number of its request is unused, and rises; the message stays what ran under its number when all is
/// cleared. The request is not refused, and that a piece begins halts nothing. Nothing ran under the request's number, and no piece comes before
/// it is requested.
pub fn worked_numbers_rise()
    ensures unused { NoExec 3 told_to.log × IsAnother 3 told_to.waiting }
    ensures rise { Rises (numbers told_to (up.Submit (out_submit 3 12) last_request ∷ []))
        × AllBelow 4 (numbers told_to (up.Submit (out_submit 3 12) last_request ∷ [])) }
    ensures kept { Ran 2 spaced identity cleared_log }
    ensures accepted { (f : Field) → IsOver told_to (out_submit 3 12) f → ⊥ }
    ensures usable { (count : ℕ) (puts : List Put) (t : State) → Steps requested_second (Begin count) puts t → is_halted BulkIn t ≡ false }
    ensures never { (message response : List ℕ) → Ran 3 message response second_log → ⊥ }
    ensures unasked { (s : State) → Asking (asked_with 4 [] 0 first_data) [] (answered (in_submit 6 4096) success 24 second_piece ∷ []) s → ⊥ }
{
    new_numbers_are_unused();
    new_numbers_rise();
    what_ran_is_kept();
    no_submit_is_refused();
    asks_halt_nothing();
    nothing_comes_unasked();
    worked_pieces_are_read();
    worked_pieces_are_asked();
}

/// Behind the first piece the number of the next request rises, and whatever the device does when that was taken, the message stays what ran under
/// its number. Its first transfer halts nothing; where Bulk-IN halts before the second piece, the device halts it by itself. A read that is
/// written before that piece is requested is answered by a halt alone. While a query waits, no packet of its request was taken.
pub fn worked_pieces_are_numbered()
    ensures rise { Rises (numbers behind_first (up.Submit (out_submit 5 12) next_request ∷ []))
        × AllBelow 6 (numbers behind_first (up.Submit (out_submit 5 12) next_request ∷ [])) }
    ensures kept { (response : List ℕ) (move : Move) (puts : List Put) (t : State) → Steps requested_second move puts t
        → Ran 2 spaced response first_log → Ran 2 spaced response t.log }
    ensures usable { (puts : List Put) (t : State) → Steps start (Comes (up.Submit (out_submit 1 112) spaces_text)) puts t → is_halted BulkOut t ≡ false }
    ensures alone { (move : Move) (puts : List Put) (t : State) → taken move ≡ [] → Steps requested_second move puts t → is_halted BulkIn t ≡ true
        → move ≡ Halt BulkIn }
    ensures between { Runs behind_first halting_between halted_between
        × Asking (asked_with 4 [] 0 first_data) [] (answered (in_submit 5 4096) stalled 0 [] ∷ []) halted_between }
    ensures unasked { (answer : RetSubmitHead) (transferred : List ℕ) (s : State)
        → Asking (asked_with 4 [] 0 first_data) [] (Submitted (in_submit 5 4096) answer transferred ∷ []) s → (s.halted.bulk_in ≡ true) × (answer.status ≡ stalled) }
    ensures packets { (s : State) (message : Waiting) (first : Pending) (behind : List Pending) → Runs start (asking ++ take 1 answering) s
        → s.waiting ≡ Some message → s.bulk_out ≡ first ∷ behind → (s.transfer ≡ None) × (first.moved ≡ []) }
{
    a_message_comes_in_parts();
    runs_join();
    headers_are_read_again();
    new_numbers_rise();
    what_ran_is_kept();
    asks_halt_nothing();
    messages_are_written();
    asking_stays();
    nothing_comes_unasked();
    worked_pieces_are_asked();
}
