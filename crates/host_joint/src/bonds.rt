//! What ties a host to a lawful device behind a cancel, and in the recovery behind it. Each function does nothing, and its contract is
//! the law.

ghost use Rattle.std.specs.Prelude.{◌≡◌, ◌⊎◌, ℕ, ◌+◌, Bool, true, false, Some, None, List, [], ◌∷◌, ◌++◌, Option, length};
ghost use Rattle.usbip_wire.specs.declared.submit.SubmitHead.{SubmitHead};
ghost use Rattle.usbip_wire.specs.declared.unlink.UnlinkHead.{UnlinkHead};
ghost use Rattle.usbip_wire.specs.declared.ret_submit.RetSubmitHead.{RetSubmitHead};
ghost use Rattle.usbip_wire.specs.declared.ret_unlink.RetUnlinkHead.{RetUnlinkHead};
ghost use Rattle.usbip_wire.specs.Up as up;
ghost use Rattle.tmc_wire.specs.declared.header.OutHeader.TheVariants.{Message};
ghost use Rattle.tmc_law.specs.Endpoint.{BulkOut, BulkIn, number_of};
ghost use Rattle.tmc_law.specs.State.{State};
ghost use Rattle.tmc_law.specs.Put.{Put, Submitted, Unlinked, success};
ghost use Rattle.tmc_law.specs.Run.{Entry, Runs, inputs, outputs};
ghost use Rattle.host_joint.specs.Lines.{Fitting};
ghost use Rattle.host_joint.specs.Reads.{IsRead};
ghost use Rattle.host_joint.specs.Stage.{Ran};
ghost use Rattle.host_joint.specs.Asking.{StaysPlugged};
ghost use Rattle.host_joint.specs.Hand as hand;
ghost use Rattle.host_joint.specs.Tie.{Tie, Owns, IsOwned};
ghost use Rattle.host_joint.specs.Bond.{Situation, Reading, Saying, begins, TakesPart, Read, Stands, Requests, Drains, Letter, IsOf, finds, Resting, ToAbortIn, ToAbortOut, ToAbortFirst, WantsPacket, Anywhere, BehindClear, Bound, StillGoes, Said, Drained, taken_of, IsUnlinkOf};

use crate::{drains_stay, requests_stay};
use instr_plain::one_response;
use tmc_law::laws::{
    a_step_logs_at_most_once, answers_fit, halts_have_causes, numbers_rise,
    pending_submits_are_sound, runs_join, steps_act, the_log_grows,
};
use tmc_wire::{header_offsets_are_laid_out, headers_are_read_again, transfers_are_read_again};

/// A host that cancels an ask that is read writes an unlink of its one submit. What binds it to the device then does so also where it wrote
/// none, for one whose endpoint halts. Where all was answered, the recovery begins: with a Bulk-IN transfer to abort where the request was
/// taken, with a Bulk-OUT transfer to abort where it was not, and with nothing where the piece was read to its end. From anywhere a
/// clear may begin.
pub fn cancels_begin()
    ensures unlink { (last : ℕ) (message : List ℕ) (tag size : ℕ) (sofar read : List ℕ) (head : SubmitHead) (unlink : UnlinkHead) (next : ℕ) (ups : List up.Message) (downs : List Put) (s : State)
        → unlink.seqnum ≡ next → unlink.target ≡ head.seqnum → Tie (hand.Reads last message tag size sofar read) (Some head) next ups downs s
        → Bound (Reading last message tag size sofar read (taken_of head)) (Some head) (unlink ∷ []) (next + 1) (ups ++ up.Unlink unlink ∷ []) downs s }
    ensures read { (last : ℕ) (message : List ℕ) (tag size : ℕ) (sofar read : List ℕ) (head : SubmitHead) (next : ℕ) (ups : List up.Message) (downs : List Put) (s : State)
        → Tie (hand.Reads last message tag size sofar read) (Some head) next ups downs s
        → Bound (Reading last message tag size sofar read (taken_of head)) (Some head) [] next ups downs s }
    ensures to_in { (last : ℕ) (message : List ℕ) (tag size : ℕ) (sofar read : List ℕ) (next : ℕ) (ups : List up.Message) (downs : List Put) (s : State)
        → Bound (Reading last message tag size sofar read true) None [] next ups downs s → Bound (Stands (ToAbortIn tag)) None [] next ups downs s }
    ensures to_out { (last : ℕ) (message : List ℕ) (tag size : ℕ) (sofar read : List ℕ) (next : ℕ) (ups : List up.Message) (downs : List Put) (s : State)
        → Bound (Reading last message tag size sofar read false) None [] next ups downs s → Bound (Stands (ToAbortFirst tag)) None [] next ups downs s }
    ensures to_rest { (last : ℕ) (message sofar : List ℕ) (next : ℕ) (ups : List up.Message) (downs : List Put) (s : State)
        → Bound (Read last message sofar) None [] next ups downs s → Bound (Stands Resting) None [] next ups downs s }
    ensures to_clear { (situation : Situation) (next : ℕ) (ups : List up.Message) (downs : List Put) (s : State)
        → Bound situation None [] next ups downs s → Bound (Stands Anywhere) None [] next ups downs s }
{}

/// A message may be cancelled while its last transfer so far is not answered. What binds a host and a device then holds from where that
/// transfer is written, beside the tie; with the cancel, its unlink comes behind. The answer says that the transfer was taken whole, or that
/// Bulk-OUT is halted. Where all was answered, the recovery begins: with this Bulk-OUT transfer to abort, which is in progress at most where it was
/// not taken, and with nothing where it was taken and ends the message.
pub fn messages_are_cancelled()
    ensures part { (before : hand.Hand) (head : SubmitHead) (bytes : List ℕ) (tag : ℕ) (message said text more : List ℕ) (next : ℕ) (ups : List up.Message) (downs : List Put) (s : State)
        → hand.Speaks before message said → message ≡ said ++ (text ++ more) → hand.IsTransfer head (Message tag (length text) false) text bytes → head.seqnum ≡ next → Tie before None next ups downs s
        → Bound (Saying tag (begins before) false false) (Some head) [] (next + 1) (ups ++ up.Submit head bytes ∷ []) downs s }
    ensures last_part { (before : hand.Hand) (head : SubmitHead) (bytes : List ℕ) (tag : ℕ) (message said text : List ℕ) (next : ℕ) (ups : List up.Message) (downs : List Put) (s : State)
        → hand.Speaks before message said → message ≡ said ++ text → hand.IsTransfer head (Message tag (length text) true) text bytes → head.seqnum ≡ next → Tie before None next ups downs s
        → Bound (Saying tag (begins before) true false) (Some head) [] (next + 1) (ups ++ up.Submit head bytes ∷ []) downs s }
    ensures unlink { (tag : ℕ) (first ended : Bool) (head : SubmitHead) (unlink : UnlinkHead) (next : ℕ) (ups : List up.Message) (downs : List Put) (s : State)
        → unlink.seqnum ≡ next → unlink.target ≡ head.seqnum → Bound (Saying tag first ended false) (Some head) [] next ups downs s
        → Bound (Saying tag first ended false) (Some head) (unlink ∷ []) (next + 1) (ups ++ up.Unlink unlink ∷ []) downs s }
    ensures answer { (tag : ℕ) (first ended : Bool) (head : SubmitHead) (unlinks : List UnlinkHead) (next : ℕ) (asked : SubmitHead) (answer : RetSubmitHead) (transferred : List ℕ) (ups : List up.Message) (downs : List Put) (s : State)
        → head.ep ≡ number_of BulkOut → Bound (Saying tag first ended false) (Some head) unlinks next ups (Submitted asked answer transferred ∷ downs) s
        → (asked ≡ head) × (answer.seqnum ≡ head.seqnum) × TakesPart tag first ended head answer unlinks next ups downs s }
    ensures unlinked { (tag : ℕ) (first ended taken : Bool) (waits : Option SubmitHead) (unlink : UnlinkHead) (next : ℕ) (asked : UnlinkHead) (answer : RetUnlinkHead) (ups : List up.Message) (downs : List Put) (s : State)
        → IsUnlinkOf waits unlink → Bound (Saying tag first ended taken) waits (unlink ∷ []) next ups (Unlinked asked answer ∷ downs) s
        → (answer.seqnum ≡ unlink.seqnum) × Bound (Saying tag first ended taken) None [] next ups downs s }
    ensures to_first { (tag : ℕ) (ended : Bool) (next : ℕ) (ups : List up.Message) (downs : List Put) (s : State)
        → Bound (Saying tag true ended false) None [] next ups downs s → Bound (Stands (ToAbortFirst tag)) None [] next ups downs s }
    ensures to_out { (tag : ℕ) (first ended taken : Bool) (next : ℕ) (ups : List up.Message) (downs : List Put) (s : State)
        → Bound (Saying tag first ended taken) None [] next ups downs s → Bound (Stands (ToAbortOut tag)) None [] next ups downs s }
    ensures to_rest { (tag : ℕ) (first : Bool) (next : ℕ) (ups : List up.Message) (downs : List Put) (s : State)
        → Bound (Saying tag first true true) None [] next ups downs s → Bound (Stands Resting) None [] next ups downs s }
{
    headers_are_read_again();
    header_offsets_are_laid_out();
    transfers_are_read_again();
}

/// Each run of a lawful device that is not unplugged keeps the situation, with halts of any endpoint. A message that was executed keeps its
/// response.
pub fn bonds_stay()
    ensures bound { (situation : Situation) (run : List Entry) (waits : Option SubmitHead) (unlinks : List UnlinkHead) (next : ℕ) (ups : List up.Message) (downs : List Put) (s t : State)
        → Runs s run t → StaysPlugged run → Bound situation waits unlinks next (inputs run ++ ups) downs s
        → Bound situation waits unlinks next ups (downs ++ outputs run) t }
    ensures ran { (situation : Situation) (run : List Entry) (waits : Option SubmitHead) (unlinks : List UnlinkHead) (next n : ℕ) (message response : List ℕ) (ups : List up.Message) (downs : List Put) (s t : State)
        → Runs s run t → Bound situation waits unlinks next (inputs run ++ ups) downs s → Ran n message response s.log → Ran n message response t.log }
{
    drains_stay();
    requests_stay();
    pending_submits_are_sound();
    steps_act();
    runs_join();
    the_log_grows();
    headers_are_read_again();
    numbers_rise();
    answers_fit();
    halts_have_causes();
    a_step_logs_at_most_once();
    one_response();
}

/// The answers that come behind a cancel. That to the submit says that the request was taken, that a read is full or ends the piece, or
/// that the endpoint is halted; its bytes are those of the ask. That to the unlink leaves nothing unanswered, hit or miss.
pub fn cancelled_answers_are_taken()
    ensures submit { (last : ℕ) (message : List ℕ) (tag size : ℕ) (sofar read : List ℕ) (head : SubmitHead) (unlinks : List UnlinkHead) (next : ℕ) (asked : SubmitHead) (answer : RetSubmitHead) (transferred : List ℕ) (ups : List up.Message) (downs : List Put) (s : State)
        → (head.ep ≡ number_of BulkOut) ⊎ (head.ep ≡ number_of BulkIn)
        → Bound (Reading last message tag size sofar read (taken_of head)) (Some head) unlinks next ups (Submitted asked answer transferred ∷ downs) s
        → (asked ≡ head) × (answer.seqnum ≡ head.seqnum) × StillGoes last message tag size sofar read head answer transferred unlinks next ups downs s }
    ensures unlink { (last : ℕ) (message : List ℕ) (tag size : ℕ) (sofar read : List ℕ) (taken : Bool) (waits : Option SubmitHead) (unlink : UnlinkHead) (next : ℕ) (asked : UnlinkHead) (answer : RetUnlinkHead) (ups : List up.Message) (downs : List Put) (s : State)
        → IsUnlinkOf waits unlink → Bound (Reading last message tag size sofar read taken) waits (unlink ∷ []) next ups (Unlinked asked answer ∷ downs) s
        → (answer.seqnum ≡ unlink.seqnum) × Bound (Reading last message tag size sofar read taken) None [] next ups downs s }
    ensures unlink_read { (last : ℕ) (message sofar : List ℕ) (waits : Option SubmitHead) (unlink : UnlinkHead) (next : ℕ) (asked : UnlinkHead) (answer : RetUnlinkHead) (ups : List up.Message) (downs : List Put) (s : State)
        → IsUnlinkOf waits unlink → Bound (Read last message sofar) waits (unlink ∷ []) next ups (Unlinked asked answer ∷ downs) s
        → (answer.seqnum ≡ unlink.seqnum) × Bound (Read last message sofar) None [] next ups downs s }
{
    headers_are_read_again();
    header_offsets_are_laid_out();
    transfers_are_read_again();
}

/// What a cancelled ask has of its response is a front of it at any moment, also of the piece in hand.
pub fn cancelled_asks_own()
    ensures reading { (last : ℕ) (message : List ℕ) (tag size : ℕ) (sofar read : List ℕ) (taken : Bool) (waits : Option SubmitHead) (unlinks : List UnlinkHead) (next : ℕ) (ups : List up.Message) (downs : List Put) (s : State)
        → Bound (Reading last message tag size sofar read taken) waits unlinks next ups downs s → Owns (hand.Reads last message tag size sofar read) s }
    ensures read { (last : ℕ) (message sofar : List ℕ) (waits : Option SubmitHead) (unlinks : List UnlinkHead) (next : ℕ) (ups : List up.Message) (downs : List Put) (s : State)
        → Bound (Read last message sofar) waits unlinks next ups downs s → IsOwned last message sofar s }
{
    headers_are_read_again();
    header_offsets_are_laid_out();
    transfers_are_read_again();
}

/// A recovery writes its submits one at a time, each where the device is as the request finds it, and takes the answer, which is
/// one of two and leaves the device where that one says.
pub fn recoveries_go_on()
    ensures writes { (letter : Letter) (head : SubmitHead) (next : ℕ) (ups : List up.Message) (downs : List Put) (s : State)
        → IsOf head letter → Fitting head → head.seqnum ≡ next → Bound (Stands (finds letter)) None [] next ups downs s
        → Bound (Requests head letter) (Some head) [] (next + 1) (ups ++ up.Submit head [] ∷ []) downs s }
    ensures answer { (letter : Letter) (head : SubmitHead) (next : ℕ) (asked : SubmitHead) (answer : RetSubmitHead) (transferred : List ℕ) (ups : List up.Message) (downs : List Put) (s : State)
        → Bound (Requests head letter) (Some head) [] next ups (Submitted asked answer transferred ∷ downs) s
        → (asked ≡ head) × (answer ≡ record { seqnum = head.seqnum; status = success; actual = length transferred }) × Said letter transferred next ups downs s }
    ensures drains { (head : SubmitHead) (next : ℕ) (ups : List up.Message) (downs : List Put) (s : State)
        → IsRead head → head.seqnum ≡ next → Bound (Stands WantsPacket) None [] next ups downs s
        → Bound (Drains head) (Some head) [] (next + 1) (ups ++ up.Submit head [] ∷ []) downs s }
    ensures drained { (head : SubmitHead) (next : ℕ) (asked : SubmitHead) (answer : RetSubmitHead) (transferred : List ℕ) (ups : List up.Message) (downs : List Put) (s : State)
        → Bound (Drains head) (Some head) [] next ups (Submitted asked answer transferred ∷ downs) s
        → (asked ≡ head) × (answer.seqnum ≡ head.seqnum) × (transferred ≡ []) × Drained answer next ups downs s }
{}

/// At the end of a recovery the device is at rest. Where no bulk endpoint is halted, a host that has nothing in hand is tied to it.
pub fn recoveries_end()
    ensures rest { (next : ℕ) (ups : List up.Message) (downs : List Put) (s : State) → s.halted.bulk_out ≡ false → s.halted.bulk_in ≡ false
        → Bound (Stands Resting) None [] next ups downs s → Tie hand.Free None next ups downs s }
    ensures cleared { (next : ℕ) (ups : List up.Message) (downs : List Put) (s : State) → s.halted.bulk_out ≡ false → s.halted.bulk_in ≡ false
        → Bound (Stands BehindClear) None [] next ups downs s → Tie hand.Free None next ups downs s }
{}
