//! Where a host writes its request and its reads ahead: in which order the answers come, and what is left to a recovery. Each function does
//! nothing, and its contract is the law.

ghost use Rattle.std.specs.Prelude.{◌≡◌, ◌≢◌, ℕ, false, Some, List, [], ◌∷◌, ◌++◌, length};
ghost use Rattle.usbip_wire.specs.declared.ret_submit.RetSubmitHead.{RetSubmitHead};
ghost use Rattle.usbip_wire.specs.declared.submit.SubmitHead.{SubmitHead};
ghost use Rattle.usbip_wire.specs.declared.unlink.UnlinkHead.{UnlinkHead};
ghost use Rattle.usbip_wire.specs.Up as up;
ghost use Rattle.tmc_wire.specs.declared.header.OutHeader.TheVariants.{Request};
ghost use Rattle.tmc_law.specs.Endpoint.{Endpoint, BulkOut, BulkIn, number_of};
ghost use Rattle.tmc_law.specs.State.{State, start};
ghost use Rattle.tmc_law.specs.Aborts.{tag_of};
ghost use Rattle.tmc_law.specs.Put.{Put, Submitted, success};
ghost use Rattle.tmc_law.specs.Run.{Entry, Runs, inputs, outputs};
ghost use Rattle.host_joint.specs.Lines.{EmptyLine, unlinks_in, AllFitting, InOrder};
ghost use Rattle.host_joint.specs.Jobs.{Job, last_header};
ghost use Rattle.host_joint.specs.Asking.{Ask, Asking, IsQuiet, StaysPlugged, Cancelled};
ghost use Rattle.host_joint.specs.Positions.{IsAt, out_begun, out_first};
ghost use Rattle.host_joint.specs.Turns.{InTurn, AreParts};

use crate::{asking_stays, cancelled_asks_stay};
use tmc_law::laws::{answers_fit, pending_submits_are_sound, runs_join};

/// However many submits of an ask are unanswered: once an answer to a read has bytes of a piece, none comes behind it that says that a
/// transfer was taken. So where a read has bytes, all transfers of the ask were answered as taken before, the request as the last.
pub fn answers_come_in_turn()
    ensures begins { (ups : List up.Message) (downs : List Put) → IsQuiet ups downs → InTurn downs }
    ensures run { (before run : List Entry) (ask : Ask) (s t : State) (ups : List up.Message) (downs : List Put)
        → Runs start before s → Runs s run t → AllFitting (inputs run ++ ups) → unlinks_in (inputs run) ≡ [] → StaysPlugged run
        → Asking ask (inputs run ++ ups) downs s → InTurn downs → InTurn (downs ++ outputs run) }
    ensures cancelled_run { (before run : List Entry) (asked : Endpoint → List SubmitHead) (unlinks : List UnlinkHead) (ask : Ask) (s t : State) (ups : List up.Message) (downs : List Put)
        → Runs start before s → Runs s run t → AllFitting (inputs run ++ ups) → InOrder (inputs run ++ ups) → StaysPlugged run
        → Cancelled asked unlinks ask (inputs run ++ ups) downs s → InTurn downs → InTurn (downs ++ outputs run) }
    ensures taken { (ask : Ask) (ups : List up.Message) (head : SubmitHead) (answer : RetSubmitHead) (transferred : List ℕ) (downs : List Put) (s : State)
        → head.ep ≡ number_of BulkIn → answer.status ≡ success → Asking ask ups (Submitted head answer transferred ∷ downs) s
        → InTurn (Submitted head answer transferred ∷ downs) → ask.gone ≡ false → s.halted.bulk_out ≡ false → ask.answered ≡ length ask.written }
    ensures cancelled_taken { (ask : Ask) (front : List Job) (request : Job) (ups : List up.Message) (head : SubmitHead) (answer : RetSubmitHead) (transferred : List ℕ) (downs : List Put) (s : State)
        → head.ep ≡ number_of BulkIn → answer.status ≡ success → ask.written ≡ front ++ request ∷ [] → AreParts front
        → Asking ask ups (Submitted head answer transferred ∷ downs) s → InTurn (Submitted head answer transferred ∷ downs) → ask.answered ≡ length ask.written }
{
    pending_submits_are_sound();
    answers_fit();
    runs_join();
    asking_stays();
    cancelled_asks_stay();
}

/// What an ask leaves to a recovery where several of its transfers were not taken, once each of its submits and unlinks was answered: a
/// Bulk-OUT transfer to abort with the tag of the first of them, without an unfinished message where that is the first of all.
pub fn asks_ahead_hand_over()
    ensures to_out { (ask : Ask) (front : List Job) (job : Job) (more : List Job) (ups : List up.Message) (downs : List Put) (s : State)
        → ((tag size : ℕ) → last_header front ≡ Some (Request tag size) → ⊥) → ask.written ≡ front ++ job ∷ more → ask.answered ≡ length front
        → EmptyLine BulkOut ups downs s → EmptyLine BulkIn ups downs s → Asking ask ups downs s → IsAt (out_begun (tag_of job.header)) s }
    ensures to_first { (ask : Ask) (job : Job) (more : List Job) (ups : List up.Message) (downs : List Put) (s : State)
        → ask.written ≡ job ∷ more → ask.answered ≡ 0
        → EmptyLine BulkOut ups downs s → EmptyLine BulkIn ups downs s → Asking ask ups downs s → IsAt (out_first (tag_of job.header)) s }
{}
