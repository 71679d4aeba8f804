//! The recovery behind a ticket: what each of its submits finds at the device, and what its answers leave. Each function does
//! nothing, and its contract is the law.

ghost use Rattle.std.specs.Prelude.{◌≡◌, ◌≢◌, ◌≤◌, ℕ, List, [], ◌∷◌, ◌++◌, length, Some};
ghost use Rattle.usbip_wire.specs.declared.submit.SubmitHead.{SubmitHead};
ghost use Rattle.usbip_wire.specs.Up as up;
ghost use Rattle.tmc_wire.specs.declared.class_request.ClassRequest.TheVariants.{AbortOut, CheckOut, AbortIn, CheckIn, Clear, CheckClear};
ghost use Rattle.tmc_wire.specs.declared.header.OutHeader.TheVariants.{Request};
ghost use Rattle.tmc_law.specs.Endpoint.{Endpoint, Control, BulkOut, BulkIn};
ghost use Rattle.tmc_law.specs.State.{State, start};
ghost use Rattle.tmc_law.specs.Put.{Put};
ghost use Rattle.tmc_law.specs.Step.{Move, Steps};
ghost use Rattle.tmc_law.specs.Run.{Entry, Runs, taken};
ghost use Rattle.tmc_law.specs.Aborts.{tag_of};
ghost use Rattle.tmc_law.specs.Numbers.{AllBelow, numbers};
ghost use Rattle.host_joint.specs.Lines.{sent_to, events_of, AllFitting, EmptyLine};
ghost use Rattle.host_joint.specs.Jobs.{Job, last_header};
ghost use Rattle.host_joint.specs.Reads.{IsRead};
ghost use Rattle.host_joint.specs.Stage.{IsFinal};
ghost use Rattle.host_joint.specs.Asking.{Ask, Asking, AtRest};
ghost use Rattle.host_joint.specs.Positions.{IsAt, rests, in_begun, in_ended, out_begun, out_first, out_aborted, anything, clears, cleared};
ghost use Rattle.host_joint.specs.Requests.{RequestStays, ClearHaltStays, NoBulk, IsPlugged, in_aborts, in_fails, in_checked, in_pending, out_rests, out_aborts, out_fails, out_checked, out_pending, begins_clear, never, clear_checked, clear_pending, usable_again, usable_cleared};
ghost use Rattle.host_joint.specs.Drains.{DrainAt, OnlyRead};

use tmc_law::laws::{pending_submits_are_sound, setups_have_one_meaning};

/// What an ask leaves to a recovery, once each of its submits and unlinks was answered. Where its request was taken, a Bulk-IN
/// transfer to abort; where its last transfer was not taken, a Bulk-OUT transfer to abort, without an unfinished message where
/// that was the first one or the request; where the whole message alone was taken, or a piece was read to its end, nothing.
/// From anywhere a clear may begin.
pub fn asks_hand_over()
    ensures to_in { (ask : Ask) (front : List Job) (request : Job) (ups : List up.Message) (downs : List Put) (s : State)
        → request.header ≡ Request ask.tag ask.size → ask.written ≡ front ++ request ∷ [] → ask.answered ≡ length ask.written
        → EmptyLine BulkOut ups downs s → EmptyLine BulkIn ups downs s → Asking ask ups downs s → IsAt (in_begun ask.tag) s }
    ensures to_out { (ask : Ask) (front : List Job) (job : Job) (ups : List up.Message) (downs : List Put) (s : State)
        → ((tag size : ℕ) → last_header front ≡ Some (Request tag size) → ⊥) → ask.written ≡ front ++ job ∷ [] → ask.answered ≡ length front
        → EmptyLine BulkOut ups downs s → EmptyLine BulkIn ups downs s → Asking ask ups downs s → IsAt (out_begun (tag_of job.header)) s }
    ensures to_first { (ask : Ask) (job : Job) (ups : List up.Message) (downs : List Put) (s : State)
        → ask.written ≡ job ∷ [] → ask.answered ≡ 0
        → EmptyLine BulkOut ups downs s → EmptyLine BulkIn ups downs s → Asking ask ups downs s → IsAt (out_first (tag_of job.header)) s }
    ensures to_request { (ask : Ask) (front : List Job) (request : Job) (ups : List up.Message) (downs : List Put) (s : State)
        → IsFinal (last_header front) → ask.written ≡ front ++ request ∷ [] → ask.answered ≡ length front
        → EmptyLine BulkOut ups downs s → EmptyLine BulkIn ups downs s → Asking ask ups downs s → IsAt (out_first (tag_of request.header)) s }
    ensures to_message { (ask : Ask) (ups : List up.Message) (downs : List Put) (s : State)
        → IsFinal (last_header ask.written) → ask.answered ≡ length ask.written
        → EmptyLine BulkOut ups downs s → EmptyLine BulkIn ups downs s → Asking ask ups downs s → IsAt rests s }
    ensures to_piece { (ask : Ask) (ups : List up.Message) (downs : List Put) (s : State)
        → ask.written ≡ [] → ask.answered ≡ 0 → ask.sofar ≢ []
        → EmptyLine BulkOut ups downs s → EmptyLine BulkIn ups downs s → Asking ask ups downs s → IsAt rests s }
    ensures to_clear { (ups : List up.Message) (downs : List Put) (s : State)
        → EmptyLine BulkOut ups downs s → EmptyLine BulkIn ups downs s → IsAt anything s }
{}

/// Each request of an abort or a clear stays what it is under each step of a device that is not unplugged: on its way, pending,
/// or answered, with the device at the position that the answer leaves.
pub fn requests_stay()
    ensures abort_in { (tag : ℕ) → RequestStays (AbortIn tag) (in_begun tag) (in_aborts tag) in_fails }
    ensures check_in { RequestStays CheckIn in_ended in_checked in_pending }
    ensures abort_out { (tag : ℕ) → RequestStays (AbortOut tag) (out_begun tag) (out_aborts tag) out_fails }
    ensures abort_first { (tag : ℕ) → RequestStays (AbortOut tag) (out_first tag) (out_aborts tag) out_rests }
    ensures check_out { RequestStays CheckOut out_aborted out_checked out_pending }
    ensures clear { RequestStays Clear anything begins_clear never }
    ensures check_clear { RequestStays CheckClear clears clear_checked clear_pending }
    ensures clear_halt { (endpoint : Endpoint) → ClearHaltStays endpoint rests usable_again never }
    ensures clear_halt_behind { (endpoint : Endpoint) → ClearHaltStays endpoint cleared usable_cleared never }
{
    pending_submits_are_sound();
    setups_have_one_meaning();
}

/// The same of the read of a drain, behind an abort of Bulk-IN that began: it is answered short, or by a halt of Bulk-IN.
pub fn drains_stay()
    ensures { (run : List Entry) (head : SubmitHead) (ups : List up.Message) (downs puts : List Put) (s t : State) (move : Move)
        → Runs start run s → IsRead head → OnlyRead (taken move ++ ups) → AllFitting (taken move ++ ups) → s.control ≡ [] → IsPlugged move
        → Steps s move puts t → DrainAt head (sent_to BulkIn (taken move ++ ups)) (events_of BulkIn downs) s
        → DrainAt head (sent_to BulkIn ups) (events_of BulkIn (downs ++ puts)) t }
{
    pending_submits_are_sound();
}

/// At rest, and behind a clear, a device stays there under each of its steps while no control request is there. A ticket with a
/// new number may begin then.
pub fn devices_rest()
    ensures stays { (ups : List up.Message) (s t : State) (move : Move) (puts : List Put) → Steps s move puts t → NoBulk (taken move ++ ups)
        → s.control ≡ [] → IsAt rests s → IsAt rests t }
    ensures stays_cleared { (ups : List up.Message) (s t : State) (move : Move) (puts : List Put) → Steps s move puts t → NoBulk (taken move ++ ups)
        → s.control ≡ [] → IsAt cleared s → IsAt cleared t }
    ensures rest { (next last : ℕ) (messages : List up.Message) (s : State) → next ≤ last → AllBelow next (numbers s messages) → s.control ≡ []
        → IsAt rests s → AtRest last s }
    ensures rest_cleared { (next last : ℕ) (messages : List up.Message) (s : State) → next ≤ last → AllBelow next (numbers s messages) → s.control ≡ []
        → IsAt cleared s → AtRest last s }
{}
