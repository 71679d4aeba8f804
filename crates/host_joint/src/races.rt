//! A remote or a trigger ticket that is cancelled: the answer to its one submit and the unlink of that race. Each function does nothing, and its
//! contract is the law.

ghost use Rattle.std.specs.Prelude.{◌≡◌, ◌⊎◌, ℕ, ◌+◌, Bool, true, false, None, List, [], ◌∷◌, ◌++◌};
ghost use Rattle.tmc_base.specs.declared.field.Field.{Field};
ghost use Rattle.tmc_base.specs.declared.run_step.RunStep.{RunStep};
ghost use Rattle.tmc_base.specs.Told.{in_bytes, out_bytes, IsFront};
ghost use Rattle.usbip_wire.specs.declared.submit.SubmitHead.{SubmitHead};
ghost use Rattle.usbip_wire.specs.declared.unlink.UnlinkHead.{UnlinkHead};
ghost use Rattle.usbip_wire.specs.declared.ret_submit.RetSubmitHead.{RetSubmitHead};
ghost use Rattle.usbip_wire.specs.declared.ret_unlink.RetUnlinkHead.{RetUnlinkHead};
ghost use Rattle.usbip_wire.specs.declared.down.DownPhase.TheVariants.{Urbs};
ghost use Rattle.usbip_wire.specs.Up as up;
ghost use Rattle.usbip_wire.specs.Down as down;
ghost use Rattle.usbip_wire.specs.Down.{SpellsAnswer};
ghost use Rattle.usbip_wire.specs.DownFed.{BadAt};
ghost use Rattle.tmc_wire.specs.ClassStatus.{STATUS_SUCCESS};
ghost use Rattle.instr_plain.specs.declared.log.LogEntry.{LogEntry};
ghost use Rattle.instr_plain.specs.declared.remote.RemoteAct.{RemoteAct};
ghost use Rattle.tmc_law.specs.State.{State};
ghost use Rattle.tmc_law.specs.Put.{Put, Submitted, Unlinked, success, stalled, unlinked};
ghost use Rattle.tmc_law.specs.Run.{Entry, Runs, inputs, outputs};
ghost use Rattle.tmc_law.specs.Told.{Tells};
ghost use Rattle.host_joint.specs.Jobs.{Job};
ghost use Rattle.host_joint.specs.Asking.{StaysPlugged};
ghost use Rattle.host_joint.specs.Bond.{Stands, Resting, Bound};
ghost use Rattle.host_joint.specs.Remotes.{NoneSince, OneSince, Operating};
ghost use Rattle.host_joint.specs.Triggers.{NoTrigger, Triggering};
ghost use Rattle.host_joint.specs.Joint.{JointBy, entries_of, IsApart};
ghost use Rattle.host_joint.specs.Unplugged.{Until};
ghost use Rattle.host_joint.specs.Races.{CancelledAct, LateAct, IsCounted, CancelledTrigger, LateTrigger, Ticket, TicketHolds, waits_of, unlinks_of, NextHeld, TicketJoined, IsNextOfTicket};

use crate::no_submit_is_refused;
use instr_plain::one_response;
use tmc_law::laws::{
    a_step_logs_at_most_once, answers_fit, halts_have_causes,
    messages_are_refused_by_what_is_pending, numbers_rise, pending_submits_are_sound, runs_join,
    runs_take_in_messages, setups_have_one_meaning, steps_act, the_log_grows,
};
use tmc_wire::headers_are_read_again;
use usbip_wire::{
    answers_are_determined, bad_fields_are_alone, bad_fields_are_refused, bad_fields_stay,
    urbs_are_determined,
};

/// A host may unlink the request of a remote ticket that is not answered. If the answer comes first, it is as without the unlink, and then the answer
/// to the unlink has status 0; exactly one act was logged since. If the answer to the unlink comes first, its status is -104, and no act was logged since,
/// nor will be. The host stands at rest then.
pub fn remote_tickets_are_cancelled()
    ensures unlink { (act : RemoteAct) (since : List LogEntry) (head : SubmitHead) (unlink : UnlinkHead) (next : ℕ) (ups : List up.Message) (downs : List Put) (s : State)
        → unlink.seqnum ≡ next → unlink.target ≡ head.seqnum → Operating act since head next ups downs s
        → CancelledAct act since head unlink (next + 1) (ups ++ up.Unlink unlink ∷ []) downs s }
    ensures answer { (act : RemoteAct) (since : List LogEntry) (head : SubmitHead) (unlink : UnlinkHead) (next : ℕ) (asked : SubmitHead) (answer : RetSubmitHead) (transferred : List ℕ) (ups : List up.Message) (downs : List Put) (s : State)
        → CancelledAct act since head unlink next ups (Submitted asked answer transferred ∷ downs) s
        → (asked ≡ head) × (answer ≡ record { seqnum = head.seqnum; status = success; actual = 1 }) × (transferred ≡ STATUS_SUCCESS ∷ []) × OneSince act since s.log
        × LateAct act since unlink next ups downs s }
    ensures hit { (act : RemoteAct) (since : List LogEntry) (head : SubmitHead) (unlink : UnlinkHead) (next : ℕ) (asked : UnlinkHead) (answer : RetUnlinkHead) (ups : List up.Message) (downs : List Put) (s : State)
        → CancelledAct act since head unlink next ups (Unlinked asked answer ∷ downs) s
        → (answer ≡ record { seqnum = unlink.seqnum; status = unlinked }) × NoneSince since s.log × Bound (Stands Resting) None [] next ups downs s }
    ensures missed { (act : RemoteAct) (since : List LogEntry) (unlink : UnlinkHead) (next : ℕ) (asked : UnlinkHead) (answer : RetUnlinkHead) (ups : List up.Message) (downs : List Put) (s : State)
        → LateAct act since unlink next ups (Unlinked asked answer ∷ downs) s
        → (answer ≡ record { seqnum = unlink.seqnum; status = success }) × OneSince act since s.log × Bound (Stands Resting) None [] next ups downs s }
{
    setups_have_one_meaning();
    pending_submits_are_sound();
    steps_act();
    runs_join();
    the_log_grows();
    headers_are_read_again();
    numbers_rise();
    answers_fit();
    halts_have_causes();
    a_step_logs_at_most_once();
    one_response();
}

/// The same of the transfer of a trigger. If its answer comes first, it is as without the unlink, which missed; if that of the unlink does, the
/// instrument was not triggered under this number, nor will be.
pub fn trigger_tickets_are_cancelled()
    ensures unlink { (job : Job) (unlink : UnlinkHead) (next : ℕ) (ups : List up.Message) (downs : List Put) (s : State)
        → unlink.seqnum ≡ next → unlink.target ≡ job.head.seqnum → Triggering job next ups downs s
        → CancelledTrigger job unlink (next + 1) (ups ++ up.Unlink unlink ∷ []) downs s }
    ensures answer { (job : Job) (unlink : UnlinkHead) (next : ℕ) (asked : SubmitHead) (answer : RetSubmitHead) (transferred : List ℕ) (ups : List up.Message) (downs : List Put) (s : State)
        → CancelledTrigger job unlink next ups (Submitted asked answer transferred ∷ downs) s
        → (asked ≡ job.head) × (answer.seqnum ≡ job.head.seqnum)
        × (((answer.status ≡ success) × (answer.actual ≡ job.head.length) × LateTrigger true job.head.seqnum unlink next ups downs s)
        ⊎ ((answer.status ≡ stalled) × (s.halted.bulk_out ≡ true) × LateTrigger false job.head.seqnum unlink next ups downs s)) }
    ensures hit { (job : Job) (unlink : UnlinkHead) (next : ℕ) (asked : UnlinkHead) (answer : RetUnlinkHead) (ups : List up.Message) (downs : List Put) (s : State)
        → CancelledTrigger job unlink next ups (Unlinked asked answer ∷ downs) s
        → (answer ≡ record { seqnum = unlink.seqnum; status = unlinked }) × NoTrigger job.head.seqnum s.log × Bound (Stands Resting) None [] next ups downs s }
    ensures missed { (counted : Bool) (n : ℕ) (unlink : UnlinkHead) (next : ℕ) (asked : UnlinkHead) (answer : RetUnlinkHead) (ups : List up.Message) (downs : List Put) (s : State)
        → LateTrigger counted n unlink next ups (Unlinked asked answer ∷ downs) s
        → (answer ≡ record { seqnum = unlink.seqnum; status = success }) × IsCounted counted n s.log × Bound (Stands Resting) None [] next ups downs s }
{
    pending_submits_are_sound();
    steps_act();
    runs_join();
    the_log_grows();
    headers_are_read_again();
    numbers_rise();
    answers_fit();
    halts_have_causes();
    a_step_logs_at_most_once();
    one_response();
}

/// Such a ticket, cancelled or not, is held under each run of a device that is not unplugged, and is held until then under any. The first answer on
/// its way is one to a ticket that is held; or it is the one to the submit, tells of the unplugging by its status, -108, and is the last.
pub fn tickets_are_held()
    ensures stays { (ticket : Ticket) (run : List Entry) (next : ℕ) (ups : List up.Message) (downs : List Put) (s t : State)
        → Runs s run t → StaysPlugged run → TicketHolds ticket next (inputs run ++ ups) downs s → TicketHolds ticket next ups (downs ++ outputs run) t }
    ensures until { (ticket : Ticket) (run : List Entry) (next : ℕ) (ups : List up.Message) (downs : List Put) (s t : State)
        → Runs s run t → Until (λ ups downs t. TicketHolds ticket next ups downs t) (inputs run ++ ups) downs s
        → Until (λ ups downs t. TicketHolds ticket next ups downs t) ups (downs ++ outputs run) t }
    ensures next { (ticket : Ticket) (next : ℕ) (put : Put) (ups : List up.Message) (downs : List Put) (t : State)
        → Until (λ ups downs t. TicketHolds ticket next ups downs t) ups (put ∷ downs) t
        → NextHeld (λ ups downs t. TicketHolds ticket next ups downs t) (waits_of ticket) put ups downs t }
{
    setups_have_one_meaning();
    pending_submits_are_sound();
    steps_act();
    runs_join();
    the_log_grows();
    headers_are_read_again();
    numbers_rise();
    answers_fit();
    halts_have_causes();
    a_step_logs_at_most_once();
    one_response();
}

/// Over a link that tells its bytes and the steps of its peer such a ticket is held while the device goes on, and where its host writes, as an unlink; and what the host
/// reads next is the first answer on its way, of which no field is bad.
pub fn tickets_are_read()
    ensures begins { (ticket : Ticket) (next devid : ℕ) (written read : List ℕ) (steps : List RunStep) (s : State)
        → JointBy (λ ups downs t. TicketHolds ticket next ups downs t) devid written read steps s → TicketJoined ticket next devid written read steps s }
    ensures stays { (ticket : Ticket) (next devid : ℕ) (written read : List ℕ) (steps more : List RunStep) (s t : State)
        → Tells devid s more t → IsFront (in_bytes (steps ++ more)) written
        → TicketJoined ticket next devid written read steps s → TicketJoined ticket next devid written read (steps ++ more) t }
    ensures writes { (ticket later : Ticket) (next after devid : ℕ) (message : up.Message) (text written read : List ℕ) (steps : List RunStep) (s : State)
        → up.Spells devid message text
        → ((ups : List up.Message) (downs : List Put) (s : State) → TicketHolds ticket next ups downs s → TicketHolds later after (ups ++ message ∷ []) downs s)
        → TicketJoined ticket next devid written read steps s → TicketJoined later after devid (written ++ text) read steps s }
    ensures next { (ticket : Ticket) (next devid : ℕ) (written read this more : List ℕ) (message : down.Message) (steps : List RunStep) (s : State)
        → IsApart (waits_of ticket) (unlinks_of ticket) → TicketJoined ticket next devid written read steps s → out_bytes steps ≡ read ++ (this ++ more)
        → SpellsAnswer (entries_of (waits_of ticket) (unlinks_of ticket)) message this → IsNextOfTicket ticket next devid message written read this steps s }
    ensures bad { (ticket : Ticket) (next devid : ℕ) (written read rest more : List ℕ) (steps : List RunStep) (s : State) (f : Field)
        → IsApart (waits_of ticket) (unlinks_of ticket) → TicketJoined ticket next devid written read steps s → out_bytes steps ≡ read ++ (rest ++ more)
        → BadAt Urbs (entries_of (waits_of ticket) (unlinks_of ticket)) rest f → ⊥ }
{
    tickets_are_held();
    no_submit_is_refused();
    runs_join();
    runs_take_in_messages();
    messages_are_refused_by_what_is_pending();
    urbs_are_determined();
    answers_are_determined();
    bad_fields_are_alone();
    bad_fields_are_refused();
    bad_fields_stay();
}
