//! What ties a host to a lawful device while the transfer of a trigger ticket is not answered. The function does nothing, and its contract is the
//! law.

ghost use Rattle.std.specs.Prelude.{◌≡◌, ℕ, ◌+◌, Some, None, List, [], ◌∷◌, ◌++◌};
ghost use Rattle.tmc_base.specs.declared.run_step.RunStep.{RunStep};
ghost use Rattle.tmc_base.specs.Told.{in_bytes, out_bytes, IsFront};
ghost use Rattle.tmc_base.specs.declared.field.Field.{Field};
ghost use Rattle.usbip_wire.specs.declared.down.DownPhase.TheVariants.{Urbs};
ghost use Rattle.usbip_wire.specs.Down as down;
ghost use Rattle.usbip_wire.specs.Down.{SpellsAnswer};
ghost use Rattle.usbip_wire.specs.DownFed.{BadAt};
ghost use Rattle.host_joint.specs.Joint.{entries_for};
ghost use Rattle.host_joint.specs.Next.{IsNextIn};
ghost use Rattle.host_joint.specs.Unplugged.{Until};
ghost use Rattle.usbip_wire.specs.declared.ret_submit.RetSubmitHead.{RetSubmitHead};
ghost use Rattle.usbip_wire.specs.declared.submit.SubmitHead.{SubmitHead};
ghost use Rattle.usbip_wire.specs.Up as up;
ghost use Rattle.tmc_law.specs.State.{State};
ghost use Rattle.tmc_law.specs.Put.{Put, Submitted};
ghost use Rattle.tmc_law.specs.Run.{Entry, Runs, inputs, outputs};
ghost use Rattle.host_joint.specs.Jobs.{Job};
ghost use Rattle.host_joint.specs.Asking.{StaysPlugged};
ghost use Rattle.host_joint.specs.Bond.{Stands, Resting, Bound};
ghost use Rattle.host_joint.specs.Joint.{TellsPlugged, JointBy, Joined};
ghost use Rattle.host_joint.specs.Triggers.{IsTrigger, Triggering, Triggered};

use crate::no_submit_is_refused;
use instr_plain::one_response;
use tmc_law::laws::{
    a_step_logs_at_most_once, answers_fit, halts_have_causes,
    messages_are_refused_by_what_is_pending, numbers_rise, pending_submits_are_sound, runs_join,
    runs_take_in_messages, steps_act, the_log_grows,
};
use tmc_wire::headers_are_read_again;
use usbip_wire::{
    answers_are_determined, bad_fields_are_alone, bad_fields_are_refused, bad_fields_stay,
    urbs_are_determined,
};

/// A host that stands at rest may write the transfer of a trigger. The two stay tied under each run of a device that is not unplugged, over a
/// link too. The answer says that the trigger was taken, and then the instrument was triggered exactly once under its number; or that Bulk-OUT is
/// halted, and then it was not. The host stands at rest again.
pub fn trigger_tickets_are_tied()
    ensures begins { (job : Job) (next : ℕ) (ups : List up.Message) (downs : List Put) (s : State) → IsTrigger job → job.head.seqnum ≡ next
        → Bound (Stands Resting) None [] next ups downs s → Triggering job (next + 1) (ups ++ up.Submit job.head job.bytes ∷ []) downs s }
    ensures stays { (job : Job) (run : List Entry) (next : ℕ) (ups : List up.Message) (downs : List Put) (s t : State)
        → Runs s run t → StaysPlugged run → Triggering job next (inputs run ++ ups) downs s → Triggering job next ups (downs ++ outputs run) t }
    ensures answer { (job : Job) (next : ℕ) (asked : SubmitHead) (answer : RetSubmitHead) (transferred : List ℕ) (ups : List up.Message) (downs : List Put) (s : State)
        → Triggering job next ups (Submitted asked answer transferred ∷ downs) s
        → (asked ≡ job.head) × (answer.seqnum ≡ job.head.seqnum) × Triggered job answer next ups downs s }
    ensures joined { (devid : ℕ) (job : Job) (next : ℕ) (written read : List ℕ) (steps more : List RunStep) (s t : State)
        → TellsPlugged devid s more t → IsFront (in_bytes (steps ++ more)) written
        → JointBy (λ ups downs t. Triggering job next ups downs t) devid written read steps s
        → JointBy (λ ups downs t. Triggering job next ups downs t) devid written read (steps ++ more) t }
{
    pending_submits_are_sound();
    steps_act();
    runs_join();
    the_log_grows();
    headers_are_read_again();
    numbers_rise();
    answers_fit();
    halts_have_causes();
    a_step_logs_at_most_once();
    one_response();
    no_submit_is_refused();
    runs_take_in_messages();
    messages_are_refused_by_what_is_pending();
    urbs_are_determined();
}

/// Over a link, such a host is joined while its transfer, in any spelling, is not answered. What it reads next is the answer to its transfer, and no field
/// of its bytes is bad. The tie holds until the device is unplugged.
pub fn trigger_tickets_are_read()
    ensures written { (devid : ℕ) (job : Job) (next : ℕ) (text written read : List ℕ) (steps : List RunStep) (s : State)
        → IsTrigger job → job.head.seqnum ≡ next → up.Spells devid (up.Submit job.head job.bytes) text
        → Joined devid (Stands Resting) None [] next written read steps s
        → JointBy (λ ups downs t. Triggering job (next + 1) ups downs t) devid (written ++ text) read steps s }
    ensures next { (devid : ℕ) (job : Job) (next : ℕ) (written read this more : List ℕ) (message : down.Message) (steps : List RunStep) (s : State)
        → JointBy (λ ups downs t. Triggering job next ups downs t) devid written read steps s → out_bytes steps ≡ read ++ (this ++ more)
        → SpellsAnswer (entries_for (Some job.head)) message this → IsNextIn (λ ups downs t. Triggering job next ups downs t) devid message next written read this steps s }
    ensures bad { (devid : ℕ) (job : Job) (next : ℕ) (written read rest more : List ℕ) (steps : List RunStep) (s : State) (f : Field)
        → JointBy (λ ups downs t. Triggering job next ups downs t) devid written read steps s → out_bytes steps ≡ read ++ (rest ++ more)
        → BadAt Urbs (entries_for (Some job.head)) rest f → ⊥ }
    ensures until { (job : Job) (run : List Entry) (next : ℕ) (ups : List up.Message) (downs : List Put) (s t : State) → Runs s run t
        → Until (λ ups downs t. Triggering job next ups downs t) (inputs run ++ ups) downs s → Until (λ ups downs t. Triggering job next ups downs t) ups (downs ++ outputs run) t }
{
    trigger_tickets_are_tied();
    runs_join();
    answers_are_determined();
    bad_fields_are_alone();
    bad_fields_are_refused();
    bad_fields_stay();
}
