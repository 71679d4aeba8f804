//! What ties a host to a lawful device while the request of a remote ticket is not answered. The function does nothing, and its contract is the
//! law.

ghost use Rattle.std.specs.Prelude.{◌≡◌, ℕ, ◌+◌, Some, None, List, [], ◌∷◌, ◌++◌};
ghost use Rattle.tmc_base.specs.declared.run_step.RunStep.{RunStep};
ghost use Rattle.tmc_base.specs.Told.{in_bytes, out_bytes, IsFront};
ghost use Rattle.tmc_base.specs.declared.field.Field.{Field};
ghost use Rattle.usbip_wire.specs.declared.down.DownPhase.TheVariants.{Urbs};
ghost use Rattle.usbip_wire.specs.Down as down;
ghost use Rattle.usbip_wire.specs.Down.{SpellsAnswer};
ghost use Rattle.usbip_wire.specs.DownFed.{BadAt};
ghost use Rattle.host_joint.specs.Joint.{entries_for};
ghost use Rattle.host_joint.specs.Next.{IsNextIn};
ghost use Rattle.host_joint.specs.Unplugged.{Until};
ghost use Rattle.usbip_wire.specs.declared.ret_submit.RetSubmitHead.{RetSubmitHead};
ghost use Rattle.usbip_wire.specs.declared.submit.SubmitHead.{SubmitHead};
ghost use Rattle.usbip_wire.specs.Up as up;
ghost use Rattle.tmc_wire.specs.ClassStatus.{STATUS_SUCCESS};
ghost use Rattle.instr_plain.specs.declared.log.LogEntry.{LogEntry};
ghost use Rattle.instr_plain.specs.declared.remote.RemoteAct.{RemoteAct};
ghost use Rattle.tmc_law.specs.State.{State};
ghost use Rattle.tmc_law.specs.Put.{Put, Submitted, success};
ghost use Rattle.tmc_law.specs.Run.{Entry, Runs, inputs, outputs};
ghost use Rattle.host_joint.specs.Lines.{Fitting};
ghost use Rattle.host_joint.specs.Requests.{IsClass};
ghost use Rattle.host_joint.specs.Asking.{StaysPlugged};
ghost use Rattle.host_joint.specs.Hand.{Free};
ghost use Rattle.host_joint.specs.Tie.{Tie};
ghost use Rattle.host_joint.specs.Bond.{Stands, Resting, Bound};
ghost use Rattle.host_joint.specs.Joint.{TellsPlugged, JointBy, Joint, Joined};
ghost use Rattle.host_joint.specs.Remotes.{request_of, OneSince, Operating};

use crate::no_submit_is_refused;
use instr_plain::one_response;
use tmc_law::laws::{
    a_step_logs_at_most_once, answers_fit, halts_have_causes,
    messages_are_refused_by_what_is_pending, numbers_rise, pending_submits_are_sound, runs_join,
    runs_take_in_messages, setups_have_one_meaning, steps_act, the_log_grows,
};
use tmc_wire::headers_are_read_again;
use usbip_wire::{
    answers_are_determined, bad_fields_are_alone, bad_fields_are_refused, bad_fields_stay,
    urbs_are_determined,
};

/// A host that has nothing in hand stands at rest, and may write the request of a remote ticket. The two stay tied under each run of a device that
/// is not unplugged, over a link too. The answer is SUCCESS; since the request was written exactly one act was logged, which is that of the
/// ticket, and the host stands at rest again.
pub fn remote_tickets_are_tied()
    ensures stands { (next : ℕ) (ups : List up.Message) (downs : List Put) (s : State) → Tie Free None next ups downs s → Bound (Stands Resting) None [] next ups downs s }
    ensures begins { (act : RemoteAct) (head : SubmitHead) (next : ℕ) (ups : List up.Message) (downs : List Put) (s : State)
        → IsClass head (request_of act) → Fitting head → head.seqnum ≡ next → Bound (Stands Resting) None [] next ups downs s
        → Operating act s.log head (next + 1) (ups ++ up.Submit head [] ∷ []) downs s }
    ensures stays { (act : RemoteAct) (since : List LogEntry) (head : SubmitHead) (run : List Entry) (next : ℕ) (ups : List up.Message) (downs : List Put) (s t : State)
        → Runs s run t → StaysPlugged run → Operating act since head next (inputs run ++ ups) downs s → Operating act since head next ups (downs ++ outputs run) t }
    ensures answer { (act : RemoteAct) (since : List LogEntry) (head : SubmitHead) (next : ℕ) (asked : SubmitHead) (answer : RetSubmitHead) (transferred : List ℕ) (ups : List up.Message) (downs : List Put) (s : State)
        → Operating act since head next ups (Submitted asked answer transferred ∷ downs) s
        → (asked ≡ head) × (answer ≡ record { seqnum = head.seqnum; status = success; actual = 1 }) × (transferred ≡ STATUS_SUCCESS ∷ [])
        × OneSince act since s.log × Bound (Stands Resting) None [] next ups downs s }
    ensures joined { (devid : ℕ) (act : RemoteAct) (since : List LogEntry) (head : SubmitHead) (next : ℕ) (written read : List ℕ) (steps more : List RunStep) (s t : State)
        → TellsPlugged devid s more t → IsFront (in_bytes (steps ++ more)) written
        → JointBy (λ ups downs t. Operating act since head next ups downs t) devid written read steps s
        → JointBy (λ ups downs t. Operating act since head next ups downs t) devid written read (steps ++ more) t }
{
    setups_have_one_meaning();
    pending_submits_are_sound();
    steps_act();
    runs_join();
    the_log_grows();
    headers_are_read_again();
    numbers_rise();
    answers_fit();
    halts_have_causes();
    a_step_logs_at_most_once();
    one_response();
    no_submit_is_refused();
    runs_take_in_messages();
    messages_are_refused_by_what_is_pending();
    urbs_are_determined();
}

/// Over a link, such a host stands at rest where it has nothing in hand, and is joined while its request, in any spelling, is not answered. What it reads
/// next is the answer to its request, and no field of its bytes is bad. The tie holds until the device is unplugged.
pub fn remote_tickets_are_read()
    ensures stands { (devid next : ℕ) (written read : List ℕ) (steps : List RunStep) (s : State) → Joint devid Free None next written read steps s
        → Joined devid (Stands Resting) None [] next written read steps s }
    ensures written { (devid : ℕ) (act : RemoteAct) (head : SubmitHead) (next : ℕ) (text written read : List ℕ) (steps : List RunStep) (s : State)
        → IsClass head (request_of act) → Fitting head → head.seqnum ≡ next → up.Spells devid (up.Submit head []) text
        → Joined devid (Stands Resting) None [] next written read steps s
        → JointBy (λ ups downs t. Operating act s.log head (next + 1) ups downs t) devid (written ++ text) read steps s }
    ensures next { (devid : ℕ) (act : RemoteAct) (since : List LogEntry) (head : SubmitHead) (next : ℕ) (written read this more : List ℕ) (message : down.Message) (steps : List RunStep) (s : State)
        → JointBy (λ ups downs t. Operating act since head next ups downs t) devid written read steps s → out_bytes steps ≡ read ++ (this ++ more)
        → SpellsAnswer (entries_for (Some head)) message this → IsNextIn (λ ups downs t. Operating act since head next ups downs t) devid message next written read this steps s }
    ensures bad { (devid : ℕ) (act : RemoteAct) (since : List LogEntry) (head : SubmitHead) (next : ℕ) (written read rest more : List ℕ) (steps : List RunStep) (s : State) (f : Field)
        → JointBy (λ ups downs t. Operating act since head next ups downs t) devid written read steps s → out_bytes steps ≡ read ++ (rest ++ more)
        → BadAt Urbs (entries_for (Some head)) rest f → ⊥ }
    ensures until { (act : RemoteAct) (since : List LogEntry) (head : SubmitHead) (run : List Entry) (next : ℕ) (ups : List up.Message) (downs : List Put) (s t : State) → Runs s run t
        → Until (λ ups downs t. Operating act since head next ups downs t) (inputs run ++ ups) downs s → Until (λ ups downs t. Operating act since head next ups downs t) ups (downs ++ outputs run) t }
{
    remote_tickets_are_tied();
    runs_join();
    answers_are_determined();
    bad_fields_are_alone();
    bad_fields_are_refused();
    bad_fields_stay();
}
