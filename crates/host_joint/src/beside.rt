//! A host that keeps a submit to Interrupt-IN out while it does something else: an ask, a recovery, a remote or a trigger ticket. Each function does
//! nothing, and its contract is the law.

ghost use Rattle.std.specs.Prelude.{◌≡◌, ℕ, ◌+◌, ◌≤◌, Option, Some, None, List, [], ◌∷◌, ◌++◌};
ghost use Rattle.tmc_base.specs.declared.field.Field.{Field};
ghost use Rattle.tmc_base.specs.declared.run_step.RunStep.{RunStep};
ghost use Rattle.tmc_base.specs.Told.{in_bytes, out_bytes, IsFront};
ghost use Rattle.usbip_wire.specs.declared.submit.SubmitHead.{SubmitHead};
ghost use Rattle.usbip_wire.specs.declared.down.DownPhase.TheVariants.{Urbs};
ghost use Rattle.usbip_wire.specs.Up as up;
ghost use Rattle.usbip_wire.specs.Down as down;
ghost use Rattle.usbip_wire.specs.Down.{SpellsAnswer};
ghost use Rattle.usbip_wire.specs.DownFed.{BadAt};
ghost use Rattle.tmc_law.specs.State.{State, Packet};
ghost use Rattle.tmc_law.specs.Put.{Put};
ghost use Rattle.tmc_law.specs.Run.{Entry, Runs, inputs, outputs};
ghost use Rattle.host_joint.specs.Asking.{StaysPlugged};
ghost use Rattle.host_joint.specs.Hand.{Free};
ghost use Rattle.host_joint.specs.Tie.{IsUndisturbed};
ghost use Rattle.host_joint.specs.Bond.{Stands, Resting};
ghost use Rattle.host_joint.specs.Joint.{JointBy, TellsCalmly, TellsPlugged};
ghost use Rattle.host_joint.specs.StatusReads.{Quiet, IsNotify};
ghost use Rattle.host_joint.specs.Beside.{Doing, HasAsk, HasRecovery, Does, MayHalt, IsElsewhere, IfAny, KeepsApart, device_beside, Beside, GivesBeside, entries_beside, AreAllApart, waits_for, unlinks_for, JoinedBeside, IsNextBeside};

use crate::{bonds_stay, no_submit_is_refused, tickets_are_held, ties_stay};
use instr_plain::one_response;
use tmc_law::laws::{
    a_step_logs_at_most_once, answers_fit, halts_have_causes,
    messages_are_refused_by_what_is_pending, numbers_rise, pending_submits_are_sound, runs_join,
    runs_take_in_messages, steps_act, the_log_grows,
};
use tmc_wire::headers_are_read_again;
use usbip_wire::{
    answers_are_determined, bad_fields_are_alone, bad_fields_are_refused, bad_fields_stay,
    urbs_are_determined,
};

/// A host that is in no status read may begin something else beside its submit to Interrupt-IN, and is in no status read behind it, with the same packets
/// left. It may write a submit to Interrupt-IN meanwhile.
pub fn notices_are_kept_out()
    ensures begins { (notify : Option SubmitHead) (older : List Packet) (next : ℕ) (ups : List up.Message) (downs : List Put) (s : State) → IfAny (λ head. IsNotify head) notify
        → Quiet notify older next ups downs s → Beside (HasRecovery (Stands Resting) None []) notify older next ups downs s }
    ensures rests { (notify : Option SubmitHead) (older : List Packet) (next : ℕ) (ups : List up.Message) (downs : List Put) (s : State)
        → Beside (HasRecovery (Stands Resting) None []) notify older next ups downs s → Quiet notify older next ups downs s }
    ensures ends { (notify : Option SubmitHead) (older : List Packet) (next : ℕ) (ups : List up.Message) (downs : List Put) (s : State)
        → Beside (HasAsk Free None) notify older next ups downs s → Quiet notify older next ups downs s }
    ensures notify { (doing : Doing) (head : SubmitHead) (older : List Packet) (next : ℕ) (ups : List up.Message) (downs : List Put) (s : State) → IsNotify head → head.seqnum ≡ next
        → KeepsApart doing (Some head) → Beside doing None older next ups downs s → Beside doing (Some head) older (next + 1) (ups ++ up.Submit head [] ∷ []) downs s }
{
    pending_submits_are_sound();
    steps_act();
    runs_join();
    the_log_grows();
    headers_are_read_again();
}

/// What a host does beside a submit to Interrupt-IN goes on as without it: under each run of a device that nothing disturbs, and behind a cancel and in a
/// remote or a trigger ticket under each run of one that is not unplugged; with each message that it writes to another endpoint, and where it turns to
/// something else. The next answer to it is the one that comes without that submit, or tells of Interrupt-IN: a packet asks for service, one of an
/// earlier status read comes, or the endpoint is halted.
pub fn hosts_go_on_beside_notices()
    ensures calm { (doing : Doing) (notify : Option SubmitHead) (older : List Packet) (run : List Entry) (next : ℕ) (ups : List up.Message) (downs : List Put) (s t : State)
        → Runs s run t → IsUndisturbed run → Beside doing notify older next (inputs run ++ ups) downs s → Beside doing notify older next ups (downs ++ outputs run) t }
    ensures plugged { (doing : Doing) (notify : Option SubmitHead) (older : List Packet) (run : List Entry) (next : ℕ) (ups : List up.Message) (downs : List Put) (s t : State) → MayHalt doing
        → Runs s run t → StaysPlugged run → Beside doing notify older next (inputs run ++ ups) downs s → Beside doing notify older next ups (downs ++ outputs run) t }
    ensures writes { (doing after : Doing) (notify : Option SubmitHead) (older : List Packet) (next later : ℕ) (message : up.Message) (ups : List up.Message) (downs : List Put) (s : State)
        → IsElsewhere message → KeepsApart after notify → next ≤ later
        → ((ups : List up.Message) (downs : List Put) (s : State) → Does doing next ups downs s → Does after later (ups ++ message ∷ []) downs s)
        → Beside doing notify older next ups downs s → Beside after notify older later (ups ++ message ∷ []) downs s }
    ensures turns { (doing after : Doing) (notify : Option SubmitHead) (older : List Packet) (next : ℕ) (ups : List up.Message) (downs : List Put) (s : State) → KeepsApart after notify
        → ((packets : List Packet) (ups : List up.Message) (downs : List Put) → Does doing next ups downs (device_beside packets s) → Does after next ups downs (device_beside packets s))
        → Beside doing notify older next ups downs s → Beside after notify older next ups downs s }
    ensures answer { (doing : Doing) (notify : Option SubmitHead) (older : List Packet) (put : Put) (next : ℕ) (ups : List up.Message) (downs : List Put) (s : State)
        → Beside doing notify older next ups (put ∷ downs) s → GivesBeside doing notify older put next ups downs s }
{
    ties_stay();
    bonds_stay();
    tickets_are_held();
    pending_submits_are_sound();
    steps_act();
    runs_join();
    the_log_grows();
    headers_are_read_again();
    numbers_rise();
    answers_fit();
    halts_have_causes();
    a_step_logs_at_most_once();
    one_response();
}

/// Over a link that tells its bytes and the steps of its peer such a host stays joined while the device goes on, and where it writes a message, in any spelling. What it
/// reads next is the first answer on its way, and no field of its bytes is bad.
pub fn notices_are_joined()
    ensures calm { (doing : Doing) (notify : Option SubmitHead) (older : List Packet) (next devid : ℕ) (written read : List ℕ) (steps more : List RunStep) (s t : State)
        → TellsCalmly devid s more t → IsFront (in_bytes (steps ++ more)) written
        → JoinedBeside doing notify older next devid written read steps s → JoinedBeside doing notify older next devid written read (steps ++ more) t }
    ensures plugged { (doing : Doing) (notify : Option SubmitHead) (older : List Packet) (next devid : ℕ) (written read : List ℕ) (steps more : List RunStep) (s t : State) → MayHalt doing
        → TellsPlugged devid s more t → IsFront (in_bytes (steps ++ more)) written
        → JoinedBeside doing notify older next devid written read steps s → JoinedBeside doing notify older next devid written read (steps ++ more) t }
    ensures begins { (notify : Option SubmitHead) (older : List Packet) (next devid : ℕ) (written read : List ℕ) (steps : List RunStep) (s : State) → IfAny (λ head. IsNotify head) notify
        → JointBy (λ ups downs t. Quiet notify older next ups downs t) devid written read steps s → JoinedBeside (HasRecovery (Stands Resting) None []) notify older next devid written read steps s }
    ensures turns { (doing after : Doing) (notify : Option SubmitHead) (older : List Packet) (next devid : ℕ) (written read : List ℕ) (steps : List RunStep) (s : State) → KeepsApart after notify
        → ((packets : List Packet) (ups : List up.Message) (downs : List Put) → Does doing next ups downs (device_beside packets s) → Does after next ups downs (device_beside packets s))
        → JoinedBeside doing notify older next devid written read steps s → JoinedBeside after notify older next devid written read steps s }
    ensures rests { (notify : Option SubmitHead) (older : List Packet) (next devid : ℕ) (written read : List ℕ) (steps : List RunStep) (s : State)
        → JoinedBeside (HasRecovery (Stands Resting) None []) notify older next devid written read steps s → JointBy (λ ups downs t. Quiet notify older next ups downs t) devid written read steps s }
    ensures ends { (notify : Option SubmitHead) (older : List Packet) (next devid : ℕ) (written read : List ℕ) (steps : List RunStep) (s : State)
        → JoinedBeside (HasAsk Free None) notify older next devid written read steps s → JointBy (λ ups downs t. Quiet notify older next ups downs t) devid written read steps s }
    ensures writes { (doing after : Doing) (notify : Option SubmitHead) (older : List Packet) (next later devid : ℕ) (message : up.Message) (text written read : List ℕ) (steps : List RunStep) (s : State)
        → IsElsewhere message → KeepsApart after notify → next ≤ later → up.Spells devid message text
        → ((ups : List up.Message) (downs : List Put) (s : State) → Does doing next ups downs s → Does after later (ups ++ message ∷ []) downs s)
        → JoinedBeside doing notify older next devid written read steps s → JoinedBeside after notify older later devid (written ++ text) read steps s }
    ensures notify { (doing : Doing) (head : SubmitHead) (older : List Packet) (next devid : ℕ) (text written read : List ℕ) (steps : List RunStep) (s : State) → IsNotify head → head.seqnum ≡ next
        → KeepsApart doing (Some head) → up.Spells devid (up.Submit head []) text
        → JoinedBeside doing None older next devid written read steps s → JoinedBeside doing (Some head) older (next + 1) devid (written ++ text) read steps s }
    ensures next { (doing : Doing) (notify : Option SubmitHead) (older : List Packet) (next devid : ℕ) (written read this more : List ℕ) (message : down.Message) (steps : List RunStep) (s : State)
        → AreAllApart (waits_for doing) notify (unlinks_for doing) → JoinedBeside doing notify older next devid written read steps s → out_bytes steps ≡ read ++ (this ++ more)
        → SpellsAnswer (entries_beside doing notify) message this → IsNextBeside doing notify older next devid message written read this steps s }
    ensures bad { (doing : Doing) (notify : Option SubmitHead) (older : List Packet) (next devid : ℕ) (written read rest more : List ℕ) (steps : List RunStep) (s : State) (f : Field)
        → AreAllApart (waits_for doing) notify (unlinks_for doing) → JoinedBeside doing notify older next devid written read steps s → out_bytes steps ≡ read ++ (rest ++ more)
        → BadAt Urbs (entries_beside doing notify) rest f → ⊥ }
{
    notices_are_kept_out();
    hosts_go_on_beside_notices();
    no_submit_is_refused();
    runs_join();
    runs_take_in_messages();
    messages_are_refused_by_what_is_pending();
    urbs_are_determined();
    answers_are_determined();
    bad_fields_are_alone();
    bad_fields_are_refused();
    bad_fields_stay();
}
