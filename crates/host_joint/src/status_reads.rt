//! What ties a host to a lawful device while it reads the status byte: READ_STATUS_BYTE, and the packet on Interrupt-IN that brings it. Each function
//! does nothing, and its contract is the law.

ghost use Rattle.std.specs.Prelude.{◌≡◌, ℕ, ◌+◌, Bool, true, false, Option, Some, None, List, [], ◌∷◌, ◌++◌};
ghost use Rattle.tmc_base.specs.declared.run_step.RunStep.{RunStep};
ghost use Rattle.tmc_base.specs.Told.{in_bytes, out_bytes, IsFront};
ghost use Rattle.tmc_base.specs.declared.field.Field.{Field};
ghost use Rattle.usbip_wire.specs.declared.down.DownPhase.TheVariants.{Urbs};
ghost use Rattle.usbip_wire.specs.Down as down;
ghost use Rattle.usbip_wire.specs.Down.{SpellsAnswer};
ghost use Rattle.usbip_wire.specs.DownFed.{BadAt};
ghost use Rattle.usbip_wire.specs.declared.ret_submit.RetSubmitHead.{RetSubmitHead};
ghost use Rattle.usbip_wire.specs.declared.ret_unlink.RetUnlinkHead.{RetUnlinkHead};
ghost use Rattle.usbip_wire.specs.declared.submit.SubmitHead.{SubmitHead};
ghost use Rattle.usbip_wire.specs.declared.unlink.UnlinkHead.{UnlinkHead};
ghost use Rattle.usbip_wire.specs.Up as up;
ghost use Rattle.tmc_wire.specs.declared.class_request.ClassRequest.TheVariants.{ReadStatus};
ghost use Rattle.tmc_law.specs.State.{State, Packet, StatusPacket};
ghost use Rattle.tmc_law.specs.Endpoint.{InterruptIn, number_of};
ghost use Rattle.tmc_law.specs.Put.{Put, Submitted, Unlinked, success};
ghost use Rattle.tmc_law.specs.Status.{IsStatusTag};
ghost use Rattle.tmc_law.specs.Run.{Entry, Runs, inputs, outputs};
ghost use Rattle.host_joint.specs.Lines.{Fitting};
ghost use Rattle.host_joint.specs.Requests.{IsClass};
ghost use Rattle.host_joint.specs.Asking.{StaysPlugged};
ghost use Rattle.host_joint.specs.Bond.{Stands, Resting, Bound};
ghost use Rattle.host_joint.specs.Joint.{TellsPlugged, JointBy};
ghost use Rattle.host_joint.specs.Unplugged.{Until};
ghost use Rattle.host_joint.specs.StatusReads.{statuses, OnePolled, StatusRead, IsNotify, Quiet, ReadsStatus, GivesStatus, GivesQuiet, NoneTagged, while, entries_by, IsNextOfRead, CancelledRead, LateRead, GivesCancelled, GivesLate, UnlinkOver};

use crate::no_submit_is_refused;
use instr_plain::one_response;
use tmc_law::laws::{
    a_step_logs_at_most_once, answers_fit, halts_have_causes,
    messages_are_refused_by_what_is_pending, numbers_rise, pending_submits_are_sound, runs_join,
    runs_take_in_messages, setups_have_one_meaning, steps_act, the_log_grows,
};
use tmc_wire::headers_are_read_again;
use usbip_wire::{
    answers_are_determined, bad_fields_are_alone, bad_fields_are_refused, bad_fields_stay,
    urbs_are_determined,
};

/// A host that stands at rest is in no status read, and what it knows of the packets with a status byte is kept under each run of a device that is not
/// unplugged. It may write a submit to Interrupt-IN, if none is there that is not answered. What such a submit is answered with is a request for
/// service, a packet that was left by an earlier status read, or a halt of Interrupt-IN.
pub fn packets_are_told()
    ensures begins { (older : List Packet) (next : ℕ) (ups : List up.Message) (downs : List Put) (s : State) → statuses s.packets ≡ older
        → Bound (Stands Resting) None [] next ups downs s → Quiet None older next ups downs s }
    ensures ends { (older : List Packet) (next : ℕ) (ups : List up.Message) (downs : List Put) (s : State) → Quiet None older next ups downs s
        → Bound (Stands Resting) None [] next ups downs s }
    ensures notify { (head : SubmitHead) (older : List Packet) (next : ℕ) (ups : List up.Message) (downs : List Put) (s : State) → IsNotify head → head.seqnum ≡ next
        → Quiet None older next ups downs s → Quiet (Some head) older (next + 1) (ups ++ up.Submit head [] ∷ []) downs s }
    ensures stays { (notify : Option SubmitHead) (older : List Packet) (run : List Entry) (next : ℕ) (ups : List up.Message) (downs : List Put) (s t : State)
        → Runs s run t → StaysPlugged run → Quiet notify older next (inputs run ++ ups) downs s → Quiet notify older next ups (downs ++ outputs run) t }
    ensures answer { (notify : Option SubmitHead) (older : List Packet) (asked : SubmitHead) (answer : RetSubmitHead) (transferred : List ℕ) (next : ℕ) (ups : List up.Message) (downs : List Put) (s : State)
        → Quiet notify older next ups (Submitted asked answer transferred ∷ downs) s → GivesQuiet notify older asked answer transferred next ups downs s }
{
    pending_submits_are_sound();
    steps_act();
    runs_join();
    the_log_grows();
    headers_are_read_again();
    numbers_rise();
    answers_fit();
    halts_have_causes();
    a_step_logs_at_most_once();
    one_response();
}

/// Such a host may write READ_STATUS_BYTE, and submits to Interrupt-IN, one behind the answer to the other. It stays tied under each run of a device
/// that is not unplugged, over a link too, and until then under any. The request is answered with SUCCESS, or, where packets of earlier status
/// reads were left, with INTERRUPT_IN_BUSY, and then the status byte was not read. A packet with the tag of the request that comes behind those
/// brings the byte that was read for it: since the request was written it was read exactly once, and it is the status byte of the instrument at
/// that place of the log. A host that has both, or SUCCESS alone, is in no status read, and knows which packet is left.
pub fn status_reads_are_tied()
    ensures begins { (head : SubmitHead) (tag : ℕ) (notify : Option SubmitHead) (older : List Packet) (next : ℕ) (ups : List up.Message) (downs : List Put) (s : State)
        → IsClass head (ReadStatus tag) → IsStatusTag tag → Fitting head → head.seqnum ≡ next → Quiet notify older next ups downs s
        → ReadsStatus (record { head = head; tag = tag; since = s.log; left = older }) true notify None older (next + 1) (ups ++ up.Submit head [] ∷ []) downs s }
    ensures notify { (head : SubmitHead) (read : StatusRead) (waits : Bool) (got : Option ℕ) (older : List Packet) (next : ℕ) (ups : List up.Message) (downs : List Put) (s : State)
        → IsNotify head → head.seqnum ≡ next → ReadsStatus read waits None got older next ups downs s
        → ReadsStatus read waits (Some head) got older (next + 1) (ups ++ up.Submit head [] ∷ []) downs s }
    ensures stays { (read : StatusRead) (waits : Bool) (notify : Option SubmitHead) (got : Option ℕ) (older : List Packet) (run : List Entry) (next : ℕ) (ups : List up.Message) (downs : List Put) (s t : State)
        → Runs s run t → StaysPlugged run → ReadsStatus read waits notify got older next (inputs run ++ ups) downs s
        → ReadsStatus read waits notify got older next ups (downs ++ outputs run) t }
    ensures until { (read : StatusRead) (waits : Bool) (notify : Option SubmitHead) (got : Option ℕ) (older : List Packet) (run : List Entry) (next : ℕ) (ups : List up.Message) (downs : List Put) (s t : State) → Runs s run t
        → Until (λ ups downs t. ReadsStatus read waits notify got older next ups downs t) (inputs run ++ ups) downs s
        → Until (λ ups downs t. ReadsStatus read waits notify got older next ups downs t) ups (downs ++ outputs run) t }
    ensures answer { (read : StatusRead) (waits : Bool) (notify : Option SubmitHead) (got : Option ℕ) (older : List Packet) (asked : SubmitHead) (answer : RetSubmitHead) (transferred : List ℕ) (next : ℕ) (ups : List up.Message) (downs : List Put) (s : State)
        → ReadsStatus read waits notify got older next ups (Submitted asked answer transferred ∷ downs) s
        → GivesStatus read waits notify got older asked answer transferred next ups downs s }
    ensures owned { (read : StatusRead) (waits : Bool) (notify : Option SubmitHead) (got : Option ℕ) (older : List Packet) (asked : SubmitHead) (answer : RetSubmitHead) (byte next : ℕ) (ups : List up.Message) (downs : List Put) (s : State)
        → asked.ep ≡ number_of InterruptIn → answer.status ≡ success → NoneTagged read.tag older
        → ReadsStatus read waits notify got older next ups (Submitted asked answer ((0x80 + read.tag) ∷ byte ∷ []) ∷ downs) s
        → OnePolled read.head.seqnum byte read.since s.log × ReadsStatus read waits None (Some byte) [] next ups downs s }
    ensures ends { (read : StatusRead) (notify : Option SubmitHead) (byte : ℕ) (older : List Packet) (next : ℕ) (ups : List up.Message) (downs : List Put) (s : State)
        → ReadsStatus read false notify (Some byte) older next ups downs s
        → OnePolled read.head.seqnum byte read.since s.log × Quiet notify [] next ups downs s }
    ensures left { (read : StatusRead) (notify : Option SubmitHead) (older : List Packet) (next : ℕ) (ups : List up.Message) (downs : List Put) (s : State)
        → ReadsStatus read false notify None older next ups downs s
        → (byte : ℕ) × OnePolled read.head.seqnum byte read.since s.log × Quiet notify (older ++ StatusPacket read.tag byte ∷ []) next ups downs s }
    ensures joined { (devid : ℕ) (read : StatusRead) (waits : Bool) (notify : Option SubmitHead) (got : Option ℕ) (older : List Packet) (next : ℕ) (written given : List ℕ) (steps more : List RunStep) (s t : State)
        → TellsPlugged devid s more t → IsFront (in_bytes (steps ++ more)) written
        → JointBy (λ ups downs t. ReadsStatus read waits notify got older next ups downs t) devid written given steps s
        → JointBy (λ ups downs t. ReadsStatus read waits notify got older next ups downs t) devid written given (steps ++ more) t }
{
    setups_have_one_meaning();
    pending_submits_are_sound();
    steps_act();
    runs_join();
    the_log_grows();
    headers_are_read_again();
    numbers_rise();
    answers_fit();
    halts_have_causes();
    a_step_logs_at_most_once();
    one_response();
    no_submit_is_refused();
    runs_take_in_messages();
    messages_are_refused_by_what_is_pending();
    urbs_are_determined();
}

/// Over a link, a host that is in no status read stays joined while the device goes on, and where it writes a submit to Interrupt-IN or
/// READ_STATUS_BYTE, in any spelling. What a host in a status read reads next is the first answer on its way, and no field of its bytes is bad.
pub fn status_reads_are_read()
    ensures begins { (devid : ℕ) (older : List Packet) (next : ℕ) (written given : List ℕ) (steps : List RunStep) (s : State) → statuses s.packets ≡ older
        → JointBy (λ ups downs t. Bound (Stands Resting) None [] next ups downs t) devid written given steps s
        → JointBy (λ ups downs t. Quiet None older next ups downs t) devid written given steps s }
    ensures goes_on { (devid : ℕ) (notify : Option SubmitHead) (older : List Packet) (next : ℕ) (written given : List ℕ) (steps more : List RunStep) (s t : State)
        → TellsPlugged devid s more t → IsFront (in_bytes (steps ++ more)) written
        → JointBy (λ ups downs t. Quiet notify older next ups downs t) devid written given steps s
        → JointBy (λ ups downs t. Quiet notify older next ups downs t) devid written given (steps ++ more) t }
    ensures notify { (devid : ℕ) (head : SubmitHead) (older : List Packet) (next : ℕ) (text written given : List ℕ) (steps : List RunStep) (s : State)
        → IsNotify head → head.seqnum ≡ next → up.Spells devid (up.Submit head []) text
        → JointBy (λ ups downs t. Quiet None older next ups downs t) devid written given steps s
        → JointBy (λ ups downs t. Quiet (Some head) older (next + 1) ups downs t) devid (written ++ text) given steps s }
    ensures written { (devid : ℕ) (head : SubmitHead) (tag : ℕ) (notify : Option SubmitHead) (older : List Packet) (next : ℕ) (text written given : List ℕ) (steps : List RunStep) (s : State)
        → IsClass head (ReadStatus tag) → IsStatusTag tag → Fitting head → head.seqnum ≡ next → up.Spells devid (up.Submit head []) text
        → JointBy (λ ups downs t. Quiet notify older next ups downs t) devid written given steps s
        → JointBy (λ ups downs t. ReadsStatus (record { head = head; tag = tag; since = s.log; left = older }) true notify None older (next + 1) ups downs t) devid (written ++ text) given steps s }
    ensures again { (devid : ℕ) (head : SubmitHead) (read : StatusRead) (waits : Bool) (got : Option ℕ) (older : List Packet) (next : ℕ) (text written given : List ℕ) (steps : List RunStep) (s : State)
        → IsNotify head → head.seqnum ≡ next → up.Spells devid (up.Submit head []) text
        → JointBy (λ ups downs t. ReadsStatus read waits None got older next ups downs t) devid written given steps s
        → JointBy (λ ups downs t. ReadsStatus read waits (Some head) got older (next + 1) ups downs t) devid (written ++ text) given steps s }
    ensures next { (devid : ℕ) (read : StatusRead) (waits : Bool) (notify : Option SubmitHead) (got : Option ℕ) (older : List Packet) (next : ℕ) (written given this more : List ℕ) (message : down.Message) (steps : List RunStep) (s : State)
        → JointBy (λ ups downs t. ReadsStatus read waits notify got older next ups downs t) devid written given steps s → out_bytes steps ≡ given ++ (this ++ more)
        → SpellsAnswer (entries_by (while waits read.head) notify) message this → IsNextOfRead read waits notify got older next devid message written given this steps s }
    ensures bad { (devid : ℕ) (read : StatusRead) (waits : Bool) (notify : Option SubmitHead) (got : Option ℕ) (older : List Packet) (next : ℕ) (written given rest more : List ℕ) (steps : List RunStep) (s : State) (f : Field)
        → JointBy (λ ups downs t. ReadsStatus read waits notify got older next ups downs t) devid written given steps s → out_bytes steps ≡ given ++ (rest ++ more)
        → BadAt Urbs (entries_by (while waits read.head) notify) rest f → ⊥ }
{
    packets_are_told();
    status_reads_are_tied();
    no_submit_is_refused();
    runs_join();
    runs_take_in_messages();
    messages_are_refused_by_what_is_pending();
    urbs_are_determined();
    answers_are_determined();
    bad_fields_are_alone();
    bad_fields_are_refused();
    bad_fields_stay();
}

/// A host may unlink a READ_STATUS_BYTE that is not answered. The two stay tied under each run of a device that is not unplugged, and until then under
/// any. If the answer to the request comes first, it is as without the unlink, and then the answer to the unlink has status 0. If the answer to
/// the unlink does, its status is -104: the status byte was not read for it, nor will be, and no packet comes of it. Packets and halts of Interrupt-IN
/// are told meanwhile as before.
pub fn status_reads_are_cancelled()
    ensures unlink { (read : StatusRead) (unlink : UnlinkHead) (notify : Option SubmitHead) (got : Option ℕ) (older : List Packet) (next : ℕ) (ups : List up.Message) (downs : List Put) (s : State)
        → unlink.target ≡ read.head.seqnum → ReadsStatus read true notify got older next ups downs s
        → CancelledRead read unlink true notify got older (next + 1) (ups ++ up.Unlink unlink ∷ []) downs s }
    ensures stays { (read : StatusRead) (unlink : UnlinkHead) (waits : Bool) (notify : Option SubmitHead) (got : Option ℕ) (older : List Packet) (run : List Entry) (next : ℕ) (ups : List up.Message) (downs : List Put) (s t : State)
        → Runs s run t → StaysPlugged run → CancelledRead read unlink waits notify got older next (inputs run ++ ups) downs s
        → CancelledRead read unlink waits notify got older next ups (downs ++ outputs run) t }
    ensures until { (read : StatusRead) (unlink : UnlinkHead) (waits : Bool) (notify : Option SubmitHead) (got : Option ℕ) (older : List Packet) (run : List Entry) (next : ℕ) (ups : List up.Message) (downs : List Put) (s t : State) → Runs s run t
        → Until (λ ups downs t. CancelledRead read unlink waits notify got older next ups downs t) (inputs run ++ ups) downs s
        → Until (λ ups downs t. CancelledRead read unlink waits notify got older next ups downs t) ups (downs ++ outputs run) t }
    ensures answer { (read : StatusRead) (unlink : UnlinkHead) (waits : Bool) (notify : Option SubmitHead) (got : Option ℕ) (older : List Packet) (asked : SubmitHead) (answer : RetSubmitHead) (transferred : List ℕ) (next : ℕ) (ups : List up.Message) (downs : List Put) (s : State)
        → CancelledRead read unlink waits notify got older next ups (Submitted asked answer transferred ∷ downs) s
        → GivesCancelled read unlink waits notify got older asked answer transferred next ups downs s }
    ensures over { (read : StatusRead) (unlink : UnlinkHead) (waits : Bool) (notify : Option SubmitHead) (got : Option ℕ) (older : List Packet) (asked : UnlinkHead) (answer : RetUnlinkHead) (next : ℕ) (ups : List up.Message) (downs : List Put) (s : State)
        → CancelledRead read unlink waits notify got older next ups (Unlinked asked answer ∷ downs) s
        → UnlinkOver read unlink waits notify got older answer next ups downs s }
    ensures late { (unlink : UnlinkHead) (notify : Option SubmitHead) (older : List Packet) (run : List Entry) (next : ℕ) (ups : List up.Message) (downs : List Put) (s t : State)
        → Runs s run t → StaysPlugged run → LateRead unlink notify older next (inputs run ++ ups) downs s → LateRead unlink notify older next ups (downs ++ outputs run) t }
    ensures late_answer { (unlink : UnlinkHead) (notify : Option SubmitHead) (older : List Packet) (asked : SubmitHead) (answer : RetSubmitHead) (transferred : List ℕ) (next : ℕ) (ups : List up.Message) (downs : List Put) (s : State)
        → LateRead unlink notify older next ups (Submitted asked answer transferred ∷ downs) s → GivesLate unlink notify older asked answer transferred next ups downs s }
    ensures late_over { (unlink : UnlinkHead) (notify : Option SubmitHead) (older : List Packet) (asked : UnlinkHead) (answer : RetUnlinkHead) (next : ℕ) (ups : List up.Message) (downs : List Put) (s : State)
        → LateRead unlink notify older next ups (Unlinked asked answer ∷ downs) s
        → (answer ≡ record { seqnum = unlink.seqnum; status = success }) × Quiet notify older next ups downs s }
{
    setups_have_one_meaning();
    pending_submits_are_sound();
    steps_act();
    runs_join();
    the_log_grows();
    headers_are_read_again();
    numbers_rise();
    answers_fit();
    halts_have_causes();
    a_step_logs_at_most_once();
    one_response();
}
