//! A status read in any of its situations, also cancelled: until the device is unplugged, and over a link. Each function does nothing, and its contract is the law.

ghost use Rattle.std.specs.Prelude.{◌≡◌, ℕ, Option, List, [], ◌∷◌, ◌++◌};
ghost use Rattle.tmc_base.specs.declared.field.Field.{Field};
ghost use Rattle.tmc_base.specs.declared.run_step.RunStep.{RunStep};
ghost use Rattle.tmc_base.specs.Told.{in_bytes, out_bytes, IsFront};
ghost use Rattle.usbip_wire.specs.declared.submit.SubmitHead.{SubmitHead};
ghost use Rattle.usbip_wire.specs.declared.down.DownPhase.TheVariants.{Urbs};
ghost use Rattle.usbip_wire.specs.Up as up;
ghost use Rattle.usbip_wire.specs.Down as down;
ghost use Rattle.usbip_wire.specs.Down.{SpellsAnswer};
ghost use Rattle.usbip_wire.specs.DownFed.{BadAt};
ghost use Rattle.tmc_law.specs.State.{State, Packet};
ghost use Rattle.tmc_law.specs.Put.{Put};
ghost use Rattle.tmc_law.specs.Run.{Entry, Runs, inputs, outputs};
ghost use Rattle.tmc_law.specs.Told.{Tells};
ghost use Rattle.host_joint.specs.Asking.{StaysPlugged};
ghost use Rattle.host_joint.specs.Joint.{JointBy};
ghost use Rattle.host_joint.specs.Unplugged.{Until, NextBoth};
ghost use Rattle.host_joint.specs.Beside.{AreAllApart};
ghost use Rattle.host_joint.specs.StatusTickets.{StatusTicket, StatusHolds, request_for, unlinks_of_read, entries_with, StatusJoined, IsNextOfStatus};

use crate::{
    no_submit_is_refused, packets_are_told, status_reads_are_cancelled, status_reads_are_tied,
};
use tmc_law::laws::{messages_are_refused_by_what_is_pending, runs_join, runs_take_in_messages};
use usbip_wire::{
    answers_are_determined, bad_fields_are_alone, bad_fields_are_refused, bad_fields_stay,
    urbs_are_determined,
};

/// Whether a status read is under way, cancelled, or none is: what ties a host to the device is held under each run of one that is not unplugged, and until
/// then under any. The first answer on its way is one to a host that is tied; or it tells of the unplugging by its status, -108: of the request
/// first, and of the submit to Interrupt-IN last.
pub fn status_tickets_are_held()
    ensures stays { (ticket : StatusTicket) (notify : Option SubmitHead) (older : List Packet) (run : List Entry) (next : ℕ) (ups : List up.Message) (downs : List Put) (s t : State)
        → Runs s run t → StaysPlugged run → StatusHolds ticket notify older next (inputs run ++ ups) downs s → StatusHolds ticket notify older next ups (downs ++ outputs run) t }
    ensures until { (ticket : StatusTicket) (notify : Option SubmitHead) (older : List Packet) (run : List Entry) (next : ℕ) (ups : List up.Message) (downs : List Put) (s t : State)
        → Runs s run t → Until (λ ups downs t. StatusHolds ticket notify older next ups downs t) (inputs run ++ ups) downs s
        → Until (λ ups downs t. StatusHolds ticket notify older next ups downs t) ups (downs ++ outputs run) t }
    ensures next { (ticket : StatusTicket) (notify : Option SubmitHead) (older : List Packet) (next : ℕ) (put : Put) (ups : List up.Message) (downs : List Put) (t : State)
        → Until (λ ups downs t. StatusHolds ticket notify older next ups downs t) ups (put ∷ downs) t
        → NextBoth (λ ups downs t. StatusHolds ticket notify older next ups downs t) (request_for ticket) notify put ups downs t }
{
    packets_are_told();
    status_reads_are_tied();
    status_reads_are_cancelled();
    runs_join();
}

/// Over a link that tells its bytes and the steps of its peer such a host is held while the device goes on, and where it writes a message, as READ_STATUS_BYTE, its unlink or a
/// submit to Interrupt-IN; and what it reads next is the first answer on its way, of which no field is bad.
pub fn status_tickets_are_read()
    ensures begins { (ticket : StatusTicket) (notify : Option SubmitHead) (older : List Packet) (next devid : ℕ) (written read : List ℕ) (steps : List RunStep) (s : State)
        → JointBy (λ ups downs t. StatusHolds ticket notify older next ups downs t) devid written read steps s → StatusJoined ticket notify older next devid written read steps s }
    ensures stays { (ticket : StatusTicket) (notify : Option SubmitHead) (older : List Packet) (next devid : ℕ) (written read : List ℕ) (steps more : List RunStep) (s t : State)
        → Tells devid s more t → IsFront (in_bytes (steps ++ more)) written
        → StatusJoined ticket notify older next devid written read steps s → StatusJoined ticket notify older next devid written read (steps ++ more) t }
    ensures writes { (ticket later : StatusTicket) (notify left : Option SubmitHead) (older others : List Packet) (next after devid : ℕ) (message : up.Message) (text written read : List ℕ) (steps : List RunStep) (s : State)
        → up.Spells devid message text
        → ((ups : List up.Message) (downs : List Put) (s : State) → StatusHolds ticket notify older next ups downs s → StatusHolds later left others after (ups ++ message ∷ []) downs s)
        → StatusJoined ticket notify older next devid written read steps s → StatusJoined later left others after devid (written ++ text) read steps s }
    ensures next { (ticket : StatusTicket) (notify : Option SubmitHead) (older : List Packet) (next devid : ℕ) (written read this more : List ℕ) (message : down.Message) (steps : List RunStep) (s : State)
        → AreAllApart (request_for ticket) notify (unlinks_of_read ticket) → StatusJoined ticket notify older next devid written read steps s → out_bytes steps ≡ read ++ (this ++ more)
        → SpellsAnswer (entries_with ticket notify) message this → IsNextOfStatus ticket notify older next devid message written read this steps s }
    ensures bad { (ticket : StatusTicket) (notify : Option SubmitHead) (older : List Packet) (next devid : ℕ) (written read rest more : List ℕ) (steps : List RunStep) (s : State) (f : Field)
        → AreAllApart (request_for ticket) notify (unlinks_of_read ticket) → StatusJoined ticket notify older next devid written read steps s → out_bytes steps ≡ read ++ (rest ++ more)
        → BadAt Urbs (entries_with ticket notify) rest f → ⊥ }
{
    status_tickets_are_held();
    no_submit_is_refused();
    runs_join();
    runs_take_in_messages();
    messages_are_refused_by_what_is_pending();
    urbs_are_determined();
    answers_are_determined();
    bad_fields_are_alone();
    bad_fields_are_refused();
    bad_fields_stay();
}
