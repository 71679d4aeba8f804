//! The example remote ticket and the example trigger, unlinked. Each function does nothing.

ghost use Rattle.std.specs.Prelude.{◌≡◌, ℕ, true, Some, None, List, [], ◌∷◌, ◌++◌, take};
ghost use Rattle.tmc_base.specs.declared.field.Field.{Field};
ghost use Rattle.usbip_wire.specs.declared.down.DownPhase.TheVariants.{Urbs};
ghost use Rattle.usbip_wire.specs.DownFed.{BadAt};
ghost use Rattle.usbip_wire.specs.Up as up;
ghost use Rattle.usbip_wire.specs.Down as down;
ghost use Rattle.instr_plain.specs.declared.log.LogEntry.{LogEntry};
ghost use Rattle.instr_plain.specs.declared.remote.RemoteAct.TheVariants.{On};
ghost use Rattle.tmc_law.specs.State.{State, start};
ghost use Rattle.tmc_law.specs.Put.{Put, Unlinked, success, unlinked, unplugged};
ghost use Rattle.tmc_law.specs.Run.{Runs, SpellsPut};
ghost use Rattle.tmc_law.specs.WorkedSession.{devid, out_submit, unlink, answered};
ghost use Rattle.tmc_law.specs.WorkedTold.{takes_in, puts_out};
ghost use Rattle.tmc_law.specs.WorkedRemote.{remote_submit, operating};
ghost use Rattle.tmc_law.specs.WorkedTrigger.{trigger_text, triggering, trigger_log};
ghost use Rattle.host_joint.specs.Bond.{Stands, Resting, Bound};
ghost use Rattle.host_joint.specs.Joint.{entries_of};
ghost use Rattle.host_joint.specs.Remotes.{OneSince, NoneSince};
ghost use Rattle.host_joint.specs.Triggers.{OneTrigger};
ghost use Rattle.host_joint.specs.Races.{CancelledAct, LateAct, CancelledTrigger, LateTrigger, ActRaces, TriggerRaces, TicketHolds, NextHeld, TicketJoined, IsNextOfTicket};
ghost use Rattle.host_joint.specs.WorkedRemotes.{unplugged_remote};
ghost use Rattle.host_joint.specs.WorkedTriggers.{trigger_job, triggered, unplugged_trigger};
ghost use Rattle.host_joint.specs.WorkedRaces.{stopping_remote, stopping_trigger, missing_trigger};

use crate::{
    joints_begin, remote_tickets_are_cancelled, remote_tickets_are_read, tickets_are_held,
    tickets_are_read, trigger_tickets_are_cancelled, trigger_tickets_are_read,
    worked_remote_tickets_are_read, worked_remote_tickets_are_tied,
    worked_trigger_tickets_are_tied,
};
use tmc_law::laws::runs_join;
use tmc_law::worked::{a_remote_act_is_logged, a_trigger_is_counted};

/// A host that writes REN_CONTROL at power-on and unlinks it: where the unlink finds it pending nothing was logged, and the host stands at rest; where it was
/// answered before, its act was logged, and the unlink is late; where the device is unplugged before, the host is told that. No host reads a miss
/// while its request is not answered.
pub fn worked_remote_tickets_are_cancelled()
    ensures unlinked { CancelledAct On [] remote_submit (unlink 2 1) 3 (up.Submit remote_submit [] ∷ up.Unlink (unlink 2 1) ∷ []) [] start }
    ensures hit { Runs start stopping_remote start × NoneSince [] [] × Bound (Stands Resting) None [] 3 [] [] start }
    ensures answered { (s : State) × Runs start (take 2 operating) s × OneSince On [] s.log × LateAct On [] (unlink 2 1) 3 (up.Unlink (unlink 2 1) ∷ []) [] s }
    ensures unplugged { NextHeld (λ ups downs t. TicketHolds (ActRaces On [] remote_submit (unlink 2 1)) 3 ups downs t) (Some remote_submit) (answered remote_submit unplugged 0 [])
        (up.Unlink (unlink 2 1) ∷ []) [] unplugged_remote }
    ensures mistaken { (since : List LogEntry) (next : ℕ) (ups : List up.Message) (downs : List Put) (s : State)
        → CancelledAct On since remote_submit (unlink 2 1) next ups (Unlinked (unlink 2 1) (record { seqnum = 2; status = success }) ∷ downs) s → ⊥ }
{
    worked_remote_tickets_are_tied();
    remote_tickets_are_cancelled();
    tickets_are_held();
    runs_join();
    a_remote_act_is_logged();
}

/// One that writes a trigger at power-on and unlinks it: where the unlink finds it pending nothing was counted; where it was taken before it was counted,
/// and the answer to the unlink says that it missed; where the device is unplugged before, the host is told that. No host reads a hit once its
/// trigger was answered.
pub fn worked_trigger_tickets_are_cancelled()
    ensures unlinked { CancelledTrigger trigger_job (unlink 2 1) 3 (up.Submit (out_submit 1 12) trigger_text ∷ up.Unlink (unlink 2 1) ∷ []) [] start }
    ensures hit { Runs start stopping_trigger start × Bound (Stands Resting) None [] 3 [] [] start }
    ensures missed { Runs start (triggering ++ missing_trigger) triggered × OneTrigger 1 trigger_log × Bound (Stands Resting) None [] 3 [] [] triggered }
    ensures unplugged { NextHeld (λ ups downs t. TicketHolds (TriggerRaces trigger_job (unlink 2 1)) 3 ups downs t) (Some (out_submit 1 12)) (answered (out_submit 1 12) unplugged 0 [])
        (up.Unlink (unlink 2 1) ∷ []) [] unplugged_trigger }
    ensures mistaken { (next : ℕ) (ups : List up.Message) (downs : List Put) (s : State)
        → LateTrigger true 1 (unlink 2 1) next ups (Unlinked (unlink 2 1) (record { seqnum = 2; status = unlinked }) ∷ downs) s → ⊥ }
{
    worked_trigger_tickets_are_tied();
    trigger_tickets_are_cancelled();
    tickets_are_held();
    runs_join();
    a_trigger_is_counted();
}

/// Both over a link, whatever bytes spell the messages: from where the unlink is written, the host reads next that it hit, where the link told so. No host
/// reads a miss while its request is not answered.
pub fn worked_tickets_are_read()
    ensures act { (text more : List ℕ) → up.Spells devid (up.Submit remote_submit []) text → up.Spells devid (up.Unlink (unlink 2 1)) more
        → TicketJoined (ActRaces On [] remote_submit (unlink 2 1)) 3 devid (text ++ more) [] [] start }
    ensures act_hit { (text more bytes : List ℕ) → up.Spells devid (up.Submit remote_submit []) text → up.Spells devid (up.Unlink (unlink 2 1)) more
        → SpellsPut (Unlinked (unlink 2 1) (record { seqnum = 2; status = unlinked })) bytes
        → IsNextOfTicket (ActRaces On [] remote_submit (unlink 2 1)) 3 devid (down.RetUnlink (record { seqnum = 2; status = unlinked })) (text ++ more) [] bytes
        (takes_in text ∷ record { took = more; put = bytes } ∷ []) start }
    ensures trigger_hit { (text more bytes : List ℕ) → up.Spells devid (up.Submit (out_submit 1 12) trigger_text) text → up.Spells devid (up.Unlink (unlink 2 1)) more
        → SpellsPut (Unlinked (unlink 2 1) (record { seqnum = 2; status = unlinked })) bytes
        → IsNextOfTicket (TriggerRaces trigger_job (unlink 2 1)) 3 devid (down.RetUnlink (record { seqnum = 2; status = unlinked })) (text ++ more) [] bytes
        (takes_in text ∷ record { took = more; put = bytes } ∷ []) start }
    ensures fine { (text more bytes rest later : List ℕ) (f : Field) → up.Spells devid (up.Submit remote_submit []) text → up.Spells devid (up.Unlink (unlink 2 1)) more
        → SpellsPut (Unlinked (unlink 2 1) (record { seqnum = 2; status = unlinked })) bytes → bytes ≡ rest ++ later
        → BadAt Urbs (entries_of (Some remote_submit) (unlink 2 1 ∷ [])) rest f → ⊥ }
    ensures mistaken { (written bytes : List ℕ) (s : State) → SpellsPut (Unlinked (unlink 2 1) (record { seqnum = 2; status = success })) bytes
        → TicketJoined (ActRaces On [] remote_submit (unlink 2 1)) 3 devid written [] (puts_out bytes ∷ []) s → ⊥ }
{
    worked_remote_tickets_are_read();
    joints_begin();
    remote_tickets_are_read();
    trigger_tickets_are_read();
    remote_tickets_are_cancelled();
    trigger_tickets_are_cancelled();
    tickets_are_read();
}
