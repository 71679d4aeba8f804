//! An example remote ticket. Each function does nothing.

ghost use Rattle.std.specs.Prelude.{◌≡◌, ℕ, List, [], ◌∷◌, ◌++◌, take, Some, None};
ghost use Rattle.tmc_base.specs.declared.field.Field.{Field};
ghost use Rattle.usbip_wire.specs.declared.down.DownPhase.TheVariants.{Urbs};
ghost use Rattle.usbip_wire.specs.DownFed.{BadAt};
ghost use Rattle.usbip_wire.specs.Up as up;
ghost use Rattle.usbip_wire.specs.Down as down;
ghost use Rattle.instr_plain.specs.declared.log.LogEntry.{LogEntry};
ghost use Rattle.instr_plain.specs.declared.remote.RemoteAct.TheVariants.{On, GoLocal};
ghost use Rattle.tmc_law.specs.State.{State, start};
ghost use Rattle.tmc_law.specs.Put.{Put, success, stalled, unplugged};
ghost use Rattle.tmc_law.specs.Run.{Runs, SpellsPut};
ghost use Rattle.tmc_law.specs.WorkedRemote.{remote_submit, operating};
ghost use Rattle.tmc_law.specs.WorkedSession.{devid, answered};
ghost use Rattle.tmc_law.specs.WorkedTold.{takes_in, puts_out};
ghost use Rattle.host_joint.specs.Bond.{Stands, Resting, Bound};
ghost use Rattle.host_joint.specs.Joint.{JointBy, Joined, entries_for};
ghost use Rattle.host_joint.specs.Next.{IsNextIn};
ghost use Rattle.host_joint.specs.Remotes.{OneSince, Operating};
ghost use Rattle.host_joint.specs.Unplugged.{Until};
ghost use Rattle.host_joint.specs.WorkedRecoveries.{halted_inside};
ghost use Rattle.host_joint.specs.WorkedRemotes.{ren_submit, unplugging_remote, unplugged_remote};

use crate::{
    joints_begin, remote_tickets_are_read, remote_tickets_are_tied, ties_begin,
    worked_halts_are_recovered,
};
use tmc_law::laws::runs_join;
use tmc_law::worked::a_remote_act_is_logged;

/// A host that writes REN_CONTROL at power-on is tied; when it was answered, that act was logged since, and no other. A host that takes
/// this request for one that returns the instrument to local is tied to no device.
pub fn worked_remote_tickets_are_tied()
    ensures begins { Operating On [] remote_submit 2 (up.Submit remote_submit [] ∷ []) [] start }
    ensures answered { (s : State) × Runs start (take 2 operating) s × OneSince On [] s.log × Bound (Stands Resting) None [] 2 [] [] s }
    ensures mistaken { (since : List LogEntry) (next : ℕ) (ups : List up.Message) (downs : List Put) (s : State)
        → Operating GoLocal since remote_submit next ups downs s → ⊥ }
{
    ties_begin();
    remote_tickets_are_tied();
    runs_join();
    a_remote_act_is_logged();
}

/// The same over a link: a host that writes REN_CONTROL at power-on is joined to its device, whatever bytes spell it. When the link told that
/// the device took it in and put out the answer, the host reads that next, no field of it is bad, and behind it the host stands at rest. So it is joined
/// where Bulk-IN halted in the middle of a piece; and where the device is unplugged, it was tied until then. No host reads a halt as the
/// answer to its request.
pub fn worked_remote_tickets_are_read()
    ensures written { (text : List ℕ) → up.Spells devid (up.Submit remote_submit []) text
        → JointBy (λ ups downs t. Operating On [] remote_submit 2 ups downs t) devid text [] [] start }
    ensures next { (text bytes : List ℕ) → up.Spells devid (up.Submit remote_submit []) text → SpellsPut (answered remote_submit success 1 (0x01 ∷ [])) bytes
        → (s : State) × Runs start (take 2 operating) s
        × IsNextIn (λ ups downs t. Operating On [] remote_submit 2 ups downs t) devid (down.RetSubmit (record { seqnum = 1; status = success; actual = 1 }) (0x01 ∷ [])) 2 text [] bytes
        (takes_in text ∷ puts_out bytes ∷ []) s }
    ensures fine { (text bytes rest more : List ℕ) (f : Field) → up.Spells devid (up.Submit remote_submit []) text
        → SpellsPut (answered remote_submit success 1 (0x01 ∷ [])) bytes → bytes ≡ rest ++ more → BadAt Urbs (entries_for (Some remote_submit)) rest f → ⊥ }
    ensures halted { (text : List ℕ) → up.Spells devid (up.Submit (ren_submit 8) []) text → Joined devid (Stands Resting) None [] 8 [] [] [] halted_inside
        × JointBy (λ ups downs t. Operating On halted_inside.log (ren_submit 8) 9 ups downs t) devid text [] [] halted_inside }
    ensures until { Runs start unplugging_remote unplugged_remote
        × Until (λ ups downs t. Operating On [] remote_submit 2 ups downs t) [] (answered remote_submit unplugged 0 [] ∷ []) unplugged_remote }
    ensures mistaken { (text bytes : List ℕ) (s : State) → SpellsPut (answered remote_submit stalled 0 []) bytes
        → JointBy (λ ups downs t. Operating On [] remote_submit 2 ups downs t) devid text [] (puts_out bytes ∷ []) s → ⊥ }
{
    ties_begin();
    joints_begin();
    remote_tickets_are_tied();
    remote_tickets_are_read();
    runs_join();
    a_remote_act_is_logged();
    worked_halts_are_recovered();
}
