//! Example trigger tickets. Each function does nothing.

ghost use Rattle.std.specs.Prelude.{◌≡◌, ℕ, List, [], ◌∷◌, ◌++◌, Some, None};
ghost use Rattle.tmc_base.specs.declared.field.Field.{Field};
ghost use Rattle.usbip_wire.specs.declared.down.DownPhase.TheVariants.{Urbs};
ghost use Rattle.usbip_wire.specs.DownFed.{BadAt};
ghost use Rattle.usbip_wire.specs.Up as up;
ghost use Rattle.usbip_wire.specs.Down as down;
ghost use Rattle.tmc_law.specs.State.{start};
ghost use Rattle.tmc_law.specs.Put.{success, stalled, unplugged};
ghost use Rattle.tmc_law.specs.Run.{Runs, SpellsPut};
ghost use Rattle.tmc_law.specs.WorkedSession.{devid, out_submit, answered};
ghost use Rattle.tmc_law.specs.WorkedTold.{takes_in, puts_out};
ghost use Rattle.tmc_law.specs.WorkedTrigger.{trigger_text, trigger_log};
ghost use Rattle.host_joint.specs.Bond.{Stands, Resting, Bound};
ghost use Rattle.host_joint.specs.Joint.{JointBy, entries_for};
ghost use Rattle.host_joint.specs.Next.{IsNextIn};
ghost use Rattle.host_joint.specs.Triggers.{NoTrigger, OneTrigger, Triggering};
ghost use Rattle.host_joint.specs.Unplugged.{Until};
ghost use Rattle.host_joint.specs.WorkedTriggers.{trigger_job, triggered, shutting, shut, unplugging_trigger, unplugged_trigger};

use crate::{
    joints_begin, remote_tickets_are_read, remote_tickets_are_tied, ties_begin,
    trigger_tickets_are_read, trigger_tickets_are_tied,
};
use tmc_law::laws::runs_join;
use tmc_law::worked::a_trigger_is_counted;

/// A host that writes a trigger at power-on is tied; when it was answered, the instrument was triggered under its number exactly once. Where
/// Bulk-OUT halts before, its answer says so, and the instrument was not triggered.
pub fn worked_trigger_tickets_are_tied()
    ensures begins { Triggering trigger_job 2 (up.Submit (out_submit 1 12) trigger_text ∷ []) [] start }
    ensures answered { OneTrigger 1 trigger_log }
    ensures halted { Runs start shutting shut × NoTrigger 1 shut.log × Bound (Stands Resting) None [] 2 [] [] shut }
    ensures mistaken { OneTrigger 1 shut.log → ⊥ }
{
    ties_begin();
    remote_tickets_are_tied();
    trigger_tickets_are_tied();
    a_trigger_is_counted();
}

/// The same over a link: a host that writes a trigger at power-on is joined to its device, whatever bytes spell it. When the link told that
/// the device took it in and put out the answer, the host reads that next, and no field of it is bad; so it reads that Bulk-OUT is halted. Where the device is
/// unplugged, it was tied until then. At a device whose Bulk-OUT halted before, no host reads that its trigger was taken.
pub fn worked_trigger_tickets_are_read()
    ensures written { (text : List ℕ) → up.Spells devid (up.Submit (out_submit 1 12) trigger_text) text
        → JointBy (λ ups downs t. Triggering trigger_job 2 ups downs t) devid text [] [] start }
    ensures taken { (text bytes : List ℕ) → up.Spells devid (up.Submit (out_submit 1 12) trigger_text) text
        → SpellsPut (answered (out_submit 1 12) success 12 []) bytes
        → IsNextIn (λ ups downs t. Triggering trigger_job 2 ups downs t) devid (down.RetSubmit (record { seqnum = 1; status = success; actual = 12 }) []) 2 text [] bytes
        (takes_in text ∷ puts_out bytes ∷ []) triggered }
    ensures halted { (text bytes : List ℕ) → up.Spells devid (up.Submit (out_submit 1 12) trigger_text) text
        → SpellsPut (answered (out_submit 1 12) stalled 0 []) bytes
        → IsNextIn (λ ups downs t. Triggering trigger_job 2 ups downs t) devid (down.RetSubmit (record { seqnum = 1; status = stalled; actual = 0 }) []) 2 text [] bytes
        (takes_in text ∷ puts_out bytes ∷ []) shut }
    ensures fine { (text bytes rest more : List ℕ) (f : Field) → up.Spells devid (up.Submit (out_submit 1 12) trigger_text) text
        → SpellsPut (answered (out_submit 1 12) success 12 []) bytes → bytes ≡ rest ++ more → BadAt Urbs (entries_for (Some (out_submit 1 12))) rest f → ⊥ }
    ensures until { Runs start unplugging_trigger unplugged_trigger
        × Until (λ ups downs t. Triggering trigger_job 2 ups downs t) [] (answered (out_submit 1 12) unplugged 0 [] ∷ []) unplugged_trigger }
    ensures mistaken { (text bytes : List ℕ) → SpellsPut (answered (out_submit 1 12) success 12 []) bytes
        → JointBy (λ ups downs t. Triggering trigger_job 2 ups downs t) devid text [] (puts_out bytes ∷ []) shut → ⊥ }
{
    ties_begin();
    joints_begin();
    remote_tickets_are_tied();
    remote_tickets_are_read();
    trigger_tickets_are_tied();
    trigger_tickets_are_read();
    runs_join();
    a_trigger_is_counted();
}
