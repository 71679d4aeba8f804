//! Example status reads that are cancelled, or whose device is unplugged. Each function does nothing.

ghost use Rattle.std.specs.Prelude.{◌≡◌, ℕ, true, Some, None, List, [], ◌∷◌, ◌++◌};
ghost use Rattle.tmc_base.specs.declared.run_step.RunStep.{RunStep};
ghost use Rattle.usbip_wire.specs.Up as up;
ghost use Rattle.usbip_wire.specs.Down as down;
ghost use Rattle.tmc_law.specs.State.{State, start};
ghost use Rattle.tmc_law.specs.Put.{Put, Unlinked, success, unlinked, unplugged};
ghost use Rattle.tmc_law.specs.Run.{Runs, SpellsPut};
ghost use Rattle.tmc_law.specs.WorkedSession.{devid, notify_submit, unlink, answered};
ghost use Rattle.tmc_law.specs.WorkedStatus.{status_submit};
ghost use Rattle.tmc_law.specs.WorkedTold.{takes_in, puts_out};
ghost use Rattle.host_joint.specs.Unplugged.{Until, NextBoth};
ghost use Rattle.host_joint.specs.WorkedStatusReads.{first_read, stopping_status, stopped_status, unplugging_status, unplugged_status};
ghost use Rattle.host_joint.specs.StatusTickets.{HasRead, StopsRead, StatusHolds, StatusJoined, IsNextOfStatus};

use crate::{
    status_reads_are_cancelled, status_tickets_are_held, status_tickets_are_read,
    worked_status_reads_are_cancelled, worked_status_reads_are_read, worked_status_reads_are_tied,
};

/// The device is unplugged while READ_STATUS_BYTE and a submit to Interrupt-IN are pending: the host was in a status read until then, and the answer to the
/// request tells of it first. Where the request was unlinked before, the host is tied. None is told in the other order.
pub fn worked_status_tickets_are_held()
    ensures unplugged { Runs start unplugging_status unplugged_status
        × Until (λ ups downs t. StatusHolds (HasRead first_read true None) (Some (notify_submit 1 8)) [] 3 ups downs t) [] (answered status_submit unplugged 0 [] ∷ answered (notify_submit 1 8) unplugged 0 [] ∷ []) unplugged_status }
    ensures told { NextBoth (λ ups downs t. StatusHolds (HasRead first_read true None) (Some (notify_submit 1 8)) [] 3 ups downs t) (Some status_submit) (Some (notify_submit 1 8))
        (answered status_submit unplugged 0 []) [] (answered (notify_submit 1 8) unplugged 0 [] ∷ []) unplugged_status }
    ensures stopped { Until (λ ups downs t. StatusHolds (StopsRead first_read (unlink 3 2) true None) (Some (notify_submit 1 8)) [] 4 ups downs t) []
        (Unlinked (unlink 3 2) (record { seqnum = 3; status = unlinked }) ∷ []) stopped_status }
    ensures mistaken { (s : State) → Until (λ ups downs t. StatusHolds (HasRead first_read true None) (Some (notify_submit 1 8)) [] 3 ups downs t) []
        (answered (notify_submit 1 8) unplugged 0 [] ∷ answered status_submit unplugged 0 [] ∷ []) s → ⊥ }
{
    status_tickets_are_held();
    worked_status_reads_are_tied();
    worked_status_reads_are_cancelled();
}

/// The same over a link: a host that writes the two submits and the unlink at power-on is joined to its device, whatever bytes spell them. Where the link told that the
/// device took them in and put out that the unlink hit, the host reads that next. None reads a miss while its request is not answered.
pub fn worked_status_tickets_are_read()
    ensures written { (text more last : List ℕ) → up.Spells devid (up.Submit (notify_submit 1 8) []) text → up.Spells devid (up.Submit status_submit []) more → up.Spells devid (up.Unlink (unlink 3 2)) last
        → StatusJoined (StopsRead first_read (unlink 3 2) true None) (Some (notify_submit 1 8)) [] 4 devid ((text ++ more) ++ last) [] [] start }
    ensures next { (text more last bytes : List ℕ) → up.Spells devid (up.Submit (notify_submit 1 8) []) text → up.Spells devid (up.Submit status_submit []) more → up.Spells devid (up.Unlink (unlink 3 2)) last
        → SpellsPut (Unlinked (unlink 3 2) (record { seqnum = 3; status = unlinked })) bytes
        → IsNextOfStatus (StopsRead first_read (unlink 3 2) true None) (Some (notify_submit 1 8)) [] 4 devid (down.RetUnlink (record { seqnum = 3; status = unlinked })) ((text ++ more) ++ last) [] bytes
        (takes_in text ∷ takes_in more ∷ record { took = last; put = bytes } ∷ []) stopped_status }
    ensures mistaken { (text bytes : List ℕ) (s : State) → SpellsPut (Unlinked (unlink 3 2) (record { seqnum = 3; status = success })) bytes
        → StatusJoined (StopsRead first_read (unlink 3 2) true None) (Some (notify_submit 1 8)) [] 4 devid text [] (puts_out bytes ∷ []) s → ⊥ }
{
    status_reads_are_cancelled();
    status_tickets_are_read();
    worked_status_reads_are_read();
}
