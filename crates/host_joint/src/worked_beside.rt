//! Example hosts that keep a submit to Interrupt-IN out. Each function does nothing.

ghost use Rattle.std.specs.Prelude.{◌≡◌, ℕ, Some, None, List, [], ◌∷◌, ◌++◌};
ghost use Rattle.usbip_wire.specs.Up as up;
ghost use Rattle.usbip_wire.specs.Down as down;
ghost use Rattle.tmc_law.specs.State.{State, Packet, StatusPacket, start};
ghost use Rattle.tmc_law.specs.Put.{Put, success, stalled};
ghost use Rattle.tmc_law.specs.Run.{Runs, SpellsPut};
ghost use Rattle.tmc_law.specs.WorkedSession.{devid, out_submit, notify_submit, answered};
ghost use Rattle.tmc_law.specs.WorkedParts.{spaces_text};
ghost use Rattle.tmc_law.specs.WorkedStatus.{status_log};
ghost use Rattle.tmc_law.specs.WorkedTold.{takes_in, puts_out};
ghost use Rattle.host_joint.specs.Hand.{Free};
ghost use Rattle.host_joint.specs.Bond.{Stands, Resting};
ghost use Rattle.host_joint.specs.StatusReads.{OnePolled};
ghost use Rattle.host_joint.specs.Beside.{HasAsk, HasRecovery, Beside, JoinedBeside, IsNextBeside};
ghost use Rattle.host_joint.specs.WorkedTies.{telling};
ghost use Rattle.host_joint.specs.WorkedStatusReads.{status_given};
ghost use Rattle.host_joint.specs.WorkedBeside.{both_come, both_pend, notice_halts, deafened};

use crate::{
    answers_are_the_expected, hosts_go_on_beside_notices, joints_begin, notices_are_joined,
    notices_are_kept_out, packets_are_told, recoveries_end, remote_tickets_are_read,
    remote_tickets_are_tied, status_reads_are_read, ties_begin, worked_packets_are_told,
    writes_keep_ties,
};

/// A host writes a submit to Interrupt-IN at power-on, and has nothing in hand beside it. One that took the answer to a READ_STATUS_BYTE begins something else, and the
/// packet that was left comes beside that. None is read where none was left.
pub fn worked_notices_are_kept_out()
    ensures begins { Beside (HasAsk Free None) (Some (notify_submit 0 8)) [] 1 (up.Submit (notify_submit 0 8) [] ∷ []) [] start }
    ensures left { (byte : ℕ) × OnePolled 2 byte [] status_log
        × Beside (HasRecovery (Stands Resting) None []) (Some (notify_submit 1 8)) (StatusPacket 5 byte ∷ []) 3 [] (answered (notify_submit 1 8) success 2 (0x85 ∷ 0x00 ∷ []) ∷ []) status_given }
    ensures came { Beside (HasRecovery (Stands Resting) None []) None [] 3 [] [] status_given }
    ensures mistaken { (byte next : ℕ) (ups : List up.Message) (downs : List Put) (s : State)
        → Beside (HasAsk Free None) (Some (notify_submit 0 8)) [] next ups (answered (notify_submit 0 8) success 2 (0x85 ∷ byte ∷ []) ∷ downs) s → ⊥ }
{
    ties_begin();
    remote_tickets_are_tied();
    packets_are_told();
    worked_packets_are_told();
    recoveries_end();
    notices_are_kept_out();
    hosts_go_on_beside_notices();
}

/// That host tells a message beside the submit: when it wrote the first transfer, and when both came. Where Interrupt-IN halts instead, the answer tells of it, and the host
/// stands at rest. A host whose transfer is not answered reads no packet with a status byte where none was left.
pub fn worked_hosts_go_on_beside_notices()
    ensures written { Beside (HasAsk telling (Some (out_submit 1 112))) (Some (notify_submit 0 8)) [] 2 (up.Submit (notify_submit 0 8) [] ∷ up.Submit (out_submit 1 112) spaces_text ∷ []) [] start }
    ensures came { Runs start both_come both_pend × Beside (HasAsk telling (Some (out_submit 1 112))) (Some (notify_submit 0 8)) [] 2 [] [] both_pend }
    ensures halted { Runs start notice_halts deafened
        × Beside (HasRecovery (Stands Resting) None []) (Some (notify_submit 0 8)) [] 1 [] (answered (notify_submit 0 8) stalled 0 [] ∷ []) deafened
        × Beside (HasRecovery (Stands Resting) None []) None [] 1 [] [] deafened }
    ensures mistaken { (byte next : ℕ) (ups : List up.Message) (downs : List Put) (s : State)
        → Beside (HasAsk telling (Some (out_submit 1 112))) (Some (notify_submit 0 8)) [] next ups (answered (notify_submit 0 8) success 2 (0x85 ∷ byte ∷ []) ∷ downs) s → ⊥ }
{
    ties_begin();
    remote_tickets_are_tied();
    packets_are_told();
    writes_keep_ties();
    answers_are_the_expected();
    notices_are_kept_out();
    hosts_go_on_beside_notices();
    worked_notices_are_kept_out();
}

/// The same over a link: a host that writes the two at power-on is joined to its device, whatever bytes spell them. Where the link told that the device took in the submit to
/// Interrupt-IN alone, and that this endpoint halted, the host reads that next. None reads a packet with a status byte where none was left.
pub fn worked_notices_are_joined()
    ensures written { (text more : List ℕ) → up.Spells devid (up.Submit (notify_submit 0 8) []) text → up.Spells devid (up.Submit (out_submit 1 112) spaces_text) more
        → JoinedBeside (HasAsk telling (Some (out_submit 1 112))) (Some (notify_submit 0 8)) [] 2 devid (text ++ more) [] [] start }
    ensures next { (text bytes : List ℕ) → up.Spells devid (up.Submit (notify_submit 0 8) []) text → SpellsPut (answered (notify_submit 0 8) stalled 0 []) bytes
        → IsNextBeside (HasRecovery (Stands Resting) None []) (Some (notify_submit 0 8)) [] 1 devid (down.RetSubmit (record { seqnum = 0; status = stalled; actual = 0 }) [])
        text [] bytes (takes_in text ∷ puts_out bytes ∷ []) deafened }
    ensures mistaken { (text bytes : List ℕ) (byte : ℕ) (s : State) → SpellsPut (answered (notify_submit 0 8) success 2 (0x85 ∷ byte ∷ [])) bytes
        → JoinedBeside (HasAsk telling (Some (out_submit 1 112))) (Some (notify_submit 0 8)) [] 2 devid text [] (puts_out bytes ∷ []) s → ⊥ }
{
    joints_begin();
    remote_tickets_are_read();
    status_reads_are_read();
    writes_keep_ties();
    answers_are_the_expected();
    recoveries_end();
    notices_are_joined();
}
