//! An example status read. Each function does nothing.

ghost use Rattle.std.specs.Prelude.{ℕ, true, false, Some, None, List, [], ◌∷◌, ◌++◌, take};
ghost use Rattle.usbip_wire.specs.Up as up;
ghost use Rattle.usbip_wire.specs.Down as down;
ghost use Rattle.tmc_law.specs.State.{State, StatusPacket, start};
ghost use Rattle.tmc_law.specs.Put.{Put, Unlinked, success};
ghost use Rattle.tmc_law.specs.Run.{Runs, SpellsPut};
ghost use Rattle.tmc_law.specs.WorkedSession.{devid, notify_submit, unlink, answered};
ghost use Rattle.tmc_law.specs.WorkedTold.{takes_in, puts_out};
ghost use Rattle.host_joint.specs.Joint.{JointBy};
ghost use Rattle.tmc_law.specs.WorkedStatus.{status_submit, status_asked, answer_first, packet_first, unlink_behind_poll, status_log};
ghost use Rattle.host_joint.specs.Bond.{Stands, Resting, Bound};
ghost use Rattle.host_joint.specs.StatusReads.{NonePolled, OnePolled, Quiet, ReadsStatus, IsNextOfRead, CancelledRead};
ghost use Rattle.host_joint.specs.WorkedStatusReads.{first_read, both_sent, status_given, stopping_status, stopped_status};

use crate::{
    joints_begin, packets_are_told, remote_tickets_are_read, remote_tickets_are_tied,
    status_reads_are_cancelled, status_reads_are_read, status_reads_are_tied, ties_begin,
};
use tmc_law::laws::runs_join;
use tmc_law::worked::{a_polled_request_is_answered, a_status_comes_before_or_behind};

/// A host that writes a submit to Interrupt-IN and READ_STATUS_BYTE at power-on is tied. Whether the answer or the packet comes first, the byte that the
/// packet brings is the status byte that was read once for it, and at the end the host stands at rest. None reads a packet with another tag.
pub fn worked_status_reads_are_tied()
    ensures begins { ReadsStatus first_read true (Some (notify_submit 1 8)) None [] 3 both_sent [] start }
    ensures behind { Runs start (status_asked ++ answer_first) status_given × OnePolled 2 0 [] status_log × Bound (Stands Resting) None [] 3 [] [] status_given }
    ensures before { Runs start (status_asked ++ packet_first) status_given
        × ReadsStatus first_read true None (Some 0) [] 3 [] (answered status_submit success 3 (0x01 ∷ 0x05 ∷ 0x00 ∷ []) ∷ []) status_given }
    ensures mistaken { (byte next : ℕ) (ups : List up.Message) (downs : List Put) (s : State)
        → ReadsStatus first_read true (Some (notify_submit 1 8)) None [] next ups (answered (notify_submit 1 8) success 2 (0x86 ∷ byte ∷ []) ∷ downs) s → ⊥ }
{
    ties_begin();
    remote_tickets_are_tied();
    packets_are_told();
    status_reads_are_tied();
    a_status_comes_before_or_behind();
}

/// The host of that read that takes the answer alone knows which packet is left; when it has come, no packet is left. None in no status read reads a
/// packet with a status byte where none is left.
pub fn worked_packets_are_told()
    ensures begins { Quiet (Some (notify_submit 1 8)) [] 2 (up.Submit (notify_submit 1 8) [] ∷ []) [] start }
    ensures left { (byte : ℕ) × OnePolled 2 byte [] status_log
        × Quiet (Some (notify_submit 1 8)) (StatusPacket 5 byte ∷ []) 3 [] (answered (notify_submit 1 8) success 2 (0x85 ∷ 0x00 ∷ []) ∷ []) status_given }
    ensures came { Quiet None [] 3 [] [] status_given }
    ensures mistaken { (byte next : ℕ) (ups : List up.Message) (downs : List Put) (s : State)
        → Quiet (Some (notify_submit 1 8)) [] next ups (answered (notify_submit 1 8) success 2 (0x85 ∷ byte ∷ []) ∷ downs) s → ⊥ }
{
    ties_begin();
    remote_tickets_are_tied();
    packets_are_told();
    status_reads_are_tied();
    a_status_comes_before_or_behind();
}

/// The same over a link: a host that writes the two submits at power-on is joined to its device, whatever bytes spell them. When the link told that
/// the device took them in and put out the answer to READ_STATUS_BYTE, the host reads that next. None reads a packet with another tag.
pub fn worked_status_reads_are_read()
    ensures written { (text more : List ℕ) → up.Spells devid (up.Submit (notify_submit 1 8) []) text → up.Spells devid (up.Submit status_submit []) more
        → JointBy (λ ups downs t. ReadsStatus first_read true (Some (notify_submit 1 8)) None [] 3 ups downs t) devid (text ++ more) [] [] start }
    ensures next { (text more bytes : List ℕ) → up.Spells devid (up.Submit (notify_submit 1 8) []) text → up.Spells devid (up.Submit status_submit []) more
        → SpellsPut (answered status_submit success 3 (0x01 ∷ 0x05 ∷ 0x00 ∷ [])) bytes
        → (s : State) × Runs start (take 3 (status_asked ++ answer_first)) s
        × IsNextOfRead first_read true (Some (notify_submit 1 8)) None [] 3 devid (down.RetSubmit (record { seqnum = 2; status = success; actual = 3 }) (0x01 ∷ 0x05 ∷ 0x00 ∷ []))
        (text ++ more) [] bytes (takes_in text ∷ takes_in more ∷ puts_out bytes ∷ []) s }
    ensures mistaken { (text bytes : List ℕ) (byte : ℕ) (s : State) → SpellsPut (answered (notify_submit 1 8) success 2 (0x86 ∷ byte ∷ [])) bytes
        → JointBy (λ ups downs t. ReadsStatus first_read true (Some (notify_submit 1 8)) None [] 3 ups downs t) devid text [] (puts_out bytes ∷ []) s → ⊥ }
{
    ties_begin();
    joints_begin();
    remote_tickets_are_tied();
    remote_tickets_are_read();
    packets_are_told();
    status_reads_are_tied();
    status_reads_are_read();
    runs_join();
    a_status_comes_before_or_behind();
}

/// READ_STATUS_BYTE is unlinked. Where the unlink hit, the status byte was not read; where it was read before, the request is answered, and the unlink
/// missed. No host is told of a miss while its request is not answered.
pub fn worked_status_reads_are_cancelled()
    ensures unlinked { CancelledRead first_read (unlink 3 2) true (Some (notify_submit 1 8)) None [] 4 (both_sent ++ up.Unlink (unlink 3 2) ∷ []) [] start }
    ensures hit { Runs start stopping_status stopped_status × NonePolled [] stopped_status.log × Quiet (Some (notify_submit 1 8)) [] 4 [] [] stopped_status }
    ensures missed { Runs start (status_asked ++ unlink_behind_poll) status_given
        × ReadsStatus first_read false (Some (notify_submit 1 8)) None [] 4 [] (answered (notify_submit 1 8) success 2 (0x85 ∷ 0x00 ∷ []) ∷ []) status_given }
    ensures mistaken { (next : ℕ) (ups : List up.Message) (downs : List Put) (s : State)
        → CancelledRead first_read (unlink 3 2) true (Some (notify_submit 1 8)) None [] next ups (Unlinked (unlink 3 2) (record { seqnum = 3; status = success }) ∷ downs) s → ⊥ }
{
    worked_status_reads_are_tied();
    status_reads_are_cancelled();
    a_polled_request_is_answered();
}
