//! Example hosts at links that tell their bytes. Each function does nothing.

ghost use Rattle.std.specs.Prelude.{◌≡◌, ℕ, List, [], ◌∷◌, ◌++◌, codes, take, Some, None};
ghost use Rattle.tmc_base.specs.declared.field.Field.{Field};
ghost use Rattle.tmc_base.specs.declared.run_step.RunStep.{RunStep};
ghost use Rattle.tmc_base.specs.Told.{in_bytes, out_bytes};
ghost use Rattle.usbip_wire.specs.declared.down.DownPhase.TheVariants.{Urbs};
ghost use Rattle.usbip_wire.specs.DownFed.{BadAt};
ghost use Rattle.usbip_wire.specs.Up as up;
ghost use Rattle.usbip_wire.specs.Down as down;
ghost use Rattle.tmc_law.specs.State.{State, start};
ghost use Rattle.tmc_law.specs.Put.{Unlinked, success, unlinked, unplugged};
ghost use Rattle.tmc_law.specs.Run.{Runs, SpellsPut};
ghost use Rattle.tmc_law.specs.WorkedQuery.{identity};
ghost use Rattle.tmc_law.specs.WorkedSession.{devid, out_submit, in_submit, unlink, answered};
ghost use Rattle.tmc_law.specs.WorkedParts.{spaces_text, sending_parts};
ghost use Rattle.tmc_law.specs.WorkedTold.{takes_in, puts_out};
ghost use Rattle.host_joint.specs.Hand.{Free};
ghost use Rattle.host_joint.specs.Bond.{Read, Stands, Requests, ToAbortIn, AbortsIn};
ghost use Rattle.host_joint.specs.Hits.{JoinedTelling, IsNextTelling};
ghost use Rattle.host_joint.specs.Joint.{Joint, Joined, IsNextAnswer, IsNextOf, entries_for, entries_of};
ghost use Rattle.host_joint.specs.Unplugged.{JointUntil, JoinedUntil, IsGivenUntil, IsNextUntil};
ghost use Rattle.host_joint.specs.WorkedTies.{telling, queried};
ghost use Rattle.host_joint.specs.WorkedPieces.{next_request, second_piece, requested_second, behind_second, reading_second};
ghost use Rattle.host_joint.specs.WorkedRecoveries.{reading_rest, cancelled_inside, abort_submit, wanting, usable_again, unplugged_aborting};
ghost use Rattle.host_joint.specs.WorkedUnplugging.{unplugged_behind, unplugged_inside};

use crate::{
    cancels_begin, joints_begin, joints_stay, joints_stay_until_unplugged, joints_tell_hits,
    no_answer_is_refused, recoveries_end, recoveries_go_on, remote_tickets_are_tied,
    the_next_answer_is_read, the_next_answer_is_read_until_unplugged, worked_cancels_are_bound,
    worked_cancels_are_recovered, worked_hosts_are_unplugged, worked_pieces_are_read,
    writes_keep_joints, writes_keep_joints_until_unplugged,
};
use tmc_law::laws::runs_join;
use tmc_law::worked::a_message_comes_in_parts;

/// A host that writes the first transfer of a message at power-on is joined to its device, whatever bytes spell it; still so when the link told
/// that the device took it in and put out the answer; and it reads that answer next, no field of which is bad, also while the device may be unplugged. One that waits for nothing is joined to no device that
/// put out a byte.
pub fn worked_hosts_are_joined()
    ensures written { (text : List ℕ) → up.Spells devid (up.Submit (out_submit 1 112) spaces_text) text
        → Joint devid telling (Some (out_submit 1 112)) 2 text [] [] start }
    ensures told { (text bytes : List ℕ) → up.Spells devid (up.Submit (out_submit 1 112) spaces_text) text
        → SpellsPut (answered (out_submit 1 112) success 112 []) bytes
        → (s : State) × Runs start (take 3 sending_parts) s × Joint devid telling (Some (out_submit 1 112)) 2 text [] (takes_in text ∷ puts_out bytes ∷ []) s
        × IsNextAnswer devid telling (out_submit 1 112) (down.RetSubmit (record { seqnum = 1; status = success; actual = 112 }) []) 2 text [] bytes
        (takes_in text ∷ puts_out bytes ∷ []) s }
    ensures fine { (text bytes rest more : List ℕ) (f : Field) → up.Spells devid (up.Submit (out_submit 1 112) spaces_text) text
        → SpellsPut (answered (out_submit 1 112) success 112 []) bytes → bytes ≡ rest ++ more → BadAt Urbs (entries_for (Some (out_submit 1 112))) rest f → ⊥ }
    ensures until { (text bytes : List ℕ) → up.Spells devid (up.Submit (out_submit 1 112) spaces_text) text
        → SpellsPut (answered (out_submit 1 112) success 112 []) bytes
        → (s : State) × JointUntil devid telling (Some (out_submit 1 112)) 2 text [] (takes_in text ∷ puts_out bytes ∷ []) s
        × IsGivenUntil devid telling (out_submit 1 112) (down.RetSubmit (record { seqnum = 1; status = success; actual = 112 }) []) 2 text [] bytes
        (takes_in text ∷ puts_out bytes ∷ []) s }
    ensures silent { (next byte : ℕ) (written : List ℕ) (s : State) → Joint devid Free None next written [] (puts_out (byte ∷ []) ∷ []) s → ⊥ }
{
    a_message_comes_in_parts();
    runs_join();
    joints_begin();
    writes_keep_joints();
    joints_stay();
    the_next_answer_is_read();
    no_answer_is_refused();
    joints_stay_until_unplugged();
    the_next_answer_is_read_until_unplugged();
}

/// From where the second piece of a response was requested, over a link: a host that writes its read is joined to the device, whatever bytes
/// spell it; when the link told that the piece was put out it reads that piece next, and no field of it is bad. At the end a host that has nothing in
/// hand is joined to the device, whatever the link told before. One whose device is unplugged reads that next, or writes on as if it were not. Where
/// nothing disturbs it, no host reads that its device was unplugged.
pub fn worked_pieces_are_joined()
    ensures reads { (text : List ℕ) → up.Spells devid (up.Submit (in_submit 6 4096) []) text
        → Joint devid reading_second (Some (in_submit 6 4096)) 7 text [] [] requested_second }
    ensures given { (text bytes : List ℕ) → up.Spells devid (up.Submit (in_submit 6 4096) []) text → SpellsPut (answered (in_submit 6 4096) success 24 second_piece) bytes
        → Joint devid reading_second (Some (in_submit 6 4096)) 7 text [] (takes_in text ∷ puts_out bytes ∷ []) behind_second
        × IsNextAnswer devid reading_second (in_submit 6 4096) (down.RetSubmit (record { seqnum = 6; status = success; actual = 24 }) second_piece) 7 text [] bytes
        (takes_in text ∷ puts_out bytes ∷ []) behind_second }
    ensures fine { (text bytes rest more : List ℕ) (f : Field) → up.Spells devid (up.Submit (in_submit 6 4096) []) text
        → SpellsPut (answered (in_submit 6 4096) success 24 second_piece) bytes → bytes ≡ rest ++ more → BadAt Urbs (entries_for (Some (in_submit 6 4096))) rest f → ⊥ }
    ensures over { (steps : List RunStep) → Joint devid Free None 7 (in_bytes steps) (out_bytes steps) steps behind_second }
    ensures unplugged { (text bytes : List ℕ) → up.Spells devid (up.Submit (in_submit 6 4096) []) text → SpellsPut (answered (in_submit 6 4096) unplugged 0 []) bytes
        → JointUntil devid reading_second (Some (in_submit 6 4096)) 7 text [] (takes_in text ∷ puts_out bytes ∷ []) unplugged_inside
        × IsGivenUntil devid reading_second (in_submit 6 4096) (down.RetSubmit (record { seqnum = 6; status = unplugged; actual = 0 }) []) 7 text [] bytes
        (takes_in text ∷ puts_out bytes ∷ []) unplugged_inside }
    ensures until { (text : List ℕ) → up.Spells devid (up.Submit (out_submit 5 12) next_request) text
        → JointUntil devid reading_second (Some (out_submit 5 12)) 6 text [] [] unplugged_behind }
    ensures mistaken { (written bytes : List ℕ) (s : State) → SpellsPut (answered (in_submit 6 4096) unplugged 0 []) bytes
        → Joint devid reading_second (Some (in_submit 6 4096)) 7 written [] (puts_out bytes ∷ []) s → ⊥ }
{
    runs_join();
    joints_begin();
    joints_stay();
    writes_keep_joints();
    the_next_answer_is_read();
    no_answer_is_refused();
    joints_stay_until_unplugged();
    writes_keep_joints_until_unplugged();
    the_next_answer_is_read_until_unplugged();
    worked_pieces_are_read();
    worked_hosts_are_unplugged();
}

/// From there the host cancels, over a link: it is joined from where its unlink is written, also while the device may be unplugged. When the link told that the device
/// took the unlink in and put out its answer, the host reads next that it hit; one whose response won the race reads that it missed. No
/// host whose read is not answered reads a miss.
pub fn worked_cancels_are_joined()
    ensures cancels { (text more : List ℕ) → up.Spells devid (up.Submit (in_submit 6 4096) []) text → up.Spells devid (up.Unlink (unlink 7 6)) more
        → Joined devid reading_rest (Some (in_submit 6 4096)) (unlink 7 6 ∷ []) 8 (text ++ more) [] [] requested_second
        × JoinedUntil devid reading_rest (Some (in_submit 6 4096)) (unlink 7 6 ∷ []) 8 (text ++ more) [] [] requested_second }
    ensures hit { (text more bytes : List ℕ) → up.Spells devid (up.Submit (in_submit 6 4096) []) text → up.Spells devid (up.Unlink (unlink 7 6)) more
        → SpellsPut (Unlinked (unlink 7 6) (record { seqnum = 7; status = unlinked })) bytes
        → IsNextTelling devid reading_rest (Some (in_submit 6 4096)) (unlink 7 6 ∷ []) (down.RetUnlink (record { seqnum = 7; status = unlinked })) 8 (text ++ more) [] bytes
        (takes_in text ∷ record { took = more; put = bytes } ∷ []) cancelled_inside }
    ensures missed { (text bytes : List ℕ) → up.Spells devid (up.Unlink (unlink 4 3)) text
        → SpellsPut (Unlinked (unlink 4 3) (record { seqnum = 4; status = success })) bytes
        → IsNextTelling devid (Read 1 (codes "*IDN?") identity) None (unlink 4 3 ∷ []) (down.RetUnlink (record { seqnum = 4; status = success })) 5 text [] bytes
        (record { took = text; put = bytes } ∷ []) queried }
    ensures mistaken { (written bytes : List ℕ) (s : State) → SpellsPut (Unlinked (unlink 7 6) (record { seqnum = 7; status = success })) bytes
        → JoinedTelling devid reading_rest (Some (in_submit 6 4096)) (unlink 7 6 ∷ []) 8 written [] (puts_out bytes ∷ []) s → ⊥ }
{
    runs_join();
    cancels_begin();
    writes_keep_joints();
    writes_keep_joints_until_unplugged();
    joints_stay_until_unplugged();
    joints_tell_hits();
    worked_pieces_are_joined();
    worked_cancels_are_bound();
}

/// The recovery behind that cancel, over a link: the host goes from the answer to its unlink to the abort, writes it, and reads its answer
/// next, no field of which is bad. So it does while the device may be unplugged, and where that is unplugged before it answers, the host reads
/// that. At the end it is joined as one that has nothing in hand.
pub fn worked_recoveries_are_joined()
    ensures goes_on { Joined devid (Stands (ToAbortIn 4)) None [] 8 [] [] [] cancelled_inside × JoinedUntil devid (Stands (ToAbortIn 4)) None [] 8 [] [] [] cancelled_inside }
    ensures aborts { (text : List ℕ) → up.Spells devid (up.Submit (abort_submit 8) []) text
        → Joined devid (Requests (abort_submit 8) (AbortsIn 4)) (Some (abort_submit 8)) [] 9 text [] [] cancelled_inside
        × JoinedUntil devid (Requests (abort_submit 8) (AbortsIn 4)) (Some (abort_submit 8)) [] 9 text [] [] cancelled_inside }
    ensures aborted { (text bytes : List ℕ) → up.Spells devid (up.Submit (abort_submit 8) []) text → SpellsPut (answered (abort_submit 8) success 2 (0x01 ∷ 0x04 ∷ [])) bytes
        → IsNextOf devid (Requests (abort_submit 8) (AbortsIn 4)) (Some (abort_submit 8)) [] (down.RetSubmit (record { seqnum = 8; status = success; actual = 2 }) (0x01 ∷ 0x04 ∷ [])) 9 text [] bytes
        (takes_in text ∷ puts_out bytes ∷ []) wanting }
    ensures fine { (text bytes rest more : List ℕ) (f : Field) → up.Spells devid (up.Submit (abort_submit 8) []) text → SpellsPut (answered (abort_submit 8) success 2 (0x01 ∷ 0x04 ∷ [])) bytes
        → bytes ≡ rest ++ more → BadAt Urbs (entries_of (Some (abort_submit 8)) []) rest f → ⊥ }
    ensures unplugged { (text bytes : List ℕ) → up.Spells devid (up.Submit (abort_submit 8) []) text → SpellsPut (answered (abort_submit 8) unplugged 0 []) bytes
        → IsNextUntil devid (Requests (abort_submit 8) (AbortsIn 4)) (Some (abort_submit 8)) [] (down.RetSubmit (record { seqnum = 8; status = unplugged; actual = 0 }) []) 9 text [] bytes
        (takes_in text ∷ puts_out bytes ∷ []) unplugged_aborting }
    ensures over { (bytes : List ℕ) → Joint devid Free None 11 bytes [] (takes_in bytes ∷ []) usable_again × JointUntil devid Free None 11 bytes [] (takes_in bytes ∷ []) usable_again }
{
    runs_join();
    cancels_begin();
    recoveries_go_on();
    recoveries_end();
    remote_tickets_are_tied();
    writes_keep_joints();
    joints_stay();
    the_next_answer_is_read();
    no_answer_is_refused();
    joints_stay_until_unplugged();
    writes_keep_joints_until_unplugged();
    the_next_answer_is_read_until_unplugged();
    worked_cancels_are_recovered();
}
