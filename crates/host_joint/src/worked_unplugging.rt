//! In the middle of an example ask the device is unplugged. Each function does nothing.

ghost use Rattle.std.specs.Prelude.{◌≡◌, List, ℕ, [], ◌∷◌, ◌++◌, Option, Some, None};
ghost use Rattle.usbip_wire.specs.Up as up;
ghost use Rattle.tmc_law.specs.State.{State, Unplugged, arrived};
ghost use Rattle.tmc_law.specs.Put.{Put, Unlinked, success, unlinked, unplugged};
ghost use Rattle.tmc_law.specs.Run.{Runs};
ghost use Rattle.tmc_law.specs.Step.{Move, Unplug, Steps};
ghost use Rattle.tmc_law.specs.WorkedParts.{spaced};
ghost use Rattle.tmc_law.specs.WorkedSession.{in_submit, unlink, answered};
ghost use Rattle.host_joint.specs.Asking.{WasAsking};
ghost use Rattle.host_joint.specs.Owned.{Owned};
ghost use Rattle.host_joint.specs.Hand.{Free, Pauses, Reads};
ghost use Rattle.host_joint.specs.Tie.{Tie, Owns};
ghost use Rattle.host_joint.specs.WorkedPieces.{first_data, first_piece, first_log, second_log, reading_first, reading_second, requested_second, next_job, asked_with};
ghost use Rattle.host_joint.specs.WorkedRecoveries.{reading_rest, halted_inside, unplugging_cancelled, unplugged_aborting, usable_again};
ghost use Rattle.host_joint.specs.Unplugged.{TiedUntil, BoundUntil, NextUntil, TellsUnplugged};
ghost use Rattle.host_joint.specs.WorkedUnplugging.{unplugging_behind, unplugged_behind, unplugging_inside, unplugged_inside};

use crate::{
    answers_are_the_expected, answers_come_until_unplugged, asking_stays, cancels_begin,
    hosts_go_on_until_unplugged, messages_are_written, pieces_have_no_fault,
    remote_tickets_are_tied, ties_hold_until_unplugged, unplugged_asks_were_in_hand,
    unplugged_hosts_own, unplugging_is_the_end, what_is_read_is_owned,
    worked_cancels_are_recovered, worked_halts_are_asked, worked_halts_are_recovered,
    worked_pieces_are_asked, worked_pieces_are_read,
};
use tmc_law::laws::runs_join;
use tmc_law::worked::a_message_comes_in_parts;
use tmc_wire::headers_are_read_again;

/// The device is unplugged when the first piece is on its way to the host: the host is tied until then, takes the piece, and writes the
/// next request. Or it is unplugged when the second one was requested: the answer tells of it, and the host has the data of the first piece
/// still. A host that takes that answer for one to its read is tied to no device.
pub fn worked_hosts_are_unplugged()
    ensures piece { TiedUntil reading_first (Some (in_submit 4 4096)) 5 [] (answered (in_submit 4 4096) success 24 first_piece ∷ []) unplugged_behind }
    ensures taken { TiedUntil (Pauses 2 spaced first_data) None 5 [] [] unplugged_behind × Owns (Pauses 2 spaced first_data) unplugged_behind }
    ensures inside { Runs requested_second unplugging_inside unplugged_inside
        × TiedUntil reading_second (Some (in_submit 6 4096)) 7 [] (answered (in_submit 6 4096) unplugged 0 [] ∷ []) unplugged_inside
        × TellsUnplugged (Some (in_submit 6 4096)) (answered (in_submit 6 4096) unplugged 0 []) [] × Owns reading_second unplugged_inside }
    ensures asked { WasAsking (asked_with 4 (next_job ∷ []) 1 first_data) [] (answered (in_submit 6 4096) unplugged 0 [] ∷ []) unplugged_inside
        × Owned (asked_with 4 (next_job ∷ []) 1 first_data) unplugged_inside }
    ensures last { (move : Move) (puts : List Put) (t : State) → Steps unplugged_inside move puts t → ⊥ }
    ensures mistaken { (next : ℕ) (ups : List up.Message) (downs : List Put) (s : State)
        → Tie reading_second (Some (in_submit 6 4096)) next ups (answered (in_submit 6 4096) unplugged 0 [] ∷ downs) s → ⊥ }
{
    a_message_comes_in_parts();
    runs_join();
    headers_are_read_again();
    asking_stays();
    worked_pieces_are_read();
    worked_pieces_are_asked();
    messages_are_written();
    unplugged_asks_were_in_hand();
    unplugging_is_the_end();
    what_is_read_is_owned();
    ties_hold_until_unplugged();
    hosts_go_on_until_unplugged();
    answers_come_until_unplugged();
    answers_are_the_expected();
    pieces_have_no_fault();
    unplugged_hosts_own();
}

/// Where the device is unplugged while the read of the second piece is pending, that read is answered so, and nothing else changes; where Bulk-IN
/// halted in the middle of that piece before, nothing is answered, the ask was in hand until then, and it owns the data of the first piece still. No step
/// follows.
pub fn worked_asks_are_unplugged()
    ensures answered { (puts : List Put) (t : State) → Steps (record requested_second { bulk_in = arrived (in_submit 6 4096) [] ∷ [] }) Unplug puts t
        → (puts ≡ answered (in_submit 6 4096) unplugged 0 [] ∷ []) × (t.log ≡ first_log) }
    ensures halted { (puts : List Put) (t : State) → Steps halted_inside Unplug puts t → (puts ≡ []) × (t.log ≡ second_log) }
    ensures asked { WasAsking (asked_with 4 (next_job ∷ []) 1 first_data) [] [] (record halted_inside { presence = Unplugged })
        × Owned (asked_with 4 (next_job ∷ []) 1 first_data) (record halted_inside { presence = Unplugged }) }
    ensures last { (move : Move) (puts : List Put) (t : State) → Steps (record halted_inside { presence = Unplugged }) move puts t → ⊥ }
{
    unplugging_is_the_end();
    unplugged_asks_were_in_hand();
    what_is_read_is_owned();
    worked_halts_are_asked();
}

/// Where the host cancelled before the device is unplugged, it was bound until then: the answer to its unlink, which hit, comes next, and the host has the data of
/// the first piece still. So it is where Bulk-IN halted in the middle of the second piece. One that does not know of an unplugging is tied at the
/// end of its recovery.
pub fn worked_cancels_are_unplugged()
    ensures cancels { BoundUntil reading_rest (Some (in_submit 6 4096)) (unlink 7 6 ∷ []) 8 (up.Submit (in_submit 6 4096) [] ∷ up.Unlink (unlink 7 6) ∷ []) [] requested_second }
    ensures gone { Runs requested_second unplugging_cancelled unplugged_aborting
        × BoundUntil reading_rest (Some (in_submit 6 4096)) (unlink 7 6 ∷ []) 8 [] (Unlinked (unlink 7 6) (record { seqnum = 7; status = unlinked }) ∷ []) unplugged_aborting
        × Owns (Reads 2 spaced 4 4000 first_data []) unplugged_aborting }
    ensures next { NextUntil reading_rest (Some (in_submit 6 4096)) (unlink 7 6 ∷ []) 8 (Unlinked (unlink 7 6) (record { seqnum = 7; status = unlinked })) [] [] unplugged_aborting }
    ensures halted { BoundUntil reading_rest None [] 7 [] [] (record halted_inside { presence = Unplugged })
        × Owns (Reads 2 spaced 4 4000 first_data []) (record halted_inside { presence = Unplugged }) }
    ensures rest { TiedUntil Free None 11 [] [] usable_again }
{
    runs_join();
    cancels_begin();
    remote_tickets_are_tied();
    ties_hold_until_unplugged();
    hosts_go_on_until_unplugged();
    answers_come_until_unplugged();
    unplugged_hosts_own();
    worked_pieces_are_read();
    worked_cancels_are_recovered();
    worked_halts_are_recovered();
}
