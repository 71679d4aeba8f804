//! What leaves an example ask as it is. Each function does nothing.

ghost use Rattle.std.specs.Prelude.{◌≡◌, ℕ, true, List, [], ◌∷◌};
ghost use Rattle.usbip_wire.specs.Up as up;
ghost use Rattle.tmc_law.specs.Put.{stalled};
ghost use Rattle.tmc_law.specs.WorkedParts.{spaced};
ghost use Rattle.tmc_law.specs.WorkedSession.{notify_submit, answered};
ghost use Rattle.host_joint.specs.Stage.{Ran};
ghost use Rattle.host_joint.specs.Asking.{Asking};
ghost use Rattle.host_joint.specs.WorkedNotices.{notice_came, deaf};
ghost use Rattle.host_joint.specs.WorkedPieces.{behind_first, first_data, asked_with};
ghost use Rattle.host_joint.specs.WorkedRecoveries.{halted_inside};

use crate::{
    answers_are_taken, asking_stays, bonds_stay, messages_are_written, worked_halts_are_recovered,
    worked_pieces_are_asked, worked_pieces_are_read,
};
use tmc_law::laws::runs_join;
use tmc_law::worked::a_message_comes_in_parts;
use tmc_wire::headers_are_read_again;

/// Behind the first piece the ask is in hand while a submit to Interrupt-IN is on its way, pending, answered by a halt of that endpoint, and when that answer was
/// taken. Where Bulk-IN halts in the middle of the second piece, its message keeps its response.
pub fn worked_notices_leave_asks()
    ensures written { Asking (asked_with 4 [] 0 first_data) (up.Submit (notify_submit 5 2) [] ∷ []) [] behind_first }
    ensures came { Asking (asked_with 4 [] 0 first_data) [] [] notice_came }
    ensures halted { Asking (asked_with 4 [] 0 first_data) [] (answered (notify_submit 5 2) stalled 0 [] ∷ []) deaf }
    ensures taken { Asking (asked_with 4 [] 0 first_data) [] [] deaf }
    ensures kept { (response : List ℕ) × Ran 2 spaced response halted_inside.log }
{
    a_message_comes_in_parts();
    runs_join();
    headers_are_read_again();
    messages_are_written();
    asking_stays();
    answers_are_taken();
    bonds_stay();
    worked_pieces_are_read();
    worked_pieces_are_asked();
    worked_halts_are_recovered();
}
