//! What a host is given: the pieces of its response, and answers that suit their submits. Each function does nothing, and its contract is the
//! law.

ghost use Rattle.std.specs.Prelude.{◌≡◌, ℕ, List, ◌∷◌, ◌++◌};
ghost use Rattle.usbip_wire.specs.declared.submit.SubmitHead.{SubmitHead};
ghost use Rattle.usbip_wire.specs.declared.unlink.UnlinkHead.{UnlinkHead};
ghost use Rattle.usbip_wire.specs.declared.ret_submit.RetSubmitHead.{RetSubmitHead};
ghost use Rattle.usbip_wire.specs.declared.ret_unlink.RetUnlinkHead.{RetUnlinkHead};
ghost use Rattle.usbip_wire.specs.Up as up;
ghost use Rattle.tmc_wire.specs.Header.{IsTag, IsSize};
ghost use Rattle.tmc_law.specs.Endpoint.{Endpoint, BulkIn, number_of};
ghost use Rattle.tmc_law.specs.State.{State, start};
ghost use Rattle.tmc_law.specs.Put.{Put, Submitted, Unlinked, success};
ghost use Rattle.tmc_law.specs.AnswerFits.{AllAnswers};
ghost use Rattle.tmc_law.specs.Run.{Entry, Runs, inputs, outputs};
ghost use Rattle.host_joint.specs.Lines.{Lines, AllFitting};
ghost use Rattle.host_joint.specs.Asking.{Ask, Asking};
ghost use Rattle.host_joint.specs.Pieces.{IsFaultless};
ghost use Rattle.host_joint.specs.Given.{BringsPiece, SuitsSubmit, SuitsUnlink, Suits};

use crate::{answers_are_taken, hosts_keep_lines, pieces_have_no_fault};
use tmc_law::laws::{answers_fit, pending_submits_are_sound, runs_join};
use tmc_wire::{header_offsets_are_laid_out, headers_are_read_again, transfers_are_read_again};

/// However many submits of an ask are unanswered, each read of it with status 0 brings the next bytes of the piece that was requested, behind
/// those that the host has read: nothing in their header, their size or their length is refused, and a short read ends the piece.
pub fn asks_are_given_pieces()
    ensures piece { (ask : Ask) (ups : List up.Message) (head : SubmitHead) (answer : RetSubmitHead) (transferred : List ℕ) (downs : List Put) (s : State)
        → IsTag ask.tag → IsSize ask.size → head.ep ≡ number_of BulkIn → answer.status ≡ success
        → Asking ask ups (Submitted head answer transferred ∷ downs) s → BringsPiece ask answer transferred }
    ensures faultless { (ask : Ask) (ups : List up.Message) (head : SubmitHead) (answer : RetSubmitHead) (transferred : List ℕ) (downs : List Put) (s : State)
        → IsTag ask.tag → IsSize ask.size → head.ep ≡ number_of BulkIn → answer.status ≡ success
        → Asking ask ups (Submitted head answer transferred ∷ downs) s → IsFaultless ask.tag ask.size (ask.read ++ transferred) }
{
    answers_are_taken();
    pieces_have_no_fault();
    headers_are_read_again();
    header_offsets_are_laid_out();
    transfers_are_read_again();
}

/// Whatever a host does, the answers that come suit what they answer, under each run: they have its number and a length that it allows,
/// and one of the statuses 0, -32 and -108, or 0 and -104 for an unlink. For a host that keeps its lists they come in their order: the first one
/// is to the first submit of its endpoint, or to the first unlink.
pub fn answers_suit_their_submits()
    ensures run { (before run : List Entry) (ups : List up.Message) (downs : List Put) (s t : State) → Runs start before s → Runs s run t
        → AllFitting (inputs run ++ ups) → AllAnswers Suits downs → AllAnswers Suits (downs ++ outputs run) }
    ensures submit { (asked : Endpoint → List SubmitHead) (unlinks : List UnlinkHead) (ups : List up.Message) (head : SubmitHead) (answer : RetSubmitHead) (transferred : List ℕ) (downs : List Put) (s : State)
        → AllAnswers Suits (Submitted head answer transferred ∷ downs) → Lines asked unlinks ups (Submitted head answer transferred ∷ downs) s
        → (endpoint : Endpoint) × (rest : List SubmitHead) × (head.ep ≡ number_of endpoint) × (asked endpoint ≡ head ∷ rest) × SuitsSubmit head answer transferred }
    ensures unlink { (asked : Endpoint → List SubmitHead) (unlinks : List UnlinkHead) (ups : List up.Message) (head : UnlinkHead) (answer : RetUnlinkHead) (downs : List Put) (s : State)
        → AllAnswers Suits (Unlinked head answer ∷ downs) → Lines asked unlinks ups (Unlinked head answer ∷ downs) s
        → (rest : List UnlinkHead) × (unlinks ≡ head ∷ rest) × SuitsUnlink head answer }
{
    answers_fit();
    pending_submits_are_sound();
    runs_join();
    hosts_keep_lines();
}
