//! What holds of all lawful runs. Each function does nothing, and its contract is the law.

ghost use Rattle.std.specs.Prelude.{◌≡◌, ◌↔◌, ℕ, ◌<◌, ◌≤◌, List, [], ◌∷◌, ◌++◌, length};
ghost use Rattle.tmc_base.specs.declared.field.Field.{Field};
ghost use Rattle.tmc_base.specs.declared.run_step.RunStep.{RunStep};
ghost use Rattle.usbip_wire.specs.declared.submit.SubmitHead.{SubmitHead};
ghost use Rattle.usbip_wire.specs.declared.unlink.UnlinkHead.{UnlinkHead};
ghost use Rattle.tmc_base.specs.Told as told;
ghost use Rattle.tmc_base.specs.Told.{in_bytes, out_bytes};
ghost use Rattle.usbip_wire.specs.Given.{IsBytes};
ghost use Rattle.usbip_wire.specs.Up as up;
ghost use Rattle.usbip_wire.specs.Stream.{Reads};
ghost use Rattle.instr_plain.specs.declared.log.LogEntry.{LogEntry};
ghost use Rattle.instr_plain.specs.declared.log.LogEntry.TheVariants.{Exec};
ghost use Rattle.instr_plain.specs.Log.{Stands, Response};
ghost use Rattle.tmc_law.specs.Endpoint.{Endpoint};
ghost use Rattle.tmc_law.specs.State.{State, start, queue_of, Plugged, Closed};
ghost use Rattle.tmc_law.specs.Put.{Put, unlink_answer, unlinked};
ghost use Rattle.tmc_law.specs.Queues.{IsSubmit, IsUnlink};
ghost use Rattle.tmc_law.specs.Step.{Steps, Comes, IsRefused};
ghost use Rattle.tmc_law.specs.Run.{Entry, Runs, TakesAll, inputs, outputs, SpellAll, SpellsPut, IsFront, Fits};
ghost use Rattle.tmc_law.specs.Told.{Tells};
ghost use Rattle.tmc_law.specs.Laws.{NoneArrives, NoneAnswers, NoneAgain, AreInOrder, answers_to, NoneRenews, bytes_taken, IsAccepted, AreNew, refusal, EndsRefused, EndsOver};

pub use crate::answers::answers_fit;
pub use crate::determined::steps_are_determined;
pub use crate::halt_causes::halts_have_causes;
pub use crate::instances::worked_runs_meet_the_laws;
pub use crate::layouts::{
    class_answers_are_laid_out, packets_are_laid_out, pieces_are_transfers,
    the_ends_are_the_descriptors,
};
pub use crate::numbers::numbers_rise;
pub use crate::reachable::{
    few_packets_are_queued, pending_submits_are_sound, transfers_are_in_order,
    what_arrives_can_be_taken,
};
pub use crate::setups::setups_have_one_meaning;
pub use crate::steps::{a_step_logs_at_most_once, packets_are_of_transfers, steps_act};
use instr_plain::{keeps_responses, one_response};
use usbip_wire::{
    answers_take_out, bad_fields_are_alone, bad_fields_are_refused, urbs_are_determined,
};

/// A run's fronts are runs, and two runs of which the second starts where the first ended join end to end. The
/// same holds of told runs, and of what a run takes in and puts out.
pub fn runs_join()
    ensures apart { (a b : List Entry) (s t : State) → Runs s (a ++ b) t → (m : State) × Runs s a m × Runs m b t }
    ensures together { (a b : List Entry) (s m t : State) → Runs s a m → Runs m b t → Runs s (a ++ b) t }
    ensures told_apart { (devid : ℕ) (a b : List RunStep) (s t : State) → Tells devid s (a ++ b) t
        → (m : State) × Tells devid s a m × Tells devid m b t }
    ensures told_together { (devid : ℕ) (a b : List RunStep) (s m t : State) → Tells devid s a m → Tells devid m b t
        → Tells devid s (a ++ b) t }
    ensures taken_apart { (devid : ℕ) (a b : List Entry) (bytes : List ℕ) → TakesAll devid (a ++ b) bytes
        → (front rest : List ℕ) × (bytes ≡ front ++ rest) × TakesAll devid a front × TakesAll devid b rest }
    ensures taken_together { (devid : ℕ) (a b : List Entry) (front rest : List ℕ) → TakesAll devid a front
        → TakesAll devid b rest → TakesAll devid (a ++ b) (front ++ rest) }
    ensures inputs { (a b : List Entry) → inputs (a ++ b) ≡ inputs a ++ inputs b }
    ensures outputs { (a b : List Entry) → outputs (a ++ b) ≡ outputs a ++ outputs b }
{}

/// Told steps are a run that took in and put out their bytes, and each run is told by some steps. A run fits what its
/// steps fit. The inputs of a lawful run are the first messages that the bytes sent read as.
pub fn told_runs_are_lawful()
    ensures runs { (devid : ℕ) (steps : List RunStep) (s t : State) → Tells devid s steps t
        → (run : List Entry) × Runs s run t × TakesAll devid run (in_bytes steps) × SpellAll SpellsPut (outputs run) (out_bytes steps) }
    ensures tells { (devid : ℕ) (run : List Entry) (s t : State) (took put : List ℕ) → Runs s run t
        → TakesAll devid run took → SpellAll SpellsPut (outputs run) put
        → (steps : List RunStep) × Tells devid s steps t × (in_bytes steps ≡ took) × (out_bytes steps ≡ put) }
    ensures took { (devid : ℕ) (run : List Entry) (s t : State) (bytes more rest : List ℕ) (messages : List up.Message)
        → Runs s run t → TakesAll devid run bytes → Reads (up.Spells devid) (bytes ++ more) messages rest
        → IsFront (inputs run) messages }
    ensures fits { (devid : ℕ) (run : List Entry) (steps : List RunStep) (sent received : List ℕ)
        → TakesAll devid run (in_bytes steps) → SpellAll SpellsPut (outputs run) (out_bytes steps)
        → told.Fits sent received steps → Fits devid run sent received }
    ensures fits_told { (devid : ℕ) (run : List Entry) (s t : State) (sent received : List ℕ) → Runs s run t
        → Fits devid run sent received → (steps : List RunStep) × Tells devid s steps t × told.Fits sent received steps }
{
    urbs_are_determined();
}

/// A run that did not end closed takes in the spellings of its inputs in a row, and no other bytes.
pub fn runs_take_in_messages()
    ensures { (devid : ℕ) (run : List Entry) (s t : State) (bytes : List ℕ) → Runs s run t
        → ((f : Field) → t.presence ≡ Closed f → ⊥)
        → TakesAll devid run bytes ↔ SpellAll (up.Spells devid) (inputs run) bytes }
{}

/// A run that ended closed at a field took in the spellings of its inputs, and then bytes that are refused there in the
/// state before its last step. Behind the inputs of a run that ended plugged, refused bytes make such a run.
pub fn a_closed_run_ends_with_refused_bytes()
    ensures ends { (devid : ℕ) (run : List Entry) (s t : State) (bytes : List ℕ) (f : Field) → s.presence ≡ Plugged
        → Runs s run t → TakesAll devid run bytes → t.presence ≡ Closed f → EndsRefused devid s run t bytes f }
    ensures closes { (devid : ℕ) (run : List Entry) (s m : State) (front refused : List ℕ) (f : Field) → Runs s run m
        → m.presence ≡ Plugged → SpellAll (up.Spells devid) (inputs run) front → IsRefused devid m refused f
        → Runs s (run ++ refusal devid refused f ∷ []) (record m { presence = Closed f })
        × TakesAll devid (run ++ refusal devid refused f ∷ []) (front ++ refused) }
{}

/// Where all bytes that a device is sent are those of messages, it closes at none but a submit behind its inputs that is
/// one too many, or has the number of one that is pending.
pub fn messages_are_refused_by_what_is_pending()
    ensures { (devid : ℕ) (run : List Entry) (s t : State) (sent received later : List ℕ) (messages : List up.Message) (f : Field)
        → s.presence ≡ Plugged → Runs s run t → Fits devid run sent received → t.presence ≡ Closed f
        → SpellAll (up.Spells devid) messages (sent ++ later) → EndsOver devid s run messages f }
{
    urbs_are_determined();
    bad_fields_are_refused();
    bad_fields_are_alone();
}

/// A message that is spelled by bytes is one that may come.
pub fn what_is_spelled_may_come()
    ensures submit { (devid : ℕ) (head : SubmitHead) (transferred bytes : List ℕ) → IsBytes bytes
        → up.Spells devid (up.Submit head transferred) bytes → IsSubmit head transferred }
    ensures unlink { (devid : ℕ) (head : UnlinkHead) (bytes : List ℕ) → up.Spells devid (up.Unlink head) bytes → IsUnlink head }
{}

/// The log only grows, a device's instrument stands for its log, and no later entry changes an earlier response.
pub fn the_log_grows()
    ensures grows { (run : List Entry) (s t : State) → Runs s run t → (more : List LogEntry) × (t.log ≡ s.log ++ more) }
    ensures stands { (run : List Entry) (s : State) → Runs start run s → Stands s.log s.standing }
    ensures responses { (run : List Entry) (s t : State) (i : ℕ) (response : List ℕ) → Runs s run t → i < length s.log
        → (Response t.log i response ↔ Response s.log i response) }
{
    keeps_responses();
}

/// What is taken behind an execution, until the next one or a clear, is at most its response.
pub fn no_more_is_taken_than_there_is()
    ensures { (run : List Entry) (t : State) (before between behind : List LogEntry) (seq : ℕ) (message response : List ℕ)
        → Runs start run t → t.log ≡ before ++ Exec seq message ∷ (between ++ behind) → NoneRenews between
        → Response t.log (length before) response → bytes_taken between ≤ length response }
{
    one_response();
}

/// A submit that an unlink hit is never answered, unless a submit with its number arrives again.
pub fn a_hit_is_final()
    ensures { (run more : List Entry) (s m t : State) (head : UnlinkHead) → Runs start run s
        → Steps s (Comes (up.Unlink head)) (unlink_answer head unlinked ∷ []) m → Runs m more t
        → NoneArrives head.target (inputs more) → NoneAnswers head.target (outputs more) }
{}

/// The submits of an endpoint's queue are answered in their order.
pub fn answers_keep_order()
    ensures { (run more : List Entry) (s t : State) (endpoint : Endpoint) → Runs start run s → Runs s more t
        → NoneAgain (queue_of endpoint s) (inputs more)
        → AreInOrder (answers_to (queue_of endpoint s) (outputs more)) (queue_of endpoint s) }
{}

/// What a run puts out has spellings that a reader of answers accepts, where no unlink comes with a number that is
/// outstanding. What is outstanding are the submits and unlinks that the run took in before, less those that were
/// answered, and less the submits whose unlink was answered.
pub fn answers_are_accepted()
    ensures { (run : List Entry) (t : State) → Runs start run t → AreNew [] run → IsAccepted [] run }
{
    answers_take_out();
}
