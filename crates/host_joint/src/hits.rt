//! What the answer to an unlink says: whether it hit. Each function does nothing, and its contract is the law.

ghost use Rattle.std.specs.Prelude.{◌≡◌, ◌≢◌, ℕ, Some, None, List, [], ◌∷◌, ◌++◌, Option};
ghost use Rattle.tmc_base.specs.declared.run_step.RunStep.{RunStep};
ghost use Rattle.tmc_base.specs.Told.{in_bytes, out_bytes, IsFront};
ghost use Rattle.usbip_wire.specs.declared.submit.SubmitHead.{SubmitHead};
ghost use Rattle.usbip_wire.specs.declared.unlink.UnlinkHead.{UnlinkHead};
ghost use Rattle.usbip_wire.specs.declared.ret_submit.RetSubmitHead.{RetSubmitHead};
ghost use Rattle.usbip_wire.specs.declared.ret_unlink.RetUnlinkHead.{RetUnlinkHead};
ghost use Rattle.usbip_wire.specs.Up as up;
ghost use Rattle.usbip_wire.specs.Down as down;
ghost use Rattle.usbip_wire.specs.Down.{SpellsAnswer};
ghost use Rattle.tmc_law.specs.Endpoint.{Endpoint};
ghost use Rattle.tmc_law.specs.State.{State, start};
ghost use Rattle.tmc_law.specs.Put.{Put, Submitted, Unlinked, success, unlinked};
ghost use Rattle.tmc_law.specs.AnswerFits.{AllAnswers};
ghost use Rattle.tmc_law.specs.Run.{Entry, Runs, inputs, outputs};
ghost use Rattle.tmc_law.specs.Told.{Tells};
ghost use Rattle.host_joint.specs.Lines.{Lines, AllFitting, InOrder};
ghost use Rattle.host_joint.specs.Unlinking.{AreApart};
ghost use Rattle.host_joint.specs.Given.{Suits};
ghost use Rattle.host_joint.specs.Hand.{Hand};
ghost use Rattle.host_joint.specs.Tie.{Tie, IsOutOrIn};
ghost use Rattle.host_joint.specs.Bond.{Situation, Bound};
ghost use Rattle.host_joint.specs.Joint.{entries_of, IsApart};
ghost use Rattle.host_joint.specs.Unplugged.{TiedUntil, BoundUntil, JointUntil};
ghost use Rattle.host_joint.specs.Hits.{TellsHit, IsOneUnlink, BoundTelling, JoinedTelling, IsNextTelling, NoneAsked, TellsHits};

use crate::{
    answers_come_until_unplugged, answers_suit_their_submits, bonds_stay,
    hosts_go_on_until_unplugged, lines_stay, no_submit_is_refused, ties_hold_until_unplugged,
};
use tmc_law::laws::{
    answers_fit, messages_are_refused_by_what_is_pending, pending_submits_are_sound, runs_join,
    runs_take_in_messages,
};
use usbip_wire::{answers_are_determined, urbs_are_determined};

/// The answer to an unlink has status -104 where the submit that it names was not answered, which it never is then; and 0 where it was
/// answered before. So it is where a host has written no unlink, and under each run, for a submit to a bulk endpoint and one unlink of it.
pub fn unlinks_tell_hits()
    ensures begins { (hand : Hand) (waits : Option SubmitHead) (next : ℕ) (ups : List up.Message) (downs : List Put) (s : State)
        → TiedUntil hand waits next ups downs s → TellsHit waits downs }
    ensures begins_bound { (situation : Situation) (waits : Option SubmitHead) (next : ℕ) (ups : List up.Message) (downs : List Put) (s : State)
        → BoundUntil situation waits [] next ups downs s → TellsHit waits downs }
    ensures run { (situation : Situation) (run : List Entry) (waits : Option SubmitHead) (unlinks : List UnlinkHead) (next : ℕ) (ups : List up.Message) (downs : List Put) (s t : State)
        → Runs s run t → IsOutOrIn waits → IsOneUnlink waits unlinks
        → BoundTelling situation waits unlinks next (inputs run ++ ups) downs s → BoundTelling situation waits unlinks next ups (downs ++ outputs run) t }
    ensures hit { (situation : Situation) (head : SubmitHead) (unlinks : List UnlinkHead) (next : ℕ) (asked : UnlinkHead) (answer : RetUnlinkHead) (ups : List up.Message) (downs : List Put) (s : State)
        → BoundTelling situation (Some head) unlinks next ups (Unlinked asked answer ∷ downs) s → answer.status ≡ unlinked }
    ensures missed { (situation : Situation) (unlinks : List UnlinkHead) (next : ℕ) (asked : UnlinkHead) (answer : RetUnlinkHead) (ups : List up.Message) (downs : List Put) (s : State)
        → BoundTelling situation None unlinks next ups (Unlinked asked answer ∷ downs) s → answer.status ≡ success }
{
    runs_join();
    answers_fit();
    pending_submits_are_sound();
    bonds_stay();
    ties_hold_until_unplugged();
}

/// The same over a link that tells its bytes and the steps of its peer: from where the unlink is written, while the device goes on,
/// and for the answer that is read next.
pub fn joints_tell_hits()
    ensures begins { (devid : ℕ) (before : Hand) (waits : Option SubmitHead) (next : ℕ) (after : Situation) (unlinks : List UnlinkHead) (later : ℕ) (message : up.Message) (text written read : List ℕ) (steps : List RunStep) (s : State)
        → up.Spells devid message text
        → ((ups : List up.Message) (downs : List Put) (s : State) → Tie before waits next ups downs s → Bound after waits unlinks later (ups ++ message ∷ []) downs s)
        → JointUntil devid before waits next written read steps s → JoinedTelling devid after waits unlinks later (written ++ text) read steps s }
    ensures writes { (devid : ℕ) (before after : Situation) (waits : Option SubmitHead) (unlinks others : List UnlinkHead) (next later : ℕ) (message : up.Message) (text written read : List ℕ) (steps : List RunStep) (s : State)
        → up.Spells devid message text
        → ((ups : List up.Message) (downs : List Put) (s : State) → Bound before waits unlinks next ups downs s → Bound after waits others later (ups ++ message ∷ []) downs s)
        → JoinedTelling devid before waits unlinks next written read steps s → JoinedTelling devid after waits others later (written ++ text) read steps s }
    ensures stay { (devid : ℕ) (situation : Situation) (waits : Option SubmitHead) (unlinks : List UnlinkHead) (next : ℕ) (written read : List ℕ) (steps more : List RunStep) (s t : State)
        → IsOutOrIn waits → IsOneUnlink waits unlinks → Tells devid s more t → IsFront (in_bytes (steps ++ more)) written
        → JoinedTelling devid situation waits unlinks next written read steps s → JoinedTelling devid situation waits unlinks next written read (steps ++ more) t }
    ensures answer { (devid : ℕ) (situation : Situation) (waits : Option SubmitHead) (unlinks : List UnlinkHead) (next : ℕ) (written read this more : List ℕ) (message : down.Message) (steps : List RunStep) (s : State)
        → IsApart waits unlinks → JoinedTelling devid situation waits unlinks next written read steps s → out_bytes steps ≡ read ++ (this ++ more)
        → SpellsAnswer (entries_of waits unlinks) message this → IsNextTelling devid situation waits unlinks message next written read this steps s }
{
    unlinks_tell_hits();
    hosts_go_on_until_unplugged();
    answers_come_until_unplugged();
    ties_hold_until_unplugged();
    no_submit_is_refused();
    runs_join();
    runs_take_in_messages();
    messages_are_refused_by_what_is_pending();
    urbs_are_determined();
    answers_are_determined();
}

/// The same of any number of submits, to any endpoints, and of any number of unlinks: the answer to each unlink has status -104 exactly where the
/// submit that it names was not answered, to the host or in an answer that comes before it, and 0 elsewhere. So it is where no unlink is
/// written, under each run, also one that unplugs the device, and behind each answer.
pub fn lists_tell_hits()
    ensures begins { (asked : Endpoint → List SubmitHead) (ups : List up.Message) (downs : List Put) (s : State) → Lines asked [] ups downs s → TellsHits asked downs }
    ensures run { (before run : List Entry) (asked : Endpoint → List SubmitHead) (unlinks : List UnlinkHead) (ups : List up.Message) (downs : List Put) (s t : State)
        → Runs start before s → Runs s run t → AllFitting (inputs run ++ ups) → InOrder (inputs run ++ ups) → AreApart asked → AllAnswers Suits downs
        → Lines asked unlinks (inputs run ++ ups) downs s → TellsHits asked downs → TellsHits asked (downs ++ outputs run) }
    ensures answer { (asked left : Endpoint → List SubmitHead) (head : SubmitHead) (answer : RetSubmitHead) (transferred : List ℕ) (downs : List Put) (endpoint : Endpoint) (rest : List SubmitHead)
        → AreApart asked → asked endpoint ≡ head ∷ rest → left endpoint ≡ rest → ((other : Endpoint) → other ≢ endpoint → left other ≡ asked other)
        → TellsHits asked (Submitted head answer transferred ∷ downs) → TellsHits left downs }
    ensures hit { (asked : Endpoint → List SubmitHead) (head : UnlinkHead) (answer : RetUnlinkHead) (downs : List Put)
        → TellsHits asked (Unlinked head answer ∷ downs) → (NoneAsked asked head.target → ⊥) → answer.status ≡ unlinked }
    ensures missed { (asked : Endpoint → List SubmitHead) (head : UnlinkHead) (answer : RetUnlinkHead) (downs : List Put)
        → TellsHits asked (Unlinked head answer ∷ downs) → NoneAsked asked head.target → answer.status ≡ success }
{
    answers_suit_their_submits();
    answers_fit();
    lines_stay();
    runs_join();
}
