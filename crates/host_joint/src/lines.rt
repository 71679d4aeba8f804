//! Messages in flight: the submits and unlinks that were not answered are on their way, pending, or answered on the way back.
//! Each function does nothing, and its contract is the law.

ghost use Rattle.std.specs.Prelude.{◌≡◌, ◌≢◌, ℕ, List, [], ◌∷◌, ◌++◌};
ghost use Rattle.usbip_wire.specs.declared.submit.SubmitHead.{SubmitHead};
ghost use Rattle.usbip_wire.specs.declared.unlink.UnlinkHead.{UnlinkHead};
ghost use Rattle.usbip_wire.specs.Up as up;
ghost use Rattle.tmc_law.specs.Endpoint.{Endpoint, number_of};
ghost use Rattle.tmc_law.specs.State.{State, start};
ghost use Rattle.tmc_law.specs.Put.{Put, Submitted, Unlinked};
ghost use Rattle.tmc_law.specs.Step.{Move, Steps};
ghost use Rattle.tmc_law.specs.Run.{Entry, Runs, taken, inputs, outputs};
ghost use Rattle.usbip_wire.specs.declared.ret_submit.RetSubmitHead.{RetSubmitHead};
ghost use Rattle.usbip_wire.specs.declared.ret_unlink.RetUnlinkHead.{RetUnlinkHead};
ghost use Rattle.host_joint.specs.Unlinking.{IsNamed};
ghost use Rattle.host_joint.specs.Lines.{Lines, EmptyLine, without, unlinked_by, AllFitting, InOrder};

use tmc_law::laws::{pending_submits_are_sound, runs_join, steps_act};

/// They stay so under each step of a device, and under each run: what the device takes in stood in front of the messages on
/// their way, and what it puts out stands behind the answers on their way.
pub fn lines_stay()
    ensures step { (run : List Entry) (asked : Endpoint → List SubmitHead) (unlinks : List UnlinkHead) (s t : State) (move : Move) (puts : List Put) (ups : List up.Message) (downs : List Put)
        → Runs start run s → Steps s move puts t → AllFitting (taken move ++ ups) → InOrder (taken move ++ ups)
        → Lines asked unlinks (taken move ++ ups) downs s → Lines asked unlinks ups (downs ++ puts) t }
    ensures run { (before run : List Entry) (asked : Endpoint → List SubmitHead) (unlinks : List UnlinkHead) (s t : State) (ups : List up.Message) (downs : List Put)
        → Runs start before s → Runs s run t → AllFitting (inputs run ++ ups) → InOrder (inputs run ++ ups)
        → Lines asked unlinks (inputs run ++ ups) downs s → Lines asked unlinks ups (downs ++ outputs run) t }
{
    pending_submits_are_sound();
    steps_act();
    runs_join();
}

/// Where a host has no unanswered unlink, and no unanswered submit of an endpoint, nothing of that endpoint is on its way or
/// pending.
pub fn what_is_answered_is_over()
    ensures { (asked : Endpoint → List SubmitHead) (endpoint : Endpoint) (ups : List up.Message) (downs : List Put) (s : State)
        → Lines asked [] ups downs s → asked endpoint ≡ [] → EmptyLine endpoint ups downs s }
{}

/// What a host does with its lists. At power-on they are empty. A submit that it writes is the last of its endpoint's list, where
/// no answer on its way is to an unlink of that number, and an unlink the last of the unlinks. The answer to a submit is to the first
/// of its endpoint's list, and that to an unlink to the first unlink, whose submit is over then.
pub fn hosts_keep_lines()
    ensures begins { (asked : Endpoint → List SubmitHead) → ((endpoint : Endpoint) → asked endpoint ≡ []) → Lines asked [] [] [] start }
    ensures submit { (asked later : Endpoint → List SubmitHead) (unlinks : List UnlinkHead) (ups : List up.Message) (downs : List Put) (s : State) (endpoint : Endpoint) (head : SubmitHead) (transferred : List ℕ)
        → head.ep ≡ number_of endpoint → later endpoint ≡ asked endpoint ++ head ∷ []
        → ((other : Endpoint) → other ≢ endpoint → later other ≡ asked other) → (IsNamed (unlinked_by downs) head.seqnum → ⊥)
        → Lines asked unlinks ups downs s → Lines later unlinks (ups ++ up.Submit head transferred ∷ []) downs s }
    ensures unlink { (asked : Endpoint → List SubmitHead) (unlinks : List UnlinkHead) (ups : List up.Message) (downs : List Put) (s : State) (head : UnlinkHead)
        → Lines asked unlinks ups downs s → Lines asked (unlinks ++ head ∷ []) (ups ++ up.Unlink head ∷ []) downs s }
    ensures answer { (asked : Endpoint → List SubmitHead) (unlinks : List UnlinkHead) (ups : List up.Message) (head : SubmitHead) (answer : RetSubmitHead) (transferred : List ℕ) (downs : List Put) (s : State) (endpoint : Endpoint)
        → head.ep ≡ number_of endpoint → Lines asked unlinks ups (Submitted head answer transferred ∷ downs) s
        → (rest : List SubmitHead) × (asked endpoint ≡ head ∷ rest)
        × ((later : Endpoint → List SubmitHead) → later endpoint ≡ rest → ((other : Endpoint) → other ≢ endpoint → later other ≡ asked other)
        → Lines later unlinks ups downs s) }
    ensures unlink_answer { (asked : Endpoint → List SubmitHead) (unlinks : List UnlinkHead) (ups : List up.Message) (head : UnlinkHead) (answer : RetUnlinkHead) (downs : List Put) (s : State)
        → Lines asked unlinks ups (Unlinked head answer ∷ downs) s
        → (rest : List UnlinkHead) × (unlinks ≡ head ∷ rest) × Lines (λ endpoint. without head.target (asked endpoint)) rest ups downs s }
{}
