//! A host's messages are taken: they halt no endpoint, and none is refused. Each function does nothing, and its contract is the
//! law.

ghost use Rattle.std.specs.Prelude.{◌≡◌, ◌≤◌, ℕ, true, false, Option, List, ◌∷◌, ◌++◌};
ghost use Rattle.tmc_base.specs.declared.field.Field.{Field};
ghost use Rattle.tmc_base.specs.declared.run_step.RunStep.{RunStep};
ghost use Rattle.tmc_base.specs.Told.{in_bytes, IsFront};
ghost use Rattle.usbip_wire.specs.declared.submit.SubmitHead.{SubmitHead};
ghost use Rattle.usbip_wire.specs.declared.unlink.UnlinkHead.{UnlinkHead};
ghost use Rattle.usbip_wire.specs.Up as up;
ghost use Rattle.tmc_law.specs.Endpoint.{Endpoint};
ghost use Rattle.tmc_law.specs.State.{State, Closed, is_halted};
ghost use Rattle.tmc_law.specs.Put.{Put};
ghost use Rattle.tmc_law.specs.Queues.{pending_most};
ghost use Rattle.tmc_law.specs.Step.{Move, Halt, Steps, IsOver};
ghost use Rattle.tmc_law.specs.Run.{taken};
ghost use Rattle.tmc_law.specs.Told.{Tells};
ghost use Rattle.host_joint.specs.Lines.{Lines, Fitting};
ghost use Rattle.host_joint.specs.Unlinking.{IsBulk, AreApart, total_of};
ghost use Rattle.host_joint.specs.Asking.{Ask, Asking};
ghost use Rattle.host_joint.specs.Hand.{Hand};
ghost use Rattle.host_joint.specs.Bond.{Situation};
ghost use Rattle.host_joint.specs.Joint.{TellsCalmly, TellsPlugged, Joint, Joined};
ghost use Rattle.host_joint.specs.Unplugged.{TellsUnhalted, JointUntil, JoinedUntil};

use crate::{joints_stay, joints_stay_until_unplugged};
use tmc_law::laws::halts_have_causes;
use tmc_wire::headers_are_read_again;

/// While an ask is in hand, a bulk endpoint halts only where the device halts it by itself: no header, no length and no size of
/// the ask's submits is a cause.
pub fn asks_halt_nothing()
    ensures { (ask : Ask) (s t : State) (move : Move) (ups : List up.Message) (downs puts : List Put) (endpoint : Endpoint) → IsBulk endpoint
        → Steps s move puts t → Asking ask (taken move ++ ups) downs s → is_halted endpoint s ≡ false → is_halted endpoint t ≡ true
        → move ≡ Halt endpoint }
{
    halts_have_causes();
    headers_are_read_again();
}

/// Where a host's unanswered submits have numbers of their own and are at most as many as a device takes, none that comes is one
/// too many, or has the number of one that is pending.
pub fn no_submit_is_refused()
    ensures { (asked : Endpoint → List SubmitHead) (unlinks : List UnlinkHead) (head : SubmitHead) (transferred : List ℕ) (ups : List up.Message) (downs : List Put) (s : State) (f : Field)
        → Fitting head → AreApart asked → total_of asked ≤ pending_most → Lines asked unlinks (up.Submit head transferred ∷ ups) downs s
        → IsOver s head f → ⊥ }
{}

/// Over a link, a device that tells its run to such a host never closes at a field of what the host wrote: while nothing disturbs it, behind a
/// cancel and in a recovery, and also where it is unplugged.
pub fn no_bytes_are_refused()
    ensures joint { (devid : ℕ) (hand : Hand) (waits : Option SubmitHead) (next : ℕ) (written read : List ℕ) (steps more : List RunStep) (s t : State) (f : Field)
        → TellsCalmly devid s more t → IsFront (in_bytes (steps ++ more)) written → Joint devid hand waits next written read steps s
        → t.presence ≡ Closed f → ⊥ }
    ensures joined { (devid : ℕ) (situation : Situation) (waits : Option SubmitHead) (unlinks : List UnlinkHead) (next : ℕ) (written read : List ℕ) (steps more : List RunStep) (s t : State) (f : Field)
        → TellsPlugged devid s more t → IsFront (in_bytes (steps ++ more)) written → Joined devid situation waits unlinks next written read steps s
        → t.presence ≡ Closed f → ⊥ }
    ensures joint_until { (devid : ℕ) (hand : Hand) (waits : Option SubmitHead) (next : ℕ) (written read : List ℕ) (steps more : List RunStep) (s t : State) (f : Field)
        → TellsUnhalted devid s more t → IsFront (in_bytes (steps ++ more)) written → JointUntil devid hand waits next written read steps s
        → t.presence ≡ Closed f → ⊥ }
    ensures joined_until { (devid : ℕ) (situation : Situation) (waits : Option SubmitHead) (unlinks : List UnlinkHead) (next : ℕ) (written read : List ℕ) (steps more : List RunStep) (s t : State) (f : Field)
        → Tells devid s more t → IsFront (in_bytes (steps ++ more)) written → JoinedUntil devid situation waits unlinks next written read steps s
        → t.presence ≡ Closed f → ⊥ }
{
    joints_stay();
    joints_stay_until_unplugged();
}
