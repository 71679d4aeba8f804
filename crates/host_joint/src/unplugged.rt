//! A host whose device may be unplugged: what ties the two holds until then, and can be used for the answers that were on their way. Each
//! function does nothing, and its contract is the law.

ghost use Rattle.std.specs.Prelude.{◌≡◌, ℕ, ◌+◌, Bool, false, Some, None, List, [], ◌∷◌, ◌++◌, Option};
ghost use Rattle.tmc_base.specs.declared.field.Field.{Field};
ghost use Rattle.tmc_base.specs.declared.run_step.RunStep.{RunStep};
ghost use Rattle.tmc_base.specs.Told.{in_bytes, out_bytes, IsFront};
ghost use Rattle.usbip_wire.specs.declared.submit.SubmitHead.{SubmitHead};
ghost use Rattle.usbip_wire.specs.declared.unlink.UnlinkHead.{UnlinkHead};
ghost use Rattle.usbip_wire.specs.declared.down.DownPhase.TheVariants.{Urbs};
ghost use Rattle.usbip_wire.specs.Up as up;
ghost use Rattle.usbip_wire.specs.Down as down;
ghost use Rattle.usbip_wire.specs.Down.{SpellsAnswer};
ghost use Rattle.usbip_wire.specs.DownFed.{BadAt};
ghost use Rattle.tmc_law.specs.State.{State};
ghost use Rattle.tmc_law.specs.Put.{Put};
ghost use Rattle.tmc_law.specs.Halts.{unplug_answers};
ghost use Rattle.tmc_law.specs.Step.{Unplug, Steps};
ghost use Rattle.tmc_law.specs.Run.{Entry, Runs, inputs, outputs};
ghost use Rattle.tmc_law.specs.Told.{Tells};
ghost use Rattle.host_joint.specs.Stage.{Ran};
ghost use Rattle.host_joint.specs.Hand as hand;
ghost use Rattle.host_joint.specs.Hand.{Hand, Writes};
ghost use Rattle.host_joint.specs.Tie.{Tie, Owns, IsOwned};
ghost use Rattle.host_joint.specs.Bond.{Situation, Reading, Read, Stands, Resting, BehindClear, Bound};
ghost use Rattle.host_joint.specs.Joint.{Joint, Joined, entries_for, entries_of, IsApart};
ghost use Rattle.host_joint.specs.Unplugged.{TiedUntil, BoundUntil, HaltsNothing, NextUntil, GivenUntil, JointUntil, JoinedUntil, TellsUnhalted, IsNextUntil, IsGivenUntil};

use crate::{
    answers_are_the_expected, bonds_stay, cancelled_asks_own, no_submit_is_refused, recoveries_end,
    ties_own, ties_stay, writes_keep_ties,
};
use tmc_law::laws::{messages_are_refused_by_what_is_pending, runs_join, runs_take_in_messages};
use usbip_wire::{
    answers_are_determined, bad_fields_are_alone, bad_fields_are_refused, bad_fields_stay,
    urbs_are_determined,
};

/// What ties a host to a device, or binds it behind a cancel, does so until the device is unplugged, under each run. Behind the
/// answers that were on their way then come those to all that was pending, and nothing more happens.
pub fn ties_hold_until_unplugged()
    ensures tie { (run : List Entry) (hand : Hand) (waits : Option SubmitHead) (next : ℕ) (ups : List up.Message) (downs : List Put) (s t : State)
        → Runs s run t → HaltsNothing run → TiedUntil hand waits next (inputs run ++ ups) downs s → TiedUntil hand waits next ups (downs ++ outputs run) t }
    ensures bound { (situation : Situation) (run : List Entry) (waits : Option SubmitHead) (unlinks : List UnlinkHead) (next : ℕ) (ups : List up.Message) (downs : List Put) (s t : State)
        → Runs s run t → BoundUntil situation waits unlinks next (inputs run ++ ups) downs s → BoundUntil situation waits unlinks next ups (downs ++ outputs run) t }
{
    runs_join();
    ties_stay();
    bonds_stay();
}

/// A host that does not know yet that its device was unplugged goes on as before: what it writes, and how it is tied or bound then, is what
/// it would be. At the end of a recovery it is tied.
pub fn hosts_go_on_until_unplugged()
    ensures tie { (before after : Hand) (head : SubmitHead) (bytes : List ℕ) (next : ℕ) (ups : List up.Message) (downs : List Put) (t : State)
        → Writes before head bytes after → head.seqnum ≡ next → TiedUntil before None next ups downs t
        → TiedUntil after (Some head) (next + 1) (ups ++ up.Submit head bytes ∷ []) downs t }
    ensures cancel { (before : Hand) (waits : Option SubmitHead) (next : ℕ) (after : Situation) (left : Option SubmitHead) (unlinks : List UnlinkHead) (later : ℕ) (ups others : List up.Message) (downs : List Put) (t : State)
        → ((downs : List Put) (s : State) → Tie before waits next ups downs s → Bound after left unlinks later others downs s)
        → TiedUntil before waits next ups downs t → BoundUntil after left unlinks later others downs t }
    ensures bound { (before : Situation) (waits : Option SubmitHead) (unlinks : List UnlinkHead) (next : ℕ) (after : Situation) (left : Option SubmitHead) (more : List UnlinkHead) (later : ℕ) (ups others : List up.Message) (downs : List Put) (t : State)
        → ((downs : List Put) (s : State) → Bound before waits unlinks next ups downs s → Bound after left more later others downs s)
        → BoundUntil before waits unlinks next ups downs t → BoundUntil after left more later others downs t }
    ensures rest { (next : ℕ) (ups : List up.Message) (downs : List Put) (t : State) → t.halted.bulk_out ≡ false → t.halted.bulk_in ≡ false
        → BoundUntil (Stands Resting) None [] next ups downs t → TiedUntil hand.Free None next ups downs t }
    ensures cleared { (next : ℕ) (ups : List up.Message) (downs : List Put) (t : State) → t.halted.bulk_out ≡ false → t.halted.bulk_in ≡ false
        → BoundUntil (Stands BehindClear) None [] next ups downs t → TiedUntil hand.Free None next ups downs t }
{
    writes_keep_ties();
    recoveries_end();
}

/// The first answer on its way to such a host is what it would be; or it is the one to the submit that is not answered, tells of the
/// unplugging by its status, -108, and is the last. What binds a host behind an answer that was on its way does so until the unplugging.
pub fn answers_come_until_unplugged()
    ensures given { (hand : Hand) (head : SubmitHead) (next : ℕ) (put : Put) (ups : List up.Message) (downs : List Put) (t : State)
        → TiedUntil hand (Some head) next ups (put ∷ downs) t → GivenUntil hand head next put ups downs t }
    ensures next { (situation : Situation) (waits : Option SubmitHead) (unlinks : List UnlinkHead) (next : ℕ) (put : Put) (ups : List up.Message) (downs : List Put) (t : State)
        → BoundUntil situation waits unlinks next ups (put ∷ downs) t → NextUntil situation waits unlinks next put ups downs t }
    ensures tie_behind { (hand : Hand) (waits : Option SubmitHead) (next : ℕ) (ups : List up.Message) (front : List Put) (before t : State)
        → Steps before Unplug (unplug_answers before) t → Tie hand waits next ups front before
        → TiedUntil hand waits next ups (front ++ unplug_answers before) t }
    ensures bound_behind { (situation : Situation) (waits : Option SubmitHead) (unlinks : List UnlinkHead) (next : ℕ) (ups : List up.Message) (front : List Put) (before t : State)
        → Steps before Unplug (unplug_answers before) t → Bound situation waits unlinks next ups front before
        → BoundUntil situation waits unlinks next ups (front ++ unplug_answers before) t }
{
    answers_are_the_expected();
}

/// What such a host has of a response is a front of it at any moment, also once the device was unplugged.
pub fn unplugged_hosts_own()
    ensures tie { (hand : Hand) (waits : Option SubmitHead) (next : ℕ) (ups : List up.Message) (downs : List Put) (t : State)
        → TiedUntil hand waits next ups downs t → Owns hand t }
    ensures reading { (last : ℕ) (message : List ℕ) (tag size : ℕ) (sofar read : List ℕ) (taken : Bool) (waits : Option SubmitHead) (unlinks : List UnlinkHead) (next : ℕ) (ups : List up.Message) (downs : List Put) (t : State)
        → BoundUntil (Reading last message tag size sofar read taken) waits unlinks next ups downs t → Owns (hand.Reads last message tag size sofar read) t }
    ensures read { (last : ℕ) (message sofar : List ℕ) (waits : Option SubmitHead) (unlinks : List UnlinkHead) (next : ℕ) (ups : List up.Message) (downs : List Put) (t : State)
        → BoundUntil (Read last message sofar) waits unlinks next ups downs t → IsOwned last message sofar t }
{
    ties_own();
    cancelled_asks_own();
}

/// The same over a link that tells its bytes and the steps of its peer: two that are joined are so until the device is unplugged, whatever it does, and none of the
/// bytes is refused.
pub fn joints_stay_until_unplugged()
    ensures begins { (devid : ℕ) (hand : Hand) (waits : Option SubmitHead) (next : ℕ) (written read : List ℕ) (steps : List RunStep) (s : State)
        → Joint devid hand waits next written read steps s → JointUntil devid hand waits next written read steps s }
    ensures begins_joined { (devid : ℕ) (situation : Situation) (waits : Option SubmitHead) (unlinks : List UnlinkHead) (next : ℕ) (written read : List ℕ) (steps : List RunStep) (s : State)
        → Joined devid situation waits unlinks next written read steps s → JoinedUntil devid situation waits unlinks next written read steps s }
    ensures joint { (devid : ℕ) (hand : Hand) (waits : Option SubmitHead) (next : ℕ) (written read : List ℕ) (steps more : List RunStep) (s t : State)
        → TellsUnhalted devid s more t → IsFront (in_bytes (steps ++ more)) written
        → JointUntil devid hand waits next written read steps s → JointUntil devid hand waits next written read (steps ++ more) t }
    ensures joined { (devid : ℕ) (situation : Situation) (waits : Option SubmitHead) (unlinks : List UnlinkHead) (next : ℕ) (written read : List ℕ) (steps more : List RunStep) (s t : State)
        → Tells devid s more t → IsFront (in_bytes (steps ++ more)) written
        → JoinedUntil devid situation waits unlinks next written read steps s → JoinedUntil devid situation waits unlinks next written read (steps ++ more) t }
{
    ties_hold_until_unplugged();
    no_submit_is_refused();
    runs_join();
    runs_take_in_messages();
    messages_are_refused_by_what_is_pending();
    urbs_are_determined();
}

/// They stay joined where the host writes, where what ties them changes with no message, and at the end of a recovery.
pub fn writes_keep_joints_until_unplugged()
    ensures tie { (devid : ℕ) (before after : Hand) (head : SubmitHead) (bytes text : List ℕ) (next : ℕ) (written read : List ℕ) (steps : List RunStep) (s : State)
        → Writes before head bytes after → head.seqnum ≡ next → up.Spells devid (up.Submit head bytes) text
        → JointUntil devid before None next written read steps s → JointUntil devid after (Some head) (next + 1) (written ++ text) read steps s }
    ensures cancel { (devid : ℕ) (before : Hand) (waits : Option SubmitHead) (next : ℕ) (after : Situation) (left : Option SubmitHead) (unlinks : List UnlinkHead) (later : ℕ) (message : up.Message) (text written read : List ℕ) (steps : List RunStep) (s : State)
        → up.Spells devid message text
        → ((ups : List up.Message) (downs : List Put) (s : State) → Tie before waits next ups downs s → Bound after left unlinks later (ups ++ message ∷ []) downs s)
        → JointUntil devid before waits next written read steps s → JoinedUntil devid after left unlinks later (written ++ text) read steps s }
    ensures bound { (devid : ℕ) (before : Situation) (waits : Option SubmitHead) (unlinks : List UnlinkHead) (next : ℕ) (after : Situation) (left : Option SubmitHead) (others : List UnlinkHead) (later : ℕ) (message : up.Message) (text written read : List ℕ) (steps : List RunStep) (s : State)
        → up.Spells devid message text
        → ((ups : List up.Message) (downs : List Put) (s : State) → Bound before waits unlinks next ups downs s → Bound after left others later (ups ++ message ∷ []) downs s)
        → JoinedUntil devid before waits unlinks next written read steps s → JoinedUntil devid after left others later (written ++ text) read steps s }
    ensures goes_on { (devid : ℕ) (before : Situation) (waits : Option SubmitHead) (unlinks : List UnlinkHead) (next : ℕ) (after : Situation) (left : Option SubmitHead) (others : List UnlinkHead) (written read : List ℕ) (steps : List RunStep) (s : State)
        → ((ups : List up.Message) (downs : List Put) (s : State) → Bound before waits unlinks next ups downs s → Bound after left others next ups downs s)
        → JoinedUntil devid before waits unlinks next written read steps s → JoinedUntil devid after left others next written read steps s }
    ensures ends { (devid next : ℕ) (written read : List ℕ) (steps : List RunStep) (s : State) → s.halted.bulk_out ≡ false → s.halted.bulk_in ≡ false
        → JoinedUntil devid (Stands Resting) None [] next written read steps s → JointUntil devid hand.Free None next written read steps s }
    ensures ends_cleared { (devid next : ℕ) (written read : List ℕ) (steps : List RunStep) (s : State) → s.halted.bulk_out ≡ false → s.halted.bulk_in ≡ false
        → JoinedUntil devid (Stands BehindClear) None [] next written read steps s → JointUntil devid hand.Free None next written read steps s }
{
    hosts_go_on_until_unplugged();
}

/// What such a host reads next in the bytes that the device put out is the first answer on its way, and no field of them is bad.
pub fn the_next_answer_is_read_until_unplugged()
    ensures answer { (devid : ℕ) (hand : Hand) (head : SubmitHead) (next : ℕ) (written read this more : List ℕ) (message : down.Message) (steps : List RunStep) (s : State)
        → JointUntil devid hand (Some head) next written read steps s → out_bytes steps ≡ read ++ (this ++ more)
        → SpellsAnswer (entries_for (Some head)) message this → IsGivenUntil devid hand head message next written read this steps s }
    ensures bound { (devid : ℕ) (situation : Situation) (waits : Option SubmitHead) (unlinks : List UnlinkHead) (next : ℕ) (written read this more : List ℕ) (message : down.Message) (steps : List RunStep) (s : State)
        → IsApart waits unlinks → JoinedUntil devid situation waits unlinks next written read steps s → out_bytes steps ≡ read ++ (this ++ more)
        → SpellsAnswer (entries_of waits unlinks) message this → IsNextUntil devid situation waits unlinks message next written read this steps s }
    ensures bad { (devid : ℕ) (hand : Hand) (waits : Option SubmitHead) (next : ℕ) (written read rest more : List ℕ) (steps : List RunStep) (s : State) (f : Field)
        → JointUntil devid hand waits next written read steps s → out_bytes steps ≡ read ++ (rest ++ more) → BadAt Urbs (entries_for waits) rest f → ⊥ }
    ensures bad_bound { (devid : ℕ) (situation : Situation) (waits : Option SubmitHead) (unlinks : List UnlinkHead) (next : ℕ) (written read rest more : List ℕ) (steps : List RunStep) (s : State) (f : Field)
        → IsApart waits unlinks → JoinedUntil devid situation waits unlinks next written read steps s → out_bytes steps ≡ read ++ (rest ++ more)
        → BadAt Urbs (entries_of waits unlinks) rest f → ⊥ }
{
    answers_come_until_unplugged();
    answers_are_determined();
    bad_fields_are_alone();
    bad_fields_are_refused();
    bad_fields_stay();
}
