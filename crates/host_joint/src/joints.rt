//! A tied host and device at the two ends of a link that tells its bytes and its peer's steps. Each function does nothing, and its
//! contract is the law.

ghost use Rattle.std.specs.Prelude.{◌≡◌, ◌≢◌, ℕ, ◌+◌, Some, None, List, [], ◌∷◌, ◌++◌, Option};
ghost use Rattle.tmc_base.specs.declared.field.Field.{Field};
ghost use Rattle.tmc_base.specs.declared.run_step.RunStep.{RunStep};
ghost use Rattle.tmc_base.specs.Told.{in_bytes, out_bytes, IsFront};
ghost use Rattle.usbip_wire.specs.declared.submit.SubmitHead.{SubmitHead};
ghost use Rattle.usbip_wire.specs.declared.down.DownPhase.TheVariants.{Urbs};
ghost use Rattle.usbip_wire.specs.Up as up;
ghost use Rattle.usbip_wire.specs.Down as down;
ghost use Rattle.usbip_wire.specs.Down.{SpellsAnswer};
ghost use Rattle.usbip_wire.specs.DownFed.{BadAt};
ghost use Rattle.tmc_law.specs.State.{State, start, Closed};
ghost use Rattle.tmc_law.specs.Put.{Put};
ghost use Rattle.host_joint.specs.Stage.{Ran};
ghost use Rattle.host_joint.specs.Hand.{Hand, Free, Writes};
ghost use Rattle.host_joint.specs.Tie.{Tie};
ghost use Rattle.usbip_wire.specs.declared.unlink.UnlinkHead.{UnlinkHead};
ghost use Rattle.host_joint.specs.Bond.{Situation, Bound};
ghost use Rattle.host_joint.specs.Joint.{TellsCalmly, TellsPlugged, Joint, Joined, entries_for, entries_of, IsApart, IsNextAnswer, IsNextOf};

use crate::{
    answers_are_the_expected, bonds_stay, no_submit_is_refused, ties_begin, ties_stay,
    writes_keep_ties,
};
use tmc_law::laws::{messages_are_refused_by_what_is_pending, runs_join, runs_take_in_messages};
use usbip_wire::{
    answers_are_determined, bad_fields_are_alone, bad_fields_are_refused, bad_fields_stay,
    urbs_are_determined,
};

/// A host that has written nothing is joined to a device at power-on; and a host that has nothing in hand to a tied device that took in
/// all that was written, where all that it put out was read.
pub fn joints_begin()
    ensures power_on { (devid next : ℕ) → Joint devid Free None next [] [] [] start }
    ensures rest { (devid next : ℕ) (steps : List RunStep) (s : State) → ((f : Field) → s.presence ≡ Closed f → ⊥)
        → Tie Free None next [] [] s → Joint devid Free None next (in_bytes steps) (out_bytes steps) steps s }
{
    ties_begin();
}

/// They stay joined while the link tells more steps of the device that nothing disturbs, which took in no more than was written; and behind a
/// cancel, of a device that is not unplugged. None of the bytes is refused, and a message that was executed keeps its response.
pub fn joints_stay()
    ensures joint { (devid : ℕ) (hand : Hand) (waits : Option SubmitHead) (next : ℕ) (written read : List ℕ) (steps more : List RunStep) (s t : State)
        → TellsCalmly devid s more t → IsFront (in_bytes (steps ++ more)) written
        → Joint devid hand waits next written read steps s → Joint devid hand waits next written read (steps ++ more) t }
    ensures ran { (devid : ℕ) (hand : Hand) (waits : Option SubmitHead) (next n : ℕ) (message response written read : List ℕ) (steps more : List RunStep) (s t : State)
        → TellsCalmly devid s more t → IsFront (in_bytes (steps ++ more)) written
        → Joint devid hand waits next written read steps s → Ran n message response s.log → Ran n message response t.log }
    ensures joined { (devid : ℕ) (situation : Situation) (waits : Option SubmitHead) (unlinks : List UnlinkHead) (next : ℕ) (written read : List ℕ) (steps more : List RunStep) (s t : State)
        → TellsPlugged devid s more t → IsFront (in_bytes (steps ++ more)) written
        → Joined devid situation waits unlinks next written read steps s → Joined devid situation waits unlinks next written read (steps ++ more) t }
    ensures ran_joined { (devid : ℕ) (situation : Situation) (waits : Option SubmitHead) (unlinks : List UnlinkHead) (next n : ℕ) (message response written read : List ℕ) (steps more : List RunStep) (s t : State)
        → TellsPlugged devid s more t → IsFront (in_bytes (steps ++ more)) written
        → Joined devid situation waits unlinks next written read steps s → Ran n message response s.log → Ran n message response t.log }
{
    ties_stay();
    bonds_stay();
    no_submit_is_refused();
    runs_join();
    runs_take_in_messages();
    messages_are_refused_by_what_is_pending();
    urbs_are_determined();
}

/// So they do where the host writes a submit, in any spelling; where it cancels, and where a recovery writes, in what binds them then; and
/// where that changes with no message.
pub fn writes_keep_joints()
    ensures cancel { (devid : ℕ) (before : Hand) (waits : Option SubmitHead) (next : ℕ) (after : Situation) (left : Option SubmitHead) (unlinks : List UnlinkHead) (later : ℕ) (message : up.Message) (text written read : List ℕ) (steps : List RunStep) (s : State)
        → up.Spells devid message text
        → ((ups : List up.Message) (downs : List Put) → Tie before waits next ups downs s → Bound after left unlinks later (ups ++ message ∷ []) downs s)
        → Joint devid before waits next written read steps s → Joined devid after left unlinks later (written ++ text) read steps s }
    ensures bound { (devid : ℕ) (before : Situation) (waits : Option SubmitHead) (unlinks : List UnlinkHead) (next : ℕ) (after : Situation) (left : Option SubmitHead) (others : List UnlinkHead) (later : ℕ) (message : up.Message) (text written read : List ℕ) (steps : List RunStep) (s : State)
        → up.Spells devid message text
        → ((ups : List up.Message) (downs : List Put) → Bound before waits unlinks next ups downs s → Bound after left others later (ups ++ message ∷ []) downs s)
        → Joined devid before waits unlinks next written read steps s → Joined devid after left others later (written ++ text) read steps s }
    ensures goes_on { (devid : ℕ) (before : Situation) (waits : Option SubmitHead) (unlinks : List UnlinkHead) (next : ℕ) (after : Situation) (left : Option SubmitHead) (others : List UnlinkHead) (written read : List ℕ) (steps : List RunStep) (s : State)
        → ((ups : List up.Message) (downs : List Put) → Bound before waits unlinks next ups downs s → Bound after left others next ups downs s)
        → Joined devid before waits unlinks next written read steps s → Joined devid after left others next written read steps s }
    ensures ends { (devid : ℕ) (before : Situation) (waits : Option SubmitHead) (unlinks : List UnlinkHead) (next : ℕ) (after : Hand) (left : Option SubmitHead) (written read : List ℕ) (steps : List RunStep) (s : State)
        → ((ups : List up.Message) (downs : List Put) → Bound before waits unlinks next ups downs s → Tie after left next ups downs s)
        → Joined devid before waits unlinks next written read steps s → Joint devid after left next written read steps s }
    ensures tie { (devid : ℕ) (before after : Hand) (head : SubmitHead) (bytes text : List ℕ) (next : ℕ) (written read : List ℕ) (steps : List RunStep) (s : State)
        → Writes before head bytes after → head.seqnum ≡ next → up.Spells devid (up.Submit head bytes) text
        → Joint devid before None next written read steps s → Joint devid after (Some head) (next + 1) (written ++ text) read steps s }
{
    writes_keep_ties();
}

/// What the host reads next in the bytes that the device put out is the answer to its one submit, as
/// [`answers_are_the_expected`](crate::answers_are_the_expected) says; and where it waits for none, no bytes are left. Behind a cancel it is the first
/// answer that is on its way.
pub fn the_next_answer_is_read()
    ensures answer { (devid : ℕ) (hand : Hand) (head : SubmitHead) (next : ℕ) (written read this more : List ℕ) (message : down.Message) (steps : List RunStep) (s : State)
        → Joint devid hand (Some head) next written read steps s → out_bytes steps ≡ read ++ (this ++ more)
        → SpellsAnswer (entries_for (Some head)) message this → IsNextAnswer devid hand head message next written read this steps s }
    ensures bound { (devid : ℕ) (situation : Situation) (waits : Option SubmitHead) (unlinks : List UnlinkHead) (next : ℕ) (written read this more : List ℕ) (message : down.Message) (steps : List RunStep) (s : State)
        → IsApart waits unlinks → Joined devid situation waits unlinks next written read steps s → out_bytes steps ≡ read ++ (this ++ more)
        → SpellsAnswer (entries_of waits unlinks) message this → IsNextOf devid situation waits unlinks message next written read this steps s }
    ensures none { (devid : ℕ) (hand : Hand) (next : ℕ) (written read : List ℕ) (steps : List RunStep) (s : State)
        → Joint devid hand None next written read steps s → out_bytes steps ≡ read }
{
    answers_are_the_expected();
    answers_are_determined();
}

/// No field of these bytes is bad, however many of them have come; and where some have come, all that was written was taken in before.
pub fn no_answer_is_refused()
    ensures bad { (devid : ℕ) (hand : Hand) (waits : Option SubmitHead) (next : ℕ) (written read rest more : List ℕ) (steps : List RunStep) (s : State) (f : Field)
        → Joint devid hand waits next written read steps s → out_bytes steps ≡ read ++ (rest ++ more) → BadAt Urbs (entries_for waits) rest f → ⊥ }
    ensures bad_bound { (devid : ℕ) (situation : Situation) (waits : Option SubmitHead) (unlinks : List UnlinkHead) (next : ℕ) (written read rest more : List ℕ) (steps : List RunStep) (s : State) (f : Field)
        → IsApart waits unlinks → Joined devid situation waits unlinks next written read steps s → out_bytes steps ≡ read ++ (rest ++ more)
        → BadAt Urbs (entries_of waits unlinks) rest f → ⊥ }
    ensures taken_in { (devid : ℕ) (hand : Hand) (waits : Option SubmitHead) (next : ℕ) (written read : List ℕ) (steps : List RunStep) (s : State)
        → Joint devid hand waits next written read steps s → out_bytes steps ≢ read → in_bytes steps ≡ written }
{
    answers_are_the_expected();
    bad_fields_are_alone();
    bad_fields_are_refused();
    bad_fields_stay();
}
