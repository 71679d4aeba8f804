//! Whose bytes the tickets of an undisturbed hub have. Each function does nothing, and its contract is the law.

ghost use Rattle.std.specs.Prelude.{◌≡◌, ◌++◌, ℕ, List, [], None};
ghost use Rattle.host_hub.specs.BookSeen.{Seen};
ghost use Rattle.host_hub.specs.Calls.{All};
ghost use Rattle.host_hub.specs.Crossings.{crossings};
ghost use Rattle.host_hub.specs.Ends.{ends_by};
ghost use Rattle.host_hub.specs.Hand.{ended};
ghost use Rattle.host_hub.specs.Joined.{IsJoined, IsPlain, IsServed, IsSimple, ReadsOn};
ghost use Rattle.host_hub.specs.Law.{Lawful};
ghost use Rattle.host_hub.specs.Order.{Setting};
ghost use Rattle.host_hub.specs.Owned.{Owned};
ghost use Rattle.host_hub.specs.Record.{Past, Took, written};
ghost use Rattle.host_hub.specs.Shown.{ShowsTicket};
ghost use Rattle.host_hub.specs.Tied.{spelled};
ghost use Rattle.host_joint.specs.Hand.{Free};
ghost use Rattle.host_joint.specs.Joint.{Joint, TellsCalmly};
ghost use Rattle.host_urbs.specs.Record as urbs;
ghost use Rattle.tmc_base.specs.declared.field.Field.{Field};
ghost use Rattle.tmc_base.specs.declared.run_step.RunStep.{RunStep};
ghost use Rattle.tmc_base.specs.Told.{IsFront, in_bytes, out_bytes};
ghost use Rattle.tmc_law.specs.State.{State};
ghost use Rattle.usbip_wire.specs.Awaited.{entries_of};
ghost use Rattle.usbip_wire.specs.Down as down;
ghost use Rattle.usbip_wire.specs.Down.{SpellsAnswer};
ghost use Rattle.usbip_wire.specs.DownFed.{BadAt};
ghost use Rattle.usbip_wire.specs.declared.down.DownPhase.TheVariants.{Urbs};

use host_joint::{
    joints_stay, no_answer_is_refused, pieces_have_no_fault, the_next_answer_is_read, tickets_end,
    ties_own, writes_keep_joints,
};
use host_transfers::a_piece_is_its_transfer;
use host_urbs::what_is_spelled_may_come;

/// A hub whose record is empty is joined to a lawful device where nothing is in hand: to one at power-on, and to one at rest that the
/// host has set up.
pub fn hubs_begin_joined()
    ensures { (setting : Setting) (bytes read : List ℕ) (steps : List RunStep) (state : State) → Joint setting.devid Free None setting.first bytes read steps state
        → IsJoined setting [] bytes read steps state }
{}

/// They stay joined as the link tells further steps of the device, which nothing disturbs and which took in no more than was written;
/// and as the record goes on, by what the hub writes and by the answers that come, each as it was spelled.
pub fn hubs_stay_joined()
    ensures device { (setting : Setting) (past : Past) (bytes read : List ℕ) (steps more : List RunStep) (state later : State) → TellsCalmly setting.devid state more later
        → IsFront (in_bytes (steps ++ more)) bytes → IsJoined setting past bytes read steps state → IsJoined setting past bytes read (steps ++ more) later }
    ensures hub { (setting : Setting) (past more : Past) (bytes read all behind : List ℕ) (steps : List RunStep) (state : State) → IsSimple setting
        → Lawful setting (more ++ past) → All IsPlain more → IsJoined setting past bytes read steps state → ReadsOn setting more past read all
        → out_bytes steps ≡ all ++ behind → IsJoined setting (more ++ past) (bytes ++ spelled (written setting more)) all steps state }
{
    writes_keep_joints();
    the_next_answer_is_read();
    tickets_end();
    pieces_have_no_fault();
    joints_stay();
    a_piece_is_its_transfer();
}

/// No answer ends a hub that is joined to a lawful device: each has status 0, and nothing in it is refused.
pub fn no_answer_ends_a_hub()
    ensures { (setting : Setting) (past : Past) (answer : down.Message) (bytes read this more : List ℕ) (steps : List RunStep) (state : State) → IsSimple setting
        → Lawful setting past → ended past ≡ None → IsJoined setting past bytes read steps state → out_bytes steps ≡ read ++ (this ++ more)
        → SpellsAnswer (entries_of (urbs.outstanding (crossings setting past))) answer this → (ends_by setting past answer ≡ None) × IsServed (Took answer) }
{
    writes_keep_joints();
    the_next_answer_is_read();
    tickets_end();
    pieces_have_no_fault();
    a_piece_is_its_transfer();
    what_is_spelled_may_come();
}

/// Nor do refused bytes: no field of what came behind the answers is bad.
pub fn no_bytes_end_a_hub()
    ensures { (setting : Setting) (past : Past) (bytes read rest more : List ℕ) (steps : List RunStep) (state : State) (field : Field) → IsSimple setting
        → Lawful setting past → ended past ≡ None → IsJoined setting past bytes read steps state → out_bytes steps ≡ read ++ (rest ++ more)
        → BadAt Urbs (entries_of (urbs.outstanding (crossings setting past))) rest field → ⊥ }
{
    no_answer_is_refused();
}

/// What a ticket of such a hub has is at every moment a front of the response that the device's log gives to its own message, executed
/// once and under its own number; all of it where it is complete, and the first bytes of a longer one where it reached its limit.
pub fn tickets_own_their_bytes()
    ensures { (setting : Setting) (past : Past) (bytes read : List ℕ) (steps : List RunStep) (state : State) → IsSimple setting → Lawful setting past
        → IsJoined setting past bytes read steps state → (ticket : ℕ) (seen : Seen) → ShowsTicket past ticket seen → Owned seen state.log }
{
    ties_own();
}
