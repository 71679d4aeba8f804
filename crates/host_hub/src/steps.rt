//! The steps of a call over the record: what it adds, and that the laws are kept. Each function does nothing, and its
//! contract is the law.
//!
//! A call begins at a kept record. In its midst the hub works (`Working`): every ticket that has a cause is settled, and no
//! unlink is due. The call ends where nothing more is due and something is waited for, or where the hub has ended.

ghost use Rattle.std.specs.Prelude.{◌≡◌, ◌≢◌, ◌<◌, ℕ, pos, Bool, true, false, None, Some, List, [], ◌∷◌};
ghost use Rattle.std.specs.Bool.{MatchBool};
ghost use Rattle.usbip_wire.specs.Down as down;
ghost use Rattle.usbip_wire.specs.declared.ret_submit.RetSubmitHead.{RetSubmitHead};
ghost use Rattle.host_urbs.specs.Law.{MayTake};
ghost use Rattle.host_hub.specs.declared.outcome.End.{End};
ghost use Rattle.host_hub.specs.declared.outcome.End.TheVariants as end;
ghost use Rattle.host_hub.specs.declared.outcome.Outcome.{Outcome};
ghost use Rattle.host_hub.specs.Order.{Order, Setting, is_unlink};
ghost use Rattle.host_hub.specs.Needs.{overs, owed, split_at};
ghost use Rattle.host_hub.specs.Record.{Past, Asking, Took, Fell, Stopped, GaveUp, Settled};
ghost use Rattle.host_hub.specs.Crossings.{crossings};
ghost use Rattle.host_hub.specs.Hand.{is_begun, ended};
ghost use Rattle.host_hub.specs.Outstanding.{Sent, busy, outstanding};
ghost use Rattle.host_hub.specs.Book.{active, asking_of, has, live};
ghost use Rattle.host_hub.specs.Pieces.{pieces};
ghost use Rattle.host_hub.specs.Status.{awaits, is_status_kind};
ghost use Rattle.host_hub.specs.Made.{judged, made_at, standing};
ghost use Rattle.host_hub.specs.Causes.{reached};
ghost use Rattle.host_hub.specs.Unlinks.{unlinks_due};
ghost use Rattle.host_hub.specs.Plan.{When, first_order, follows, last, next_tag, parts, planned, status_order};
ghost use Rattle.host_hub.specs.Recovery.{AreRecovered};
ghost use Rattle.host_hub.specs.Ends.{end_due, ends_by};
ghost use Rattle.host_hub.specs.Law.{Begins, Kept, Lawful, Planned, StopLaw, Waits};
ghost use Rattle.host_hub.specs.Steps.{Comes, IsClean, MayWriteNext, Notifies, Speaks, Working, asked, settle_all, took, wrote};

/// A ticket is asked of a hub that runs. Whatever else it does then, it works.
pub fn a_ticket_is_asked()
    ensures { (setting : Setting) (past : Past) (asking : Asking) → Kept setting past → ended past ≡ None → Working setting (asked past asking) }
{}

/// The first submit of the active ticket is due where no other message is unanswered and the recoveries are over; a further
/// one, where it is the next of the plan and it is time.
pub fn a_submit_is_due()
    ensures first { (setting : Setting) (past : Past) (ticket : ℕ) (asking : Asking) (order : Order) → Working setting past → active past ≡ Some ticket
        → is_begun ticket past ≡ false → busy (outstanding past) ≡ [] → AreRecovered past → Speaks past ticket asking
        → first_order asking.kind asking.message (next_tag past) ≡ Some order → Planned setting past ticket order }
    ensures next { (setting : Setting) (past : Past) (ticket : ℕ) (asking : Asking) (order : Order) → active past ≡ Some ticket
        → is_begun ticket past ≡ true → reached ticket past ≡ None → Speaks past ticket asking
        → follows asking (last ticket past) (next_tag past) (parts ticket past) (pieces ticket past) ≡ Some order
        → When setting (pieces ticket past) (awaits ticket past) order → Planned setting past ticket order }
{}

/// A submit that is due is written, and the hub works on; at depth 1 it then waits.
pub fn a_submit_is_written()
    ensures works { (setting : Setting) (past : Past) (ticket : ℕ) (order : Order) → Working setting past → Planned setting past ticket order
        → is_unlink order ≡ false → MayWriteNext setting past order → unlinks_due setting (ended past) (wrote setting past ticket order) ≡ []
        → Working setting (wrote setting past ticket order) }
    ensures waits { (setting : Setting) (past : Past) (ticket : ℕ) (asking : Asking) (order : Order) → setting.depth ≡ 1 → Working setting past
        → Speaks past ticket asking → Planned setting past ticket order → MayWriteNext setting past order → Kept setting (wrote setting past ticket order) }
{}

/// What an answer makes of the active ticket is judged by the submit that it answers. Where it makes nothing, the hub works
/// on; where it makes an outcome, the ticket settles by that, and the hub works on. At depth 1 no unlink is due then.
pub fn an_answer_comes()
    ensures made { (setting : Setting) (past : Past) (ticket number : ℕ) (order : Order) (asking : Asking) (head : RetSubmitHead) (bytes : List ℕ)
        → Comes setting past ticket number order head bytes → asking_of ticket past ≡ Some asking
        → made_at setting ticket past (Took (down.RetSubmit head bytes)) ≡ judged setting asking order head bytes (standing setting ticket (took past head bytes)) }
    ensures goes_on { (setting : Setting) (past : Past) (ticket number : ℕ) (order : Order) (head : RetSubmitHead) (bytes : List ℕ) → Kept setting past
        → ended past ≡ None → Comes setting past ticket number order head bytes → made_at setting ticket past (Took (down.RetSubmit head bytes)) ≡ None
        → reached ticket past ≡ None → end_due (took past head bytes) ≡ None → unlinks_due setting (ended past) (took past head bytes) ≡ []
        → Working setting (took past head bytes) }
    ensures settles { (setting : Setting) (past : Past) (ticket number : ℕ) (order : Order) (outcome : Outcome) (head : RetSubmitHead) (bytes : List ℕ)
        → Kept setting past → ended past ≡ None → Comes setting past ticket number order head bytes
        → made_at setting ticket past (Took (down.RetSubmit head bytes)) ≡ Some outcome → end_due (took past head bytes) ≡ None
        → unlinks_due setting (ended past) (Settled ticket outcome ∷ took past head bytes) ≡ [] → Working setting (Settled ticket outcome ∷ took past head bytes) }
    ensures no_unlinks { (setting : Setting) (past : Past) (ticket : ℕ) (head : RetSubmitHead) (bytes : List ℕ) → setting.depth ≡ 1 → Kept setting past
        → ended past ≡ None → active past ≡ Some ticket → reached ticket past ≡ None → unlinks_due setting (ended past) (took past head bytes) ≡ [] }
    ensures none_settled { (setting : Setting) (past : Past) (ticket : ℕ) (outcome : Outcome) (head : RetSubmitHead) (bytes : List ℕ) → setting.depth ≡ 1
        → Kept setting past → ended past ≡ None → active past ≡ Some ticket
        → unlinks_due setting (ended past) (Settled ticket outcome ∷ took past head bytes) ≡ [] }
{}

/// A hub that works may stop where nothing more is due and something is waited for: where no ticket is live, where the active
/// one has not begun and another message is unanswered, where its plan has nothing more, and, at depth 1, where it waits.
pub fn a_hub_waits()
    ensures rests { (setting : Setting) (past : Past) → Working setting past → ((ticket : ℕ) (order : Order) → Planned setting past ticket order → ⊥)
        → Waits past → Kept setting past }
    ensures idle { (setting : Setting) (past : Past) → Working setting past → active past ≡ None → (busy (outstanding past) ≡ [] → AreRecovered past)
        → Kept setting past }
    ensures queued { (setting : Setting) (past : Past) (ticket : ℕ) → Working setting past → active past ≡ Some ticket → is_begun ticket past ≡ false
        → busy (outstanding past) ≢ [] → Kept setting past }
    ensures planned { (setting : Setting) (past : Past) (ticket : ℕ) → Working setting past → active past ≡ Some ticket → is_begun ticket past ≡ true
        → planned setting ticket (asking_of ticket past) past ≡ None → awaits ticket past ≢ [] → busy (outstanding past) ≢ [] → Kept setting past }
    ensures waiting { (setting : Setting) (past : Past) (ticket : ℕ) (asking : Asking) → setting.depth ≡ 1 → Working setting past → active past ≡ Some ticket
        → is_begun ticket past ≡ true → Speaks past ticket asking → awaits ticket past ≢ [] → busy (outstanding past) ≢ [] → Kept setting past }
{}

/// A hub ends: by an answer, by any other law of its end, or since it is given up; and where an answer makes an outcome of its
/// ticket, and is one from which the hub does not recover, behind that outcome. Every live ticket settles by the end, in their
/// order, and nothing is owed.
pub fn a_hub_ends()
    ensures fell { (setting : Setting) (past : Past) (answer : down.Message) (e : End) → Kept setting past → ended past ≡ None
        → MayTake (crossings setting past) answer → ends_by setting past answer ≡ Some e → Kept setting (settle_all e (live past) (Fell answer e ∷ past)) }
    ensures stopped { (setting : Setting) (past : Past) (e : End) → Lawful setting past → ended past ≡ None → StopLaw setting past e
        → Kept setting (settle_all e (live past) (Stopped e ∷ past)) }
    ensures given_up { (setting : Setting) (past : Past) → Kept setting past → ended past ≡ None
        → Kept setting (settle_all end.GivenUp (live past) (Stopped end.GivenUp ∷ GaveUp ∷ past)) }
    ensures failed { (setting : Setting) (past : Past) (ticket number : ℕ) (order : Order) (outcome : Outcome) (head : RetSubmitHead) (bytes : List ℕ) (e : End)
        → Kept setting past → ended past ≡ None → Comes setting past ticket number order head bytes
        → made_at setting ticket past (Took (down.RetSubmit head bytes)) ≡ Some outcome → end_due (took past head bytes) ≡ Some e
        → Kept setting (settle_all e (live (Settled ticket outcome ∷ took past head bytes)) (Stopped e ∷ Settled ticket outcome ∷ took past head bytes)) }
{}

/// A ticket in hand that has no trouble stays so: as it begins, with each further submit and each answer with status 0, as
/// another ticket is asked, and as one settles. Where the last part of its message was accepted and no response is owed, no
/// recovery is called for, and the next ticket may begin.
pub fn a_ticket_stays_clean()
    ensures begins { (setting : Setting) (past : Past) (ticket : ℕ) (order : Order) → AreRecovered past → is_begun ticket past ≡ false
        → is_unlink order ≡ false → IsClean (wrote setting past ticket order) ticket false }
    ensures writes { (setting : Setting) (past : Past) (ticket : ℕ) (split : Bool) (order : Order) → IsClean past ticket split → is_unlink order ≡ false
        → IsClean (wrote setting past ticket order) ticket split }
    ensures answers { (setting : Setting) (past : Past) (ticket number : ℕ) (split : Bool) (order : Order) (head : RetSubmitHead) (bytes : List ℕ)
        → IsClean past ticket split → Comes setting past ticket number order head bytes → head.status ≡ pos 0
        → IsClean (took past head bytes) ticket (split_at order split) }
    ensures asked { (past : Past) (ticket : ℕ) (split : Bool) (asking : Asking) → IsClean past ticket split → IsClean (asked past asking) ticket split }
    ensures settles { (past : Past) (ticket other : ℕ) (split : Bool) (outcome : Outcome) → IsClean past ticket split
        → IsClean (Settled other outcome ∷ past) ticket split }
    ensures recovered { (past : Past) (ticket : ℕ) → IsClean past ticket false → owed (pieces ticket past) (overs ticket past) ≡ None → AreRecovered past }
{}

/// A status read: which submit of it is due, and a packet that comes while it is active.
pub fn a_status_read_goes_on()
    ensures due { (setting : Setting) (past : Past) (ticket : ℕ) (asking : Asking) (order : Order) → active past ≡ Some ticket → reached ticket past ≡ None
        → asking_of ticket past ≡ Some asking → is_status_kind asking.kind ≡ true
        → MatchBool (is_begun ticket past) (When setting (pieces ticket past) (awaits ticket past) order) (Begins past)
        → status_order setting ticket past ≡ Some order → Planned setting past ticket order }
    ensures goes_on { (setting : Setting) (past : Past) (ticket : ℕ) (sent : Sent) (head : RetSubmitHead) (bytes : List ℕ) → Kept setting past
        → ended past ≡ None → Notifies setting past ticket sent head bytes → made_at setting ticket past (Took (down.RetSubmit head bytes)) ≡ None
        → reached ticket past ≡ None → end_due (took past head bytes) ≡ None → unlinks_due setting (ended past) (took past head bytes) ≡ []
        → Working setting (took past head bytes) }
    ensures settles { (setting : Setting) (past : Past) (ticket : ℕ) (sent : Sent) (outcome : Outcome) (head : RetSubmitHead) (bytes : List ℕ)
        → Kept setting past → ended past ≡ None → Notifies setting past ticket sent head bytes
        → made_at setting ticket past (Took (down.RetSubmit head bytes)) ≡ Some outcome → end_due (took past head bytes) ≡ None
        → unlinks_due setting (ended past) (Settled ticket outcome ∷ took past head bytes) ≡ [] → Working setting (Settled ticket outcome ∷ took past head bytes) }
{}
