//! What holds of each record. Each function does nothing, and its contract is the law.

ghost use Rattle.std.specs.Prelude.{◌≡◌, ℕ, ◌+◌, ◌<◌, ◌≤◌, true, false, Option, Some, None, List, ◌∷◌, ◌++◌, length};
ghost use Rattle.usbip_wire.specs.declared.dirs.TheConstants.{DIRS_MAX};
ghost use Rattle.host_urbs.specs.Law as urbs_law;
ghost use Rattle.host_hub.specs.Law.{Lawful};
ghost use Rattle.host_hub.specs.Outstanding.{Sent, find, outstanding, awaited_by};
ghost use Rattle.host_hub.specs.Hand.{ended};
ghost use Rattle.host_hub.specs.Steps.{MayWriteNext};
ghost use Rattle.host_hub.specs.Unlinks.{unlinks_due};
ghost use Rattle.host_urbs.specs.declared.limits.TheConstants.{LAST_SUBMIT};
ghost use Rattle.host_urbs.specs.Law.{MayTake};
ghost use Rattle.usbip_wire.specs.RetSubmit.{Returns};
ghost use Rattle.usbip_wire.specs.declared.ret_submit.RetSubmitHead.{RetSubmitHead};
ghost use Rattle.usbip_wire.specs.declared.ret_unlink.RetUnlinkHead.{RetUnlinkHead};
ghost use Rattle.host_hub.specs.declared.outcome.Outcome.{Outcome};
ghost use Rattle.host_hub.specs.Book.{has, live, tickets, settled, KeepsBook};
ghost use Rattle.host_hub.specs.Crossings.{crossings};
ghost use Rattle.host_hub.specs.Order.{Order, Setting, Unlink, is_unlink, message_of, size_of, way_of};
ghost use Rattle.host_hub.specs.Record.{Past, Marked, written, taken, book, next};
ghost use Rattle.host_urbs.specs.Record as urbs;
ghost use Rattle.host_urbs.specs.Unanswered.{seqnum_of};
ghost use Rattle.usbip_wire.specs.Down as down;
ghost use Rattle.usbip_wire.specs.Up as up;

use host_urbs::few_are_outstanding;

/// The messages written and the answers taken are those of the record of messages, for which `host_urbs` says what is
/// outstanding, and so is the next number.
pub fn messages_are_crossings()
    ensures written { (setting : Setting) (past : Past) → written setting past ≡ urbs.written (crossings setting past) }
    ensures taken { (setting : Setting) (past : Past) → taken past ≡ urbs.taken (crossings setting past) }
    ensures next { (setting : Setting) (past : Past) → next setting.first past ≡ urbs.next setting.first (crossings setting past) }
{}

/// Tickets are numbered from 1 in the order of asking: those that are live or settled, and no others, are among these.
pub fn tickets_are_numbered()
    ensures live { (past : Past) (ticket : ℕ) → KeepsBook past → has ticket (live past) ≡ true → (1 ≤ ticket) × (ticket ≤ tickets past) }
    ensures settled { (past : Past) (ticket : ℕ) (outcome : Outcome) → KeepsBook past → settled ticket past ≡ Some outcome → (1 ≤ ticket) × (ticket ≤ tickets past) }
{}

/// A ticket is not live and settled, and what it was settled with stays, whatever happens behind it.
pub fn a_settled_outcome_stays()
    ensures dead { (past : Past) (ticket : ℕ) (outcome : Outcome) → KeepsBook past → settled ticket past ≡ Some outcome → has ticket (live past) ≡ false }
    ensures stays { (past more : Past) (ticket : ℕ) (outcome : Outcome) → KeepsBook (more ++ past) → settled ticket past ≡ Some outcome
        → settled ticket (more ++ past) ≡ Some outcome }
{}

/// What was written, taken and entered into the book, with its marks, stays as the record goes on.
pub fn what_happened_stays()
    ensures written { (setting : Setting) (past more : Past) → (added : List up.Message) × (written setting (more ++ past) ≡ written setting past ++ added) }
    ensures taken { (past more : Past) → (added : List down.Message) × (taken (more ++ past) ≡ taken past ++ added) }
    ensures book { (setting : Setting) (past more : Past) → (added : List Marked) × (book setting (more ++ past) ≡ book setting past ++ added) }
{}

/// The message of an order has the order's number.
pub fn orders_have_their_numbers()
    ensures { (setting : Setting) (number : ℕ) (order : Order) → seqnum_of (message_of setting number order) ≡ number }
{}

/// The messages of a lawful record are a lawful record of messages, so that all that `host_urbs` says of these holds of a
/// hub's; and what is outstanding by the record is what is outstanding by these.
pub fn messages_are_lawful()
    ensures lawful { (setting : Setting) (past : Past) → Lawful setting past → urbs_law.Lawful setting.first (crossings setting past) }
    ensures outstanding { (setting : Setting) (past : Past) → Lawful setting past
        → awaited_by setting (outstanding past) ≡ urbs.outstanding (crossings setting past) }
    ensures count { (setting : Setting) (past : Past) → Lawful setting past → length (outstanding past) ≤ DIRS_MAX }
{
    few_are_outstanding();
}

/// A message may be written where it has the next number and a free place: a submit with a number that a submit may have, and
/// an unlink that is due.
pub fn messages_may_be_written()
    ensures submit { (setting : Setting) (past : Past) (order : Order) → Lawful setting past → is_unlink order ≡ false → next setting.first past ≤ LAST_SUBMIT
        → length (outstanding past) < DIRS_MAX → MayWriteNext setting past order }
    ensures unlink { (setting : Setting) (past : Past) (target : ℕ) (others : List ℕ) → Lawful setting past
        → unlinks_due setting (ended past) past ≡ target ∷ others → length (outstanding past) < DIRS_MAX → MayWriteNext setting past (Unlink target) }
{}

/// An answer may come to what is outstanding, and to nothing else.
pub fn answers_may_come()
    ensures submit { (setting : Setting) (past : Past) (sent : Sent) (head : RetSubmitHead) (bytes : List ℕ) → Lawful setting past
        → find head.seqnum (outstanding past) ≡ Some sent → is_unlink sent.order ≡ false → head.actual ≤ size_of setting.ends sent.order
        → Returns (way_of sent.order) head.actual bytes → MayTake (crossings setting past) (down.RetSubmit head bytes) }
    ensures unlink { (setting : Setting) (past : Past) (sent : Sent) (head : RetUnlinkHead) → Lawful setting past
        → find head.seqnum (outstanding past) ≡ Some sent → is_unlink sent.order ≡ true → MayTake (crossings setting past) (down.RetUnlink head) }
    ensures to_submit { (setting : Setting) (past : Past) (head : RetSubmitHead) (bytes : List ℕ) → Lawful setting past
        → MayTake (crossings setting past) (down.RetSubmit head bytes)
        → (sent : Sent) × (find head.seqnum (outstanding past) ≡ Some sent) × (is_unlink sent.order ≡ false) }
    ensures to_unlink { (setting : Setting) (past : Past) (head : RetUnlinkHead) → Lawful setting past → MayTake (crossings setting past) (down.RetUnlink head)
        → (sent : Sent) × (find head.seqnum (outstanding past) ≡ Some sent) × (is_unlink sent.order ≡ true) }
{}
