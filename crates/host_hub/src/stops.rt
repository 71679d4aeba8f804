//! The steps of cancels, clears and recoveries over the record. Each function does nothing, and its contract is the law.

ghost use Rattle.std.specs.Prelude.{◌≡◌, ◌≢◌, ◌+◌, ◌≤◌, ℕ, true, false, None, Some, List, [], ◌∷◌, ◌++◌, length};
ghost use Rattle.usbip_wire.specs.declared.ret_submit.RetSubmitHead.{RetSubmitHead};
ghost use Rattle.usbip_wire.specs.declared.ret_unlink.RetUnlinkHead.{RetUnlinkHead};
ghost use Rattle.host_recover.specs.Letter.{Submit};
ghost use Rattle.host_urbs.specs.Law.{MayTake};
ghost use Rattle.host_hub.specs.Crossings.{crossings};
ghost use Rattle.host_hub.specs.Ends.{end_due, ends_by};
ghost use Rattle.host_hub.specs.Made.{made_at};
ghost use Rattle.usbip_wire.specs.Down as down;
ghost use Rattle.usbip_wire.specs.declared.dirs.TheConstants.{DIRS_MAX};
ghost use Rattle.host_hub.specs.declared.outcome.Outcome.{Outcome};
ghost use Rattle.host_hub.specs.declared.outcome.Outcome.TheVariants as outcome;
ghost use Rattle.host_hub.specs.Order.{Order, Setting};
ghost use Rattle.host_hub.specs.Record.{Past, Took, Cancelled, Cleared, Recovers, Settled};
ghost use Rattle.host_hub.specs.Hand.{ended, in_hand, is_begun};
ghost use Rattle.host_hub.specs.Outstanding.{busy, not_unlinked, outstanding};
ghost use Rattle.host_hub.specs.Book.{active, has, is_cancelled, live};
ghost use Rattle.host_hub.specs.Status.{awaits};
ghost use Rattle.host_hub.specs.Causes.{reached};
ghost use Rattle.host_hub.specs.Unlinks.{unlinks_due};
ghost use Rattle.host_hub.specs.Letters.{letter_of, letters, order_of};
ghost use Rattle.host_hub.specs.Law.{IsHandOver, Kept, Lawful, MayRecover, Recovering};
ghost use Rattle.host_hub.specs.Steps.{Comes, HearsRecovery, MayWriteNext, StopsAt, Working, recovers_with, took, write_unlinks};

/// The active ticket is cancelled, or a clear reaches it, while it waits: its unlinks are written, in falling order of the
/// numbers that they name, and it waits on. At any depth.
pub fn an_active_ticket_is_stopped()
    ensures cancelled { (setting : Setting) (past : Past) (ticket : ℕ) (targets : List ℕ) → Kept setting past → ended past ≡ None → active past ≡ Some ticket
        → in_hand past ≡ Some ticket → is_cancelled ticket past ≡ false → reached ticket past ≡ None → awaits ticket past ≢ []
        → busy (outstanding past) ≢ [] → not_unlinked (awaits ticket past) (outstanding past) ≡ targets
        → length (outstanding past) + length targets ≤ DIRS_MAX → Kept setting (write_unlinks setting ticket targets (Cancelled ticket ∷ past)) }
    ensures cleared { (setting : Setting) (past : Past) (ticket session : ℕ) (targets : List ℕ) → Kept setting past → ended past ≡ None
        → active past ≡ Some ticket → in_hand past ≡ Some ticket → reached ticket past ≡ None → awaits ticket past ≢ []
        → busy (outstanding past) ≢ [] → not_unlinked (awaits ticket past) (outstanding past) ≡ targets
        → length (outstanding past) + length targets ≤ DIRS_MAX → Kept setting (write_unlinks setting ticket targets (Cleared session ∷ past)) }
{}

/// A live ticket that has not begun is cancelled, and settles by that at once: nothing of it is out. At any depth.
pub fn a_waiting_ticket_is_cancelled()
    ensures { (setting : Setting) (past : Past) (ticket : ℕ) → Kept setting past → ended past ≡ None → has ticket (live past) ≡ true → is_begun ticket past ≡ false
        → Kept setting (Settled ticket outcome.Cancelled ∷ Cancelled ticket ∷ past) }
{}

/// An answer to a submit of a ticket that was stopped comes before the one to its unlink. It makes nothing, and the ticket waits on;
/// or it makes the outcome of its ticket, and the next one waits for what is out. At any depth.
pub fn an_answer_races()
    ensures unmade { (setting : Setting) (past : Past) (ticket number : ℕ) (order : Order) (stop : Outcome) (head : RetSubmitHead) (bytes : List ℕ) → Kept setting past
        → ended past ≡ None → Comes setting past ticket number order head bytes → reached ticket past ≡ Some stop
        → made_at setting ticket past (Took (down.RetSubmit head bytes)) ≡ None → end_due (took past head bytes) ≡ None → awaits ticket (took past head bytes) ≢ []
        → busy (outstanding (took past head bytes)) ≢ [] → unlinks_due setting (ended past) (took past head bytes) ≡ [] → Kept setting (took past head bytes) }
    ensures made { (setting : Setting) (past : Past) (ticket number : ℕ) (order : Order) (outcome : Outcome) (head : RetSubmitHead) (bytes : List ℕ) → Kept setting past
        → ended past ≡ None → Comes setting past ticket number order head bytes → made_at setting ticket past (Took (down.RetSubmit head bytes)) ≡ Some outcome
        → end_due (took past head bytes) ≡ None → busy (outstanding (took past head bytes)) ≢ []
        → unlinks_due setting (ended past) (Settled ticket outcome ∷ took past head bytes) ≡ [] → Kept setting (Settled ticket outcome ∷ took past head bytes) }
{}

/// The last message that a stopped ticket waits for is answered, and makes nothing: the ticket settles by its stop.
pub fn a_stopped_ticket_settles()
    ensures { (setting : Setting) (past : Past) (ticket : ℕ) (answer : down.Message) (outcome : Outcome) → Kept setting past → ended past ≡ None
        → StopsAt setting past ticket answer outcome → unlinks_due setting (ended past) (Settled ticket outcome ∷ Took answer ∷ past) ≡ []
        → Working setting (Settled ticket outcome ∷ Took answer ∷ past) }
{}

/// The answer to an unlink comes where its ticket is settled: nothing settles by it.
pub fn an_unlink_is_answered()
    ensures { (setting : Setting) (past : Past) (head : RetUnlinkHead) → Kept setting past → ended past ≡ None → IsHandOver (in_hand past) past
        → MayTake (crossings setting past) (down.RetUnlink head) → ends_by setting past (down.RetUnlink head) ≡ None
        → unlinks_due setting (ended past) (Took (down.RetUnlink head) ∷ past) ≡ [] → Working setting (Took (down.RetUnlink head) ∷ past) }
{}

/// Where the ticket in hand is settled, no live ticket has begun.
pub fn a_hand_is_over()
    ensures { (setting : Setting) (past : Past) (ticket : ℕ) → Lawful setting past → IsHandOver (in_hand past) past → has ticket (live past) ≡ true
        → is_begun ticket past ≡ false }
{}

/// A recovery begins, its next submit is written, and an answer to it is one more letter of its word. At any depth.
pub fn a_recovery_goes_on()
    ensures begins { (setting : Setting) (past : Past) → Working setting past → MayRecover past → Working setting (Recovers ∷ past) }
    ensures writes { (setting : Setting) (past : Past) (submit : Submit) → Working setting past → IsHandOver (in_hand past) past
        → Recovering past (order_of submit) → MayWriteNext setting past (order_of submit) → Kept setting (recovers_with setting past (order_of submit)) }
    ensures answered { (setting : Setting) (past : Past) (number : ℕ) (order : Order) (head : RetSubmitHead) (bytes : List ℕ) → Kept setting past
        → ended past ≡ None → HearsRecovery setting past number order head bytes → Working setting (took past head bytes) }
    ensures letter { (setting : Setting) (past : Past) (number : ℕ) (order : Order) (head : RetSubmitHead) (bytes : List ℕ)
        → HearsRecovery setting past number order head bytes → letters (took past head bytes) ≡ letters past ++ letter_of order head bytes }
{}
