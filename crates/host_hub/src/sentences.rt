//! What a reader can check of a hub: sentences that follow from its laws. Each function does nothing, and its contract is the
//! law.

ghost use Rattle.std.specs.Prelude.{◌≡◌, ◌≢◌, ◌+◌, ◌<◌, ◌≤◌, ◌∷◌, ◌++◌, ℕ, true, false, None, Some, [], length};
ghost use Rattle.host_hub.specs.declared.kind.Kind.TheVariants as kind;
ghost use Rattle.host_hub.specs.Order.{Class, Setting, is_unlink, message_of};
ghost use Rattle.host_hub.specs.Outstanding.{Sent};
ghost use Rattle.host_hub.specs.Status.{awaits, is_status, poll};
ghost use Rattle.host_urbs.specs.Unanswered.{AreInARow};
ghost use Rattle.host_urbs.specs.Unlinks.{unlinks_of};
ghost use Rattle.host_hub.specs.Record.{Asking, Cancelled, Cleared, Happening, Of, Past, next, written};
ghost use Rattle.host_urbs.specs.declared.limits.TheConstants.{LAST_SUBMIT};
ghost use Rattle.tmc_wire.specs.declared.class_request.ClassRequest.TheVariants.{ReadStatus};
ghost use Rattle.usbip_wire.specs.declared.dirs.TheConstants.{DIRS_MAX};
ghost use Rattle.host_hub.specs.Book.{active, asking_of, has, live, settled};
ghost use Rattle.host_hub.specs.Sentences.{IsAmong, IsItsOwn, IsLeft, IsNumberedFor, MaySettleAs, wrote_at};
ghost use Rattle.host_hub.specs.declared.outcome.Outcome.{Outcome};
ghost use Rattle.host_recover.specs.declared.need.Need.{Need};
ghost use Rattle.host_recover.specs.Words.{Begins, words_of};
ghost use Rattle.host_hub.specs.Hand.{ended, in_hand, is_begun, start};
ghost use Rattle.host_hub.specs.Letters.{letters};
ghost use Rattle.host_hub.specs.Recovery.{running};
ghost use Rattle.host_hub.specs.Law.{Allowed, IsHandOver, Kept, Lawful};
ghost use Rattle.host_hub.specs.Pieces.{got};
ghost use Rattle.host_hub.specs.Plan.{message_end};

use host_recover::{
    a_whole_word_ends, each_answer_goes_on, each_recovery_has_a_word,
    the_next_submit_is_determined, the_next_submit_is_one,
};
use host_urbs::{each_submit_is_unlinked_once, numbers_are_in_a_row};

/// The bytes of a ticket never pass its limit, and a ticket that is no ask has none.
pub fn bytes_keep_the_limit()
    ensures within { (setting : Setting) (past : Past) (ticket : ℕ) (asking : Asking) → Lawful setting past → asking_of ticket past ≡ Some asking
        → length (got ticket past) ≤ asking.limit }
    ensures asks { (setting : Setting) (past : Past) (ticket : ℕ) (asking : Asking) → Lawful setting past → asking_of ticket past ≡ Some asking
        → (asking.kind ≡ kind.Ask → ⊥) → got ticket past ≡ [] }
{}

/// Which outcomes come of which kind.
pub fn outcomes_go_by_kind()
    ensures { (setting : Setting) (past : Past) (ticket : ℕ) (asking : Asking) (outcome : Outcome) → Lawful setting past → asking_of ticket past ≡ Some asking
        → settled ticket past ≡ Some outcome → MaySettleAs asking.kind outcome }
{}

/// The letters of a recovery that runs begin a word of it, whatever was answered; and while one runs, the ticket in hand is
/// settled.
pub fn recoveries_begin_their_words()
    ensures front { (setting : Setting) (past : Past) (need : Need) → Lawful setting past → running past ≡ Some need → Begins (words_of need) (letters past) }
    ensures over { (setting : Setting) (past : Past) (need : Need) → Lawful setting past → running past ≡ Some need → IsHandOver (in_hand past) past }
{
    each_answer_goes_on();
    each_recovery_has_a_word();
}

/// A ticket has a start exactly where something was written for it, and the starts that are not 0 rise with the tickets.
pub fn tickets_begin_in_order()
    ensures rise { (setting : Setting) (past : Past) (ticket other : ℕ) → Lawful setting past → ticket < other → start ticket past ≢ 0 → start other past ≢ 0
        → start ticket past < start other past }
    ensures begun { (setting : Setting) (past : Past) (ticket : ℕ) → Lawful setting past → 1 ≤ setting.first → is_begun ticket past ≡ true → start ticket past ≢ 0 }
    ensures started { (past : Past) (ticket : ℕ) → start ticket past ≢ 0 → is_begun ticket past ≡ true }
{}

/// Which submits are a ticket's, by their numbers: those from its start up to the next greater start or the next INITIATE.
pub fn submits_go_by_number()
    ensures own { (setting : Setting) (past : Past) (ticket number : ℕ) (sent : Sent) → Lawful setting past → wrote_at number past ≡ Some sent
        → is_unlink sent.order ≡ false → sent.owner ≡ Of ticket → IsNumberedFor past ticket number }
    ensures alone { (setting : Setting) (past : Past) (ticket number : ℕ) (sent : Sent) → Lawful setting past → wrote_at number past ≡ Some sent
        → is_unlink sent.order ≡ false → is_begun ticket past ≡ true → IsNumberedFor past ticket number → sent.owner ≡ Of ticket }
{
    the_next_submit_is_determined();
    each_answer_goes_on();
    each_recovery_has_a_word();
}

/// While a hub runs, a live status read that has begun has made its request: its READ_STATUS_BYTE is in what was written, and
/// this is its number. What was written with a number is in what was written.
pub fn status_reads_have_their_request()
    ensures request { (setting : Setting) (past : Past) (ticket : ℕ) → Kept setting past → ended past ≡ None → has ticket (live past) ≡ true
        → start ticket past ≢ 0 → is_status (asking_of ticket past) ≡ true
        → (tag : ℕ) × (wrote_at (poll ticket past) past ≡ Some (record { number = poll ticket past; owner = Of ticket; order = Class (ReadStatus tag) })) }
    ensures message { (setting : Setting) (past : Past) (number : ℕ) (sent : Sent) → wrote_at number past ≡ Some sent
        → IsAmong (message_of setting number sent.order) (written setting past) }
{}

/// The view of a ticket that is settled never changes: what it asked for, its bytes, the number that ends its message, and its
/// outcome.
pub fn settled_views_stay()
    ensures asking { (setting : Setting) (past more : Past) (ticket : ℕ) (asking : Asking) → Lawful setting (more ++ past)
        → asking_of ticket past ≡ Some asking → asking_of ticket (more ++ past) ≡ Some asking }
    ensures bytes { (setting : Setting) (past more : Past) (ticket : ℕ) (outcome : Outcome) → 1 ≤ setting.first → Lawful setting (more ++ past)
        → settled ticket past ≡ Some outcome → got ticket (more ++ past) ≡ got ticket past }
    ensures last { (setting : Setting) (past more : Past) (ticket : ℕ) (outcome : Outcome) → 1 ≤ setting.first → Lawful setting (more ++ past)
        → settled ticket past ≡ Some outcome → message_end ticket (more ++ past) ≡ message_end ticket past }
    ensures outcome { (setting : Setting) (past more : Past) (ticket : ℕ) (outcome : Outcome) → Lawful setting (more ++ past)
        → settled ticket past ≡ Some outcome → settled ticket (more ++ past) ≡ Some outcome }
{}

/// The messages written have the numbers from the first one on, in a row. Whatever held of a record holds behind each entry of
/// it.
pub fn messages_are_in_a_row()
    ensures numbers { (setting : Setting) (past : Past) → Lawful setting past → AreInARow setting.first (written setting past) }
    ensures before { (setting : Setting) (more past : Past) → Lawful setting (more ++ past) → Lawful setting past }
{
    numbers_are_in_a_row();
}

/// An unlink always has a number: those above the greatest one of a submit suffice.
pub fn numbers_suffice()
    ensures { (setting : Setting) (past : Past) → setting.first ≤ LAST_SUBMIT + 1 → Lawful setting past → next setting.first past ≤ LAST_SUBMIT + 1 + DIRS_MAX }
{
    each_submit_is_unlinked_once();
}

/// Where a cancel, or a clear while it is active, reaches a ticket that has begun, what was written has exactly one unlink of
/// each submit that it waited for then; and exactly one of each that was made ahead, where the ticket was settled or its piece
/// ended before the answer came.
pub fn each_submit_is_unlinked()
    ensures cancelled { (setting : Setting) (more past : Past) (ticket : ℕ) (sent : Sent) → Kept setting (more ++ Cancelled ticket ∷ past)
        → is_begun ticket past ≡ true → IsAmong sent (awaits ticket past) → is_unlink sent.order ≡ false
        → unlinks_of sent.number (written setting (more ++ Cancelled ticket ∷ past)) ≡ 1 }
    ensures cleared { (setting : Setting) (more past : Past) (ticket session : ℕ) (sent : Sent) → Kept setting (more ++ Cleared session ∷ past)
        → active past ≡ Some ticket → is_begun ticket past ≡ true → IsAmong sent (awaits ticket past) → is_unlink sent.order ≡ false
        → unlinks_of sent.number (written setting (more ++ Cleared session ∷ past)) ≡ 1 }
    ensures left { (setting : Setting) (more past : Past) (ticket : ℕ) (sent : Sent) → Kept setting (more ++ past) → IsLeft setting past ticket sent
        → unlinks_of sent.number (written setting (more ++ past)) ≡ 1 }
{
    each_submit_is_unlinked_once();
}

/// At each moment the laws allow at most one happening of the hub's own, and none where nothing is owed.
pub fn hubs_are_determined()
    ensures one { (setting : Setting) (past : Past) (one other : Happening) → Lawful setting past → Allowed setting past one → Allowed setting past other
        → IsItsOwn past one → IsItsOwn past other → one ≡ other }
    ensures none { (setting : Setting) (past : Past) (one : Happening) → Kept setting past → ended past ≡ None → Allowed setting past one → IsItsOwn past one → ⊥ }
{
    a_whole_word_ends();
    the_next_submit_is_one();
}
