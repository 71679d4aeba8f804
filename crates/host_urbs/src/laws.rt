//! What holds of each lawful record. Each function does nothing, and its contract is the law.

ghost use Rattle.std.specs.Prelude.{◌≡◌, ℕ, ◌≤◌, Bool, true, false, is_some, Option, Some, List, [], ◌∷◌, ◌++◌, length};
ghost use Rattle.host_urbs.specs.declared.limits.TheConstants.{LAST_SUBMIT, OUTBOX_MAX};
ghost use Rattle.host_urbs.specs.Law.{is_named, Lawful, MayTake};
ghost use Rattle.host_urbs.specs.Record.{Past, Wrote, written, taken, next, outstanding};
ghost use Rattle.host_urbs.specs.Unanswered.{AreInARow, AreRising, unanswered};
ghost use Rattle.host_urbs.specs.Unlinks.{unlinks_of, answers_of, not_named, removed};
ghost use Rattle.host_urbs.specs.Worked.{read, unlink, unlinked, answered};
ghost use Rattle.usbip_wire.specs.declared.dirs.TheConstants.{DIRS_MAX};
ghost use Rattle.usbip_wire.specs.Awaited.{Awaited, Unlink, entries_of};
ghost use Rattle.usbip_wire.specs.Dirs.{find, submit_of};
ghost use Rattle.usbip_wire.specs.Down.{Message, SpellsAnswer};

/// The limits are the product's.
pub fn limits_are_the_products()
    ensures submit { LAST_SUBMIT ≡ 0xFFFFFF00 }
    ensures outbox { OUTBOX_MAX ≡ 4096 }
{}

/// The messages written have the numbers from the first one on, in a row.
pub fn numbers_are_in_a_row()
    ensures { (first : ℕ) (past : Past) → Lawful first past → AreInARow first (written past) }
{}

/// What is outstanding is what the messages written and the answers taken leave unanswered, without regard to the order
/// between the two lists.
pub fn what_is_outstanding_is_unanswered()
    ensures { (first : ℕ) (past : Past) → Lawful first past → outstanding past ≡ unanswered (written past) (taken past) (written past) }
{}

/// At most 16 messages are outstanding, and their numbers rise and are below the next one.
pub fn few_are_outstanding()
    ensures most { (first : ℕ) (past : Past) → Lawful first past → length (outstanding past) ≤ DIRS_MAX }
    ensures rise { (first : ℕ) (past : Past) → Lawful first past → AreRising first (next first past) (outstanding past) }
{}

/// An answer that bytes spell, of what is outstanding, is one that may come.
pub fn what_is_spelled_may_come()
    ensures { (past : Past) (answer : Message) (bytes : List ℕ) → SpellsAnswer (entries_of (outstanding past)) answer bytes → MayTake past answer }
{}

/// No number is answered twice, and what is outstanding was not answered.
pub fn each_message_is_answered_once()
    ensures once { (first : ℕ) (past : Past) (number : ℕ) → Lawful first past → answers_of number (taken past) ≤ 1 }
    ensures not_yet { (first : ℕ) (past : Past) (number : ℕ) → Lawful first past → is_some (find number (entries_of (outstanding past))) ≡ true
        → answers_of number (taken past) ≡ 0 }
{}

/// No submit is unlinked twice. Of one that is outstanding an unlink is outstanding where one was written, and else none
/// was. Where no unlink is due of those submits that are wanted, exactly one was written of each. An unlink that is
/// written is due no more, and the others are as before.
pub fn each_submit_is_unlinked_once()
    ensures once { (first : ℕ) (past : Past) (number : ℕ) → Lawful first past → unlinks_of number (written past) ≤ 1 }
    ensures one { (first : ℕ) (past : Past) (number : ℕ) → Lawful first past → is_named number (outstanding past) ≡ true → unlinks_of number (written past) ≡ 1 }
    ensures none { (first : ℕ) (past : Past) (number : ℕ) → Lawful first past → is_some (submit_of (find number (entries_of (outstanding past)))) ≡ true
        → is_named number (outstanding past) ≡ false → unlinks_of number (written past) ≡ 0 }
    ensures all { (first : ℕ) (past : Past) (wanted : List Awaited) (number : ℕ) → Lawful first past → not_named wanted (outstanding past) ≡ []
        → is_some (submit_of (find number (entries_of wanted))) ≡ true → unlinks_of number (written past) ≡ 1 }
    ensures less { (wanted awaited : List Awaited) (number target : ℕ)
        → not_named wanted (awaited ++ Unlink number (Some target) ∷ []) ≡ removed target (not_named wanted awaited) }
{}

/// A submit, its unlink and the unlink's answer are a lawful record, behind which nothing is outstanding. A second unlink
/// of the submit is refused, also behind the answer, and so is a number that is not the next.
pub fn a_read_is_unlinked()
    ensures lawful { Lawful 7 answered }
    ensures left { outstanding answered ≡ [] }
    ensures twice { Lawful 7 (Wrote (unlink 9 7) ∷ unlinked) → ⊥ }
    ensures behind { Lawful 7 (Wrote (unlink 9 7) ∷ answered) → ⊥ }
    ensures skipped { Lawful 7 (Wrote (read 10) ∷ answered) → ⊥ }
{}
