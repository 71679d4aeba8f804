//! What holds of each kept record, by subject. Each function does nothing, and its contract is the law.

ghost use Rattle.std.specs.Prelude.{◌≡◌, ℕ};
ghost use Rattle.host_hub.specs.Facts.{BookOk, Caused, Unlinked, Traffic, Recovered, Waiting};
ghost use Rattle.host_hub.specs.Law.{Kept};
ghost use Rattle.host_hub.specs.Order.{Setting};
ghost use Rattle.host_hub.specs.Record.{Past};

/// The book's law held at each entry.
pub fn books_are_kept()
    ensures { (setting : Setting) (past : Past) → Kept setting past → BookOk past }
{}

/// Each ticket settled by its cause, and the hub ended by one. The outcome of each ticket, live or settled, is its first
/// cause, and it is live where there is none.
pub fn each_outcome_has_its_cause()
    ensures { (setting : Setting) (past : Past) → Kept setting past → Caused setting past }
{}

/// Each unlink was due, the first of those that were, and none is due.
pub fn unlinks_are_due()
    ensures { (setting : Setting) (past : Past) → Kept setting past → Unlinked setting past }
{}

/// Each message might be written and was due, and no submit of a ticket is due.
pub fn traffic_is_planned()
    ensures { (setting : Setting) (past : Past) → Kept setting past → Traffic setting past }
{}

/// Each recovery began where one was called for, and where the hub waits for nothing all are over.
pub fn recoveries_are_made()
    ensures { (setting : Setting) (past : Past) → Kept setting past → Recovered past }
{}

/// While the hub runs and a ticket is live, something is waited for; a status read that has begun made its request.
pub fn something_is_waited_for()
    ensures { (setting : Setting) (past : Past) → Kept setting past → Waiting past }
{}
