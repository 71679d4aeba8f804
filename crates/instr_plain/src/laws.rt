ghost use Rattle.std.specs.Prelude.{◌≡◌, ◌↔◌, ℕ, ◌<◌, ◌≤◌, List, [], ◌∷◌, ◌++◌, length};
ghost use Rattle.instr_plain.specs.declared.log.LogEntry.{LogEntry};
ghost use Rattle.instr_plain.specs.declared.log.LogEntry.TheVariants.{Exec as exec_entry};
ghost use Rattle.instr_plain.specs.declared.plain.Plain.{Plain};
ghost use Rattle.instr_plain.specs.Exec.{Exec, response_most};
ghost use Rattle.instr_plain.specs.Standing.{Standing};
ghost use Rattle.instr_plain.specs.Log.{After, Stands, Response};

use ieee_syntax::{a_message_or_a_fault, one_reading};

/// From any state each message is executed, with one outcome. Its response has at most 65,535 bytes.
pub fn each_message_has_one_outcome()
    ensures every { (before : Plain) (message : List ℕ) →
        (after : Plain) × (response : List ℕ) × Exec before message after response }
    ensures one { (before after other : Plain) (message response different : List ℕ) →
        Exec before message after response → Exec before message other different →
        (after ≡ other) × (response ≡ different) }
    ensures short { (before after : Plain) (message response : List ℕ) →
        Exec before message after response → length response ≤ response_most }
{
    one_reading();
    a_message_or_a_fault();
}

/// From any standing each entry leads on, to one standing. Where at most 65,535 bytes are unread before it, so it is
/// behind it.
pub fn each_entry_leads_to_one_standing()
    ensures every { (before : Standing) (entry : LogEntry) → (after : Standing) × After before entry after }
    ensures one { (before after other : Standing) (entry : LogEntry) →
        After before entry after → After before entry other → after ≡ other }
    ensures short { (before after : Standing) (entry : LogEntry) → length before.unread ≤ response_most →
        After before entry after → length after.unread ≤ response_most }
{
    one_reading();
    each_message_has_one_outcome();
}

/// An instrument that stands for a log has at most 65,535 unread bytes.
pub fn what_is_unread_is_short()
    ensures { (log : List LogEntry) (standing : Standing) → Stands log standing →
        length standing.unread ≤ response_most }
{
    each_entry_leads_to_one_standing();
}

/// One more entry is one more step, so an instrument stands for the log of its calls.
pub fn grows()
    ensures { (log : List LogEntry) (entry : LogEntry) (before after : Standing) →
        Stands log before → After before entry after → Stands (log ++ entry ∷ []) after }
{}

/// A log stands for one instrument.
pub fn one_standing()
    ensures { (log : List LogEntry) (standing other : Standing) →
        Stands log standing → Stands log other → standing ≡ other }
{
    one_reading();
}

/// The response to a message is the unread output behind its entry.
pub fn responds()
    ensures { (log : List LogEntry) (seq : ℕ) (message : List ℕ) (before after : Standing) →
        Stands log before → After before (exec_entry seq message) after →
        Response (log ++ exec_entry seq message ∷ []) (length log) after.unread }
{}

/// Later entries change no earlier response.
pub fn keeps_responses()
    ensures { (log more : List LogEntry) (i : ℕ) (response : List ℕ) → i < length log →
        (Response (log ++ more) i response ↔ Response log i response) }
{}

/// A message of a log has one response.
pub fn one_response()
    ensures { (log : List LogEntry) (i : ℕ) (response other : List ℕ) →
        Response log i response → Response log i other → response ≡ other }
{
    one_reading();
}
