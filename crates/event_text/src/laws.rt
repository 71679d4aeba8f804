//! What holds of scripts. No function does anything, and its contract is the law.

ghost use Rattle.std.specs.Prelude.{◌≡◌, ◌↔◌, ◌<◌, ◌^◌, ◌++◌, ℕ, Option, List, Some, Ok};
ghost use Rattle.std.specs.Fmt.{decimal};
ghost use Rattle.hex.specs.Hex.{IsBytes};
ghost use Rattle.event_text.specs.Words.{number_of, bytes_of, hex_word, words_of};
ghost use Rattle.tmc_law.specs.declared.dev_event.DevEvent.{DevEvent};
ghost use Rattle.event_text.specs.declared.event.Event.{Event};
ghost use Rattle.event_text.specs.EventLine.{dev_said, event_said, line_words};
ghost use Rattle.event_text.specs.EventSpelled.{dev_line, event_line, said_line, DevMayStand, MayStand, SaidMayStand};
ghost use Rattle.event_text.specs.declared.event_line.Place.{Place};
ghost use Rattle.event_text.specs.declared.event_line.Said.{Said};
ghost use Rattle.usbip_wire.specs.declared.urb.Dir.{Dir};
ghost use Rattle.event_text.specs.declared.way.Way.{Way};
ghost use Rattle.event_text.specs.declared.way.Way.TheVariants.{Up};
ghost use Rattle.event_text.specs.declared.line_fault.LineWhat.{LineWhat};
ghost use Rattle.event_text.specs.declared.script.Line.{Line};
ghost use Rattle.event_text.specs.declared.script.Line.TheVariants.{Bytes};
ghost use Rattle.event_text.specs.declared.script.Phase.{Phase};
ghost use Rattle.event_text.specs.declared.event.Script.{Script};
ghost use Rattle.event_text.specs.EventScript.{IsEventScript, IsRefusedEvent};
ghost use Rattle.event_text.specs.Message.{stream_of};
ghost use Rattle.event_text.specs.Pieces.{merged, bytes_in, IsTextOf};
ghost use Rattle.host_hub.specs.BookSeen.{BookSeen};
ghost use Rattle.host_hub.specs.declared.outcome.End.{End};
ghost use Rattle.instr_plain.specs.declared.log.LogEntry.{LogEntry};
ghost use Rattle.event_text.specs.declared.answer.EventAnswer.{EventAnswer};
ghost use Rattle.event_text.specs.Report.{IsReport};
ghost use Rattle.event_text.specs.Told.{MayBeReported, SuitAll};
ghost use Rattle.event_text.specs.Shown.{Standing, Prints, Shown, ShownOf, IsRefused};

use usbip_wire::{
    answers_are_determined, bad_fields_are_alone, bad_fields_stay, parts_are_determined,
    requests_are_determined, urbs_are_determined,
};

/// A word is a number below 2^32 exactly where it is what is written of it, and it is HEX of bytes exactly where
/// it is what is written of them.
pub fn words_spell_their_values()
    ensures numbers { (word : List ℕ) (number : ℕ) → number < 2 ^ 32 → (number_of word ≡ Some number) ↔ (word ≡ decimal number) }
    ensures hex { (word bytes : List ℕ) → IsBytes bytes → (bytes_of word ≡ Some bytes) ↔ (word ≡ hex_word bytes) }
{}

/// No source is both shown and refused. It has at most one text, and at most one line that is refused, for one fault.
pub fn scripts_are_determined()
    ensures text { (way : Dir) (source text other : List ℕ) → ShownOf way source text → ShownOf way source other → text ≡ other }
    ensures line { (way : Dir) (source : List ℕ) (number second : ℕ) (what other : LineWhat)
        → IsRefused way source number what → IsRefused way source second other → (number ≡ second) × (what ≡ other) }
    ensures either { (way : Dir) (source text : List ℕ) (number : ℕ) (what : LineWhat)
        → ShownOf way source text → IsRefused way source number what → ⊥ }
{
    requests_are_determined();
    urbs_are_determined();
    parts_are_determined();
    answers_are_determined();
    bad_fields_are_alone();
    bad_fields_stay();
}

/// A line says an event of a device, or an event, exactly where it is the line that is written of the event, and the
/// numbers of the event may stand in a line. So it is with each line of a script, `first` and `depth` too, behind what
/// was said before it.
pub fn events_have_their_lines()
    ensures dev { (line : List ℕ) (event : DevEvent) → (dev_said (words_of line) ≡ Ok event) ↔ ((line ≡ dev_line event) × DevMayStand event) }
    ensures event { (line : List ℕ) (event : Event) → (event_said (words_of line) ≡ Ok event) ↔ ((line ≡ event_line event) × MayStand event) }
    ensures line { (place : Place) (line : List ℕ) (said : Said)
        → (line_words place (words_of line) ≡ Ok said) ↔ ((line ≡ said_line said) × SaidMayStand place said) }
{}

/// No text is both a script of events and refused. It is at most one script, and at most one line of it is refused, for
/// one fault.
pub fn event_scripts_are_determined()
    ensures script { (source : List ℕ) (script other : Script) → IsEventScript source script → IsEventScript source other → script ≡ other }
    ensures line { (source : List ℕ) (number second : ℕ) (what other : LineWhat)
        → IsRefusedEvent source number what → IsRefusedEvent source second other → (number ≡ second) × (what ≡ other) }
    ensures either { (source : List ℕ) (script : Script) (number : ℕ) (what : LineWhat)
        → IsEventScript source script → IsRefusedEvent source number what → ⊥ }
{}

/// Pieces are one text: two pieces behind one another print what they print as one. So of lines that differ only in
/// how the bytes are cut into pieces the same text is shown, and no other. A client's text is that of the bytes of all
/// its pieces: a line of each message, and one of the rest.
pub fn pieces_are_one_text()
    ensures joined { (old middle new : Standing) (piece more text other : List ℕ)
        → Prints old (Bytes piece) text middle → Prints middle (Bytes more) other new → Prints old (Bytes (piece ++ more)) (text ++ other) new }
    ensures cuts { (way : Way) (phase : Phase) (lines others : List Line) (text : List ℕ)
        → merged lines ≡ merged others → Shown way phase lines text → Shown way phase others text }
    ensures one { (way : Way) (phase : Phase) (lines others : List Line) (text other : List ℕ)
        → merged lines ≡ merged others → Shown way phase lines text → Shown way phase others other → text ≡ other }
    ensures client { (phase : Phase) (lines : List Line) (text : List ℕ) → Shown Up phase lines text
        → IsTextOf (stream_of Up phase) (bytes_in lines) text }
{
    requests_are_determined();
    urbs_are_determined();
    parts_are_determined();
    answers_are_determined();
    bad_fields_are_alone();
    bad_fields_stay();
}

/// A report determines its book and whether the hub runs, its log, and the bytes sent and taken, where numbers and bytes
/// are as their types hold them; and with its events, of which each answers what it may, its answers.
pub fn reports_are_determined()
    ensures told { (answers others : List (Option EventAnswer)) (end ending : Option End) (book second : BookSeen) (log entries : List LogEntry) (up sent down taken text : List ℕ)
        → MayBeReported answers end book log up down → MayBeReported others ending second entries sent taken
        → IsReport answers end book log up down text → IsReport others ending second entries sent taken text
        → (end ≡ ending) × (book ≡ second) × (log ≡ entries) × (up ≡ sent) × (down ≡ taken) }
    ensures answers { (events : List Event) (answers others : List (Option EventAnswer)) (end ending : Option End) (book second : BookSeen) (log entries : List LogEntry) (up sent down taken text : List ℕ)
        → MayBeReported answers end book log up down → MayBeReported others ending second entries sent taken → SuitAll events answers → SuitAll events others
        → IsReport answers end book log up down text → IsReport others ending second entries sent taken text
        → answers ≡ others }
{}
