//! The words of a refused call.

ghost use Rattle.std.specs.Prelude.{◌≡◌, ◌++◌, OnOk, OnErr};
ghost use Rattle.event_text.specs.Outcome.{refusal_words, clear_refusal_words};

use crate::outcome::put_end_words;
use crate::text::{hand_over, put_word};
use host_hub::{AskFault, ClearFault};
use tmc_base::Memory;

/// Appends the words of a refusal: its name, and behind `Down` the words of the hub's end. Where memory is wanting `out`
/// is as before.
pub fn put_refusal(fault: AskFault, out: &mut Vec<u8>) -> Result<(), Memory>
    ensures put { OnOk result (out.new.items ≡ out.old.items ++ refusal_words fault) }
    ensures kept { OnErr result (out.new.items ≡ out.old.items) }
{
    let mut text = Vec::new(*out.allocator());
    put_refusal_words(fault, &mut text)?;
    hand_over(text, out)
}

pub(crate) fn put_refusal_words(fault: AskFault, text: &mut Vec<u8>) -> Result<(), Memory>
    ensures { OnOk result (text.new.items ≡ text.old.items ++ refusal_words fault) }
{
    match fault {
        AskFault::Down(end) => {
            put_word("Down ", text)?;
            put_end_words(end, text)
        }
        AskFault::NoSession => put_word("NoSession", text),
        AskFault::No488 => put_word("No488", text),
        AskFault::EmptyMessage => put_word("EmptyMessage", text),
        AskFault::LongMessage => put_word("LongMessage", text),
        AskFault::BadLimit => put_word("BadLimit", text),
        AskFault::Full => put_word("Full", text),
        AskFault::Exhausted => put_word("Exhausted", text),
        AskFault::Memory => put_word("Memory", text),
    }
}

pub(crate) fn put_clear_refusal_words(fault: ClearFault, text: &mut Vec<u8>) -> Result<(), Memory>
    ensures { OnOk result (text.new.items ≡ text.old.items ++ clear_refusal_words fault) }
{
    match fault {
        ClearFault::Down(end) => {
            put_word("Down ", text)?;
            put_end_words(end, text)
        }
        ClearFault::NoSession => put_word("NoSession", text),
        ClearFault::Memory => put_word("Memory", text),
    }
}
