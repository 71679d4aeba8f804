//! The words of outcomes and ends.

ghost use Rattle.std.specs.Prelude.{◌≡◌, ◌++◌, OnOk, OnErr};
ghost use Rattle.event_text.specs.Outcome.{outcome_words, end_words};

use crate::field::put_field_words;
use crate::text::{hand_over, put_named_number, put_named_signed, put_word};
use host_hub::{End, Outcome};
use tmc_base::Memory;

/// Appends the words of an outcome: its name, and behind it what it holds. Where memory is wanting `out` is as before.
pub fn put_outcome(outcome: Outcome, out: &mut Vec<u8>) -> Result<(), Memory>
    ensures put { OnOk result (out.new.items ≡ out.old.items ++ outcome_words outcome) }
    ensures kept { OnErr result (out.new.items ≡ out.old.items) }
{
    let mut text = Vec::new(*out.allocator());
    put_outcome_words(outcome, &mut text)?;
    hand_over(text, out)
}

pub(crate) fn put_outcome_words(outcome: Outcome, text: &mut Vec<u8>) -> Result<(), Memory>
    ensures { OnOk result (text.new.items ≡ text.old.items ++ outcome_words outcome) }
{
    match outcome {
        Outcome::Live => put_word("Live", text),
        Outcome::Complete => put_word("Complete", text),
        Outcome::Done => put_word("Done", text),
        Outcome::Status(byte) => put_named_number("Status ", u64::from(byte), text),
        Outcome::Limit => put_word("Limit", text),
        Outcome::Cancelled => put_word("Cancelled", text),
        Outcome::Cleared(session) => put_named_number("Cleared ", u64::from(session), text),
        Outcome::Halted(endpoint) => put_named_number("Halted ", u64::from(endpoint), text),
        Outcome::Unplugged => put_word("Unplugged", text),
        Outcome::DeviceFault(status) => put_named_signed("DeviceFault ", status, text),
        Outcome::DeviceSays(status) => put_named_number("DeviceSays ", u64::from(status), text),
        Outcome::PeerFault(field) => {
            put_word("PeerFault ", text)?;
            put_field_words(field, text)
        }
        Outcome::LinkFault => put_word("LinkFault", text),
        Outcome::Exhausted => put_word("Exhausted", text),
        Outcome::GivenUp => put_word("GivenUp", text),
    }
}

pub(crate) fn put_end_words(end: End, text: &mut Vec<u8>) -> Result<(), Memory>
    ensures { OnOk result (text.new.items ≡ text.old.items ++ end_words end) }
{
    match end {
        End::Unplugged => put_word("Unplugged", text),
        End::DeviceFault(status) => put_named_signed("DeviceFault ", status, text),
        End::DeviceSays(status) => put_named_number("DeviceSays ", u64::from(status), text),
        End::PeerFault(field) => {
            put_word("PeerFault ", text)?;
            put_field_words(field, text)
        }
        End::LinkFault => put_word("LinkFault", text),
        End::Exhausted => put_word("Exhausted", text),
        End::GivenUp => put_word("GivenUp", text),
    }
}
