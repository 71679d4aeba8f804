//! The messages of a USB/IP client: what it wrote, what was answered, and what is outstanding.
//!
//! [`Urbs`] numbers submits and unlinks, holds their bytes until they are sent, and knows which are not answered yet. Each
//! of its calls leads from a lawful record of messages to one that is longer by what the call did.
//!
//! The definitions in `specs/` say which messages may be written and which answers may come. The functions of `laws` do
//! nothing: their contracts say what holds of each lawful record of messages.
#![tactic(auto)]

mod attached;
mod attaching;
mod entries;
mod entry;
mod exchange;
mod front;
mod laws;
mod limits;
mod outbox;
mod replies;
mod urbs;

pub use attached::{AttachFault, Attached};
pub use attaching::attach;
pub use laws::{
    a_read_is_unlinked, each_message_is_answered_once, each_submit_is_unlinked_once,
    few_are_outstanding, limits_are_the_products, numbers_are_in_a_row,
    what_is_outstanding_is_unanswered, what_is_spelled_may_come,
};
pub use limits::{LAST_SUBMIT, OUTBOX_MAX};
pub use urbs::Urbs;

#[cfg(test)]
mod tests;
