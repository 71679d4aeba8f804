//! Recovery of an instrument's bulk endpoints: aborts, drains and the full clear (USBTMC 1.0, sections 4.2.1.2 to 4.2.1.7).
//!
//! The definitions in `specs/` say which submits a recovery makes, and with which answers it goes on. [`Recover`] makes them:
//! its submits with their answers begin a word of the recovery that is called for, whole where it is done. The functions of
//! `laws` do nothing: their contracts say what holds of these words.
#![tactic(auto)]

mod laws;
mod need;
mod recover;
mod stage;
mod standard;
#[cfg(test)]
mod tests;
mod want;

pub use laws::{
    a_whole_word_ends, each_answer_goes_on, each_recovery_has_a_word,
    the_next_submit_is_determined, the_next_submit_is_one, worked_words,
};
pub use need::Need;
pub use recover::Recover;
pub use want::{Heard, Want};
