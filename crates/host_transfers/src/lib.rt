//! Transfers of a host: a message is cut into parts, and a piece of a response is assembled from its reads.
//!
//! The functions of `laws` do nothing: their contracts say what holds of the definitions in `specs/`.
#![tactic(auto)]

mod assembly;
mod head;
mod judged;
mod laws;
mod limits;
mod part;
mod piece;
mod tags;
mod transfer;

pub use assembly::Assembly;
pub use laws::{
    a_piece_grows, a_piece_is_its_transfer, limits_are_the_products, messages_are_cut_once,
    reads_give_the_data, refusals_are_exact, tags_run_round, transfers_are_read_to_their_end,
};
pub use limits::{PART_MAX, REQUEST_MAX};
pub use part::{Part, part_of};
pub use piece::Piece;
pub use tags::Tags;
pub use transfer::submit_transfer;

#[cfg(test)]
mod tests;
