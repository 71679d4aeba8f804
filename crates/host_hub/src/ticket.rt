ghost use Rattle.std.specs.Prelude.{◌≡◌, ◌≤◌, [], vec_capacity, IfOk};
ghost use Rattle.host_hub.specs.declared.outcome.Outcome.TheVariants.{Live};
ghost use Rattle.host_hub.specs.BookSeen.{Shows, seen_of};

use crate::{Kind, Outcome, View};
use std::alloc::Global;
use tmc_base::{Memory, Octets};

/// What a book keeps of a ticket.
#[derive(Drop, Debug)]
pub(crate) struct Ticket {
    pub(crate) session: u8,
    pub(crate) kind: Kind,
    pub(crate) limit: u32,
    pub(crate) last: u32,
    pub(crate) message: Octets,
    /// The bytes of the response, with room for as many as the limit says.
    pub(crate) bytes: Vec<u8>,
    pub(crate) outcome: Outcome,
}

impl Ticket {
    /// A ticket that is asked. Takes all the memory that it will need.
    pub(crate) fn new(
        alloc: Global,
        session: u8,
        kind: Kind,
        message: &[u8],
        limit: u32,
    ) -> Result<Ticket, Memory>
        ensures asked { IfOk result (λ ticket. seen_of ticket ≡ record { session = session; kind = kind; limit = limit; last = 0; message = message.now; bytes = []; outcome = Live }) }
        ensures room { IfOk result (λ ticket. limit ≤ vec_capacity ticket.bytes) }
    {
        Ok(Ticket {
            session,
            kind,
            limit,
            last: 0,
            message: Octets::from_slice(alloc, message)?,
            bytes: Vec::with_capacity(alloc, limit as usize)?,
            outcome: Outcome::Live,
        })
    }

    /// Its view, by its number.
    pub(crate) fn view(&self, ticket: u32) -> View
        ensures { Shows ticket (seen_of self.now) result }
    {
        View {
            ticket,
            session: self.session,
            kind: self.kind,
            limit: self.limit,
            last: self.last,
            message: self.message.as_slice(),
            bytes: self.bytes.as_slice(),
            outcome: self.outcome,
        }
    }
}
