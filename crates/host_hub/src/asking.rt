//! How a ticket is asked.

ghost use Rattle.std.specs.Prelude.{◌≡◌, ◌≤◌, ◌<◌, ◌∷◌, ◌++◌, ◌||◌, ◌&&◌, ◌==◌, ◌+◌, nat_lt, nat_le, ℕ, List, Some, None, [], true, length, IfOk, IfErr, OnOk, OnErr};
ghost use Rattle.host_urbs.specs.declared.limits.TheConstants.{OUTBOX_MAX};
ghost use Rattle.host_hub.specs.declared.limits.TheConstants.{LIMIT_MAX, LIMITS_MAX, TICKETS_MAX};
ghost use Rattle.host_hub.specs.declared.refusals.AskFault.TheVariants as fault;
ghost use Rattle.host_hub.specs.Order.{Setting};
ghost use Rattle.host_hub.specs.Record.{Past, Asking};
ghost use Rattle.host_hub.specs.Law.{Lawful};
ghost use Rattle.host_hub.specs.Refusals.{has_limit, has_message, ask_fault};
ghost use Rattle.host_hub.specs.Steps.{asked};
ghost use Rattle.host_hub.specs.Asks.{Asks, IsUnchanged};
ghost use Rattle.host_hub.specs.Proper.{IsProper};
ghost use Rattle.host_hub.specs.Stands.{IsAtRest, Rests};
ghost use Rattle.host_hub.specs.Knows.{HasRecord, Knows, Tells};

use crate::hub_core::{HubCore, Phase};
use crate::limits::{LAST_ASK, LIMIT_MAX, LIMITS_MAX, MESSAGE_MAX, SESSIONS, TICKETS_MAX};
use crate::ticket::Ticket;
use crate::{AskFault, Kind};

impl HubCore {
    /// Asks a ticket of this kind, which has a message.
    pub(crate) fn ask(
        &mut self,
        session: u8,
        kind: Kind,
        message: &[u8],
        limit: u32,
    ) -> Result<u32, AskFault>
        requires rests { IsAtRest self.old }
        requires message { has_message kind ≡ true }
        ensures asks { (s : Setting) (past : Past) (sent : List ℕ) → Rests s past sent self.old
            → Asks s past sent (record { session = session; kind = kind; limit = limit; message = message.now }) result self.old self.new }
        ensures born { OnOk result (self.new.notes.births ≡ self.old.notes.births ++ self.old.turned ∷ []) }
        ensures unchanged { OnErr result (IsUnchanged self.old self.new) }
        ensures reader { self.new.reader ≡ self.old.reader }
        ensures turned { self.new.turned ≡ self.old.turned }
        ensures short { length self.old.urbs.outbox ≤ OUTBOX_MAX → length self.new.urbs.outbox ≤ OUTBOX_MAX }
    {
        if let Some(fault) = self.refusal(session, kind, message, limit) {
            return Err(fault);
        }
        let ticket = match self.enter(session, kind, message, limit) {
            Ok(ticket) => ticket,
            Err(fault) => return Err(fault),
        };
        if let Phase::Idle = self.phase {
            self.begin();
        }
        Ok(ticket)
    }

    /// The first cause that forbids such a ticket.
    fn refusal(&self, session: u8, kind: Kind, message: &[u8], limit: u32) -> Option<AskFault>
        requires { has_message kind ≡ true }
        ensures { (s : Setting) (past : Past) → Tells s past self.now
            → result ≡ ask_fault s past (record { session = session; kind = kind; limit = limit; message = message.now }) }
    {
        if let Some(end) = self.end {
            return Some(AskFault::Down(end));
        }
        if session >= SESSIONS {
            return Some(AskFault::NoSession);
        }
        if message.is_empty() {
            return Some(AskFault::EmptyMessage);
        }
        if message.len() > MESSAGE_MAX {
            return Some(AskFault::LongMessage);
        }
        if is_bad_limit(kind, limit) {
            return Some(AskFault::BadLimit);
        }
        if self.is_full(limit) {
            return Some(AskFault::Full);
        }
        if self.urbs.next() > LAST_ASK {
            return Some(AskFault::Exhausted);
        }
        None
    }

    /// Whether no ticket more is to be had, or none with this limit.
    fn is_full(&self, limit: u32) -> bool
        ensures { result ≡ (length self.now.book.tickets == TICKETS_MAX) || nat_lt LIMITS_MAX (self.now.limits + limit) }
    {
        self.book.tickets() == TICKETS_MAX
            || u64::from(self.limits) + u64::from(limit) > u64::from(LIMITS_MAX)
    }

    /// Enters a ticket, and takes all the memory that it will need.
    fn enter(
        &mut self,
        session: u8,
        kind: Kind,
        message: &[u8],
        limit: u32,
    ) -> Result<u32, AskFault>
        requires known { HasRecord self.old }
        requires running { self.old.end ≡ None }
        requires few { length self.old.book.tickets < TICKETS_MAX }
        requires proper { IsProper (record { session = session; kind = kind; limit = limit; message = message.now }) }
        requires sum { self.old.limits + limit ≤ LIMITS_MAX }
        ensures goes { OnOk result ((s : Setting) (past : Past) (sent : List ℕ) → Lawful s past → Knows s past sent self.old
            → Knows s (asked past (record { session = session; kind = kind; limit = limit; message = message.now })) sent self.new) }
        ensures born { OnOk result (self.new.notes.births ≡ self.old.notes.births ++ self.old.turned ∷ []) }
        ensures number { IfOk result (λ ticket. ticket ≡ length self.old.book.tickets + 1) }
        ensures cause { IfErr result (λ why. why ≡ fault.Memory) }
        ensures unchanged { OnErr result (self.new ≡ record self.old { notes = record self.old.notes { room = self.new.notes.room; places = self.new.notes.places } }) }
        ensures no_less { OnErr result (self.old.notes.room ≤ self.new.notes.room) }
        ensures rest { self.new ≡ record self.old { book = self.new.book; notes = self.new.notes; limits = self.new.limits } }
    {
        let live = self.book.live();
        let mark = self.mark();
        self.notes.reserve(live)?;
        let ticket = Ticket::new(self.alloc, session, kind, message, limit)?;
        let number = self.book.ask(ticket)?;
        self.notes.ask(mark, self.turned);
        self.limits += limit;
        Ok(number)
    }
}

/// Whether a ticket of this kind may not have this limit.
fn is_bad_limit(kind: Kind, limit: u32) -> bool
    ensures { result ≡ has_limit kind && ((limit == 0) || nat_lt LIMIT_MAX limit) }
{
    match kind {
        Kind::Ask => limit == 0 || limit > LIMIT_MAX,
        _ => false,
    }
}
