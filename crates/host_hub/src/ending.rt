//! How a hub ends.

ghost use Rattle.std.specs.Prelude.{◌≡◌, ℕ, ◌+◌, ◌∷◌, [], List, Some, None, false};
ghost use Rattle.host_hub.specs.Order.{Setting};
ghost use Rattle.host_hub.specs.Record.{Past, Stopped};
ghost use Rattle.host_hub.specs.Book.{KeepsBook, live};
ghost use Rattle.host_hub.specs.BookRoom.{is_open};
ghost use Rattle.host_hub.specs.Causes.{named};
ghost use Rattle.host_hub.specs.Steps.{settle_all};
ghost use Rattle.host_hub.specs.declared.outcome.End.{End};
ghost use Rattle.host_hub.specs.Leaves.{Leaves};
ghost use Rattle.host_hub.specs.Knows.{HasBook, Knows};
ghost use Rattle.host_hub.specs.Stands.{IsAtRest, IsGivenUp, Rests};

use crate::hub_core::HubCore;
use crate::{End, Outcome};

/// The outcome of the same name.
fn outcome_of(end: End) -> Outcome
    ensures named { result ≡ named end }
    ensures settled { is_open result ≡ false }
{
    match end {
        End::Unplugged => Outcome::Unplugged,
        End::DeviceFault(status) => Outcome::DeviceFault(status),
        End::DeviceSays(status) => Outcome::DeviceSays(status),
        End::PeerFault(field) => Outcome::PeerFault(field),
        End::LinkFault => Outcome::LinkFault,
        End::Exhausted => Outcome::Exhausted,
        End::GivenUp => Outcome::GivenUp,
    }
}

impl HubCore {
    /// Settles every live ticket by this end, in their order.
    pub(crate) fn settle_all(&mut self, end: End)
        requires { HasBook self.old }
        ensures goes { (s : Setting) (past : Past) (sent : List ℕ) → KeepsBook past → Knows s past sent self.old
            → Knows s (settle_all end (live past) past) sent self.new }
        ensures births { self.new.notes.births ≡ self.old.notes.births }
        ensures rest { self.new ≡ record self.old { book = self.new.book; notes = self.new.notes; active = self.new.active } }
    {
        let outcome = outcome_of(end);
        'live: while self.active <= self.book.tickets() {
            self.settle(outcome);
        }
    }

    /// Ends the hub, and settles every live ticket by that, in their order.
    pub(crate) fn stop(&mut self, end: End)
        requires known { HasBook self.old }
        requires running { self.old.end ≡ None }
        ensures goes { (s : Setting) (past : Past) (sent : List ℕ) → KeepsBook past → Knows s past sent self.old
            → Knows s (settle_all end (live past) (Stopped end ∷ past)) sent self.new }
        ensures ended { self.new.end ≡ Some end }
        ensures births { self.new.notes.births ≡ self.old.notes.births }
        ensures rest { self.new ≡ record self.old { book = self.new.book; notes = self.new.notes; active = self.new.active; end = self.new.end } }
    {
        self.end = Some(end);
        self.settle_all(end);
    }

    /// Enters that a running hub is given up, and ends it. A hub that has ended stays as it is.
    pub(crate) fn give_up(&mut self)
        requires { IsAtRest self.old }
        ensures given { self.old.end ≡ None → (s : Setting) (past : Past) (sent : List ℕ) → Rests s past sent self.old → IsGivenUp s past sent self.new }
        ensures again { (e : End) → self.old.end ≡ Some e → self.new ≡ self.old }
        ensures ended { self.old.end ≡ None → self.new.end ≡ Some End.GivenUp }
        ensures leaves { Leaves self.old self.new }
    {
        if let Some(_) = self.end {
            return;
        }
        let mark = self.mark();
        self.book.give_up();
        self.notes.mark(mark);
        self.end = Some(End::GivenUp);
        self.settle_all(End::GivenUp);
    }
}
