//! What ties a record to the bytes of a link is kept by each step. Each function does nothing, and its contract is the law.

ghost use Rattle.std.specs.Prelude.{ℕ, List, [], ◌∷◌, ◌++◌, take, drop};
ghost use Rattle.usbip_wire.specs.Awaited.{entries_of};
ghost use Rattle.usbip_wire.specs.Down as down;
ghost use Rattle.usbip_wire.specs.Down.{SpellsAnswer};
ghost use Rattle.host_urbs.specs.Record as urbs;
ghost use Rattle.host_hub.specs.declared.outcome.End.{End};
ghost use Rattle.host_hub.specs.Order.{Order, Setting, message_of};
ghost use Rattle.host_hub.specs.Record.{Fell, Happening, Owner, Past, Took, Wrote};
ghost use Rattle.host_hub.specs.Crossings.{crossings};
ghost use Rattle.host_hub.specs.Tied.{MovesNothing, Tied, bytes_of};

/// A record and the bytes of its link: what was sent and stands in the outbox are its messages, what was taken is its answers
/// and a rest. So it is at the beginning, as bytes are sent and come, as a message is written behind the outbox, as the answer
/// that stands first in the rest is taken, and whatever else happens.
pub fn records_are_tied()
    ensures start { (setting : Setting) → Tied setting [] [] [] [] [] }
    ensures sent { (setting : Setting) (past : Past) (sent outbox received rest : List ℕ) (count : ℕ) → Tied setting past sent outbox received rest
        → Tied setting past (sent ++ take count outbox) (drop count outbox) received rest }
    ensures got { (setting : Setting) (past : Past) (sent outbox received rest more : List ℕ) → Tied setting past sent outbox received rest
        → Tied setting past sent outbox (received ++ more) (rest ++ more) }
    ensures wrote { (setting : Setting) (past : Past) (sent outbox received rest : List ℕ) (number : ℕ) (owner : Owner) (order : Order)
        → Tied setting past sent outbox received rest
        → Tied setting (Wrote number owner order ∷ past) sent (outbox ++ bytes_of (message_of setting number order)) received rest }
    ensures took { (setting : Setting) (past : Past) (sent outbox received this rest : List ℕ) (answer : down.Message)
        → Tied setting past sent outbox received (this ++ rest) → SpellsAnswer (entries_of (urbs.outstanding (crossings setting past))) answer this
        → Tied setting (Took answer ∷ past) sent outbox received rest }
    ensures fell { (setting : Setting) (past : Past) (sent outbox received this rest : List ℕ) (answer : down.Message) (e : End)
        → Tied setting past sent outbox received (this ++ rest) → SpellsAnswer (entries_of (urbs.outstanding (crossings setting past))) answer this
        → Tied setting (Fell answer e ∷ past) sent outbox received rest }
    ensures other { (setting : Setting) (past : Past) (sent outbox received rest : List ℕ) (happening : Happening) → MovesNothing happening
        → Tied setting past sent outbox received rest → Tied setting (happening ∷ past) sent outbox received rest }
{}
