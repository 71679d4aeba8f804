//! The serving of one client over a link.

ghost use Rattle.std.specs.Prelude.{◌≡◌, ◌≢◌, ◌↔◌, ◌⊎◌, ◌<◌, [], length, Some, None, MatchOption};
ghost use Rattle.tmc_base.specs.declared.field.Field as field;
ghost use Rattle.tmc_base.specs.Faults.{Rose};
ghost use Rattle.usbip_export.specs.Events.{IsCalm};
ghost use Rattle.usbip_export.specs.Steps.{AreServing};
ghost use Rattle.usbip_export.specs.Serving.{WorksBy, Crosses, IsUnplugged, IsSentOff};
ghost use Rattle.usbip_export.specs.Ending.{Calls, IsGoing, Stops, Ends, Called};

use crate::{Fed, Node};
use tmc_base::{Field, Link, PollStep, SendStep};

/// How the serving of a client ended.
#[derive(Clone, Copy, Debug, PartialEq, Eq)]
pub enum ServeEnd {
    /// The link answered `Closed`, or the instrument was unplugged and all was sent.
    Closed,
    /// The node refused this field.
    Refused(Field),
    /// A call on the link failed.
    LinkFault,
    /// So many calls on the link were made as might be.
    Spent,
    /// Memory is wanting.
    Memory,
}

/// The most bytes that one poll asks for.
const PIECE: usize = 4_096;

/// Serves a client over a link, in at most `turns` calls on it.
///
/// Before each call the node makes its calm moves, and its instrument makes no others. All answered bytes are sent before the link is polled. It ends at once
/// where the node refuses a field, where the link closes or fails, and where the instrument is unplugged and all was sent.
pub fn serve_link<L: Link>(node: &mut Node, link: &mut L, turns: u64) -> ServeEnd
    ensures crosses { Crosses L.told (result ≢ ServeEnd.Memory) node.old link.old node.new link.new }
    ensures ends { Ends L.counts L.sends L.polls turns result link.old node.new link.new }
    ensures refused { (f : field.Field) → result ≡ ServeEnd.Refused f ↔ node.new.refused ≡ Some f }
    ensures closed { result ≡ ServeEnd.Closed
        → Rose (L.counts link.old).closings (L.counts link.new).closings ⊎ IsUnplugged node.new }
    ensures unclosed { result ≢ ServeEnd.Closed → (L.counts link.new).closings ≡ (L.counts link.old).closings }
    ensures fault { result ≡ ServeEnd.LinkFault → Rose (L.counts link.old).faults (L.counts link.new).faults }
    ensures faultless { result ≢ ServeEnd.LinkFault → (L.counts link.new).faults ≡ (L.counts link.old).faults }
    ensures spent { result ≡ ServeEnd.Spent → Calls L.counts L.sends L.polls link.old turns link.new }
    ensures calm { (result ≡ ServeEnd.Closed) ⊎ (result ≡ ServeEnd.Spent) → IsCalm node.new }
    ensures sent { result ≡ ServeEnd.Closed → IsSentOff node.new }
{
    serve(node, link, turns)
}

/// Serves a client until the node or a call on the link ends it.
fn serve<L: Link>(node: &mut Node, link: &mut L, turns: u64) -> ServeEnd
    ensures crosses { Crosses L.told (result ≢ ServeEnd.Memory) node.old link.old node.new link.new }
    ensures ends { Ends L.counts L.sends L.polls turns result link.old node.new link.new }
{
    if let Some(field) = node.refused() {
        return ServeEnd::Refused(field);
    }
    let mut piece = [0; PIECE];
    let mut made = 0;
    'turns: loop {
        if let Some(end) = settle(node) {
            return end;
        }
        if made == turns {
            return ServeEnd::Spent;
        }
        made += 1;
        if let Some(end) = call(node, link, &mut piece) {
            return end;
        }
    }
}

/// Lets the node make its calm moves, and tells what ends the serving before a further call.
fn settle(node: &mut Node) -> Option<ServeEnd>
    ensures works { WorksBy AreServing [] [] node.old node.new }
    ensures settled { MatchOption result (IsGoing node.new) (λ ended. Stops ended node.new) }
    ensures unspent { result ≢ Some ServeEnd.Spent }
{
    let calmed = node.calm();
    if let Some(field) = node.refused() {
        return Some(ServeEnd::Refused(field));
    }
    if calmed.is_err() {
        return Some(ServeEnd::Memory);
    }
    if node.closed() && node.pending_out().is_empty() {
        return Some(ServeEnd::Closed);
    }
    None
}

/// One call on the link: bytes that are pending are sent before any are polled.
fn call<L: Link>(node: &mut Node, link: &mut L, piece: &mut [u8]) -> Option<ServeEnd>
    requires unrefused { node.old.refused ≡ None }
    requires room { 0 < length piece.old }
    ensures called { Called L.counts L.sends L.polls L.told result node.old link.old node.new link.new }
    ensures piece { length piece.new ≡ length piece.old }
{
    if node.pending_out().is_empty() {
        receive(node, link, piece)
    } else {
        send(node, link)
    }
}

/// Sends what is pending.
fn send<L: Link>(node: &mut Node, link: &mut L) -> Option<ServeEnd>
    requires unrefused { node.old.refused ≡ None }
    requires some { 0 < length node.old.out }
    ensures { Called L.counts L.sends L.polls L.told result node.old link.old node.new link.new }
{
    match link.send(node.pending_out()) {
        SendStep::Took(n) => {
            node.sent_out(n);
            None
        }
        SendStep::Idle => None,
        SendStep::Failed => Some(ServeEnd::LinkFault),
        SendStep::Memory => Some(ServeEnd::Memory),
    }
}

/// Polls the link, and feeds the node what came.
fn receive<L: Link>(node: &mut Node, link: &mut L, piece: &mut [u8]) -> Option<ServeEnd>
    requires unrefused { node.old.refused ≡ None }
    requires room { 0 < length piece.old }
    requires none { node.old.out ≡ [] }
    ensures called { Called L.counts L.sends L.polls L.told result node.old link.old node.new link.new }
    ensures piece { length piece.new ≡ length piece.old }
{
    match link.poll(piece) {
        PollStep::Got(n) => match node.feed(&piece[..n]) {
            Fed::Ok => None,
            Fed::Refused(field) => Some(ServeEnd::Refused(field)),
            Fed::Memory => Some(ServeEnd::Memory),
        },
        PollStep::Idle => None,
        PollStep::Closed => Some(ServeEnd::Closed),
        PollStep::Failed => Some(ServeEnd::LinkFault),
        PollStep::Memory => Some(ServeEnd::Memory),
    }
}
