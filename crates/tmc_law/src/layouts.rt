//! What a device puts out has the layouts of the standards. Each function does nothing, and its contract is the law.

ghost use Rattle.std.specs.Prelude.{◌≡◌, ℕ, List, ◌∷◌, ◌++◌};
ghost use Rattle.usb_setup.specs.Identity.{configuration_text};
ghost use Rattle.usb_setup.specs.Interface.{Finds};
ghost use Rattle.tmc_wire.specs.declared.class_request.ClassRequest.{ClassRequest};
ghost use Rattle.tmc_wire.specs.Notify.{IsPacket};
ghost use Rattle.tmc_law.specs.Endpoint.{ends};
ghost use Rattle.tmc_law.specs.State.{State, start, Pending, Piece, Sending, Packet};
ghost use Rattle.tmc_law.specs.BulkIn.{Begins};
ghost use Rattle.tmc_law.specs.Aborts.{Served};
ghost use Rattle.tmc_law.specs.Status.{packet_bytes};
ghost use Rattle.tmc_law.specs.Class.{Serves, StaysPending};
ghost use Rattle.tmc_law.specs.Run.{Entry, Runs};
ghost use Rattle.tmc_law.specs.Layouts.{IsLaidOut, BeginsTransfer, IsUnderWay, notify_of};

/// Each class request is answered by a layout of its row in the standards' tables, of the row's length. This holds of the
/// PENDING of a check too.
pub fn class_answers_are_laid_out()
    ensures answers { (run : List Entry) (s : State) (submit : Pending) (behind : List Pending) (request : ClassRequest) (served : Served)
        → Runs start run s → Serves request submit (record s { control = behind }) served → IsLaidOut request served.layout }
    ensures postpones { (run : List Entry) (s : State) (request : ClassRequest) (layout : List ℕ)
        → Runs start run s → StaysPending s.running request layout → IsLaidOut request layout }
{}

/// A piece of a response begins as a Bulk-IN transfer of the first unread bytes, with the tag of its request. Its EOM is set
/// exactly where it ends the response. While it is sent, what is left of it is the end of such a transfer.
pub fn pieces_are_transfers()
    ensures begins { (run : List Entry) (s t : State) (count : ℕ) → Runs start run s → Begins s count t → BeginsTransfer s count t }
    ensures goes_on { (run : List Entry) (s : State) (piece : Piece) → Runs start run s → s.side ≡ Sending piece → IsUnderWay piece }
{}

/// A queued packet is an Interrupt-IN packet: one with the status byte for a request whose tag is 2 to 127, or a request for
/// service.
pub fn packets_are_laid_out()
    ensures { (run : List Entry) (s : State) (before behind : List Packet) (packet : Packet) → Runs start run s
        → s.packets ≡ before ++ packet ∷ behind → IsPacket (notify_of packet) (packet_bytes packet) }
{}

/// The numbers in class requests are those that a reader of the instrument's own descriptors finds.
pub fn the_ends_are_the_descriptors()
    ensures { Finds configuration_text ends }
{}
