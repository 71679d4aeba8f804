//! What holds of each state that can be reached. Each function does nothing, and its contract is the law.

ghost use Rattle.std.specs.Prelude.{◌≡◌, ℕ, ◌<◌, ◌≤◌, true, List, [], length};
ghost use Rattle.usbip_wire.specs.declared.submit.SubmitHead.{SubmitHead};
ghost use Rattle.usbip_wire.specs.declared.unlink.UnlinkHead.{UnlinkHead};
ghost use Rattle.usbip_wire.specs.Up as up;
ghost use Rattle.tmc_law.specs.Endpoint.{Endpoint, Control};
ghost use Rattle.tmc_law.specs.State.{State, Pending, Plugged, Avoids, start, queue_of, pending};
ghost use Rattle.tmc_law.specs.Queues.{Holds, IsSubmit, IsUnlink, pending_most};
ghost use Rattle.tmc_law.specs.Put.{Put};
ghost use Rattle.tmc_law.specs.Step.{Steps, Comes};
ghost use Rattle.tmc_law.specs.Run.{Entry, Runs};
ghost use Rattle.tmc_law.specs.Reached.{HaltsAreEmpty, FirstBegins, AsksStatus, AllFit, AreDistinct, AreFew, IsInOrder};

/// What is pending in a state that can be reached: nothing at a halted endpoint, at most 256 submits with distinct numbers,
/// each at its endpoint, of which only the first of each queue has moved bytes or was polled. The status byte was polled for
/// a control request that asks for it.
pub fn pending_submits_are_sound()
    ensures halted { (run : List Entry) (s : State) → Runs start run s → HaltsAreEmpty s }
    ensures first { (run : List Entry) (s : State) (endpoint : Endpoint) → Runs start run s → FirstBegins (queue_of endpoint s) }
    ensures polled { (run : List Entry) (s : State) (endpoint : Endpoint) (before : List Pending) (submit : Pending) (behind : List Pending)
        → Runs start run s → Holds s endpoint before submit behind → submit.polled ≡ true
        → (endpoint ≡ Control) × (before ≡ []) × AsksStatus submit }
    ensures stand { (run : List Entry) (s : State) (endpoint : Endpoint) → Runs start run s → AllFit endpoint (queue_of endpoint s) }
    ensures distinct { (run : List Entry) (s : State) → Runs start run s → AreDistinct (pending s) }
    ensures few { (run : List Entry) (s : State) → Runs start run s → length (pending s) ≤ pending_most }
{}

/// What is under way on the bulk endpoints in a state that can be reached. A message that waits for execution excludes an
/// unfinished one, and a Bulk-IN transfer in progress excludes both. A Bulk-OUT transfer in progress is of a message and
/// still wants bytes, at least those of the submit that it began with.
pub fn transfers_are_in_order()
    ensures { (run : List Entry) (s : State) → Runs start run s → IsInOrder s }
{}

/// At most one status packet and one service packet are queued in a state that can be reached.
pub fn few_packets_are_queued()
    ensures { (run : List Entry) (s : State) → Runs start run s → AreFew s.packets }
{}

/// Whatever arrives can be taken in by a device that is plugged: a submit whose number is not pending, where fewer than 256
/// are, and any unlink.
pub fn what_arrives_can_be_taken()
    ensures submits { (s : State) (head : SubmitHead) (transferred : List ℕ) → s.presence ≡ Plugged → IsSubmit head transferred
        → Avoids head.seqnum (pending s) → length (pending s) < pending_most
        → (puts : List Put) × (t : State) × Steps s (Comes (up.Submit head transferred)) puts t }
    ensures unlinks { (run : List Entry) (s : State) (head : UnlinkHead) → Runs start run s → s.presence ≡ Plugged → IsUnlink head
        → (puts : List Put) × (t : State) × Steps s (Comes (up.Unlink head)) puts t }
{}
