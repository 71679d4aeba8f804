//! An ask in hand: its message, its execution and its response, wherever they are. Each function does nothing, and its
//! contract is the law.

ghost use Rattle.std.specs.Prelude.{◌≡◌, ◌≢◌, ◌≤◌, ℕ, true, false, Some, None, List, [], ◌∷◌, ◌++◌, length};
ghost use Rattle.usbip_wire.specs.declared.ret_submit.RetSubmitHead.{RetSubmitHead};
ghost use Rattle.usbip_wire.specs.declared.submit.SubmitHead.{SubmitHead};
ghost use Rattle.usbip_wire.specs.declared.unlink.UnlinkHead.{UnlinkHead};
ghost use Rattle.usbip_wire.specs.Up as up;
ghost use Rattle.tmc_law.specs.Endpoint.{Endpoint, BulkIn, number_of};
ghost use Rattle.tmc_law.specs.State.{State, Pending, Waiting, start};
ghost use Rattle.tmc_law.specs.Put.{Put, Submitted, stalled};
ghost use Rattle.tmc_law.specs.Halts.{unplug_answers};
ghost use Rattle.tmc_law.specs.Step.{Move, Unplug, Steps};
ghost use Rattle.tmc_law.specs.Run.{Entry, Runs, taken, inputs, outputs};
ghost use Rattle.tmc_law.specs.BulkOut.{message_most};
ghost use Rattle.host_joint.specs.Jobs.{Job, IsJob};
ghost use Rattle.host_joint.specs.Stage.{Carries};
ghost use Rattle.host_joint.specs.Lines.{unlinks_in, AllFitting, InOrder};
ghost use Rattle.host_joint.specs.Asking.{Ask, Asking, AtRest, IsQuiet, IsSafe, StaysPlugged, Cancelled, WasAsking};

use tmc_law::laws::{
    pending_submits_are_sound, runs_join, steps_act, the_log_grows, transfers_are_in_order,
};
use tmc_wire::headers_are_read_again;

/// An ask begins when its first transfer is written, at a device where nothing is in progress and with nothing of another
/// ticket on its way. Endpoints may be halted, and a message of an earlier ticket may wait.
pub fn asks_begin()
    ensures { (last : ℕ) (message : List ℕ) (tag size : ℕ) (job : Job) (ups : List up.Message) (downs : List Put) (s : State)
        → AtRest last s → IsQuiet ups downs → IsJob job → length message ≤ message_most → Carries last tag size message (job ∷ [])
        → Asking (record { last = last; message = message; tag = tag; size = size; written = job ∷ []; answered = 0; sofar = []; read = []; gone = false })
        (ups ++ up.Submit job.head job.bytes ∷ []) downs s }
{}

/// It stays one under each step of a device, with halts and unlinks, until the device is unplugged. An unlink hits the last
/// submit of its queue. So it does under each run without unlinks.
pub fn asking_stays()
    ensures step { (run : List Entry) (ask : Ask) (s t : State) (move : Move) (ups : List up.Message) (downs puts : List Put)
        → Runs start run s → Steps s move puts t → AllFitting (taken move ++ ups) → IsSafe move ups s
        → Asking ask (taken move ++ ups) downs s → Asking ask ups (downs ++ puts) t }
    ensures run { (before run : List Entry) (ask : Ask) (s t : State) (ups : List up.Message) (downs : List Put)
        → Runs start before s → Runs s run t → AllFitting (inputs run ++ ups) → unlinks_in (inputs run) ≡ [] → StaysPlugged run
        → Asking ask (inputs run ++ ups) downs s → Asking ask ups (downs ++ outputs run) t }
{
    pending_submits_are_sound();
    steps_act();
    runs_join();
    the_log_grows();
    headers_are_read_again();
}

/// A cancelled ask stays one, until the device is unplugged: its unlinks are answered, each one that hits takes the last submit
/// of its queue, and packets that were moved may be lost.
pub fn cancelled_asks_stay()
    ensures step { (run : List Entry) (asked : Endpoint → List SubmitHead) (unlinks : List UnlinkHead) (ask : Ask) (s t : State) (move : Move) (ups : List up.Message) (downs puts : List Put)
        → Runs start run s → Steps s move puts t → AllFitting (taken move ++ ups) → InOrder (taken move ++ ups) → move ≢ Unplug
        → Cancelled asked unlinks ask (taken move ++ ups) downs s → Cancelled asked unlinks ask ups (downs ++ puts) t }
    ensures run { (before run : List Entry) (asked : Endpoint → List SubmitHead) (unlinks : List UnlinkHead) (ask : Ask) (s t : State) (ups : List up.Message) (downs : List Put)
        → Runs start before s → Runs s run t → AllFitting (inputs run ++ ups) → InOrder (inputs run ++ ups) → StaysPlugged run
        → Cancelled asked unlinks ask (inputs run ++ ups) downs s → Cancelled asked unlinks ask ups (downs ++ outputs run) t }
{
    pending_submits_are_sound();
    steps_act();
    runs_join();
    the_log_grows();
    headers_are_read_again();
}

/// Where the device is unplugged, the ask was in hand until then: what is true of it at that moment stays to be used for the
/// answers that were on their way, and behind them come those of the unplugging.
pub fn unplugged_asks_were_in_hand()
    ensures { (ask : Ask) (s t : State) (ups : List up.Message) (downs puts : List Put) → Steps s Unplug puts t
        → Asking ask ups downs s → WasAsking ask ups (downs ++ puts) t }
{}

/// Whatever a host is at, unplugging is the end: what was pending is answered, nothing else changes at the instrument, and no step follows. So
/// what was true before stays true of the log.
pub fn unplugging_is_the_end()
    ensures answered { (s t : State) (puts : List Put) → Steps s Unplug puts t → (puts ≡ unplug_answers s) × (t.log ≡ s.log) × (t.standing ≡ s.standing) }
    ensures last { (s t later : State) (puts more : List Put) (move : Move) → Steps s Unplug puts t → Steps t move more later → ⊥ }
{}

/// While no piece is requested, no read is answered but by a halt of Bulk-IN; and while a message waits for execution, no packet of another
/// was taken.
pub fn nothing_comes_unasked()
    ensures reads { (ask : Ask) (ups : List up.Message) (head : SubmitHead) (answer : RetSubmitHead) (transferred : List ℕ) (downs : List Put) (s : State)
        → head.ep ≡ number_of BulkIn → ask.written ≡ [] → ask.sofar ≢ [] → Asking ask ups (Submitted head answer transferred ∷ downs) s
        → (s.halted.bulk_in ≡ true) × (answer.status ≡ stalled) }
    ensures packets { (run : List Entry) (s : State) (message : Waiting) (first : Pending) (behind : List Pending) → Runs start run s → s.waiting ≡ Some message
        → s.bulk_out ≡ first ∷ behind → (s.transfer ≡ None) × (first.moved ≡ []) }
{
    transfers_are_in_order();
}
