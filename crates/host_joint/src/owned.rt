//! Whose bytes a host has, and what is left of its response. Each function does nothing, and its contract is the law.

ghost use Rattle.std.specs.Prelude.{◌≡◌, ◌≢◌, ℕ, false, List, [], ◌++◌};
ghost use Rattle.usbip_wire.specs.declared.submit.SubmitHead.{SubmitHead};
ghost use Rattle.usbip_wire.specs.declared.unlink.UnlinkHead.{UnlinkHead};
ghost use Rattle.usbip_wire.specs.Up as up;
ghost use Rattle.tmc_law.specs.Endpoint.{Endpoint};
ghost use Rattle.tmc_law.specs.State.{State, start};
ghost use Rattle.tmc_law.specs.Put.{Put};
ghost use Rattle.tmc_law.specs.Logging.{unread};
ghost use Rattle.tmc_law.specs.Numbers.{Rises, numbers};
ghost use Rattle.tmc_law.specs.Step.{Move, Steps};
ghost use Rattle.tmc_law.specs.Run.{Entry, Runs, taken, inputs};
ghost use Rattle.host_joint.specs.Lines.{AllFitting, InOrder, unlinks_in};
ghost use Rattle.host_joint.specs.Asking.{Ask, Asking, IsSafe, StaysPlugged, Cancelled, WasAsking};
ghost use Rattle.host_joint.specs.Hosted.{PieceEnd};
ghost use Rattle.host_joint.specs.Owned.{Owned, HasMore};

use crate::{asking_stays, cancelled_asks_stay};
use instr_plain::one_response;
use tmc_law::laws::{a_step_logs_at_most_once, numbers_rise};

/// What a host has read is a front of the one response that the log gives to the execution of its message, under its number,
/// also of the piece in hand; so it is when the device was unplugged.
pub fn what_is_read_is_owned()
    ensures in_hand { (ask : Ask) (ups : List up.Message) (downs : List Put) (s : State) → Asking ask ups downs s → Owned ask s }
    ensures unplugged { (ask : Ask) (ups : List up.Message) (downs : List Put) (s : State) → WasAsking ask ups downs s → Owned ask s }
{}

/// Behind a piece without EOM more of the same response is unread at the device. Until the next request is written nothing
/// changes that, under each step and each run of the device, where the numbers rise; nor does a cancel.
pub fn what_is_unread_stays()
    ensures behind { (ask : Ask) (bytes : List ℕ) (ups : List up.Message) (downs : List Put) (s : State) (end : PieceEnd ask bytes ups downs s)
        → end.eom ≡ false → HasMore (record ask { sofar = ask.sofar ++ end.carried }) s }
    ensures step { (run : List Entry) (ask : Ask) (s t : State) (move : Move) (ups : List up.Message) (downs puts : List Put)
        → Runs start run s → Steps s move puts t → AllFitting (taken move ++ ups) → IsSafe move ups s → Rises (numbers s (taken move ++ ups))
        → ask.written ≡ [] → ask.sofar ≢ [] → Asking ask (taken move ++ ups) downs s → HasMore ask s → HasMore ask t × (unread t ≡ unread s) }
    ensures run { (before run : List Entry) (ask : Ask) (s t : State) (ups : List up.Message) (downs : List Put)
        → Runs start before s → Runs s run t → AllFitting (inputs run ++ ups) → unlinks_in (inputs run) ≡ [] → StaysPlugged run → Rises (numbers s (inputs run ++ ups))
        → ask.written ≡ [] → ask.sofar ≢ [] → Asking ask (inputs run ++ ups) downs s → HasMore ask s → HasMore ask t × (unread t ≡ unread s) }
    ensures cancelled_run { (before run : List Entry) (asked : Endpoint → List SubmitHead) (unlinks : List UnlinkHead) (ask : Ask) (s t : State) (ups : List up.Message) (downs : List Put)
        → Runs start before s → Runs s run t → AllFitting (inputs run ++ ups) → InOrder (inputs run ++ ups) → StaysPlugged run → Rises (numbers s (inputs run ++ ups))
        → ask.written ≡ [] → ask.sofar ≢ [] → Cancelled asked unlinks ask (inputs run ++ ups) downs s → HasMore ask s → HasMore ask t × (unread t ≡ unread s) }
{
    asking_stays();
    cancelled_asks_stay();
    a_step_logs_at_most_once();
    numbers_rise();
    one_response();
}
