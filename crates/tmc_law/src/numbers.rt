//! The numbers of submits in the order in which the instrument comes to them. The function does nothing, and its contract is
//! the law.

ghost use Rattle.std.specs.Prelude.{ℕ, List, ◌++◌};
ghost use Rattle.usbip_wire.specs.Up as up;
ghost use Rattle.tmc_law.specs.State.{State};
ghost use Rattle.tmc_law.specs.Put.{Put};
ghost use Rattle.tmc_law.specs.Step.{Move, Steps};
ghost use Rattle.tmc_law.specs.Run.{Entry, Runs, taken, inputs};
ghost use Rattle.tmc_law.specs.Numbers.{Rises, AllBelow, numbers};

/// Where the numbers of the messages and triggers that took effect, of the message that waits, of the submits that are
/// pending on Bulk-OUT and of those on their way to it rise in this order, they do so behind each step and behind each run. So what took effect
/// never takes effect again, and what waits is none of it. Where all are below a number, they stay so.
pub fn numbers_rise()
    ensures rise { (s t : State) (move : Move) (puts : List Put) (messages : List up.Message) → Steps s move puts t
        → Rises (numbers s (taken move ++ messages)) → Rises (numbers t messages) }
    ensures run { (run : List Entry) (s t : State) (messages : List up.Message) → Runs s run t
        → Rises (numbers s (inputs run ++ messages)) → Rises (numbers t messages) }
    ensures below { (n : ℕ) (s t : State) (move : Move) (puts : List Put) (messages : List up.Message) → Steps s move puts t
        → AllBelow n (numbers s (taken move ++ messages)) → AllBelow n (numbers t messages) }
{}
