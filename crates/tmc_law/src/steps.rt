//! What one step does, told apart. Each function does nothing, and its contract is the law.

ghost use Rattle.std.specs.Prelude.{ℕ, List};
ghost use Rattle.tmc_law.specs.State.{State, start};
ghost use Rattle.tmc_law.specs.Put.{Put};
ghost use Rattle.tmc_law.specs.Step.{Move, Steps};
ghost use Rattle.tmc_law.specs.Run.{Entry, Runs};
ghost use Rattle.tmc_law.specs.Acts.{Does};
ghost use Rattle.tmc_law.specs.LogStep.{MayLog, Adds};
ghost use Rattle.tmc_law.specs.BulkOut.{Takes};
ghost use Rattle.tmc_law.specs.BulkIn.{Fills};
ghost use Rattle.tmc_law.specs.Packets.{TransferTakes, PieceGives};

/// A step of a device is the arrival of a submit, or it answers first submits of queues, changes them, and answers the
/// unlink that it took in, whose target is gone then.
pub fn steps_act()
    ensures { (run : List Entry) (s t : State) (move : Move) (puts : List Put) → Runs start run s → Steps s move puts t →
        Does s move puts t }
{}

/// A step logs nothing, or one entry that its move may log: an execution only of the message that waits.
pub fn a_step_logs_at_most_once()
    ensures { (s t : State) (move : Move) (puts : List Put) → Steps s move puts t → Adds (MayLog s move) s t }
{}

/// Packets that are taken belong to a transfer, which goes on, or is whole and takes effect; packets that are given belong to
/// a piece, which goes on, or is over. Else a submit of length 0 is answered, an abort is drained, or the endpoint halts.
pub fn packets_are_of_transfers()
    ensures takes { (s t : State) (count : ℕ) (puts : List Put) → Takes s count puts t → TransferTakes s puts t }
    ensures fills { (s t : State) (count : ℕ) (puts : List Put) → Fills s count puts t → PieceGives s puts t }
{}
