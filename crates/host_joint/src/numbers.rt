//! Numbers of submits, as a host counts them. Each function does nothing, and its contract is the law.

ghost use Rattle.std.specs.Prelude.{◌≡◌, ℕ, ◌+◌, ◌≤◌, List, [], ◌∷◌, ◌++◌};
ghost use Rattle.usbip_wire.specs.declared.submit.SubmitHead.{SubmitHead};
ghost use Rattle.usbip_wire.specs.Up as up;
ghost use Rattle.instr_plain.specs.declared.log.LogEntry.{LogEntry};
ghost use Rattle.tmc_law.specs.State.{State};
ghost use Rattle.tmc_law.specs.Put.{Put};
ghost use Rattle.tmc_law.specs.Step.{Move, Steps};
ghost use Rattle.tmc_law.specs.Numbers.{AllBelow, Rises, numbers};
ghost use Rattle.host_joint.specs.Stage.{NoExec, IsAnother, Ran};

use instr_plain::one_response;
use tmc_law::laws::a_step_logs_at_most_once;

/// Where all numbers that were given are below one, no message was executed and none waits under that number or a greater one.
/// So an ask with a new number finds the device as [`asks_begin`](crate::asks_begin) needs it.
pub fn new_numbers_are_unused()
    ensures { (next last : ℕ) (messages : List up.Message) (s : State) → next ≤ last → AllBelow next (numbers s messages)
        → NoExec last s.log × IsAnother last s.waiting }
{}

/// Where the numbers rise, a message that was executed is the one of its number for good. So what a host has of its response
/// stays owned.
pub fn what_ran_is_kept()
    ensures { (n : ℕ) (message response : List ℕ) (messages : List up.Message) (s t : State) (move : Move) (puts : List Put)
        → Steps s move puts t → Rises (numbers s messages) → Ran n message response s.log → Ran n message response t.log }
{
    a_step_logs_at_most_once();
}

/// What was executed under a number is one message, and it had one response. So two hosts that own bytes under one number have a front of
/// the same response.
pub fn what_ran_is_one()
    ensures message { (n : ℕ) (message other response answer : List ℕ) (log : List LogEntry)
        → Ran n message response log → Ran n other answer log → message ≡ other }
    ensures response { (n : ℕ) (message other response answer : List ℕ) (log : List LogEntry)
        → Ran n message response log → Ran n other answer log → response ≡ answer }
{
    one_response();
}

/// Where the numbers rise and a submit with a greater number is written, they rise still, and all are below the next one.
pub fn new_numbers_rise()
    ensures { (head : SubmitHead) (transferred : List ℕ) (messages : List up.Message) (s : State)
        → AllBelow head.seqnum (numbers s messages) → Rises (numbers s messages)
        → Rises (numbers s (messages ++ up.Submit head transferred ∷ []))
        × AllBelow (head.seqnum + 1) (numbers s (messages ++ up.Submit head transferred ∷ [])) }
{}
