//! Submits end: each is answered, and leaves its queue.

ghost use Rattle.std.specs.Prelude.{◌≡◌, ◌+◌, ◌<◌, ◌≤◌, ◌++◌, [], ◌∷◌, List, length, map, IsSome};
ghost use Rattle.tmc_law.specs.State.{Pending};
ghost use Rattle.tmc_law.specs.Put.{ended};
ghost use Rattle.endpoint_pipes.specs.Held.{endpoint_of, list_of, with_list};
ghost use Rattle.endpoint_pipes.specs.Outcome.{first_of};

use crate::outputs::Outputs;
use endpoint_pipes::Pipes;

/// The first submit of an endpoint ends with this status, and the bytes that it had.
pub(crate) fn end_first(pipes: &mut Pipes, outputs: &mut Outputs, ep: u8, status: i32)
    requires endpoint { ep < 4 }
    requires there { IsSome (first_of (list_of (endpoint_of ep) pipes.old)) }
    requires room { 0 < outputs.old.room }
    ensures left { (submit : Pending) (behind : List Pending) → list_of (endpoint_of ep) pipes.old ≡ submit ∷ behind →
        pipes.new ≡ with_list (endpoint_of ep) behind pipes.old }
    ensures put { (submit : Pending) (behind : List Pending) → list_of (endpoint_of ep) pipes.old ≡ submit ∷ behind →
        outputs.new.puts ≡ outputs.old.puts ++ ended status submit ∷ [] }
    ensures room { outputs.new.room + 1 ≡ outputs.old.room }
{
    let Some(first) = pipes.first(ep) else {
        unreachable!()
    };
    let over = pipes.answer(ep);
    outputs.answer(first.head, status, over.actual, over.bytes);
}

/// All submits of an endpoint end with this status, in order, each with the bytes that it had.
pub(crate) fn end_all(pipes: &mut Pipes, outputs: &mut Outputs, ep: u8, status: i32)
    requires endpoint { ep < 4 }
    requires room { length (list_of (endpoint_of ep) pipes.old) ≤ outputs.old.room }
    ensures left { pipes.new ≡ with_list (endpoint_of ep) [] pipes.old }
    ensures put { outputs.new.puts ≡ outputs.old.puts ++ map (λ submit. ended status submit) (list_of (endpoint_of ep) pipes.old) }
    ensures room { outputs.new.room + length (list_of (endpoint_of ep) pipes.old) ≡ outputs.old.room }
{
    while pipes.first(ep).is_some() {
        end_first(pipes, outputs, ep, status);
    }
}
