//! The laws speak of runs that there are: worked runs meet their premises. The function does nothing.

ghost use Rattle.std.specs.Prelude.{◌≡◌, ◌≢◌, true, false, List, [], ◌∷◌, ◌++◌, take, Some};
ghost use Rattle.tmc_law.specs.Endpoint.{BulkIn};
ghost use Rattle.tmc_law.specs.State.{State, Pending, Transfer, Waiting, Idle, start, is_halted};
ghost use Rattle.tmc_law.specs.Halts.{halt_answers};
ghost use Rattle.tmc_law.specs.Step.{Steps, Halt};
ghost use Rattle.tmc_law.specs.Run.{Runs, inputs};
ghost use Rattle.tmc_law.specs.Numbers.{Rises, numbers};
ghost use Rattle.tmc_law.specs.WorkedQuery.{asking, answering, query_log};
ghost use Rattle.tmc_law.specs.WorkedRead.{reading};
ghost use Rattle.tmc_law.specs.WorkedParts.{sending_parts};

/// Within worked runs a message waits, a Bulk-OUT transfer is in progress with a submit that has begun, a Bulk-IN transfer is
/// in progress, and Bulk-IN halts with a submit pending that has bytes. The numbers of the query and of its request rise
/// before they arrive, and behind the run that of the query is left.
pub fn worked_runs_meet_the_laws()
    ensures waits { (s : State) × (message : Waiting) × Runs start (take 4 asking) s × (s.waiting ≡ Some message) }
    ensures begun { (s : State) × (first : Pending) × (transfer : Transfer) × Runs start (take 2 sending_parts) s
        × (s.bulk_out ≡ first ∷ []) × (first.moved ≢ []) × (s.transfer ≡ Some transfer) }
    ensures busy { (s : State) × Runs start asking s × (s.side ≢ Idle) }
    ensures halts { (s t : State) × (first : Pending) × Runs start reading s × (s.bulk_in ≡ first ∷ []) × (first.moved ≢ [])
        × Steps s (Halt BulkIn) (halt_answers BulkIn s) t × (is_halted BulkIn s ≡ false) × (is_halted BulkIn t ≡ true) }
    ensures numbers { Rises (numbers start (inputs (asking ++ answering))) × (numbers (record start { log = query_log }) [] ≡ 1 ∷ []) }
{}
