//! What holds of the runs of a world. The function does nothing, and its contract is the law.

ghost use Rattle.std.specs.Prelude.{◌≡◌, false, List, [], ◌∷◌, ◌++◌};
ghost use Rattle.host_hub.specs.Law.{Kept};
ghost use Rattle.host_hub.specs.Order.{Setting};
ghost use Rattle.tmc_world.specs.LoopLink.{IsTold};
ghost use Rattle.tmc_world.specs.World.{Worldly, begun};
ghost use Rattle.tmc_world.specs.WorldFacts.{IsCalm};
ghost use Rattle.tmc_world.specs.WorldSteps.{Answered, AreCalmEvents, Goes, GoThrough};

/// Events keep the laws of the hub's record; and one event more makes a run longer. Where none of the events is a line `halt` or
/// `unplug`, nothing disturbed the run that the link tells, unless something waits for memory.
pub fn world_runs_keep_the_laws()
    ensures kept { (setting : Setting) (events : List Answered) (old new : Worldly) → GoThrough setting old events new → Kept setting old.past → Kept setting new.past }
    ensures more { (setting : Setting) (events : List Answered) (one : Answered) (old mid new : Worldly) → GoThrough setting old events mid
        → Goes setting one.event mid one.said new → GoThrough setting old (events ++ one ∷ []) new }
    ensures calm { (setting : Setting) (events : List Answered) (new : Worldly) → GoThrough setting begun events new → AreCalmEvents events
        → IsTold new.link → new.link.late ≡ false → IsCalm new }
{}
