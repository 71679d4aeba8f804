ghost use Rattle.std.specs.Prelude.{◌≡◌, Bool, false, List};
ghost use Rattle.tmc_law.specs.Endpoint.{Endpoint, Control};
ghost use Rattle.tmc_law.specs.State.{State, Pending, start, queue_of, with_queue, is_halted, with_halt};
ghost use Rattle.endpoint_pipes.specs.Held.{Held, nothing_held, list_of, with_list, is_marked, with_mark};
ghost use Rattle.endpoint_pipes.specs.Part.{Holds, queue_from};

/// What a device's state has of its pipes: the law's queues are their lists and its halts their marks, and stay so where
/// both change. Whether the status byte was polled for the first control submit is what the device adds.
pub fn pipes_are_a_part()
    ensures starts { Holds false start nothing_held }
    ensures queues { (polled : Bool) (s : State) (held : Held) → Holds polled s held → (endpoint : Endpoint) →
        queue_of endpoint s ≡ queue_from endpoint polled (list_of endpoint held) }
    ensures changes { (polled : Bool) (s : State) (held : Held) → Holds polled s held → (endpoint : Endpoint) (list : List Pending) →
        Holds polled (with_queue endpoint (queue_from endpoint polled list) s) (with_list endpoint list held) }
    ensures polls { (polled later : Bool) (s : State) (held : Held) → Holds polled s held → (list : List Pending) →
        Holds later (with_queue Control (queue_from Control later list) s) (with_list Control list held) }
    ensures halts { (polled : Bool) (s : State) (held : Held) → Holds polled s held → (endpoint : Endpoint) →
        is_halted endpoint s ≡ is_marked endpoint held }
    ensures marks { (polled halted : Bool) (s : State) (held : Held) → Holds polled s held → (endpoint : Endpoint) →
        Holds polled (with_halt endpoint halted s) (with_mark endpoint halted held) }
{}
