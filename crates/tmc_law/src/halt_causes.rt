//! Why endpoints halt, and why halts end. The function does nothing, and its contract is the law.

ghost use Rattle.std.specs.Prelude.{◌≡◌, List, true, false};
ghost use Rattle.tmc_law.specs.Endpoint.{Endpoint};
ghost use Rattle.tmc_law.specs.State.{State, is_halted};
ghost use Rattle.tmc_law.specs.Put.{Put};
ghost use Rattle.tmc_law.specs.Step.{Move, Steps};
ghost use Rattle.tmc_law.specs.HaltCauses.{HaltedBy, UsableBy};

/// Where a step halts an endpoint that was not halted, or ends a halt, this is why.
pub fn halts_have_causes()
    ensures halts { (s t : State) (move : Move) (puts : List Put) (endpoint : Endpoint) → Steps s move puts t
        → is_halted endpoint s ≡ false → is_halted endpoint t ≡ true → HaltedBy s endpoint move }
    ensures ends { (s t : State) (move : Move) (puts : List Put) (endpoint : Endpoint) → Steps s move puts t
        → is_halted endpoint s ≡ true → is_halted endpoint t ≡ false → UsableBy s endpoint move }
{}
