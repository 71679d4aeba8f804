ghost use Rattle.std.specs.Prelude.{◌≡◌, ◌⊎◌, ℕ, List};
ghost use Rattle.ieee_syntax.specs.declared.unit.Unit.{Unit};
ghost use Rattle.ieee_syntax.specs.Program.{Program, FaultAt};

/// The grammar is unambiguous: the bytes of a message determine its units.
pub fn one_reading()
    ensures { (bytes : List ℕ) (us vs : List Unit) → Program bytes us → Program bytes vs → us ≡ vs }
{}

/// Bytes that are no message have one place where they go wrong.
pub fn one_fault()
    ensures { (bytes : List ℕ) (place other : ℕ) → FaultAt bytes place → FaultAt bytes other → place ≡ other }
{}

/// Bytes are a message or go wrong at a place, and not both.
pub fn a_message_or_a_fault()
    ensures either { (bytes : List ℕ) →
        ((us : List Unit) × Program bytes us) ⊎ ((place : ℕ) × FaultAt bytes place) }
    ensures not_both { (bytes : List ℕ) (us : List Unit) (place : ℕ) →
        Program bytes us → FaultAt bytes place → ⊥ }
{}
