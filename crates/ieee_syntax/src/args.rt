ghost use Rattle.std.specs.Prelude.{◌≡◌, ◌++◌, ◌∷◌, [], MatchResult};

use crate::Nrf;
use std::alloc::{AllocFailed, Global};
use std::marker::Model;

/// The numbers of a unit in order, `<PROGRAM DATA>` of IEEE 488.2, 7.7. Contracts see them as a list.
#[derive(Debug, Drop)]
pub struct Args {
    items: Vec<Nrf>,
}

impl Model for Args {
    ghost use Rattle.std.specs.Prelude.{List};
    ghost use Rattle.ieee_syntax.specs.declared.nrf.Nrf.{Nrf};

    ghost Value = { List Nrf };

    ghost view = { λ a. a.items.items };
}

impl Args {
    /// No numbers. Takes no memory.
    pub fn new(alloc: Global) -> Args
        ensures { result ≡ [] }
    {
        Args {
            items: Vec::new(alloc),
        }
    }

    /// One more number at the end. For want of memory the number comes back.
    pub(crate) fn push(&mut self, number: Nrf) -> Result<(), AllocFailed<Nrf>>
        ensures { MatchResult result (λ _. self.new ≡ self.old ++ number ∷ []) (λ _. self.new ≡ self.old) }
    {
        self.items.push(number)
    }

    /// The numbers as a `Vec`. Takes no memory.
    pub fn into_vec(self) -> Vec<Nrf>
        ensures { result.items ≡ self }
    {
        self.items
    }

    /// The numbers as a slice.
    pub fn as_slice(&self) -> &[Nrf]
        ensures { result.now ≡ self.now }
    {
        self.items.as_slice()
    }
}

impl From<Vec<Nrf>> for Args {
    ghost from_gives = { λ items args. args ≡ items.items };

    /// Takes no memory.
    fn from(items: Vec<Nrf>) -> Args {
        Args { items }
    }
}
