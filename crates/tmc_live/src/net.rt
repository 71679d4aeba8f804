ghost use Rattle.std.specs.Prelude.{◌≡◌, ℕ, ◌≤◌, true, List, Option};
ghost use Rattle.tmc_live.specs.Net.{Standing, Gives, Listens, TakesOne, back_after};

use thiserror::Error;
use tmc_base::Link;

/// Why a call of a net gave nothing.
#[derive(Clone, Copy, Debug, PartialEq, Eq, Error)]
pub enum NetFault {
    /// The call failed, and the count of faults rose.
    #[error("the network did not do it; check the address, a host and a port, and whether the port is free")]
    Failed,
    /// The net wants memory.
    #[error("out of memory; free some and try again")]
    Memory,
}

/// Where links come from and go back to.
///
/// `standing` is whether the net listens, how many links it has given and not taken back, and how many calls failed, up to
/// the greatest `u64`. `back` is the links that it took back, in order, where the net tells them. `dials`, `opens`,
/// `accepts` and `takes` are how one call goes: by the net before, what the call was given, its answer, and the net after.
/// Those of a net that tells nothing may hold always.
pub trait Net {
    ghost use Rattle.std.specs.Prelude.{Result};
    ghost use Rattle.tmc_live.specs.declared.net.NetFault.{NetFault};

    /// The links of the net.
    type L: Link + Send;

    ghost standing: { Self → Standing };

    ghost back: { Self → Option (List Self.L) };

    ghost dials: { Self → List ℕ → Result Self.L NetFault → Self → Type 0 };

    ghost opens: { Self → List ℕ → Result (Unit {0}) NetFault → Self → Type 0 };

    ghost accepts: { Self → Result Self.L NetFault → Self → Type 0 };

    ghost takes: { Self → Self.L → Self → Type 0 };

    /// Gives a link to the end that listens at the address.
    fn dial(&mut self, address: &str) -> Result<Self::L, NetFault>
        ensures standing { Gives result (standing self.old) (standing self.new) }
        ensures back { back self.new ≡ back self.old }
        ensures goes { dials self.old address.now result self.new };

    /// Listens at the address.
    fn listen(&mut self, address: &str) -> Result<(), NetFault>
        ensures standing { Listens result (standing self.old) (standing self.new) }
        ensures back { back self.new ≡ back self.old }
        ensures goes { opens self.old address.now result self.new };

    /// Gives a link to the next end that dials the address at which the net listens. It may wait for that end.
    fn accept(&mut self) -> Result<Self::L, NetFault>
        requires { (standing self.old).listens ≡ true }
        ensures standing { Gives result (standing self.old) (standing self.new) }
        ensures back { back self.new ≡ back self.old }
        ensures goes { accepts self.old result self.new };

    /// Takes a link back. It takes no memory.
    fn done(&mut self, link: Self::L)
        requires { 1 ≤ (standing self.old).given }
        ensures standing { TakesOne (standing self.old) (standing self.new) }
        ensures back { back self.new ≡ back_after link (back self.old) }
        ensures goes { takes self.old link self.new };
}
