ghost use Rattle.std.specs.Prelude.{◌≡◌, ℕ, ◌<◌, List, [], length, take};
ghost use Rattle.tmc_base.specs.Told.{Told, WentOut, CameIn};
ghost use Rattle.tmc_base.specs.Link.{Counts, SendsWithin, PollsWithin, SendCounts, PollCounts, took_count, got_count};

/// The answer of one send.
#[derive(Clone, Copy, Debug, PartialEq, Eq)]
pub enum SendStep {
    /// So many bytes of the piece went, at least one.
    Took(usize),
    /// None went for now, and the count of idles rose.
    Idle,
    /// The send failed, and the count of faults rose.
    Failed,
    /// The link wants memory. None went.
    Memory,
}

/// The answer of one poll.
#[derive(Clone, Copy, Debug, PartialEq, Eq)]
pub enum PollStep {
    /// So many bytes came, at least one.
    Got(usize),
    /// None came for now, and the count of idles rose.
    Idle,
    /// The other end sends nothing more, and the count of closings rose.
    Closed,
    /// The poll failed, and the count of faults rose.
    Failed,
    /// The link wants memory. None came.
    Memory,
}

/// The answer of one act.
#[derive(Clone, Copy, Debug, PartialEq, Eq)]
pub enum TendStep {
    /// The act was done.
    Did,
    /// The act is not to be had in this state, and nothing has changed.
    NotNow,
    /// The link wants memory.
    Memory,
}

/// Bytes to another end, and from it.
///
/// `told` is what the link tells: nothing, the bytes sent and taken, or these and the run of its peer. `counts` is how
/// many calls answered a fault, idleness and a closing, each up to its greatest number. `sends`, `polls` and `tends` are
/// how one call goes: by the link before, what the call was given, its answer and what it gave, and the link after. Those
/// of a link that tells nothing may hold always.
pub trait Link: Drop {
    ghost use Rattle.tmc_base.specs.declared.link.SendStep.{SendStep};
    ghost use Rattle.tmc_base.specs.declared.link.PollStep.{PollStep};
    ghost use Rattle.tmc_base.specs.declared.link.TendStep.{TendStep};

    /// What can be done to the link beside its bytes.
    type Act: Drop;

    ghost told: { Self → Told };

    ghost counts: { Self → Counts };

    ghost sends: { Self → List ℕ → SendStep → Self → Type 0 };

    ghost polls: { Self → ℕ → PollStep → List ℕ → Self → Type 0 };

    ghost tends: { Self → Self.Act → TendStep → Self → Type 0 };

    /// Sends from the front of `piece`.
    fn send(&mut self, piece: &[u8]) -> SendStep
        requires { 0 < length piece.now }
        ensures within { SendsWithin result (length piece.now) }
        ensures told { WentOut (take (took_count result) piece.now) (told self.old) (told self.new) }
        ensures counts { SendCounts result (counts self.old) (counts self.new) }
        ensures goes { sends self.old piece.now result self.new };

    /// Takes into the front of `buf`.
    fn poll(&mut self, buf: &mut [u8]) -> PollStep
        requires { 0 < length buf.old }
        ensures within { PollsWithin result (length buf.old) }
        ensures told { CameIn (take (got_count result) buf.new) (told self.old) (told self.new) }
        ensures counts { PollCounts result (counts self.old) (counts self.new) }
        ensures goes { polls self.old (length buf.old) result (take (got_count result) buf.new) self.new };

    /// Does one act of the link's own, which sends and takes no bytes.
    fn tend(&mut self, act: Self::Act) -> TendStep
        ensures told { WentOut [] (told self.old) (told self.new) }
        ensures counts { counts self.new ≡ counts self.old }
        ensures goes { tends self.old act result self.new };
}
