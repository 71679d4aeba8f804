ghost use Rattle.std.specs.Prelude.{◌≡◌, ℕ, ◌<◌, List, Option, length, take};
ghost use Rattle.tmc_base.specs.Sink.{IsWithin, WriteCounts, took_count, put_after};

/// The answer of one write.
#[derive(Clone, Copy, Debug, PartialEq, Eq)]
pub enum WriteStep {
    /// So many bytes of the piece went, at least one.
    Took(usize),
    /// The write failed, and the count of faults rose.
    Failed,
}

/// Where bytes go.
///
/// `put` is the bytes put so far, where the sink tells them. `faults` is how many writes failed, up to
/// the greatest `u64`. `writes` is how one write goes: by the sink before, the piece, the answer, and the sink after.
/// That of a sink that tells nothing may hold always.
pub trait Sink {
    ghost use Rattle.tmc_base.specs.declared.sink.WriteStep.{WriteStep};

    ghost put: { Self → Option (List ℕ) };

    ghost faults: { Self → ℕ };

    ghost writes: { Self → List ℕ → WriteStep → Self → Type 0 };

    /// Writes from the front of `piece`.
    fn write(&mut self, piece: &[u8]) -> WriteStep
        requires { 0 < length piece.now }
        ensures within { IsWithin result (length piece.now) }
        ensures told { put self.new ≡ put_after (take (took_count result) piece.now) (put self.old) }
        ensures counts { WriteCounts result (faults self.old) (faults self.new) }
        ensures goes { writes self.old piece.now result self.new };
}
