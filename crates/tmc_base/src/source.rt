ghost use Rattle.std.specs.Prelude.{◌≡◌, ℕ, ◌<◌, ◌≤◌, List, Option, length, take, IfOk, IfErr};
ghost use Rattle.tmc_base.specs.Source.{IsWithin, ReadTells, ReadCounts, got_count};

/// The answer of one read.
#[derive(Clone, Copy, Debug, PartialEq, Eq)]
pub enum ReadStep {
    /// So many bytes came, at least one.
    Got(usize),
    /// Nothing is left.
    End,
    /// The read failed, and the count of faults rose.
    Failed,
}

/// Where bytes come from.
///
/// `left` is the bytes that are left, where the source tells them. `faults` is how many reads failed,
/// up to the greatest `u64`. `reads` is how one read goes: by the source before, the buffer's length, the answer, the
/// bytes that came, and the source after. That of a source that tells nothing may hold always.
pub trait Source {
    ghost use Rattle.tmc_base.specs.declared.source.ReadStep.{ReadStep};

    ghost left: { Self → Option (List ℕ) };

    ghost faults: { Self → ℕ };

    ghost reads: { Self → ℕ → ReadStep → List ℕ → Self → Type 0 };

    /// Reads into the front of `buf`.
    fn read(&mut self, buf: &mut [u8]) -> ReadStep
        requires { 0 < length buf.old }
        ensures within { IsWithin result (length buf.old) }
        ensures told { ReadTells result buf.new (left self.old) (left self.new) }
        ensures counts { ReadCounts result (faults self.old) (faults self.new) }
        ensures goes { reads self.old (length buf.old) result (take (got_count result) buf.new) self.new };
}
