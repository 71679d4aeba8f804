ghost use Rattle.std.specs.Prelude.{◌≡◌, ◌<◌, length};
ghost use Rattle.tmc_base.specs.Adapters.{WriterTook};
ghost use Rattle.tmc_base.specs.Sink.{IsWithin, WriteCounts};

use crate::count::Count;
use crate::{Sink, WriteStep};
use std::io::{Stdout, Write};
use std::marker::Model;

/// Standard output. It counts its faults, and tells nothing of the bytes.
///
/// A write that takes 0 bytes is a fault: nothing was written, and the next write would do no better.
#[derive(Drop)]
pub struct StdSink {
    output: Stdout,
    faults: Count,
}

impl Model for StdSink {
    ghost use Rattle.std.specs.Prelude.{ℕ};

    ghost Value = { ℕ };

    ghost view = { λ a. a.faults };
}

impl StdSink {
    pub fn new(output: Stdout) -> StdSink
        ensures { result ≡ 0 }
    {
        StdSink {
            output,
            faults: Count::new(),
        }
    }
}

impl Sink for StdSink {
    ghost use Rattle.std.specs.Prelude.{None};

    ghost put = { λ _. None };

    ghost faults = { λ s. s };

    ghost writes = { λ _ _ _ _. Unit {0} };

    fn write(&mut self, piece: &[u8]) -> WriteStep {
        write_to(&mut self.output, &mut self.faults, piece)
    }
}

/// One write to a writer of std.
pub(crate) fn write_to<W: Write>(output: &mut W, faults: &mut Count, piece: &[u8]) -> WriteStep
    requires { 0 < length piece.now }
    ensures within { IsWithin result (length piece.now) }
    ensures took { WriterTook result piece.now (W.contents output.old) (W.contents output.new) }
    ensures counts { WriteCounts result faults.old faults.new }
{
    match output.write(piece) {
        Ok(n) if n > 0 => WriteStep::Took(n),
        _ => {
            faults.raise();
            WriteStep::Failed
        }
    }
}
