ghost use Rattle.std.specs.Prelude.{◌≡◌, ◌<◌, length};
ghost use Rattle.tmc_base.specs.Adapters.{ReaderGave};
ghost use Rattle.tmc_base.specs.Source.{IsWithin, ReadCounts};

use crate::count::Count;
use crate::{ReadStep, Source};
use std::io::{Read, Stdin};
use std::marker::Model;

/// Standard input. It counts its faults, and tells nothing of the bytes.
#[derive(Drop)]
pub struct StdSource {
    input: Stdin,
    faults: Count,
}

impl Model for StdSource {
    ghost use Rattle.std.specs.Prelude.{ℕ};

    ghost Value = { ℕ };

    ghost view = { λ a. a.faults };
}

impl StdSource {
    pub fn new(input: Stdin) -> StdSource
        ensures { result ≡ 0 }
    {
        StdSource {
            input,
            faults: Count::new(),
        }
    }
}

impl Source for StdSource {
    ghost use Rattle.std.specs.Prelude.{None};

    ghost left = { λ _. None };

    ghost faults = { λ s. s };

    ghost reads = { λ _ _ _ _ _. Unit {0} };

    fn read(&mut self, buf: &mut [u8]) -> ReadStep {
        read_from(&mut self.input, &mut self.faults, buf)
    }
}

/// One read of a reader of std.
pub(crate) fn read_from<R: Read>(input: &mut R, faults: &mut Count, buf: &mut [u8]) -> ReadStep
    requires { 0 < length buf.old }
    ensures within { IsWithin result (length buf.old) }
    ensures gave { ReaderGave result buf.new (R.remaining input.old) (R.remaining input.new) }
    ensures counts { ReadCounts result faults.old faults.new }
{
    match input.read(buf) {
        Ok(0) => ReadStep::End,
        Ok(n) => ReadStep::Got(n),
        Err(_) => {
            faults.raise();
            ReadStep::Failed
        }
    }
}
