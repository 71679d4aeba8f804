use crate::line_fault::{LineFault, LineWhat};
use thiserror::Error;
use tmc_base::Memory;

/// Why a line gives nothing.
#[derive(Clone, Copy, Debug, PartialEq, Eq, Error)]
pub(crate) enum LineStop {
    #[error("the line is refused: {0:?}")]
    Wrong(LineWhat),
    #[error("out of memory; free some and try again")]
    Memory,
}

impl LineStop {
    ghost use Rattle.std.specs.Prelude.{◌≡◌};
    ghost use Rattle.event_text.specs.Read.{fault_at};

    /// The fault of a script with such a line.
    pub(crate) fn at(self, line: u32) -> LineFault
        ensures { result ≡ fault_at line self }
    {
        match self {
            LineStop::Wrong(what) => LineFault::At { line, what },
            LineStop::Memory => LineFault::Memory,
        }
    }
}

impl From<LineWhat> for LineStop {
    ghost use Rattle.std.specs.Prelude.{◌≡◌};
    ghost use Rattle.event_text.specs.declared.line_stop.LineStop.TheVariants.{Wrong};

    ghost from_gives = { λ what stop. stop ≡ Wrong what };

    fn from(what: LineWhat) -> LineStop {
        LineStop::Wrong(what)
    }
}

impl From<Memory> for LineStop {
    ghost use Rattle.std.specs.Prelude.{◌≡◌};
    ghost use Rattle.event_text.specs.declared.line_stop.LineStop.TheVariants.{Memory as no_memory};

    ghost from_gives = { λ _ stop. stop ≡ no_memory };

    fn from(_memory: Memory) -> LineStop {
        LineStop::Memory
    }
}
