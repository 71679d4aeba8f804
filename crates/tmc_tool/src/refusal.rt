//! The text of a refusal.

ghost use Rattle.std.specs.Prelude.{◌≡◌, IfOk, string_bytes};
ghost use Rattle.tmc_tool.specs.Refusal.{refusal};

use event_text::LineWhat;
use std::alloc::Global;
use tmc_base::Memory;

/// The line that is refused, and what is wrong with it.
pub(crate) fn refusal(alloc: Global, line: u32, what: LineWhat) -> Result<String, Memory>
    ensures { IfOk result (λ text. string_bytes text ≡ refusal line what) }
{
    let name = what.name();
    Ok(format!(in alloc; "refused line {line} {name}\n")?)
}
