//! The report of a world.

ghost use Rattle.std.specs.Prelude.{◌≡◌, ℕ, true, false, IfOk, OnOk, OnErr};
ghost use Rattle.tmc_world.specs.World.{Worldly, IsBehind};
ghost use Rattle.tmc_tool.specs.Told.{Tells};

use event_text::{EventAnswer, put_report};
use std::alloc::Global;
use tmc_base::Memory;
use tmc_world::World;

/// Wants memory where an answer of the instrument waits for it: then the run that is told is not all that it did.
pub(crate) fn all_spelled(world: &World) -> Result<(), Memory>
    ensures spelled { OnOk result (world.now.hub.link.late ≡ false) }
    ensures late { OnErr result (world.now.hub.link.late ≡ true) }
{
    if world.is_late() {
        return Err(Memory);
    }
    Ok(())
}

/// Reports what events answered, the book of the hub, the log of the instrument, and the bytes that crossed the link.
pub(crate) fn report(
    alloc: Global,
    answers: &[Option<EventAnswer>],
    world: &World,
) -> Result<Vec<u8>, Memory>
    ensures { IfOk result (λ text. (first depth : ℕ) (now : Worldly) → IsBehind first depth now world.now.hub → Tells first depth now answers.now text.items) }
{
    world.holds();
    let mut text = Vec::new(alloc);
    let hub = world.hub();
    put_report(
        answers,
        hub.end(),
        hub.book(),
        world.log(),
        hub.link().sent(),
        hub.link().taken(),
        &mut text,
    )?;
    Ok(text)
}
