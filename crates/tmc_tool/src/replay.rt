//! The command `replay`.

ghost use Rattle.std.specs.Prelude.{◌≡◌, ℕ, IfOk, OnErr};
ghost use Rattle.event_text.specs.EventScript.{MayBegin};
ghost use Rattle.tmc_world.specs.World.{Worldly, IsBehind, begun};
ghost use Rattle.tmc_tool.specs.Told.{Replayed};
ghost use Rattle.tmc_tool.specs.Going.{Went, applied_as};

use crate::report::{all_spelled, report};
use event_text::{Event, EventAnswer, Script};
use std::alloc::Global;
use tmc_base::Memory;
use tmc_world::{Applied, World, world_runs_keep_the_laws};

/// Applies the events of a script to a fresh world in their order, and reports what came of them.
pub(crate) fn replay(alloc: Global, script: &Script) -> Result<Vec<u8>, Memory>
    requires { MayBegin script.now.first script.now.depth }
    ensures { IfOk result (λ text. Replayed script.now text.items) }
{
    let mut world = World::new(alloc, script.first, script.depth)?;
    replay_in(alloc, &mut world, script)
}

/// Applies the events of a script to a world at power-on in their order, and reports what came of them.
fn replay_in(alloc: Global, world: &mut World, script: &Script) -> Result<Vec<u8>, Memory>
    requires { MayBegin script.now.first script.now.depth }
    ensures { IfOk result (λ text. IsBehind script.now.first script.now.depth begun world.old.hub → Replayed script.now text.items) }
{
    let answers = apply_all(alloc, world, script.events.as_slice())?;
    all_spelled(world)?;
    world_runs_keep_the_laws();
    report(alloc, &answers, world)
}

/// Applies events in their order, and collects what they answered. `None` is an event that was not enabled.
fn apply_all(
    alloc: Global,
    world: &mut World,
    events: &[Event],
) -> Result<Vec<Option<EventAnswer>>, Memory>
    ensures { IfOk result (λ answers. (first depth : ℕ) (old : Worldly) → IsBehind first depth old world.old.hub → Went first depth old events.now answers.items world.new.hub) }
{
    let mut answers = Vec::with_capacity(alloc, events.len())?;
    'events: for event in events {
        answers.push(said(world.apply(event))?)?;
    }
    Ok(answers)
}

/// What an event answered. `None` is one that was not enabled. Takes no memory.
pub(crate) fn said(became: Applied) -> Result<Option<EventAnswer>, Memory>
    ensures said { IfOk result (λ said. became ≡ applied_as said) }
    ensures wants { OnErr result (became ≡ Applied.Memory) }
{
    match became {
        Applied::Answer(answer) => Ok(Some(answer)),
        Applied::NotEnabled => Ok(None),
        Applied::Memory => Err(Memory),
    }
}
