//! An instrument that is left to itself comes to rest, and so does a world. The functions do nothing, and their contracts are
//! the laws.

ghost use Rattle.std.specs.Prelude.{◌≡◌, ◌^◌, ◌<◌, ◌≤◌, ℕ, false, List, length};
ghost use Rattle.host_hub.specs.Law.{Lawful};
ghost use Rattle.host_hub.specs.Order.{Setting};
ghost use Rattle.host_hub.specs.Record.{Past, next};
ghost use Rattle.event_text.specs.declared.event.Event.{Event};
ghost use Rattle.tmc_law.specs.declared.dev_event.DevEvent.{DevEvent};
ghost use Rattle.usbip_export.specs.Events.{calm_moves};
ghost use Rattle.tmc_world.specs.LoopLink.{Looped, Acts};
ghost use Rattle.tmc_world.specs.Resting.{IsFirstDue, Calms, left};
ghost use Rattle.tmc_world.specs.Rests.{GoesOn, IsLess, left_of};
ghost use Rattle.tmc_world.specs.World.{Worldly, setting_of};
ghost use Rattle.tmc_world.specs.WorldSteps.{IsFirstOpen, Moves, moves};

use host_hub::{messages_are_crossings, numbers_suffice};
use usbip_export::calm_moves_end;

/// Each calm move leaves less to do, so there are no more of them than was left.
pub fn instruments_come_to_rest()
    ensures less { (event : DevEvent) (old new : Looped) → IsFirstDue event calm_moves old.node → Acts event old new → left new < left old }
    ensures bounded { (events : List DevEvent) (old new : Looped) → Calms events old new → length events ≤ left old }
{
    calm_moves_end();
}

/// Each message of a hub has a number of 32 bits.
pub(crate) fn numbers_fit()
    ensures { (setting : Setting) (past : Past) → setting.first < 2 ^ 32 → Lawful setting past → next setting.first past ≤ 2 ^ 32 }
{
    numbers_suffice();
    messages_are_crossings();
}

/// Each move of a world leaves less to do: fewer messages that the hub may still write, or as many and less in its outbox, or
/// as much there and less of the instrument's work, or as much of that and fewer bytes that the node put out. So no world
/// goes on without an end.
pub fn worlds_come_to_rest()
    ensures less { (first depth : ℕ) (move : Event) (old new : Worldly) → first < 2 ^ 32 → old.link.late ≡ false → IsFirstOpen (setting_of first depth) move moves old
        → Moves (setting_of first depth) move old new → IsLess (left_of (setting_of first depth) new) (left_of (setting_of first depth) old) }
    ensures ends { (first depth : ℕ) (worlds : ℕ → Worldly) → first < 2 ^ 32 → GoesOn (setting_of first depth) worlds → ⊥ }
{
    calm_moves_end();
    numbers_fit();
}
