ghost use Rattle.std.specs.Prelude.{◌≡◌, ℕ, List, false, IfSome, IfNone};
ghost use Rattle.tmc_law.specs.declared.dev_event.DevEvent.TheVariants as event;
ghost use Rattle.tmc_law.specs.Class.{StaysPending};
ghost use Rattle.tmc_device.specs.Parts.{running_of};
ghost use Rattle.tmc_device.specs.Check.{layout_of};
ghost use Rattle.tmc_device.specs.Sound.{IsSound};
ghost use Rattle.tmc_device.specs.Events.{Does};

use crate::Drove;
use crate::answer::LAYOUT_MAX;
use crate::body::Body;
use crate::checks::{in_layout, out_layout};
use crate::endpoints::ENDS;
use crate::running::Running;
use tmc_wire::{ClassRequest, STATUS_PENDING, read_class};

/// A check of what runs, with its answer PENDING.
#[derive(Clone, Copy, Debug)]
enum Check {
    /// Of an abort.
    Abort([u8; 8]),
    Clear([u8; 2]),
}

/// The answer PENDING to a request that is a check of what runs.
fn pending_layout(running: Running, request: ClassRequest) -> Option<Check>
    ensures some { IfSome result (λ check. StaysPending (running_of running) request (layout_of check)) }
    ensures none { IfNone result ((layout : List ℕ) → ¬ StaysPending (running_of running) request layout) }
{
    match (running, request) {
        (Running::AbortsOut, ClassRequest::CheckOut) => Some(Check::Abort(out_layout(
            STATUS_PENDING,
        ))),
        (Running::AbortsIn { wanting, given }, ClassRequest::CheckIn) => {
            Some(Check::Abort(in_layout(STATUS_PENDING, u8::from(wanting), given)))
        }
        (Running::Clears, ClassRequest::CheckClear) => Some(Check::Clear([STATUS_PENDING, 0])),
        _ => None,
    }
}

impl Body {
    ghost use Rattle.tmc_device.specs.Body.{state_of, seen_of};

    /// Answers the first control submit, a check of what runs, with PENDING.
    pub(crate) fn postpone(&mut self) -> Drove
        requires sound { IsSound (state_of self.old) }
        requires plugged { self.old.unplugged ≡ false }
        ensures { Does event.Pending (seen_of self.old) result (seen_of self.new) }
    {
        let Some(asked) = self.asked() else {
            return Drove::NotEnabled;
        };
        let Some(request) = read_class(&asked.setup, &ENDS) else {
            return Drove::NotEnabled;
        };
        let Some(check) = pending_layout(self.running, request) else {
            return Drove::NotEnabled;
        };
        let Ok(buffer) = Vec::with_capacity(self.alloc, LAYOUT_MAX) else {
            return Drove::Memory;
        };
        if self.prepare().is_err() {
            return Drove::Memory;
        }
        match check {
            Check::Abort(layout) => self.reply(&asked, &layout, buffer),
            Check::Clear(layout) => self.reply(&asked, &layout, buffer),
        }
        Drove::Applied
    }
}
