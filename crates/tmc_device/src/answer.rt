ghost use Rattle.std.specs.Prelude.{◌≡◌, ◌<◌, ◌≤◌, ◌∷◌, [], ℕ, List, length, false, MatchOption, vec_capacity};
ghost use Rattle.tmc_law.specs.declared.dev_event.DevEvent.TheVariants as event;
ghost use Rattle.tmc_law.specs.State.{Pending as Submit};
ghost use Rattle.tmc_law.specs.Control.{control_answer};
ghost use Rattle.tmc_law.specs.Put.{answer_of, returned, stalled};
ghost use Rattle.tmc_law.specs.Step.{Answer};
ghost use Rattle.tmc_device.specs.Sound.{IsSound};
ghost use Rattle.tmc_device.specs.Seen.{Makes};
ghost use Rattle.tmc_device.specs.Events.{Does};

use crate::Drove;
use crate::body::Body;
use crate::endpoints::{CONTROL, ENDS, STALLED, SUCCESS};
use crate::outputs::data_back;
use crate::read_standard::read_standard;
use bytes::BytesMut;
use tmc_wire::read_class;
use usb_setup::Setup;
use usbip_wire::SubmitHead;

/// No layout of an answer is longer, in bytes.
pub(crate) const LAYOUT_MAX: usize = 64;

/// The first control submit, and what it asks.
#[derive(Clone, Copy, Debug)]
pub(crate) struct Asked {
    pub(crate) head: SubmitHead,
    pub(crate) setup: Setup,
    /// Whether the status byte was polled for it.
    pub(crate) polled: bool,
}

impl Body {
    ghost use Rattle.tmc_device.specs.Body.{state_of, seen_of, IsReady};
    ghost use Rattle.tmc_device.specs.Control.{IsAsked, IsReplied};
    ghost use Rattle.tmc_device.specs.declared.answer.TheConstants.{LAYOUT_MAX};

    /// Answers the first control submit.
    pub(crate) fn answer(&mut self) -> Drove
        requires sound { IsSound (state_of self.old) }
        requires plugged { self.old.unplugged ≡ false }
        ensures { Does event.Answer (seen_of self.old) result (seen_of self.new) }
    {
        let Some(asked) = self.asked() else {
            return Drove::NotEnabled;
        };
        let Ok(buffer) = Vec::with_capacity(self.alloc, LAYOUT_MAX) else {
            return Drove::Memory;
        };
        let Ok(layout) = BytesMut::with_capacity(self.alloc, LAYOUT_MAX) else {
            return Drove::Memory;
        };
        if self.prepare().is_err() {
            return Drove::Memory;
        }
        self.answer_asked(&asked, layout, buffer);
        Drove::Applied
    }

    /// The first control submit.
    pub(crate) fn asked(&self) -> Option<Asked>
        ensures { MatchOption result ((state_of self.now).control ≡ []) (λ asked. IsAsked (state_of self.now) asked) }
    {
        // The pipes count no submit for which the status byte was polled: that is kept here.
        let _pending = self.pipes.len();
        let first = self.pipes.first(CONTROL)?;
        Some(Asked {
            head: first.head,
            setup: Setup::from_bytes(first.head.setup),
            polled: self.polled,
        })
    }

    /// A class request is served, a standard request answered, and any other stalls.
    fn answer_asked(&mut self, asked: &Asked, layout: BytesMut, buffer: Vec<u8>)
        requires ready { IsReady self.old }
        requires asked { IsAsked (state_of self.old) asked.now }
        requires laid_out { layout.items ≡ [] }
        requires spare { LAYOUT_MAX ≤ layout.spare }
        requires empty { buffer.items ≡ [] }
        requires capacity { LAYOUT_MAX ≤ vec_capacity buffer }
        ensures { Makes Answer (seen_of self.old) (seen_of self.new) }
    {
        if let Some(request) = read_class(&asked.setup, &ENDS) {
            self.serve(asked, request, buffer);
        } else if let Some(request) = read_standard(&asked.setup) {
            self.answer_standard(asked, request, layout, buffer);
        } else {
            self.stall(asked, buffer);
        }
    }

    /// The first control submit is answered with the data of a layout: at most as many bytes as it asks for.
    pub(crate) fn reply(&mut self, asked: &Asked, layout: &[u8], mut buffer: Vec<u8>)
        requires asked { IsAsked (state_of self.old) asked.now }
        requires room { 0 < self.old.outputs.room }
        requires empty { buffer.items ≡ [] }
        requires capacity { length layout.now ≤ vec_capacity buffer }
        ensures { (submit : Submit) (behind : List Submit) → (state_of self.old).control ≡ submit ∷ behind →
            IsReplied behind (control_answer submit asked.now.setup layout.now) self.old self.new }
    {
        let most = (asked.setup.length as usize)
            .min(asked.head.length as usize)
            .min(layout.len());
        let sent = data_back(asked.head.dir, &layout[..most]);
        match buffer.extend_from_slice(sent) {
            Ok(()) => (),
            Err(_) => unreachable!(),
        }
        self.end_asked(asked, SUCCESS, sent.len() as u32, buffer);
    }

    /// The first control submit stalls.
    fn stall(&mut self, asked: &Asked, buffer: Vec<u8>)
        requires asked { IsAsked (state_of self.old) asked.now }
        requires room { 0 < self.old.outputs.room }
        requires empty { buffer.items ≡ [] }
        ensures { (submit : Submit) (behind : List Submit) → (state_of self.old).control ≡ submit ∷ behind →
            IsReplied behind (answer_of submit.head stalled []) self.old self.new }
    {
        self.end_asked(asked, STALLED, 0, buffer);
    }

    /// The first control submit is answered, and leaves its queue.
    fn end_asked(&mut self, asked: &Asked, status: i32, actual: u32, buffer: Vec<u8>)
        requires asked { IsAsked (state_of self.old) asked.now }
        requires room { 0 < self.old.outputs.room }
        ensures { (submit : Submit) (behind : List Submit) (moved : List ℕ) → (state_of self.old).control ≡ submit ∷ behind →
            actual ≡ length moved → buffer.items ≡ returned submit.head.dir moved →
            IsReplied behind (answer_of submit.head status moved) self.old self.new }
    {
        self.pipes.answer(CONTROL);
        self.polled = false;
        self.outputs.answer(asked.head, status, actual, buffer);
    }
}
