ghost use Rattle.std.specs.Prelude.{◌≡◌, ◌≢◌, ◌<◌, ◌∷◌, [], List, drop, MatchOption, IfOk, IfErr, OnOk, OnErr};
ghost use Rattle.tmc_law.specs.State.{State, Plugged, start};
ghost use Rattle.tmc_law.specs.Put.{Put};
ghost use Rattle.tmc_law.specs.Step.{Move, Steps, Comes};
ghost use Rattle.tmc_law.specs.AnswerFits.{FitsAsked, AllAnswers};
ghost use Rattle.tmc_device.specs.Seen.{Seen, Makes, IsReached, output_of, data_of, is_closed};
ghost use Rattle.tmc_device.specs.Sound.{IsSound};
ghost use Rattle.tmc_device.specs.Events.{Applies, NoneLawful, IsEnabled};
ghost use Rattle.tmc_device.specs.Arrival.{message_of, Brings, Refuses};

use crate::body::Body;
use crate::{DeviceFault, Drove};
use std::alloc::Global;
use std::marker::Model;
use tmc_base::Memory;
use tmc_law::laws::{
    answers_fit, few_packets_are_queued, pending_submits_are_sound, runs_join,
    transfers_are_in_order,
};
use tmc_law::{DevEvent, Input, Log, Output};

/// The instrument at the end of a USB link.
///
/// A contract sees the state of the law, which some lawful run leads to from power-on, and the answers that were put out and
/// not yet dropped.
#[derive(Drop)]
pub struct Device {
    body: Body,
}

impl Model for Device {
    ghost use Rattle.tmc_device.specs.Seen.{Seen};

    ghost Value = { Seen };

    ghost use Rattle.tmc_device.specs.Body.{seen_of, IsLawful};

    ghost view = { λ a. seen_of a.body };

    ghost invariant = { λ a. IsLawful a.body };
}

impl Device {
    /// At power-on, with nothing put out. Takes the memory of the longest message, the longest response and 256 pending
    /// submits.
    pub fn new(alloc: Global) -> Result<Device, Memory>
        ensures { IfOk result (λ device. device ≡ record { state = start; puts = [] }) }
    {
        Ok(Device {
            body: Body::new(alloc)?,
        })
    }

    /// Takes in what arrives: one step of the law. The data of an OUT submit comes with it.
    ///
    /// # Errors
    ///
    /// `Full` where 256 submits are pending, `Twice` where fewer are and one of them has the submit's number; an unlink is
    /// never refused so. After a refusal nothing has changed.
    pub fn input(&mut self, input: Input, bytes: &[u8]) -> Result<(), DeviceFault>
        requires open { self.old.state.presence ≡ Plugged }
        requires brought { Brings input bytes.now }
        ensures ok { OnOk result (Makes (Comes (message_of input bytes.now)) self.old self.new) }
        ensures refused { IfErr result (λ fault. Refuses self.old.state input fault) }
        ensures err { OnErr result (self.new ≡ self.old) }
    {
        steps_rest_on_laws();
        match input {
            Input::Submit(head) => self.body.submit(head, bytes),
            Input::Unlink(head) => self.body.unlink(head),
        }
    }

    /// Does what the event says: one step of the law, with the greatest count that the event's number allows. Where the law
    /// allows no such step, the event is not enabled, and nothing changes. Where one is allowed and memory is wanting,
    /// nothing changes either.
    pub fn drive(&mut self, event: DevEvent) -> Drove
        ensures applied { result ≡ Drove.Applied → Applies event self.old self.new }
        ensures none { result ≡ Drove.NotEnabled → NoneLawful event self.old.state }
        ensures declined { result ≡ Drove.NotEnabled → IsEnabled event self.old.state → ⊥ }
        ensures enabled { result ≢ Drove.NotEnabled → IsEnabled event self.old.state }
        ensures kept { result ≢ Drove.Applied → self.new ≡ self.old }
    {
        if self.body.unplugged {
            return Drove::NotEnabled;
        }
        steps_rest_on_laws();
        self.body.drive(event)
    }

    /// The first answer that was put out and not yet dropped, with its data.
    pub fn first_output(&self) -> Option<(Output, &[u8])>
        ensures first { MatchOption result (self.now.puts ≡ [])
            (λ first. (put : Put) × (rest : List Put) × (self.now.puts ≡ put ∷ rest)
            × (first.0 ≡ output_of put) × (first.1.now ≡ data_of put) × FitsAsked put) }
    {
        self.body.outputs.first()
    }

    /// Drops the first answer.
    pub fn drop_output(&mut self)
        requires { self.old.puts ≢ [] }
        ensures { self.new ≡ record self.old { puts = drop 1 self.old.puts } }
    {
        self.body.outputs.drop_first();
    }

    /// Whether the device takes nothing in any more, since it was unplugged.
    pub fn closed(&self) -> bool
        ensures closed { result ≡ is_closed self.now.state.presence }
        ensures reached { IsReached self.now.state }
    {
        self.body.unplugged
    }

    /// What happened at the instrument, in order.
    pub fn log(&self) -> &Log
        ensures { result.now.entries ≡ self.now.state.log }
    {
        self.body.exchange.log()
    }
}

/// What the steps rest on, from the laws of all lawful runs: facts of the states that can be reached, that a step leads to
/// such a state, and that what it puts out fits what it answers. Does nothing.
fn steps_rest_on_laws()
    ensures sound { (s : State) → IsReached s → IsSound s }
    ensures reached { (s t : State) (move : Move) (puts : List Put) → IsReached s → Steps s move puts t → IsReached t }
    ensures fit { (s t : State) (move : Move) (puts : List Put) → IsReached s → Steps s move puts t → AllAnswers FitsAsked puts }
{
    pending_submits_are_sound();
    transfers_are_in_order();
    few_packets_are_queued();
    answers_fit();
    runs_join();
}
