//! A world comes to rest: what can happen happens, until nothing is left to do.

ghost use Rattle.std.specs.Prelude.{◌≡◌, ◌<◌, ℕ, true, false, length, IfOk, OnErr, OnOk};
ghost use Rattle.event_text.specs.declared.answer.EventAnswer.TheVariants as answer;
ghost use Rattle.event_text.specs.declared.event.Event.TheVariants as event;
ghost use Rattle.usbip_export.specs.Events.{AreCalmMoves, calm_moves};
ghost use Rattle.usbip_export.specs.Seen.{standing};
ghost use Rattle.usbip_export.specs.Work.{weight};
ghost use Rattle.tmc_world.specs.declared.applied.Applied.TheVariants as applied;
ghost use Rattle.tmc_world.specs.RestCalls.{Drains, HasCalmed, HasStopped, HasTaken, IsSpent, Tries, to_send, to_write};
ghost use Rattle.tmc_world.specs.Rests.{down_moves, steps_of, up_moves};
ghost use Rattle.tmc_world.specs.World.{Worldly, IsBehind};
ghost use Rattle.tmc_world.specs.WorldEvents.{LeadsTo};

use crate::resting::numbers_fit;
use crate::{Applied, DevEvent, World};
use event_text::EventAnswer;
use tmc_base::Memory;
use usbip_export::calm_moves_end;

/// The steps that an instrument makes by itself, each with all that there is.
const CALM: [DevEvent; 6] = [
    DevEvent::Answer,
    DevEvent::Exec,
    DevEvent::Take(u32::MAX),
    DevEvent::Begin(u32::MAX),
    DevEvent::Fill(u32::MAX),
    DevEvent::Notify,
];

impl World {
    /// Makes the first of the moves that is enabled, and again, until none is: a step of the instrument, bytes up, or bytes
    /// down, each with all that there is.
    ///
    /// # Errors
    ///
    /// Where memory is wanting. Some of the moves were made.
    pub fn rest(&mut self) -> Result<(), Memory>
        ensures rests { (first depth : ℕ) (old : Worldly) → IsBehind first depth old self.old.hub → OnOk result (LeadsTo first depth event.Rest old (applied.Answer answer.Done) self.new.hub) }
        ensures stops { (first depth : ℕ) (old : Worldly) → IsBehind first depth old self.old.hub → OnErr result (LeadsTo first depth event.Rest old applied.Memory self.new.hub) }
    {
        'rounds: loop {
            match self.round() {
                Ok(true) => (),
                Ok(false) => return Ok(()),
                Err(Memory) => return Err(Memory),
            }
        }
    }

    /// The same, as an event.
    pub(crate) fn rest_applied(&mut self) -> Applied
        ensures { (first depth : ℕ) (old : Worldly) → IsBehind first depth old self.old.hub → LeadsTo first depth event.Rest old result self.new.hub }
    {
        match self.rest() {
            Ok(()) => Applied::Answer(EventAnswer::Done),
            Err(Memory) => Applied::Memory,
        }
    }

    /// The instrument makes its steps, and then bytes go up, or else down. False where nothing is left to do.
    fn round(&mut self) -> Result<bool, Memory>
        ensures rounds { (first depth : ℕ) (old : Worldly) → IsBehind first depth old self.old.hub → Drains first depth old result self.new.hub }
        ensures less { IfOk result (λ more. more ≡ true → to_send self.new.hub < to_send self.old.hub) }
    {
        self.stands();
        match self.calm() {
            Ok(()) => (),
            Err(Memory) => return Err(Memory),
        }
        match self.send_all() {
            Ok(true) => Ok(true),
            Ok(false) => self.drain(),
            Err(Memory) => Err(Memory),
        }
    }

    /// Whether something in the node waits for memory: so the instrument may be ahead of the run that the link tells.
    pub fn is_late(&self) -> bool
        ensures { result ≡ self.now.hub.link.late }
    {
        self.hub().link().is_late()
    }

    /// How many bytes stand in the outbox.
    fn unsent(&self) -> usize
        ensures { result ≡ length self.now.hub.core.urbs.outbox }
    {
        self.hub().outbox().len()
    }

    /// The instrument makes its steps until none is enabled.
    fn calm(&mut self) -> Result<(), Memory>
        ensures calms { (first depth : ℕ) (old : Worldly) → IsBehind first depth old self.old.hub → OnOk result (HasCalmed first depth old self.new.hub) }
        ensures stops { (first depth : ℕ) (old : Worldly) → IsBehind first depth old self.old.hub → OnErr result (HasStopped first depth old self.new.hub) }
    {
        'steps: loop {
            if self.is_late() {
                return Err(Memory);
            }
            match self.step(&CALM) {
                Ok(true) => (),
                Ok(false) => return Ok(()),
                Err(Memory) => return Err(Memory),
            }
        }
    }

    /// The instrument makes the first of these steps that is enabled. False where none is.
    fn step(&mut self, events: &[DevEvent]) -> Result<bool, Memory>
        requires { AreCalmMoves events.now }
        ensures tries { (first depth : ℕ) (old : Worldly) → IsBehind first depth old self.old.hub → old.link.late ≡ false → Tries first depth (steps_of events.now) old result self.new.hub }
        ensures less { self.old.hub.link.late ≡ false → IfOk result (λ moved. moved ≡ true → weight (standing self.new.hub.link.node) < weight (standing self.old.hub.link.node)) }
    {
        self.stands();
        calm_moves_end();
        match events {
            [] => Ok(false),
            [event, others @ ..] => match self.dev(*event) {
                Applied::Answer(_) => Ok(true),
                Applied::NotEnabled => self.step(others),
                Applied::Memory => Err(Memory),
            },
        }
    }

    /// What stands in the outbox goes up. False where there is nothing, or the hub has ended.
    fn send_all(&mut self) -> Result<bool, Memory>
        ensures tries { (first depth : ℕ) (old : Worldly) → IsBehind first depth old self.old.hub → Tries first depth up_moves old result self.new.hub }
        ensures less { IfOk result (λ moved. moved ≡ true → to_send self.new.hub < to_send self.old.hub) }
    {
        self.stands();
        numbers_fit();
        match self.up(u32::MAX) {
            Applied::Answer(_) => Ok(true),
            Applied::NotEnabled => Ok(false),
            Applied::Memory => Err(Memory),
        }
    }

    /// Bytes go down until some are to go up. False where nothing is left to do.
    fn drain(&mut self) -> Result<bool, Memory>
        requires { IsSpent self.old.hub }
        ensures drains { (first depth : ℕ) (old : Worldly) → IsBehind first depth old self.old.hub → Drains first depth old result self.new.hub }
        ensures less { IfOk result (λ more. more ≡ true → to_write self.new.hub < to_write self.old.hub) }
    {
        'pieces: loop {
            match self.take_all() {
                Ok(true) => (),
                Ok(false) => return Ok(false),
                Err(Memory) => return Err(Memory),
            }
            if self.unsent() > 0 {
                return Ok(true);
            }
        }
    }

    /// What the node put out goes down. False where there is nothing, or the hub has ended.
    fn take_all(&mut self) -> Result<bool, Memory>
        requires { IsSpent self.old.hub }
        ensures tries { (first depth : ℕ) (old : Worldly) → IsBehind first depth old self.old.hub → Tries first depth down_moves old result self.new.hub }
        ensures taken { IfOk result (λ moved. moved ≡ true → HasTaken self.old.hub self.new.hub) }
    {
        self.stands();
        numbers_fit();
        match self.down(u32::MAX) {
            Applied::Answer(_) => Ok(true),
            Applied::NotEnabled => Ok(false),
            Applied::Memory => Err(Memory),
        }
    }
}
