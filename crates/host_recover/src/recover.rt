ghost use Rattle.std.specs.Prelude.{◌≡◌, ◌↔◌, ℕ, List, []};
ghost use Rattle.tmc_wire.specs.declared.class_request.ClassRequest.{ClassRequest};
ghost use Rattle.tmc_wire.specs.ControlTable.{TagFits};
ghost use Rattle.host_recover.specs.declared.want.Want.TheVariants as want;
ghost use Rattle.host_recover.specs.Letter.{Letter, Ask};
ghost use Rattle.host_recover.specs.Recover.{Start, Answer, HasHeard, IsAwaited, behind, Wants, IsStuckAt, Follows};
ghost use Rattle.host_recover.specs.Stage.{awaits_of, step_of};
ghost use Rattle.host_recover.specs.Words.{words_of};

use crate::need::Need;
use crate::stage::Stage;
use crate::want::{Heard, Want};
use std::marker::Model;
use usb_setup::Ends;

/// A recovery that runs: it takes what was heard of its last submit, and says which one it wants next. It takes no memory.
#[derive(Drop)]
pub struct Recover {
    need: Need,
    ends: Ends,
    /// The submit that was wanted last, once it has begun.
    last: Option<Stage>,
}

impl Model for Recover {
    ghost use Rattle.host_recover.specs.Recover.{Recovering};
    ghost use Rattle.host_recover.specs.Stage.{awaits_of, left_of};
    ghost use Rattle.host_recover.specs.WordsCode.{words_code};
    ghost use Rattle.std.specs.Coded.{codes};

    ghost Value = { Recovering };

    ghost coded = { Prim.hlevel (codes, words_code (Prim.hlevel codes)) };

    ghost view = { λ a. record { need = a.need; ends = a.ends; awaits = awaits_of a.last; left = left_of a.need a.last } };
}

impl Recover {
    /// The recovery that is called for, before it begins.
    pub fn new(need: Need, ends: Ends) -> Recover
        ensures begun { result ≡ record { need = need; ends = ends; awaits = Start; left = words_of need } }
        ensures heard { HasHeard [] result }
    {
        Recover {
            need,
            ends,
            last: None,
        }
    }

    /// Takes what was heard of the submit that was wanted last, `Start` in the first call. The marks say which endpoint has
    /// answered with a stall since its halt was cleared last.
    pub fn next(&mut self, heard: Heard, in_halted: bool, notify_halted: bool) -> Want
        requires awaited { IsAwaited self.old.awaits heard }

        // Whatever it has heard, with this its submits go on as a word does.
        ensures follows { (letters : List Letter) → HasHeard letters self.old
            → Follows (behind letters self.old.awaits heard) in_halted notify_halted result self.new }
        ensures wants { Wants self.new.ends self.new.awaits result }
        ensures stuck { (status : ℕ) → (result ≡ want.Stuck status) ↔ IsStuckAt self.old.awaits heard status }

        // So a request's setup is read as this request.
        ensures tag { (request : ClassRequest) → self.new.awaits ≡ Answer (Ask request) → TagFits request }
        ensures need { self.new.need ≡ self.old.need }
        ensures ends { self.new.ends ≡ self.old.ends }
    {
        let next = step(self.need, self.last, heard, in_halted, notify_halted);
        match next {
            Ok(stage) => {
                self.last = Some(stage);
                stage.wanted(&self.ends)
            }
            Err(status) => {
                self.last = Some(Stage::Over);
                Want::Stuck(status)
            }
        }
    }
}

/// The submit that comes next, the first one where none was made yet.
fn step(
    need: Need,
    last: Option<Stage>,
    heard: Heard,
    in_halted: bool,
    notify_halted: bool,
) -> Result<Stage, u8>
    requires { IsAwaited (awaits_of last) heard }
    ensures { result ≡ step_of need last heard in_halted notify_halted }
{
    match last {
        None => Ok(Stage::first(need)),
        Some(last) => last.behind(heard, in_halted, notify_halted),
    }
}
