ghost use Rattle.std.specs.Prelude.{◌≡◌, ◌≤◌, [], vec_capacity};

use crate::answer::Asked;
use crate::body::Body;
use instr_plain::RemoteAct;
use tmc_wire::{ClassRequest, STATUS_SUCCESS};

/// The answer to GET_CAPABILITIES (USBTMC 1.0, table 37; USB488 1.0, table 8).
const CAPABILITIES: [u8; 24] = [
    STATUS_SUCCESS,
    0,
    0x00,
    0x01, // bcdUSBTMC
    0x04,
    0x00, // an indicator pulse; no TermChar
    0,
    0,
    0,
    0,
    0,
    0, //
    0x00,
    0x01, // bcdUSB488
    0x07,
    0x07, // TRIGGER, remote and local requests, a 488.2 interface; DT1, RL1, SR1
    0,
    0,
    0,
    0,
    0,
    0,
    0,
    0,
];

impl Body {
    ghost use Rattle.tmc_device.specs.Body.{state_of, IsReady};
    ghost use Rattle.tmc_device.specs.Control.{IsAsked, ServesFirst, OperatesFirst};
    ghost use Rattle.tmc_device.specs.declared.answer.TheConstants.{LAYOUT_MAX};

    /// Serves a class request of the first control submit.
    pub(crate) fn serve(&mut self, asked: &Asked, request: ClassRequest, buffer: Vec<u8>)
        requires ready { IsReady self.old }
        requires asked { IsAsked (state_of self.old) asked.now }
        requires empty { buffer.items ≡ [] }
        requires capacity { LAYOUT_MAX ≤ vec_capacity buffer }
        ensures { ServesFirst request asked.now self.old self.new }
    {
        match request {
            ClassRequest::AbortOut { tag } => self.abort_out(asked, tag, buffer),
            ClassRequest::CheckOut => self.check_out(asked, buffer),
            ClassRequest::AbortIn { tag } => self.abort_in(asked, tag, buffer),
            ClassRequest::CheckIn => self.check_in(asked, buffer),
            ClassRequest::Clear => self.clear(asked, buffer),
            ClassRequest::CheckClear => self.check_clear(asked, buffer),
            ClassRequest::Capabilities => self.reply(asked, &CAPABILITIES, buffer),
            ClassRequest::Pulse => self.reply(asked, &[STATUS_SUCCESS], buffer),
            ClassRequest::ReadStatus { tag } => self.read_status(asked, tag, buffer),
            ClassRequest::Ren { on: true } => self.operate(asked, RemoteAct::On, buffer),
            ClassRequest::Ren { on: false } => self.operate(asked, RemoteAct::Off, buffer),
            ClassRequest::GoLocal => self.operate(asked, RemoteAct::GoLocal, buffer),
            ClassRequest::Lockout => self.operate(asked, RemoteAct::Lockout, buffer),
        }
    }

    /// Who may operate the instrument changes.
    fn operate(&mut self, asked: &Asked, act: RemoteAct, buffer: Vec<u8>)
        requires ready { IsReady self.old }
        requires asked { IsAsked (state_of self.old) asked.now }
        requires empty { buffer.items ≡ [] }
        requires capacity { LAYOUT_MAX ≤ vec_capacity buffer }
        ensures { OperatesFirst act asked.now self.old self.new }
    {
        self.reply(asked, &[STATUS_SUCCESS], buffer);
        let before = self.exchange.status();
        self.exchange.remote(act);
        self.packets.notice(before, self.exchange.status());
    }
}
