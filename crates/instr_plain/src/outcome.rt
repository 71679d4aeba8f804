ghost use Rattle.std.specs.Prelude.{◌≡◌, bit_and};
ghost use Rattle.instr_plain.specs.Status.{status_byte, requests_service};
ghost use Rattle.instr_plain.specs.Outcome.{outcome_of, obeys, answers, ranged, in_range, triggered};

use crate::range::in_range;
use crate::status::{EXECUTION_ERROR, OPERATION_COMPLETE};
use crate::{Answer, Command, Plain};
use ieee_syntax::Nrf;

/// The bits of SRE that can be set: all but bit 6 (IEEE 488.2, section 11.3.2).
const SERVICE_BITS: u8 = 0b1011_1111;

impl Plain {
    /// Does what a command does, and gives its answer if it has one. `available` is MAV.
    pub(crate) fn perform(&mut self, command: &Command, available: bool) -> Option<Answer>
        ensures { outcome_of command.now available self.old ≡ record { state = self.new; answer = result } }
    {
        match command {
            Command::ClearStatus => self.esr = 0,
            Command::EventEnable(number) => self.enable_events(number),
            Command::EventEnableQuery => return Some(Answer::Number(self.ese)),
            Command::EventStatusQuery => return Some(self.read_events()),
            Command::IdentificationQuery => return Some(Answer::Identity),
            Command::OperationComplete => self.set_event(OPERATION_COMPLETE),
            Command::OperationCompleteQuery => return Some(Answer::Number(1)),
            Command::Reset => self.reset(),
            Command::ServiceEnable(number) => self.enable_service(number),
            Command::ServiceEnableQuery => return Some(Answer::Number(self.sre)),
            Command::StatusByteQuery => return Some(self.read_status_byte(available)),
            Command::SelfTestQuery => return Some(Answer::Number(0)),
            Command::Wait => (),
            Command::Trigger => self.trigger(),
            Command::Configure(number) => self.configure(number),
            Command::ConfigureQuery => return Some(Answer::Number(self.conf)),
            Command::ReadQuery(number) => return self.read_samples(number),
            Command::RemoteQuery => return Some(Answer::Number(self.remote.number())),
        }
        None
    }

    /// One more acquisition.
    pub(crate) fn trigger(&mut self)
        ensures { self.new ≡ triggered self.old }
    {
        self.acquisitions = self.acquisitions.wrapping_add(1);
    }

    /// `*ESR?`, which clears the register that it reads.
    fn read_events(&mut self) -> Answer
        ensures answer { result ≡ Answer.Number self.old.esr }
        ensures state { self.new ≡ record self.old { esr = 0 } }
    {
        let answer = Answer::Number(self.esr);
        self.esr = 0;
        answer
    }

    /// `*RST`.
    fn reset(&mut self)
        ensures { self.new ≡ record self.old { conf = 0; acquisitions = 0 } }
    {
        self.conf = 0;
        self.acquisitions = 0;
    }

    /// `*STB?`.
    fn read_status_byte(&self, available: bool) -> Answer
        ensures { result ≡ Answer.Number (status_byte self.now available (requests_service self.now available)) }
    {
        let request = self.requests_service(available);
        Answer::Number(self.status_byte(available, request))
    }

    /// `*ESE`.
    fn enable_events(&mut self, number: &Nrf)
        ensures { ranged (in_range 255 number.now) self.old (λ value. obeys (record self.old { ese = value })) ≡ obeys self.new }
    {
        match in_range(number, 255) {
            Some(value) => self.ese = value as u8,
            None => self.set_event(EXECUTION_ERROR),
        }
    }

    /// `*SRE`, which does not set bit 6.
    fn enable_service(&mut self, number: &Nrf)
        ensures { ranged (in_range 255 number.now) self.old (λ value. obeys (record self.old { sre = bit_and value 0xbf })) ≡ obeys self.new }
    {
        match in_range(number, 255) {
            Some(value) => self.sre = value as u8 & SERVICE_BITS,
            None => self.set_event(EXECUTION_ERROR),
        }
    }

    /// `CONF`.
    fn configure(&mut self, number: &Nrf)
        ensures { ranged (in_range 9 number.now) self.old (λ value. obeys (record self.old { conf = value })) ≡ obeys self.new }
    {
        match in_range(number, 9) {
            Some(value) => self.conf = value as u8,
            None => self.set_event(EXECUTION_ERROR),
        }
    }

    /// `READ?`.
    fn read_samples(&mut self, number: &Nrf) -> Option<Answer>
        ensures { ranged (in_range 60000 number.now) self.old
            (λ size. answers (Answer.Block self.old.acquisitions self.old.conf size) self.old)
            ≡ record { state = self.new; answer = result } }
    {
        match in_range(number, 60_000) {
            Some(size) => Some(Answer::Block {
                acquisitions: self.acquisitions,
                conf: self.conf,
                size,
            }),
            None => {
                self.set_event(EXECUTION_ERROR);
                None
            }
        }
    }
}
