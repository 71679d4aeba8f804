ghost use Rattle.std.specs.Prelude.{◌≡◌, [], ◌∷◌, MatchOption, IfSome};
ghost use Rattle.instr_plain.specs.Command.{unit_of};
ghost use Rattle.instr_plain.specs.Header.{text_of, plain_of, numbered_of};

use crate::Command;
use ieee_syntax::Nrf;

/// The headers of the units that the instrument knows, without the `?` of a query.
#[derive(Clone, Copy)]
pub(crate) enum Header {
    Cls,
    Ese,
    Esr,
    Idn,
    Opc,
    Rst,
    Sre,
    Stb,
    Tst,
    Wai,
    Trg,
    Conf,
    Read,
    Rl,
}

impl Header {
    /// The header that these bytes are.
    pub(crate) fn from_bytes(bytes: &[u8]) -> Option<Header>
        ensures { MatchOption result ((header : Header) → bytes.now ≡ text_of header → ⊥) (λ header. bytes.now ≡ text_of header) }
    {
        match bytes {
            b"*CLS" => Some(Header::Cls),
            b"*ESE" => Some(Header::Ese),
            b"*ESR" => Some(Header::Esr),
            b"*IDN" => Some(Header::Idn),
            b"*OPC" => Some(Header::Opc),
            b"*RST" => Some(Header::Rst),
            b"*SRE" => Some(Header::Sre),
            b"*STB" => Some(Header::Stb),
            b"*TST" => Some(Header::Tst),
            b"*WAI" => Some(Header::Wai),
            b"*TRG" => Some(Header::Trg),
            b"CONF" => Some(Header::Conf),
            b"READ" => Some(Header::Read),
            b"RL" => Some(Header::Rl),
            _ => None,
        }
    }

    /// The command of this header with no number.
    pub(crate) fn plain(self, query: bool) -> Option<Command>
        ensures value { result ≡ plain_of self query }
        ensures unit { IfSome result (λ command. unit_of command ≡ record { head = text_of self; query = query; args = [] }) }
    {
        match (self, query) {
            (Header::Cls, false) => Some(Command::ClearStatus),
            (Header::Ese, true) => Some(Command::EventEnableQuery),
            (Header::Esr, true) => Some(Command::EventStatusQuery),
            (Header::Idn, true) => Some(Command::IdentificationQuery),
            (Header::Opc, false) => Some(Command::OperationComplete),
            (Header::Opc, true) => Some(Command::OperationCompleteQuery),
            (Header::Rst, false) => Some(Command::Reset),
            (Header::Sre, true) => Some(Command::ServiceEnableQuery),
            (Header::Stb, true) => Some(Command::StatusByteQuery),
            (Header::Tst, true) => Some(Command::SelfTestQuery),
            (Header::Wai, false) => Some(Command::Wait),
            (Header::Trg, false) => Some(Command::Trigger),
            (Header::Conf, true) => Some(Command::ConfigureQuery),
            (Header::Rl, true) => Some(Command::RemoteQuery),
            _ => None,
        }
    }

    /// The command of this header with one number.
    pub(crate) fn numbered(self, query: bool, number: Nrf) -> Option<Command>
        ensures value { result ≡ numbered_of self query number }
        ensures unit { IfSome result (λ command. unit_of command ≡ record { head = text_of self; query = query; args = number ∷ [] }) }
    {
        match (self, query) {
            (Header::Ese, false) => Some(Command::EventEnable(number)),
            (Header::Sre, false) => Some(Command::ServiceEnable(number)),
            (Header::Conf, false) => Some(Command::Configure(number)),
            (Header::Read, true) => Some(Command::ReadQuery(number)),
            _ => None,
        }
    }
}
