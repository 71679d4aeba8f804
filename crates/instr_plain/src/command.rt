ghost use Rattle.std.specs.Prelude.{◌≡◌, MatchOption};
ghost use Rattle.instr_plain.specs.Command.{unit_of, is_query, IsUnknown};

use crate::header::Header;
use ieee_syntax::{Nrf, Unit};

/// A program message unit that the instrument knows (IEEE 488.2, section 10), with its number where it has one.
#[derive(Clone, Copy, Debug, PartialEq, Eq)]
pub enum Command {
    /// `*CLS` (section 10.3).
    ClearStatus,
    /// `*ESE` (section 10.10).
    EventEnable(Nrf),
    /// `*ESE?` (section 10.11).
    EventEnableQuery,
    /// `*ESR?` (section 10.12).
    EventStatusQuery,
    /// `*IDN?` (section 10.14).
    IdentificationQuery,
    /// `*OPC` (section 10.18).
    OperationComplete,
    /// `*OPC?` (section 10.19).
    OperationCompleteQuery,
    /// `*RST` (section 10.32).
    Reset,
    /// `*SRE` (section 10.34).
    ServiceEnable(Nrf),
    /// `*SRE?` (section 10.35).
    ServiceEnableQuery,
    /// `*STB?` (section 10.36).
    StatusByteQuery,
    /// `*TST?` (section 10.38).
    SelfTestQuery,
    /// `*WAI` (section 10.39).
    Wait,
    /// `*TRG` (section 10.37).
    Trigger,
    /// `CONF`, which configures the measurement.
    Configure(Nrf),
    /// `CONF?`.
    ConfigureQuery,
    /// `READ?`, which answers so many samples.
    ReadQuery(Nrf),
    /// `RL?`, which answers who may operate the instrument.
    RemoteQuery,
}

impl Command {
    /// The command that a unit is.
    pub(crate) fn from_unit(unit: &Unit) -> Option<Command>
        ensures { MatchOption result (IsUnknown unit.now) (λ command. unit.now ≡ unit_of command) }
    {
        let header = Header::from_bytes(unit.head.as_bytes())?;
        match unit.args.as_slice() {
            [] => header.plain(unit.query),
            [number] => header.numbered(unit.query, *number),
            _ => None,
        }
    }

    /// Whether it is a query.
    pub(crate) fn is_query(&self) -> bool
        ensures { result ≡ is_query self.now }
    {
        match self {
            Command::ClearStatus
            | Command::EventEnable(_)
            | Command::OperationComplete
            | Command::Reset
            | Command::ServiceEnable(_)
            | Command::Wait
            | Command::Trigger
            | Command::Configure(_) => false,
            Command::EventEnableQuery
            | Command::EventStatusQuery
            | Command::IdentificationQuery
            | Command::OperationCompleteQuery
            | Command::ServiceEnableQuery
            | Command::StatusByteQuery
            | Command::SelfTestQuery
            | Command::ConfigureQuery
            | Command::ReadQuery(_)
            | Command::RemoteQuery => true,
        }
    }
}
