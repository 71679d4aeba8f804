ghost use Rattle.std.specs.Prelude.{◌≡◌, ℕ};
ghost use Rattle.tmc_wire.specs.declared.class_request.ClassRequest.TheVariants as class;
ghost use Rattle.host_recover.specs.declared.want.Heard.TheVariants as heard;
ghost use Rattle.host_recover.specs.Letter.{says_of};
ghost use Rattle.host_recover.specs.Recover.{IsAwaited};
ghost use Rattle.host_recover.specs.Stage.{awaits_at, wanted_by, first_of, behind_abort_out, behind_check_out, behind_abort_in, behind_check_in, behind_clear, behind_check_clear, first_halt, second_halt, behind_class, behind_short, behind_feature, behind_heard};
ghost use Rattle.host_recover.specs.Want.{clear_halt_setup, notify_address};

use crate::need::Need;
use crate::standard::{CLEAR_FEATURE, DATA_WAITS, ENDPOINT_HALT, TO_ENDPOINT};
use crate::want::{Heard, Want};
use tmc_wire::{
    ClassAnswer, ClassRequest, STATUS_FAILED, STATUS_PENDING, STATUS_SUCCESS, class_setup,
};
use usb_setup::{Ends, Setup};

/// The submit that a recovery made last.
#[derive(Clone, Copy, Debug, PartialEq, Eq)]
pub(crate) enum Stage {
    /// INITIATE_ABORT_BULK_OUT.
    AbortsOut { tag: u8, parts: bool },
    /// CHECK_ABORT_BULK_OUT_STATUS.
    ChecksOut,
    /// INITIATE_ABORT_BULK_IN.
    AbortsIn { tag: u8 },
    /// A read behind an abort.
    DrainsIn,
    /// CHECK_ABORT_BULK_IN_STATUS.
    ChecksIn,
    /// INITIATE_CLEAR.
    Clears,
    /// CHECK_CLEAR_STATUS.
    ChecksClear,
    /// A read in a clear.
    DrainsClear,
    /// CLEAR_FEATURE of Bulk-IN.
    FreesIn,
    /// CLEAR_FEATURE of Interrupt-IN.
    FreesNotify,
    /// CLEAR_FEATURE of Bulk-OUT.
    FreesOut,
    /// None: it is over.
    Over,
}

impl Stage {
    /// The first submit of a recovery.
    pub(crate) fn first(need: Need) -> Stage
        ensures { result ≡ first_of need }
    {
        match need {
            Need::Out { tag, parts } => Stage::AbortsOut { tag, parts },
            Need::In { tag } => Stage::AbortsIn { tag },
            Need::Full => Stage::Clears,
        }
    }

    /// The submit that comes behind what was heard of this one.
    ///
    /// # Errors
    ///
    /// The USBTMC_status of a request of the clear, where it does not go on.
    pub(crate) fn behind(
        self,
        heard: Heard,
        in_halted: bool,
        notify_halted: bool,
    ) -> Result<Stage, u8>
        requires { IsAwaited (awaits_at self) heard }
        ensures { result ≡ behind_heard self heard in_halted notify_halted }
    {
        match heard {
            Heard::Start => unreachable!(),
            Heard::Class(answer) => self.answered(answer, in_halted, notify_halted),
            Heard::Feature => Ok(self.freed(notify_halted)),
            Heard::FullRead => Ok(self),
            Heard::ShortRead => Ok(self.drained()),
            Heard::FailedRead => Ok(Stage::Clears),
        }
    }

    /// What comes behind an answer to a class request.
    fn answered(
        self,
        answer: ClassAnswer,
        in_halted: bool,
        notify_halted: bool,
    ) -> Result<Stage, u8>
        requires { IsAwaited (awaits_at self) (heard.Class answer) }
        ensures { result ≡ behind_class self answer in_halted notify_halted }
    {
        match self {
            Stage::AbortsOut { parts, .. } => Ok(behind_abort_of_out(parts, answer.status)),
            Stage::ChecksOut => Ok(behind_check_of_out(answer.status)),
            Stage::AbortsIn { .. } => Ok(behind_abort_of_in(answer.status)),
            Stage::ChecksIn => Ok(behind_check_of_in(answer)),
            Stage::Clears => behind_initiated_clear(answer.status),
            Stage::ChecksClear => behind_check_of_clear(answer, in_halted, notify_halted),
            _ => unreachable!(),
        }
    }

    /// What comes behind a short read.
    fn drained(self) -> Stage
        ensures { result ≡ behind_short self }
    {
        match self {
            Stage::DrainsIn => Stage::ChecksIn,
            _ => Stage::ChecksClear,
        }
    }

    /// What comes behind the clearing of a halt.
    fn freed(self, notify_halted: bool) -> Stage
        ensures { result ≡ behind_feature self notify_halted }
    {
        match self {
            Stage::FreesIn => halt_behind_bulk_in(notify_halted),
            Stage::FreesNotify => Stage::FreesOut,
            _ => Stage::Over,
        }
    }

    /// This submit, as it is wanted.
    pub(crate) fn wanted(self, ends: &Ends) -> Want
        ensures { result ≡ wanted_by ends.now (awaits_at self) }
    {
        let request = match self {
            Stage::AbortsOut { tag, .. } => ClassRequest::AbortOut { tag },
            Stage::ChecksOut => ClassRequest::CheckOut,
            Stage::AbortsIn { tag } => ClassRequest::AbortIn { tag },
            Stage::ChecksIn => ClassRequest::CheckIn,
            Stage::Clears => ClassRequest::Clear,
            Stage::ChecksClear => ClassRequest::CheckClear,
            Stage::DrainsIn | Stage::DrainsClear => return Want::Drain,
            Stage::FreesIn => return Want::Control(clear_halt(ends.bulk_in)),
            // without such an endpoint none is seen halted
            Stage::FreesNotify => return Want::Control(clear_halt(ends.notify.unwrap_or(0))),
            Stage::FreesOut => return Want::Control(clear_halt(ends.bulk_out)),
            Stage::Over => return Want::Done,
        };
        Want::Control(class_setup(request, ends))
    }
}

/// Behind INITIATE_ABORT_BULK_OUT: a device that knows no such transfer has nothing to abort, but where it accepted an earlier
/// part.
fn behind_abort_of_out(parts: bool, status: u8) -> Stage
    ensures { (tag second : ℕ) → result ≡ behind_abort_out parts (says_of (class.AbortOut tag) status second) }
{
    match status {
        STATUS_SUCCESS => Stage::ChecksOut,
        STATUS_FAILED if !parts => Stage::Over,
        _ => Stage::Clears,
    }
}

fn behind_check_of_out(status: u8) -> Stage
    ensures { (second : ℕ) → result ≡ behind_check_out (says_of class.CheckOut status second) }
{
    match status {
        STATUS_SUCCESS => Stage::FreesOut,
        STATUS_PENDING => Stage::ChecksOut,
        _ => Stage::Clears,
    }
}

/// Behind INITIATE_ABORT_BULK_IN: what the device has sent of the response is read.
fn behind_abort_of_in(status: u8) -> Stage
    ensures { (tag second : ℕ) → result ≡ behind_abort_in (says_of (class.AbortIn tag) status second) }
{
    match status {
        STATUS_SUCCESS => Stage::DrainsIn,
        STATUS_FAILED => Stage::Over,
        _ => Stage::Clears,
    }
}

fn behind_check_of_in(answer: ClassAnswer) -> Stage
    ensures { result ≡ behind_check_in (says_of class.CheckIn answer.status answer.second) }
{
    match answer.status {
        STATUS_SUCCESS => Stage::Over,
        STATUS_PENDING if answer.second & DATA_WAITS != 0 => Stage::DrainsIn,
        STATUS_PENDING => Stage::ChecksIn,
        _ => Stage::Clears,
    }
}

fn behind_initiated_clear(status: u8) -> Result<Stage, u8>
    ensures { (second : ℕ) → result ≡ behind_clear (says_of class.Clear status second) status }
{
    match status {
        STATUS_SUCCESS => Ok(Stage::ChecksClear),
        status => Err(status),
    }
}

fn behind_check_of_clear(
    answer: ClassAnswer,
    in_halted: bool,
    notify_halted: bool,
) -> Result<Stage, u8>
    ensures { result ≡ behind_check_clear (says_of class.CheckClear answer.status answer.second) answer.status in_halted notify_halted }
{
    match answer.status {
        STATUS_SUCCESS => Ok(halt_behind_check(in_halted, notify_halted)),
        STATUS_PENDING if answer.second & DATA_WAITS != 0 => Ok(Stage::DrainsClear),
        STATUS_PENDING => Ok(Stage::ChecksClear),
        status => Err(status),
    }
}

/// The halt that is cleared first at the end of a clear.
fn halt_behind_check(in_halted: bool, notify_halted: bool) -> Stage
    ensures { result ≡ first_halt in_halted notify_halted }
{
    if in_halted {
        Stage::FreesIn
    } else {
        halt_behind_bulk_in(notify_halted)
    }
}

/// The one that is cleared behind that of Bulk-IN.
fn halt_behind_bulk_in(notify_halted: bool) -> Stage
    ensures { result ≡ second_halt notify_halted }
{
    if notify_halted {
        Stage::FreesNotify
    } else {
        Stage::FreesOut
    }
}

/// CLEAR_FEATURE of ENDPOINT_HALT at this address: USB 2.0, section 9.4.1.
fn clear_halt(address: u8) -> Setup
    ensures { result ≡ clear_halt_setup address }
{
    Setup {
        request_type: TO_ENDPOINT,
        request: CLEAR_FEATURE,
        value: ENDPOINT_HALT,
        index: u16::from(address),
        length: 0,
    }
}
