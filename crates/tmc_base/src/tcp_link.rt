ghost use Rattle.std.specs.Prelude.{◌≡◌, ◌<◌, length, IfOk};
ghost use Rattle.tmc_base.specs.Adapters.{PollGave, SendTook};
ghost use Rattle.tmc_base.specs.Link.{SendsWithin, PollsWithin, SendCounts, PollCounts};

use crate::count::Count;
use crate::{Link, PollStep, SendStep, TendStep};
use std::io;
use std::io::{ErrorKind, Read, Write};
use std::marker::Model;
use std::net::TcpStream;
use std::time::Duration;

/// How long one call waits for the other end, in milliseconds.
const PATIENCE: u64 = 5;

/// How many calls answered a fault, idleness and a closing.
#[derive(Drop)]
pub(crate) struct LinkCounts {
    faults: Count,
    idles: Count,
    closings: Count,
}

impl Model for LinkCounts {
    ghost use Rattle.tmc_base.specs.Link.{Counts};

    ghost Value = { Counts };

    ghost view = { λ a. record { faults = a.faults; idles = a.idles; closings = a.closings } };
}

impl LinkCounts {
    pub(crate) fn new() -> LinkCounts
        ensures { result ≡ record { faults = 0; idles = 0; closings = 0 } }
    {
        LinkCounts {
            faults: Count::new(),
            idles: Count::new(),
            closings: Count::new(),
        }
    }
}

/// A link over a TCP stream. It counts its faults, idles and closings, and tells nothing of the bytes. It has no acts.
///
/// Small pieces go out at once. A poll or a send that would wait longer than 5 ms is idle. A stream that the other end
/// has shut is closed, and one that it has reset or left fails.
#[derive(Drop)]
pub struct TcpLink {
    stream: TcpStream,
    counts: LinkCounts,
}

impl Model for TcpLink {
    ghost use Rattle.tmc_base.specs.Link.{Counts};

    ghost Value = { Counts };

    ghost view = { λ a. a.counts };
}

impl TcpLink {
    /// Sets the stream's options. An error is one of the system that would not set them.
    pub fn new(stream: TcpStream) -> io::Result<TcpLink>
        ensures { IfOk result (λ link. link ≡ record { faults = 0; idles = 0; closings = 0 }) }
    {
        let patience = Some(Duration::from_millis(PATIENCE));
        stream.set_nodelay(true)?;
        stream.set_read_timeout(patience)?;
        stream.set_write_timeout(patience)?;
        Ok(TcpLink {
            stream,
            counts: LinkCounts::new(),
        })
    }
}

impl Link for TcpLink {
    ghost use Rattle.tmc_base.specs.Told.{Silent};

    type Act = ();

    ghost told = { λ _. Silent };

    ghost counts = { λ counts. counts };

    ghost sends = { λ _ _ _ _. Unit {0} };

    ghost polls = { λ _ _ _ _ _. Unit {0} };

    ghost tends = { λ _ _ _ _. Unit {0} };

    fn send(&mut self, piece: &[u8]) -> SendStep {
        send_to(&mut self.stream, &mut self.counts, piece)
    }

    fn poll(&mut self, buf: &mut [u8]) -> PollStep {
        poll_from(&mut self.stream, &mut self.counts, buf)
    }

    fn tend(&mut self, _act: ()) -> TendStep {
        TendStep::NotNow
    }
}

/// Whether an error of this kind says no more than that a call would have waited.
fn only_waits(kind: ErrorKind) -> bool {
    matches!(kind, ErrorKind::WouldBlock | ErrorKind::Interrupted)
}

/// One send over a writer of std.
pub(crate) fn send_to<W: Write>(output: &mut W, counts: &mut LinkCounts, piece: &[u8]) -> SendStep
    requires { 0 < length piece.now }
    ensures within { SendsWithin result (length piece.now) }
    ensures took { SendTook result piece.now (W.contents output.old) (W.contents output.new) }
    ensures counts { SendCounts result counts.old counts.new }
{
    match output.write(piece) {
        Ok(n) if n > 0 => SendStep::Took(n),
        Err(e) if only_waits(e.kind()) => {
            counts.idles.raise();
            SendStep::Idle
        }
        _ => {
            counts.faults.raise();
            SendStep::Failed
        }
    }
}

/// One poll over a reader of std.
pub(crate) fn poll_from<R: Read>(input: &mut R, counts: &mut LinkCounts, buf: &mut [u8]) -> PollStep
    requires { 0 < length buf.old }
    ensures within { PollsWithin result (length buf.old) }
    ensures gave { PollGave result buf.new (R.remaining input.old) (R.remaining input.new) }
    ensures counts { PollCounts result counts.old counts.new }
{
    match input.read(buf) {
        Ok(0) => {
            counts.closings.raise();
            PollStep::Closed
        }
        Ok(n) => PollStep::Got(n),
        Err(e) if only_waits(e.kind()) => {
            counts.idles.raise();
            PollStep::Idle
        }
        Err(_) => {
            counts.faults.raise();
            PollStep::Failed
        }
    }
}
