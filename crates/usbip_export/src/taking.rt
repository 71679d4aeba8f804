//! How a node takes in what it was fed.

ghost use Rattle.std.specs.Prelude.{◌≡◌, ◌≢◌, ◌<◌, ◌++◌, [], true, false, length, Some, None, MatchBool, OnOk, OnErr};
ghost use Rattle.std.specs.Option.{is_some};
ghost use Rattle.usbip_wire.specs.declared.up.Up.TheVariants as up;
ghost use Rattle.usbip_wire.specs.declared.op_request.OpRequest.TheVariants.{DevList, Import};
ghost use Rattle.usbip_export.specs.Identity.{busid};
ghost use Rattle.usbip_export.specs.Steps.{AreArrivals, MovesBy};
ghost use Rattle.usbip_export.specs.Seen.{IsCaughtUp, standing};

use crate::body::Body;
use crate::identity::{DEVID, devid_is_the_records};
use crate::operations::{is_own, put_done, put_failed, put_list};
use crate::spelling::spell_all;
use tmc_base::{Field, Layer, Memory, Name};
use tmc_device::{DeviceFault, Input};
use usbip_wire::{OpRequest, SubmitHead, UnlinkHead, Up, UpReader, messages_have_spellings};

/// A submit that comes while so many are pending as may be.
const PENDING: Field = Field {
    layer: Layer::Urb,
    name: Name::Pending,
    offset: 4,
};

/// A submit whose number is pending.
const SEQNUM: Field = Field {
    layer: Layer::Urb,
    name: Name::Seqnum,
    offset: 4,
};

impl Body {
    ghost use Rattle.usbip_export.specs.Body.{seen_of, IsSound, IsOpen};
    ghost use Rattle.usbip_export.specs.Taking.{Reads};

    /// Takes in each message that is whole, until a field is refused, and spells what is put out. Where memory is wanting
    /// the rest waits.
    pub(crate) fn take_in(&mut self) -> Result<(), Memory>
        requires sound { IsSound self.old }
        ensures sound { IsSound self.new }
        ensures moves { MovesBy AreArrivals (seen_of self.old) (seen_of self.new) }
        ensures caught_up { OnOk result (IsOpen self.new → IsCaughtUp (seen_of self.new)) }
        ensures spelled { OnOk result ((seen_of self.new).puts ≡ []) }
    {
        'messages: while self.has_message() {
            self.admit()?;
        }
        spell_all(&mut self.device, &mut self.out)
    }

    /// Takes in each message that is whole. Where memory is wanting the rest waits.
    pub(crate) fn take_on(&mut self)
        requires sound { IsSound self.old }
        ensures sound { IsSound self.new }
        ensures moves { MovesBy AreArrivals (seen_of self.old) (seen_of self.new) }
        ensures caught_up { (seen_of self.new).wanting ≡ false → IsOpen self.new → IsCaughtUp (seen_of self.new) }
    {
        match self.take_in() {
            Ok(()) => self.wanting = false,
            Err(Memory) => self.wanting = true,
        }
    }

    /// Whether the node takes bytes in.
    pub(crate) fn is_open(&self) -> bool
        ensures { MatchBool result (IsOpen self.now) (IsOpen self.now → ⊥) }
    {
        match self.refused {
            Some(_) => false,
            None => !self.device.closed(),
        }
    }

    /// Whether a message waits to be taken in: the one that the reader gave, or the next one.
    fn has_message(&mut self) -> bool
        requires sound { IsSound self.old }
        ensures sound { IsSound self.new }
        ensures waits { result ≡ true → is_some self.new.waiting ≡ true }
        ensures reads { Reads result self.old self.new }
    {
        if !self.is_open() {
            return false;
        }
        match self.waiting {
            Some(_) => true,
            None => self.read_next(),
        }
    }

    /// Reads on, to the end of the next message.
    fn read_next(&mut self) -> bool
        requires sound { IsSound self.old }
        requires opened { IsOpen self.old }
        requires idle { self.old.waiting ≡ None }
        ensures sound { IsSound self.new }
        ensures waits { result ≡ true → is_some self.new.waiting ≡ true }
        ensures reads { Reads result self.old self.new }
    {
        let step = self.reader.feed(self.late.as_slice());
        self.late.advance(step.used);
        match step.what {
            Up::More => false,
            Up::Bad(field) => {
                self.refuse(field);
                false
            }
            what => {
                self.waiting = Some(what);
                true
            }
        }
    }

    /// Closes at a field; what was fed and not taken in is let go.
    fn refuse(&mut self, field: Field)
        ensures { self.new ≡ record self.old { refused = Some field; waiting = None; late = self.new.late } }
    {
        self.refused = Some(field);
        self.waiting = None;
        self.late.clear();
    }

    /// Takes in the message that waits.
    fn admit(&mut self) -> Result<(), Memory>
        requires sound { IsSound self.old }
        requires opened { IsOpen self.old }
        requires waits { is_some self.old.waiting ≡ true }
        ensures sound { IsSound self.new }
        ensures moves { OnOk result (MovesBy AreArrivals (seen_of self.old) (seen_of self.new)) }
        ensures shorter { OnOk result (length (seen_of self.new).kept < length (seen_of self.old).kept) }
        ensures err { OnErr result (seen_of self.new ≡ seen_of self.old) }
    {
        match self.waiting {
            Some(Up::Op(request)) => self.operate(request),
            Some(Up::Submit(head)) => self.submit(head),
            Some(Up::Unlink(head)) => self.unlink(head),
            _ => unreachable!(),
        }
    }

    /// Answers an operation.
    fn operate(&mut self, request: OpRequest) -> Result<(), Memory>
        requires sound { IsSound self.old }
        requires opened { IsOpen self.old }
        requires waits { self.old.waiting ≡ Some (up.Op request) }
        ensures sound { IsSound self.new }
        ensures moves { OnOk result (MovesBy AreArrivals (seen_of self.old) (seen_of self.new)) }
        ensures shorter { OnOk result (length (seen_of self.new).kept < length (seen_of self.old).kept) }
        ensures err { OnErr result (seen_of self.new ≡ seen_of self.old) }
    {
        match request {
            OpRequest::DevList => self.list(),
            OpRequest::Import { busid } if is_own(&busid) => self.import(),
            OpRequest::Import { busid } => self.decline(busid),
        }
    }

    /// Lists the instrument.
    fn list(&mut self) -> Result<(), Memory>
        requires sound { IsSound self.old }
        requires opened { IsOpen self.old }
        requires waits { self.old.waiting ≡ Some (up.Op DevList) }
        ensures sound { IsSound self.new }
        ensures moves { OnOk result (MovesBy AreArrivals (seen_of self.old) (seen_of self.new)) }
        ensures shorter { OnOk result (length (seen_of self.new).kept < length (seen_of self.old).kept) }
        ensures err { OnErr result (seen_of self.new ≡ seen_of self.old) }
    {
        messages_have_spellings();
        put_list(&mut self.out)?;
        self.waiting = None;
        Ok(())
    }

    /// Imports the instrument; messages to it follow.
    fn import(&mut self) -> Result<(), Memory>
        requires sound { IsSound self.old }
        requires opened { IsOpen self.old }
        requires waits { self.old.waiting ≡ Some (up.Op (Import busid)) }
        ensures sound { IsSound self.new }
        ensures moves { OnOk result (MovesBy AreArrivals (seen_of self.old) (seen_of self.new)) }
        ensures shorter { OnOk result (length (seen_of self.new).kept < length (seen_of self.old).kept) }
        ensures err { OnErr result (seen_of self.new ≡ seen_of self.old) }
    {
        messages_have_spellings();
        devid_is_the_records();
        let reader = UpReader::urbs(self.alloc, DEVID)?;
        put_done(&mut self.out)?;
        self.reader = reader;
        self.imported = true;
        self.waiting = None;
        Ok(())
    }

    /// Imports nothing; further operations are awaited.
    fn decline(&mut self, id: [u8; 32]) -> Result<(), Memory>
        requires other { id ≢ busid }
        requires sound { IsSound self.old }
        requires opened { IsOpen self.old }
        requires waits { self.old.waiting ≡ Some (up.Op (Import id)) }
        ensures sound { IsSound self.new }
        ensures moves { OnOk result (MovesBy AreArrivals (seen_of self.old) (seen_of self.new)) }
        ensures shorter { OnOk result (length (seen_of self.new).kept < length (seen_of self.old).kept) }
        ensures err { OnErr result (seen_of self.new ≡ seen_of self.old) }
    {
        messages_have_spellings();
        put_failed(&mut self.out)?;
        self.waiting = None;
        Ok(())
    }

    fn submit(&mut self, head: SubmitHead) -> Result<(), Memory>
        requires sound { IsSound self.old }
        requires opened { IsOpen self.old }
        requires waits { self.old.waiting ≡ Some (up.Submit head) }
        ensures sound { IsSound self.new }
        ensures moves { OnOk result (MovesBy AreArrivals (seen_of self.old) (seen_of self.new)) }
        ensures shorter { OnOk result (length (seen_of self.new).kept < length (seen_of self.old).kept) }
        ensures err { OnErr result (seen_of self.new ≡ seen_of self.old) }
    {
        messages_have_spellings();
        match self.device.input(Input::Submit(head), self.reader.data()) {
            Ok(()) => self.waiting = None,
            Err(DeviceFault::Full) => self.refuse(PENDING),
            Err(DeviceFault::Twice) => self.refuse(SEQNUM),
            Err(DeviceFault::Memory) => return Err(Memory),
        }
        Ok(())
    }

    fn unlink(&mut self, head: UnlinkHead) -> Result<(), Memory>
        requires sound { IsSound self.old }
        requires opened { IsOpen self.old }
        requires waits { self.old.waiting ≡ Some (up.Unlink head) }
        ensures sound { IsSound self.new }
        ensures moves { OnOk result (MovesBy AreArrivals (seen_of self.old) (seen_of self.new)) }
        ensures shorter { OnOk result (length (seen_of self.new).kept < length (seen_of self.old).kept) }
        ensures err { OnErr result (seen_of self.new ≡ seen_of self.old) }
    {
        messages_have_spellings();
        match self.device.input(Input::Unlink(head), &[]) {
            Ok(()) => self.waiting = None,
            Err(_) => return Err(Memory),
        }
        Ok(())
    }
}
