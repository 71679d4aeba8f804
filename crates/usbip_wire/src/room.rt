//! What both readers hold of a stream: the bytes of at most one message, and what the last answer said of them.

ghost use Rattle.std.specs.Prelude.{◌≡◌, ◌+◌, ◌≤◌, [], ◌++◌, length, IfOk, None};
ghost use Rattle.usbip_wire.specs.declared.room.Last.TheVariants.{Part};
ghost use Rattle.usbip_wire.specs.Given.{IsBytes};
ghost use Rattle.usbip_wire.specs.Room.{kept, is_whole, refused_by};
ghost use Rattle.usbip_wire.specs.Urb.{message_max};

use crate::reading::are_bytes;
use crate::urb::HELD_MAX;
use bytes::BytesMut;
use std::alloc::Global;
use std::marker::Model;
use tmc_base::{Field, Memory};

/// What the last answer said of the bytes that are held.
#[derive(Clone, Copy, Debug, PartialEq, Eq)]
pub(crate) enum Last {
    /// They are no whole message yet.
    Part,
    /// They are the message that was given.
    Whole,
    /// A field of them is refused.
    Refused(Field),
}

/// Room for the longest message. It takes all its memory when it is made.
#[derive(Drop)]
pub(crate) struct Room {
    buf: BytesMut,
    last: Last,
}

impl Model for Room {
    ghost use Rattle.std.specs.Prelude.{◌+◌, ◌≤◌, length};
    ghost use Rattle.usbip_wire.specs.Room.{Kept};
    ghost use Rattle.usbip_wire.specs.Urb.{message_max};

    ghost Value = { Kept };

    ghost view = { λ r. record { rest = r.buf.items; last = r.last } };

    ghost invariant = { λ r. (message_max ≤ length r.buf.items + r.buf.spare) × (length r.buf.items ≤ message_max) };
}

impl Room {
    pub(crate) fn new(alloc: Global) -> Result<Room, Memory>
        ensures { IfOk result (λ room. room ≡ record { rest = []; last = Part }) }
    {
        Ok(Room {
            buf: BytesMut::with_capacity(alloc, HELD_MAX)?,
            last: Last::Part,
        })
    }

    /// The bytes that are held.
    pub(crate) fn bytes(&self) -> &[u8]
        ensures held { result.now ≡ self.now.rest }
        ensures bytes { IsBytes self.now.rest }
        ensures one_held { length self.now.rest ≤ message_max }
    {
        let bytes = self.buf.as_slice();
        are_bytes(bytes);
        bytes
    }

    /// How many bytes the next message begins with.
    pub(crate) fn kept(&self) -> usize
        ensures { result ≡ length (kept self.now) }
    {
        if self.is_whole() { 0 } else { self.buf.len() }
    }

    pub(crate) fn is_whole(&self) -> bool
        ensures { result ≡ is_whole self.now.last }
    {
        matches!(self.last, Last::Whole)
    }

    pub(crate) fn refused(&self) -> Option<Field>
        ensures { result ≡ refused_by self.now.last }
    {
        match self.last {
            Last::Refused(field) => Some(field),
            Last::Part | Last::Whole => None,
        }
    }

    /// Lets the last message go.
    pub(crate) fn begin(&mut self)
        requires { refused_by self.old.last ≡ None }
        ensures { self.new ≡ record { rest = kept self.old; last = Part } }
    {
        if self.is_whole() {
            self.buf.clear();
        }
        self.last = Last::Part;
    }

    /// Holds these bytes too.
    pub(crate) fn add(&mut self, next: &[u8])
        requires { length self.old.rest + length next.now ≤ message_max }
        ensures { self.new ≡ record self.old { rest = self.old.rest ++ next.now } }
    {
        self.buf.extend_reserved(next);
    }

    /// An answer was given.
    pub(crate) fn end(&mut self, last: Last)
        ensures { self.new ≡ record self.old { last = last } }
    {
        self.last = last;
    }
}
