ghost use Rattle.std.specs.Prelude.{◌≡◌, ◌+◌, ◌*◌, ◌≤◌, ◌++◌, length, drop};
ghost use Rattle.usbip_wire.specs.Urb.{fields, halves, direction_code};

use bytes::BytesMut;
use tmc_base::SUBMIT_MAX;

/// The bytes in front of a URB message's data.
pub const URB_HEADER: usize = 48;

/// The longest message that a reader holds: a header, and the data of the longest submit.
pub(crate) const HELD_MAX: usize = URB_HEADER + SUBMIT_MAX as usize;

/// The greatest endpoint number.
pub const ENDPOINT_MAX: u32 = 15;

pub(crate) const CMD_SUBMIT: u32 = 1;

pub(crate) const CMD_UNLINK: u32 = 2;

pub(crate) const RET_SUBMIT: u32 = 3;

pub(crate) const RET_UNLINK: u32 = 4;

/// The `number_of_packets` of a transfer that is not isochronous.
pub(crate) const NOT_ISOCHRONOUS: u32 = 0xffff_ffff;

/// Where the data of a transfer goes: to the device, or from it.
#[derive(Clone, Copy, Debug, PartialEq, Eq)]
pub enum Dir {
    Out,
    In,
}

impl Dir {
    ghost use Rattle.std.specs.Prelude.{◌≡◌};
    ghost use Rattle.usbip_wire.specs.Urb.{direction_code, dir_of, carried, returned};

    /// Its number in a URB header.
    pub(crate) fn code(self) -> u32
        ensures { result ≡ direction_code self }
    {
        match self {
            Dir::Out => 0,
            Dir::In => 1,
        }
    }

    /// The direction of this number: 0 is OUT.
    pub(crate) fn of_code(code: u32) -> Dir
        ensures { result ≡ dir_of code }
    {
        if code == 0 { Dir::Out } else { Dir::In }
    }

    /// The bytes of data that go with a submit of `length` bytes.
    pub(crate) fn carried(self, length: u32) -> usize
        ensures { result ≡ carried self length }
    {
        match self {
            Dir::Out => length as usize,
            Dir::In => 0,
        }
    }

    /// The bytes of data that come with the answer to a submit that transferred `actual` bytes.
    pub(crate) fn returned(self, actual: u32) -> usize
        ensures { result ≡ returned self actual }
    {
        match self {
            Dir::Out => 0,
            Dir::In => actual as usize,
        }
    }
}

/// Appends these fields of two bytes.
#[tactic(auto, unfolding(crate::specs::Urb::halves))]
pub(crate) fn put_halves(words: &[u16], out: &mut BytesMut)
    requires { 2 * length words.now ≤ out.old.spare }
    ensures items { out.new.items ≡ out.old.items ++ halves words.now }
    ensures spare { out.new.spare + 2 * length words.now ≡ out.old.spare }
{
    for word in words {
        out.extend_reserved(&word.to_be_bytes());
    }
}

/// Appends these fields.
#[tactic(auto, unfolding(crate::specs::Urb::fields))]
pub(crate) fn put_fields(words: &[u32], out: &mut BytesMut)
    requires { 4 * length words.now ≤ out.old.spare }
    ensures items { out.new.items ≡ out.old.items ++ fields words.now }
    ensures spare { out.new.spare + 4 * length words.now ≡ out.old.spare }
{
    for word in words {
        out.extend_reserved(&word.to_be_bytes());
    }
}

/// What stands behind a header.
pub(crate) fn behind_header(held: &[u8]) -> &[u8]
    ensures { result.now ≡ drop URB_HEADER held.now }
{
    if held.len() < URB_HEADER {
        return &[];
    }
    let (_header, rest) = held.split_at(URB_HEADER);
    rest
}
