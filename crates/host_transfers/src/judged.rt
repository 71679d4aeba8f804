ghost use Rattle.std.specs.Prelude.{◌≡◌, ◌+◌, ◌<◌, List, ℕ, length, take};
ghost use Rattle.host_transfers.specs.Answer.{bulk, field_of};
ghost use Rattle.host_transfers.specs.Judged.{Judges};
ghost use Rattle.tmc_wire.specs.Header.{IsInHeader};
ghost use Rattle.tmc_wire.specs.Standard.{header_size};

use tmc_base::{Field, Layer, Name};
use tmc_wire::{BULK_HEADER, HeaderFault, InHeader, read_in};

/// The most bytes behind the data of a transfer.
const ALIGNMENT_MAX: u64 = 3;

/// What is known of a transfer by its bytes so far.
pub(crate) enum Judged {
    /// Its header is not whole yet.
    Open,
    /// It begins with this header, and nothing is refused.
    Begins(InHeader),
    /// It is refused at this field.
    Bad(Field),
}

/// Judges a transfer of `count` bytes that begins with these of a header, the answer to a request with this tag and size.
pub(crate) fn judge(head: &[u8], count: u64, tag: u8, size: u32, ended: bool) -> Judged
    ensures { (bytes : List ℕ) → head.now ≡ take header_size bytes → count ≡ length bytes → Judges tag size bytes ended result }
{
    if !ended && head.len() < BULK_HEADER {
        return Judged::Open;
    }
    match read_in(head) {
        Err(fault) => Judged::Bad(refused(fault)),
        Ok(header) => judge_begun(header, count, tag, size, ended),
    }
}

/// Judges a transfer that begins with this header.
fn judge_begun(header: InHeader, count: u64, tag: u8, size: u32, ended: bool) -> Judged
    ensures { (bytes : List ℕ) → IsInHeader header (take header_size bytes) → count ≡ length bytes → Judges tag size bytes ended result }
{
    if header.tag != tag {
        return Judged::Bad(bulk(Name::Tag, 1));
    }
    if header.size > size {
        return Judged::Bad(bulk(Name::Size, 4));
    }
    let end = BULK_HEADER as u64 + u64::from(header.size);
    if ended && count < end {
        return Judged::Bad(bulk(Name::Length, 12));
    }
    if end + ALIGNMENT_MAX < count {
        return Judged::Bad(bulk(Name::Length, 12));
    }
    Judged::Begins(header)
}

/// The field of a header's fault. A transfer without a whole header is refused at the length of one.
fn refused(fault: HeaderFault) -> Field
    ensures { result ≡ field_of fault }
{
    match fault {
        HeaderFault::Length => bulk(Name::Length, 12),
        HeaderFault::MsgId => bulk(Name::MsgId, 0),
        HeaderFault::Tag => bulk(Name::Tag, 1),
        HeaderFault::Inverse => bulk(Name::Inverse, 2),
        HeaderFault::Size => bulk(Name::Size, 4),
    }
}

/// A field of a bulk transfer.
fn bulk(name: Name, offset: u32) -> Field
    ensures { result ≡ bulk name offset }
{
    Field {
        layer: Layer::Bulk,
        name,
        offset,
    }
}
