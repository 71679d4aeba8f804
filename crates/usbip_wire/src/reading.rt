//! The fields of a message at the front of some bytes.

ghost use Rattle.std.specs.Prelude.{◌≡◌, true, false, Ok, Err, MatchResult};
ghost use Rattle.usbip_wire.specs.declared.stop.Stop.TheVariants.{Refused};
ghost use Rattle.usbip_wire.specs.Form.{Two, Four, number_at, block_at};
ghost use Rattle.usbip_wire.specs.Given.{Gives, IsBytes};

use crate::stop::Stop;
use tmc_base::Field;

/// A big-endian number of two bytes, and what follows it.
pub(crate) fn be16(bytes: &[u8]) -> Result<(u16, &[u8]), Stop>
    ensures { Gives (λ x. (x.0, x.1.now)) result (number_at Two bytes.now) }
{
    if bytes.len() < 2 {
        return Err(Stop::Short(2 - bytes.len()));
    }
    let (front, rest) = bytes.split_at(2);
    Ok((u16::from_be_bytes([front[0], front[1]]), rest))
}

/// A big-endian number of four bytes, and what follows it.
pub(crate) fn be32(bytes: &[u8]) -> Result<(u32, &[u8]), Stop>
    ensures { Gives (λ x. (x.0, x.1.now)) result (number_at Four bytes.now) }
{
    if bytes.len() < 4 {
        return Err(Stop::Short(4 - bytes.len()));
    }
    let (front, rest) = bytes.split_at(4);
    let number = u32::from_be_bytes([front[0], front[1], front[2], front[3]]);
    Ok((number, rest))
}

/// So many bytes, and what follows them.
pub(crate) fn block(count: usize, bytes: &[u8]) -> Result<(&[u8], &[u8]), Stop>
    ensures { Gives (λ x. (x.0.now, x.1.now)) result (block_at count bytes.now) }
{
    if bytes.len() < count {
        return Err(Stop::Short(count - bytes.len()));
    }
    Ok(bytes.split_at(count))
}

/// `N` bytes by value, and what follows them.
pub(crate) fn array<const N: usize>(bytes: &[u8]) -> Result<([u8; N], &[u8]), Stop>
    ensures { Gives (λ x. (x.0, x.1.now)) result (block_at N bytes.now) }
{
    match bytes.split_first_chunk::<N>() {
        Some((front, rest)) => Ok((*front, rest)),
        None => Err(Stop::Short(N - bytes.len())),
    }
}

/// Refuses a field whose value is not accepted.
pub(crate) fn accept(accepted: bool, field: Field) -> Result<(), Stop>
    ensures { MatchResult result (λ _. accepted ≡ true) (λ e. (accepted ≡ false) × (e ≡ Refused field)) }
{
    if accepted {
        Ok(())
    } else {
        Err(Stop::Refused(field))
    }
}

/// What `u8` says of its values.
pub(crate) fn are_bytes(bytes: &[u8])
    ensures { IsBytes bytes.now }
{
    let _bytes = bytes;
}
