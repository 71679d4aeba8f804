ghost use Rattle.std.specs.Prelude.{◌≡◌, ℕ, ◌+◌, ◌*◌, ◌<◌, List, length, take, drop, nat_le};
ghost use Rattle.host_transfers.specs.declared.limits.TheConstants.{PART_MAX};
ghost use Rattle.host_transfers.specs.Cut.{AreParts};
ghost use Rattle.host_transfers.specs.Part.{IsPart};

use crate::limits::PART_MAX;

/// A part of a message: the data of one transfer, which has EOM where it is the last one.
#[derive(Clone, Copy, Debug)]
pub struct Part<'a> {
    pub text: &'a [u8],
    pub eom: bool,
}

/// The part of this number, counted from 0, of a message that has it. All parts have 1,024 bytes but the last one, which
/// has at least one. It copies nothing.
pub fn part_of(message: &[u8], count: usize) -> Part<'_>
    requires { PART_MAX * count < length message.now }
    ensures text { result.text.now ≡ take PART_MAX (drop (PART_MAX * count) message.now) }
    ensures eom { result.eom ≡ nat_le (length message.now) (PART_MAX * (count + 1)) }
    ensures some { 0 < length result.text.now }
    ensures part { (parts : List (List ℕ)) → AreParts parts message.now → IsPart parts count result.text.now result.eom }
{
    let rest = &message[PART_MAX as usize * count..];
    Part {
        text: &rest[..rest.len().min(PART_MAX as usize)],
        eom: rest.len() <= PART_MAX as usize,
    }
}
