ghost use Rattle.std.specs.Prelude.{◌≡◌, ℕ, ◌≤◌, ◌∷◌, List, length};
ghost use Rattle.host_transfers.specs.Part.{transfer};
ghost use Rattle.host_urbs.specs.declared.limits.TheConstants.{LAST_SUBMIT};
ghost use Rattle.host_urbs.specs.Held.{HasPlace, HasRoom, Follows, submit_out, wrote};
ghost use Rattle.host_urbs.specs.Record.{Past, Wrote};
ghost use Rattle.tmc_wire.specs.Header.{IsOutProper};
ghost use Rattle.tmc_wire.specs.Transfer.{OutText, data_size};
ghost use Rattle.usbip_wire.specs.declared.urb.TheConstants.{ENDPOINT_MAX};

use host_urbs::Urbs;
use tmc_wire::{OutHeader, out_bytes};

/// Writes a Bulk-OUT transfer, in one submit on the endpoint `ep`: its header, its data, and zeros up to a multiple of 4.
/// The data is copied once, into the outbox. Gives the number of the submit.
pub fn submit_transfer(urbs: &mut Urbs, ep: u32, header: OutHeader, text: &[u8]) -> u32
    requires last { urbs.old.next ≤ LAST_SUBMIT }
    requires place { HasPlace urbs.old }
    requires endpoint { ep ≤ ENDPOINT_MAX }
    requires proper { IsOutProper header }
    requires counted { length text.now ≡ data_size header }
    requires room { HasRoom urbs.old (transfer header text.now) }
    ensures number { result ≡ urbs.old.next }
    ensures written { urbs.new ≡ wrote (submit_out urbs.old ep (transfer header text.now)) urbs.old }
    ensures text { OutText header text.now (transfer header text.now) }
    ensures recorded { (first : ℕ) (past : Past) (sent : List ℕ) → Follows first past sent urbs.old
        → Follows first (Wrote (submit_out urbs.old ep (transfer header text.now)) ∷ past) sent urbs.new }
{
    let zeros = [0; 3];
    let padding = (4 - text.len() % 4) % 4;
    urbs.submit_pieces(ep, &out_bytes(header), text, &zeros[..padding])
}
