//! What the record says of the transfers of a ticket is what `host_transfers` says of them. Each function does nothing, and its
//! contract is the law.

ghost use Rattle.std.specs.Prelude.{◌≡◌, ℕ, ◌+◌, ◌*◌, ◌<◌, ◌++◌, Bool, List, None, length, nat_lt};
ghost use Rattle.host_hub.specs.Faults.{first_fault, refused_by, transfer_faults};
ghost use Rattle.host_hub.specs.Order.{Part};
ghost use Rattle.host_hub.specs.Pieces.{Piece, extended};
ghost use Rattle.host_hub.specs.Plan.{part_of};
ghost use Rattle.host_transfers.specs.Assembly.{IsGood, Says, given_by};
ghost use Rattle.host_transfers.specs.Cut.{AreParts};
ghost use Rattle.host_transfers.specs.Part.{IsPart};
ghost use Rattle.host_transfers.specs.Piece.{data_of, eom_of};
ghost use Rattle.host_transfers.specs.declared.limits.TheConstants.{PART_MAX};
ghost use Rattle.host_transfers.specs.declared.piece.Piece as assembly;
ghost use Rattle.host_transfers.specs.declared.piece.Piece.TheVariants.{Ended};
ghost use Rattle.tmc_base.specs.declared.limits.TheConstants.{BULK_IN_SUBMIT};
ghost use Rattle.usbip_wire.specs.declared.ret_submit.RetSubmitHead.{RetSubmitHead};

use host_transfers::{a_piece_is_its_transfer, messages_are_cut_once};
use tmc_wire::{header_offsets_are_laid_out, headers_are_read_again};

/// A read of a piece that goes on is refused at the field at which its assembly refuses it, and at none where that takes it.
/// What the piece then holds is longer by the data that the assembly gives, and it has EOM where the assembly says so.
pub fn pieces_are_assembled()
    ensures refused { (piece : Piece) (head : RetSubmitHead) (bytes : List ℕ) (said : assembly.Piece) → piece.over ≡ None → length bytes ≡ head.actual
        → Says piece.tag piece.size piece.bytes bytes (nat_lt head.actual BULK_IN_SUBMIT) said
        → first_fault (transfer_faults (extended head bytes piece)) ≡ refused_by said }
    ensures data { (piece : Piece) (head : RetSubmitHead) (bytes : List ℕ) (said : assembly.Piece) → IsGood said
        → Says piece.tag piece.size piece.bytes bytes (nat_lt head.actual BULK_IN_SUBMIT) said
        → data_of (extended head bytes piece).bytes ≡ data_of piece.bytes ++ given_by said bytes }
    ensures eom { (piece : Piece) (head : RetSubmitHead) (bytes : List ℕ) (from to : ℕ) (eom : Bool)
        → Says piece.tag piece.size piece.bytes bytes (nat_lt head.actual BULK_IN_SUBMIT) (Ended from to eom)
        → eom_of (extended head bytes piece).bytes ≡ eom }
{
    a_piece_is_its_transfer();
    header_offsets_are_laid_out();
    headers_are_read_again();
}

/// The transfers that a ticket plans for its message are the parts that the message is cut into, in their order; the last
/// one has EOM.
pub fn messages_are_planned_in_parts()
    ensures { (message : List ℕ) (parts : List (List ℕ)) (tag count : ℕ) → AreParts parts message → PART_MAX * count < length message
        → (text : List ℕ) × (eom : Bool) × (part_of tag count message ≡ Part tag text eom) × IsPart parts count text eom }
{
    messages_are_cut_once();
}
