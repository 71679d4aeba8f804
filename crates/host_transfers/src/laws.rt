//! What holds of parts and pieces. Each function does nothing, and its contract is the law.

ghost use Rattle.std.specs.Prelude.{◌≡◌, ℕ, ◌+◌, ◌*◌, ◌<◌, ◌≤◌, nat_le, Bool, true, false, List, [], ◌∷◌, ◌++◌, length, take, drop};
ghost use Rattle.host_transfers.specs.declared.limits.TheConstants.{PART_MAX, REQUEST_MAX};
ghost use Rattle.host_transfers.specs.Answer.{Answers, GoesOn, Refuses};
ghost use Rattle.host_transfers.specs.Assembly.{Read, AreSaid, AreGood, bytes_of, given};
ghost use Rattle.host_transfers.specs.Cut.{AreParts, AreReads};
ghost use Rattle.host_transfers.specs.Part.{IsPart};
ghost use Rattle.host_transfers.specs.Piece.{data_of, eom_of};
ghost use Rattle.host_transfers.specs.Tags.{tag_behind, tag_of};
ghost use Rattle.tmc_base.specs.declared.field.Field.{Field};
ghost use Rattle.tmc_base.specs.declared.limits.TheConstants.{BULK_IN_SUBMIT};
ghost use Rattle.tmc_wire.specs.declared.header.InHeader.{InHeader};
ghost use Rattle.tmc_wire.specs.Transfer.{InText};

/// The limits are the product's.
pub fn limits_are_the_products()
    ensures part { PART_MAX ≡ 1024 }
    ensures request { REQUEST_MAX ≡ 16384 }
    ensures read { BULK_IN_SUBMIT ≡ 4096 }
{}

/// Each message has parts, and no two cuts into parts. They are as few as parts of 1,024 bytes can be. The part of a number,
/// counted from 0, begins behind so many times 1,024 bytes, and it has EOM where the message ends with it.
pub fn messages_are_cut_once()
    ensures some { (message : List ℕ) → 1 ≤ length message → (parts : List (List ℕ)) × AreParts parts message }
    ensures one { (parts others : List (List ℕ)) (message : List ℕ) → AreParts parts message → AreParts others message → parts ≡ others }
    ensures enough { (parts : List (List ℕ)) (message : List ℕ) → AreParts parts message → length message ≤ 1024 * length parts }
    ensures few { (parts : List (List ℕ)) (message : List ℕ) → AreParts parts message → 1024 * length parts < length message + 1024 }
    ensures by_number { (parts : List (List ℕ)) (message : List ℕ) (count : ℕ) → AreParts parts message → PART_MAX * count < length message
        → IsPart parts count (take PART_MAX (drop (PART_MAX * count) message)) (nat_le (length message) (PART_MAX * (count + 1))) }
{}

/// The bytes of a transfer determine the answers to its reads: with T bytes they are T / 4,096 + 1, the last one short.
pub fn transfers_are_read_to_their_end()
    ensures some { (bytes : List ℕ) → (reads : List (List ℕ)) × AreReads reads bytes }
    ensures one { (reads others : List (List ℕ)) (bytes : List ℕ) → AreReads reads bytes → AreReads others bytes → reads ≡ others }
    ensures enough { (reads : List (List ℕ)) (bytes : List ℕ) → AreReads reads bytes → length bytes < 4096 * length reads }
    ensures few { (reads : List (List ℕ)) (bytes : List ℕ) → AreReads reads bytes → 4096 * length reads ≤ length bytes + 4096 }
{}

/// Where the bytes are a whole transfer, what they hold is its message and its EOM.
pub fn a_piece_is_its_transfer()
    ensures data { (header : InHeader) (message bytes : List ℕ) → InText header message bytes → data_of bytes ≡ message }
    ensures eom { (header : InHeader) (message bytes : List ℕ) → InText header message bytes → eom_of bytes ≡ header.eom }
{}

/// Bytes that come later add data behind that which was there, and change none of it.
pub fn a_piece_grows()
    ensures { (bytes more : List ℕ) → (added : List ℕ) × (data_of (bytes ++ more) ≡ data_of bytes ++ added) }
{}

/// Where reads are refused, no transfer that answers the request goes on with their bytes, nor is one that has ended. They
/// are refused at one field.
pub fn refusals_are_exact()
    ensures goes_on { (tag size : ℕ) (bytes : List ℕ) (field : Field) → Refuses tag size bytes false field → GoesOn tag size bytes → ⊥ }
    ensures ended { (tag size : ℕ) (bytes : List ℕ) (field : Field) (header : InHeader) (message : List ℕ) → Refuses tag size bytes true field
        → Answers tag size header message bytes → ⊥ }
    ensures one { (tag size : ℕ) (bytes : List ℕ) (ended : Bool) (a b : Field) → Refuses tag size bytes ended a → Refuses tag size bytes ended b → a ≡ b }
{}

/// The data given of all reads of a transfer, however it was cut, is what its bytes hold.
pub fn reads_give_the_data()
    ensures { (tag size : ℕ) (reads : List Read) → AreSaid tag size [] reads → AreGood reads → given reads ≡ data_of (bytes_of reads) }
{}

/// Tags run 1 to 255 and then again, and none is 0.
pub fn tags_run_round()
    ensures first { tag_behind 0 ≡ tag_of 0 }
    ensures next { (count : ℕ) → tag_behind (tag_of count) ≡ tag_of (count + 1) }
    ensures some { (count : ℕ) → 1 ≤ tag_of count }
    ensures most { (count : ℕ) → tag_of count ≤ 255 }
{}
