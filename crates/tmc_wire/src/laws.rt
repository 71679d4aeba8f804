ghost use Rattle.std.specs.Prelude.{◌≡◌, ℕ, ◌+◌, ◌-◌, ◌<◌, ◌^◌, List, ◌++◌, length, take};
ghost use Rattle.usb_setup.specs.declared.setup.Setup.{Setup};
ghost use Rattle.usb_setup.specs.declared.ends.Ends.{Ends};
ghost use Rattle.tmc_wire.specs.declared.usbtmc.TheConstants.{BULK_HEADER};
ghost use Rattle.tmc_wire.specs.declared.header.OutHeader.{OutHeader};
ghost use Rattle.tmc_wire.specs.declared.header.InHeader.{InHeader};
ghost use Rattle.tmc_wire.specs.declared.class_request.ClassRequest.{ClassRequest};
ghost use Rattle.tmc_wire.specs.Standard.{header_size};
ghost use Rattle.tmc_wire.specs.Header.{IsOutHeader, IsInHeader, IsOutProper, IsInProper, OutFits, InFits, out_header_bytes, in_header_bytes, prefix, sized};
ghost use Rattle.tmc_wire.specs.HeaderFault.{MsgID, bTag, bTagInverse, TransferSize};
ghost use Rattle.tmc_wire.specs.Transfer.{OutText, InText, data_size, alignment_of};
ghost use Rattle.tmc_wire.specs.ControlTable.{row, TagFits, IsRow};
ghost use Rattle.tmc_wire.specs.ClassAnswer.{answer_length};

/// The laws of bulk headers. A header has [`BULK_HEADER`](crate::BULK_HEADER) bytes, which are 12 and no other
/// header's, and it is read whatever follows them. The bytes that are written of a header are that header. So
/// `read_out(&out_bytes(header))` is `Ok(header)`, and likewise for `read_in` and `in_bytes`.
pub fn headers_are_read_again()
    ensures size { BULK_HEADER ≡ header_size }
    ensures out_size { (header : OutHeader) (bytes : List ℕ) →
        IsOutHeader header bytes → length bytes ≡ header_size }
    ensures out_one { (a b : OutHeader) (bytes : List ℕ) →
        IsOutHeader a bytes → IsOutHeader b bytes → a ≡ b }
    ensures out_front { (header : OutHeader) (bytes more : List ℕ) →
        IsOutHeader header bytes → IsOutHeader header (take header_size (bytes ++ more)) }
    ensures out_written { (header : OutHeader) →
        IsOutProper header → OutFits header → IsOutHeader header (out_header_bytes header) }
    ensures in_size { (header : InHeader) (bytes : List ℕ) →
        IsInHeader header bytes → length bytes ≡ header_size }
    ensures in_one { (a b : InHeader) (bytes : List ℕ) →
        IsInHeader a bytes → IsInHeader b bytes → a ≡ b }
    ensures in_front { (header : InHeader) (bytes more : List ℕ) →
        IsInHeader header bytes → IsInHeader header (take header_size (bytes ++ more)) }
    ensures in_written { (header : InHeader) →
        IsInProper header → InFits header → IsInHeader header (in_header_bytes header) }
{}

/// The law that a reader's fields, each at its offset, are those of the layout that headers are written by,
/// whatever follows them.
pub fn header_offsets_are_laid_out()
    ensures msg_id { (msg_id tag reserved : ℕ) (more : List ℕ) →
        MsgID (prefix msg_id tag reserved ++ more) ≡ msg_id }
    ensures tag { (msg_id tag reserved : ℕ) (more : List ℕ) →
        bTag (prefix msg_id tag reserved ++ more) ≡ tag }
    ensures inverse { (msg_id tag reserved : ℕ) (more : List ℕ) →
        bTagInverse (prefix msg_id tag reserved ++ more) ≡ 255 - tag }
    ensures size { (msg_id tag reserved size attributes ninth tenth eleventh : ℕ) (more : List ℕ) →
        size < 2 ^ 32 → TransferSize
        (prefix msg_id tag reserved ++ sized size attributes ninth tenth eleventh ++ more) ≡ size }
{}

/// The laws of bulk transfers. A header, its data and its alignment are a transfer, whatever the alignment bytes hold,
/// and a transfer has one header and one data. The length of a Bulk-OUT transfer is that of its header, its data and
/// the alignment up to a multiple of 4; behind the data of a Bulk-IN transfer there may be fewer bytes.
pub fn transfers_are_read_again()
    ensures out_made { (header : OutHeader) (head message alignment : List ℕ) →
        IsOutHeader header head → length message ≡ data_size header →
        length alignment ≡ length (alignment_of (data_size header)) → OutText header message (head ++ (message ++ alignment)) }
    ensures out_one { (a b : OutHeader) (message other bytes : List ℕ) →
        OutText a message bytes → OutText b other bytes → (a ≡ b) × (message ≡ other) }
    ensures out_size { (header : OutHeader) (message bytes : List ℕ) → OutText header message bytes →
        length bytes ≡ header_size + (data_size header + length (alignment_of (data_size header))) }
    ensures in_made { (header : InHeader) (head message alignment : List ℕ) →
        IsInHeader header head → length message ≡ header.size → length alignment < 4 →
        InText header message (head ++ (message ++ alignment)) }
    ensures in_one { (a b : InHeader) (message other bytes : List ℕ) →
        InText a message bytes → InText b other bytes → (a ≡ b) × (message ≡ other) }
{}

/// The laws of the table of class requests, for any ends. A request's row is that request and no other, so
/// `read_class(&class_setup(request, &ends), &ends)` is `Some(request)`, and a setup is the row of at most one
/// request. wLength of a row is the length of the answer's layout in bytes.
pub fn requests_are_read_again()
    ensures own { (ends : Ends) (request : ClassRequest) →
        TagFits request → IsRow ends request (row ends request) }
    ensures one { (ends : Ends) (a b : ClassRequest) →
        TagFits a → IsRow ends b (row ends a) → a ≡ b }
    ensures one_row { (ends : Ends) (setup : Setup) (a b : ClassRequest) →
        IsRow ends a setup → IsRow ends b setup → a ≡ b }
    ensures length { (ends : Ends) (request : ClassRequest) →
        (row ends request).length ≡ answer_length request }
{}
