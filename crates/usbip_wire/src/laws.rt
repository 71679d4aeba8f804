//! What holds of the spellings. Each function does nothing, and its contract is the law.

ghost use Rattle.std.specs.Prelude.{◌≡◌, ◌↔◌, ℕ, ◌<◌, ◌≤◌, ◌^◌, true, Some, None, is_some, List, [], ◌∷◌, ◌++◌, length};
ghost use Rattle.tmc_base.specs.declared.field.Field.{Field};
ghost use Rattle.tmc_base.specs.declared.field.Layer.TheVariants as layer;
ghost use Rattle.tmc_base.specs.declared.field.Name.TheVariants as name;
ghost use Rattle.usbip_wire.specs.declared.device.DeviceRecord.{DeviceRecord};
ghost use Rattle.usbip_wire.specs.declared.dirs.Outstanding.{Outstanding};
ghost use Rattle.usbip_wire.specs.declared.down.Down.{Down};
ghost use Rattle.usbip_wire.specs.declared.dirs.TheConstants.{DIRS_MAX};
ghost use Rattle.usbip_wire.specs.declared.device.TheConstants.{DEVICE_RECORD};
ghost use Rattle.usbip_wire.specs.declared.fields.TheConstants.{VERSION, CODE, COMMAND, SEQNUM, DEVID, DIRECTION, ENDPOINT, BUFFER_LENGTH, ACTUAL_LENGTH, PACKETS};
ghost use Rattle.usbip_wire.specs.declared.op.TheConstants.{USBIP_VERSION, REQ_DEVLIST, REP_DEVLIST, REQ_IMPORT, REP_IMPORT};
ghost use Rattle.usbip_wire.specs.declared.ret_submit.RetSubmitHead.{RetSubmitHead};
ghost use Rattle.usbip_wire.specs.declared.ret_unlink.RetUnlinkHead.{RetUnlinkHead};
ghost use Rattle.usbip_wire.specs.declared.urb.TheConstants.{CMD_SUBMIT, CMD_UNLINK, RET_SUBMIT, RET_UNLINK, NOT_ISOCHRONOUS, ENDPOINT_MAX, URB_HEADER, HELD_MAX};
ghost use Rattle.usbip_wire.specs.declared.up.UpPhase.TheVariants as up_phase;
ghost use Rattle.usbip_wire.specs.declared.down.DownPhase.{DownPhase};
ghost use Rattle.usbip_wire.specs.declared.down.DownPhase.TheVariants as down_phase;
ghost use Rattle.usbip_wire.specs.Awaited.{Awaited, Unlink, entries_of, without, left_by, left, SpellsAnswers, ReadsAnswers, entries_left, NameNone};
ghost use Rattle.usbip_wire.specs.DevList.{SpellsPart, list_bytes, list_told};
ghost use Rattle.usbip_wire.specs.Dirs.{find, others, submit_of, is_unlink};
ghost use Rattle.usbip_wire.specs.Down.{Message, RetSubmit, RetUnlink, SpellsAnswer, SpellsAnyAnswer};
ghost use Rattle.usbip_wire.specs.Down as downward;
ghost use Rattle.usbip_wire.specs.DownFed as down_fed;
ghost use Rattle.usbip_wire.specs.DownPieces as down_pieces;
ghost use Rattle.usbip_wire.specs.DownTurns.{IsList, ReadsInTurn, awaited, whats_of};
ghost use Rattle.usbip_wire.specs.Given.{IsBytes};
ghost use Rattle.usbip_wire.specs.JudgedFields.{op_fields, part_fields, urb_fields, answer_fields};
ghost use Rattle.usbip_wire.specs.Laws.{ArePrefixFree, AreDetermined, AreRead, AreReadAgain, RefusedAt, IsFirstRefused, CanGoOn, GoesOn, AreAlone, AreBadFromTheirLast, AreNeither, HaveSpellings};
ghost use Rattle.usbip_wire.specs.OpRequest.{SpellsRequest, IsRequest, request_size};
ghost use Rattle.usbip_wire.specs.Range.{IsSent, sent_bytes, sent_size, IsAnswer, answer_bytes, answer_size, written_request, IsPart, part_bytes, part_size};
ghost use Rattle.usbip_wire.specs.RetSubmit.{Asked};
ghost use Rattle.usbip_wire.specs.Up.{Spells};
ghost use Rattle.usbip_wire.specs.Stream.{Reads};
ghost use Rattle.usbip_wire.specs.UpFed as up_fed;
ghost use Rattle.usbip_wire.specs.UpPieces as up_pieces;
ghost use Rattle.usbip_wire.specs.Urb.{fields, message_max};

/// The numbers of the protocol: the version, the codes of operations and of URBs, what stands in place of the
/// number of packets where a transfer is not isochronous, the highest endpoint, and the bytes of an URB's header and
/// of a device record. Each judged field has its layer, its name and its place. What a reader holds is a message at
/// most. So many submits and unlinks are outstanding at most.
pub fn numbers_are_the_protocols()
    ensures version { USBIP_VERSION ≡ 0x0111 }
    ensures list { (REQ_DEVLIST ≡ 0x8005) × (REP_DEVLIST ≡ 0x0005) }
    ensures import { (REQ_IMPORT ≡ 0x8003) × (REP_IMPORT ≡ 0x0003) }
    ensures submit { (CMD_SUBMIT ≡ 1) × (RET_SUBMIT ≡ 3) }
    ensures unlink { (CMD_UNLINK ≡ 2) × (RET_UNLINK ≡ 4) }
    ensures packets { NOT_ISOCHRONOUS ≡ 0xffffffff }
    ensures endpoint { ENDPOINT_MAX ≡ 15 }
    ensures header { URB_HEADER ≡ 48 }
    ensures device_record { DEVICE_RECORD ≡ 312 }
    ensures outstanding { DIRS_MAX ≡ 16 }
    ensures held { HELD_MAX ≡ message_max }
    ensures version_field { VERSION ≡ record { layer = layer.Op; name = name.Version; offset = 0 } }
    ensures code_field { CODE ≡ record { layer = layer.Op; name = name.Code; offset = 2 } }
    ensures command_field { COMMAND ≡ record { layer = layer.Urb; name = name.Command; offset = 0 } }
    ensures seqnum_field { SEQNUM ≡ record { layer = layer.Urb; name = name.Seqnum; offset = 4 } }
    ensures devid_field { DEVID ≡ record { layer = layer.Urb; name = name.Devid; offset = 8 } }
    ensures direction_field { DIRECTION ≡ record { layer = layer.Urb; name = name.Direction; offset = 12 } }
    ensures endpoint_field { ENDPOINT ≡ record { layer = layer.Urb; name = name.Endpoint; offset = 16 } }
    ensures buffer_length_field { BUFFER_LENGTH ≡ record { layer = layer.Urb; name = name.BufferLength; offset = 24 } }
    ensures actual_length_field { ACTUAL_LENGTH ≡ record { layer = layer.Urb; name = name.ActualLength; offset = 24 } }
    ensures packets_field { PACKETS ≡ record { layer = layer.Urb; name = name.Packets; offset = 32 } }
{}

/// No request of an operation begins another, the bytes determine the requests and the rest, and what was
/// written is read again, whatever follows it.
pub fn requests_are_determined()
    ensures free { ArePrefixFree SpellsRequest }
    ensures determined { AreDetermined SpellsRequest }
    ensures again { AreReadAgain SpellsRequest }
{}

/// The same of the submits and unlinks to one device.
pub fn urbs_are_determined()
    ensures free { (devid : ℕ) → ArePrefixFree (Spells devid) }
    ensures determined { (devid : ℕ) → AreDetermined (Spells devid) }
    ensures again { (devid : ℕ) → AreReadAgain (Spells devid) }
{}

/// The same of the parts of an operation's answer, where so many devices and interfaces are awaited.
pub fn parts_are_determined()
    ensures free { (devices interfaces : ℕ) → ArePrefixFree (SpellsPart devices interfaces) }
    ensures determined { (devices interfaces : ℕ) → AreDetermined (SpellsPart devices interfaces) }
    ensures again { (devices interfaces : ℕ) → AreReadAgain (SpellsPart devices interfaces) }
{}

/// The same of the answers to one list of outstanding messages.
pub fn answers_are_determined()
    ensures free { (entries : List Outstanding) → ArePrefixFree (SpellsAnswer entries) }
    ensures determined { (entries : List Outstanding) → AreDetermined (SpellsAnswer entries) }
    ensures again { (entries : List Outstanding) → AreReadAgain (SpellsAnswer entries) }
{}

/// The parts of an operation's answer one after another, each where what the one before it left is awaited: the bytes
/// determine the parts and the rest, and parts that were written are read again, whatever follows them. So is a whole
/// device list; behind it nothing more of it is awaited. What a reader gave of an operation's answer, in whatever
/// pieces it came, is such a reading.
pub fn device_lists_are_determined()
    ensures determined { (devices interfaces : ℕ) (bytes : List ℕ) (whats others : List Down) (rest other : List ℕ)
        → ReadsInTurn (down_phase.Ops devices interfaces) bytes whats rest → ReadsInTurn (down_phase.Ops devices interfaces) bytes others other
        → (whats ≡ others) × (rest ≡ other) }
    ensures again { (devices interfaces : ℕ) (whats : List Down) (front tail : List ℕ) (all : List Down) (rest : List ℕ)
        → down_fed.SpellsParts (down_phase.Ops devices interfaces) whats front → ReadsInTurn (down_phase.Ops devices interfaces) (front ++ tail) all rest
        → (others : List Down) × (all ≡ whats ++ others) × ReadsInTurn (awaited (down_phase.Ops devices interfaces) whats) tail others rest }
    ensures list { (status : ℕ) (devices : List DeviceRecord) (interfaces : List (List ℕ)) (tail : List ℕ) (others : List Down) (rest : List ℕ)
        → IsList status devices interfaces → ReadsInTurn (down_phase.Ops 0 0) tail others rest
        → ReadsInTurn (down_phase.Ops 0 0) (list_bytes status devices interfaces ++ tail) (list_told status devices interfaces ++ others) rest }
    ensures list_again { (status : ℕ) (devices : List DeviceRecord) (interfaces : List (List ℕ)) (tail : List ℕ) (all : List Down) (rest : List ℕ)
        → IsList status devices interfaces → ReadsInTurn (down_phase.Ops 0 0) (list_bytes status devices interfaces ++ tail) all rest
        → (others : List Down) × (all ≡ list_told status devices interfaces ++ others) × ReadsInTurn (down_phase.Ops 0 0) tail others rest }
    ensures given { (devices interfaces : ℕ) (calls : List down_pieces.Call) (end : down_fed.Held)
        → down_pieces.Calls (down_pieces.begun (down_phase.Ops devices interfaces)) calls end → end.bad ≡ None
        → ReadsInTurn (down_phase.Ops devices interfaces) (down_pieces.used_bytes calls) (whats_of (down_pieces.given calls)) (down_fed.kept end) }
{}

/// Each list of bytes has a reading: it is requests in a row, or submits and unlinks to one device, and then a rest
/// in which no message is whole.
pub fn streams_are_read()
    ensures requests { AreRead SpellsRequest }
    ensures urbs { (devid : ℕ) → AreRead (Spells devid) }
{}

/// A bad field stands whole at its offset, and no spelling that begins with the bytes before it has its
/// value there.
pub fn bad_fields_are_refused()
    ensures request { (rest : List ℕ) (f : Field) → up_fed.BadAt up_phase.Ops rest f → RefusedAt SpellsRequest rest f }
    ensures urb { (devid : ℕ) (rest : List ℕ) (f : Field) → up_fed.BadAt (up_phase.Urbs devid) rest f → RefusedAt (Spells devid) rest f }
    ensures part { (devices interfaces : ℕ) (entries : List Outstanding) (rest : List ℕ) (f : Field)
        → down_fed.BadAt (down_phase.Ops devices interfaces) entries rest f → RefusedAt (SpellsPart devices interfaces) rest f }
    ensures answer { (entries : List Outstanding) (rest : List ℕ) (f : Field)
        → down_fed.BadAt down_phase.Urbs entries rest f → RefusedAt (SpellsAnswer entries) rest f }
{}

/// Bytes that hold no whole message and no bad field go on to a message. A field is judged once it is whole, so
/// where the bytes end within a judged field, those before that field go on. What comes are bytes, each below 256; a
/// devid has four bytes, and no spelling has another. An answer goes on from its first eight bytes, its command and
/// its number, since these name its entry. Each entry has an answer to go on to, and until the eight bytes have come
/// nothing is missing but an entry.
pub fn good_bytes_go_on()
    ensures request { (rest : List ℕ) → IsBytes rest → up_fed.NoneWhole up_phase.Ops rest → ((f : Field) → up_fed.BadAt up_phase.Ops rest f → ⊥)
        → GoesOn SpellsRequest op_fields rest }
    ensures urb { (devid : ℕ) (rest : List ℕ) → devid < 2 ^ 32 → IsBytes rest → up_fed.NoneWhole (up_phase.Urbs devid) rest
        → ((f : Field) → up_fed.BadAt (up_phase.Urbs devid) rest f → ⊥) → GoesOn (Spells devid) urb_fields rest }
    ensures part { (devices interfaces : ℕ) (entries : List Outstanding) (rest : List ℕ) → IsBytes rest
        → down_fed.NoneWhole (down_phase.Ops devices interfaces) entries rest → ((f : Field) → down_fed.BadAt (down_phase.Ops devices interfaces) entries rest f → ⊥)
        → GoesOn (SpellsPart devices interfaces) (part_fields devices interfaces) rest }
    ensures answer { (entries : List Outstanding) (rest : List ℕ) → 8 ≤ length rest → IsBytes rest → down_fed.NoneWhole down_phase.Urbs entries rest
        → ((f : Field) → down_fed.BadAt down_phase.Urbs entries rest f → ⊥) → GoesOn (SpellsAnswer entries) answer_fields rest }
    ensures submit { (entries : List Outstanding) (seqnum : ℕ) → seqnum < 2 ^ 32 → is_some (submit_of (find seqnum entries)) ≡ true
        → CanGoOn (SpellsAnswer entries) (fields (RET_SUBMIT ∷ seqnum ∷ [])) }
    ensures unlink { (entries : List Outstanding) (seqnum : ℕ) → seqnum < 2 ^ 32 → is_unlink (find seqnum entries) ≡ true
        → CanGoOn (SpellsAnswer entries) (fields (RET_UNLINK ∷ seqnum ∷ [])) }
    ensures begun { (entries : List Outstanding) (rest : List ℕ) → length rest < 8 → IsBytes rest → ((f : Field) → down_fed.BadAt down_phase.Urbs entries rest f → ⊥)
        → (entry : Outstanding) × GoesOn (SpellsAnswer (entry ∷ entries)) (COMMAND ∷ []) rest }
{}

/// The bad field is the first refused one: of the judged fields that the bytes hold whole, the first with a value
/// that no spelling has behind the bytes before it. What comes are bytes, each below 256; a devid has four bytes,
/// and no spelling has another. The command of an answer is bad where no answer has it, whatever is outstanding.
/// Where it is not, the fields behind it are judged by the entries.
pub fn bad_is_the_first_refused()
    ensures request { (rest : List ℕ) (f : Field) → IsBytes rest → (up_fed.BadAt up_phase.Ops rest f ↔ IsFirstRefused SpellsRequest op_fields rest f) }
    ensures urb { (devid : ℕ) (rest : List ℕ) (f : Field) → devid < 2 ^ 32 → IsBytes rest
        → (up_fed.BadAt (up_phase.Urbs devid) rest f ↔ IsFirstRefused (Spells devid) urb_fields rest f) }
    ensures part { (devices interfaces : ℕ) (entries : List Outstanding) (rest : List ℕ) (f : Field) → IsBytes rest
        → (down_fed.BadAt (down_phase.Ops devices interfaces) entries rest f ↔ IsFirstRefused (SpellsPart devices interfaces) (part_fields devices interfaces) rest f) }
    ensures command { (entries : List Outstanding) (rest : List ℕ) → IsBytes rest
        → (down_fed.BadAt down_phase.Urbs entries rest COMMAND ↔ RefusedAt SpellsAnyAnswer rest COMMAND) }
    ensures answer { (entries : List Outstanding) (rest : List ℕ) (f : Field) → IsBytes rest → (down_fed.BadAt down_phase.Urbs entries rest COMMAND → ⊥)
        → (down_fed.BadAt down_phase.Urbs entries rest f ↔ IsFirstRefused (SpellsAnswer entries) answer_fields rest f) }
{}

/// Bytes with a bad field begin with no message, and have no other first bad field.
pub fn bad_fields_are_alone()
    ensures request { AreAlone SpellsRequest (up_fed.BadAt up_phase.Ops) }
    ensures urb { (devid : ℕ) → AreAlone (Spells devid) (up_fed.BadAt (up_phase.Urbs devid)) }
    ensures part { (devices interfaces : ℕ) (entries : List Outstanding)
        → AreAlone (SpellsPart devices interfaces) (down_fed.BadAt (down_phase.Ops devices interfaces) entries) }
    ensures answer { (entries : List Outstanding) → AreAlone (SpellsAnswer entries) (down_fed.BadAt down_phase.Urbs entries) }
{}

/// Pieces are one stream: whatever pieces a client's bytes were fed in, the messages that a reader gave, with
/// their data, are those of the bytes used, in their order, and what it keeps is the rest behind them. No message is
/// whole in that rest, also where a field was refused.
pub fn client_pieces_are_one_stream()
    ensures ops { (calls : List up_pieces.Call) (end : up_fed.Held) → up_pieces.Calls (up_pieces.begun up_phase.Ops) calls end
        → Reads SpellsRequest (up_pieces.used_bytes calls) (up_pieces.given up_pieces.request_in calls) (up_fed.kept end) }
    ensures urbs { (devid : ℕ) (calls : List up_pieces.Call) (end : up_fed.Held) → up_pieces.Calls (up_pieces.begun (up_phase.Urbs devid)) calls end
        → Reads (Spells devid) (up_pieces.used_bytes calls) (up_pieces.given up_pieces.message_in calls) (up_fed.kept end) }
{}

/// A device's bytes are one stream too, where the entry of an answer stands while a part of the answer is held: each
/// message is one of the phase that the one before it led to, by what was outstanding at its call. Until a field is
/// refused no message is whole in the rest, by what was outstanding at the last call.
pub fn device_pieces_are_one_stream()
    ensures row { (phase : DownPhase) (calls : List down_pieces.Call) (end : down_fed.Held) → down_pieces.Calls (down_pieces.begun phase) calls end
        → down_pieces.InTurn phase (down_pieces.given calls) (down_pieces.used_bytes calls) (down_fed.kept end) }
    ensures none_whole { (phase : DownPhase) (entries : List Outstanding) (calls : List down_pieces.Call) (end : down_fed.Held)
        → down_pieces.Calls (down_pieces.begun phase) calls end → end.bad ≡ None
        → down_fed.NoneWhole end.phase (down_pieces.last_entries entries calls) (down_fed.kept end) }
{}

/// A field is bad from its last byte on, whatever follows it, and not before.
pub fn bad_fields_stay()
    ensures request { AreBadFromTheirLast (up_fed.BadAt up_phase.Ops) }
    ensures urb { (devid : ℕ) → AreBadFromTheirLast (up_fed.BadAt (up_phase.Urbs devid)) }
    ensures part { (devices interfaces : ℕ) (entries : List Outstanding) → AreBadFromTheirLast (down_fed.BadAt (down_phase.Ops devices interfaces) entries) }
    ensures answer { (entries : List Outstanding) → AreBadFromTheirLast (down_fed.BadAt down_phase.Urbs entries) }
{}

/// Each message in range has a spelling, the one that this product writes; each that has one is in range; and all its
/// spellings have as many bytes.
pub fn messages_have_spellings()
    ensures request { HaveSpellings IsRequest written_request request_size SpellsRequest }
    ensures urb { (devid : ℕ) → HaveSpellings (IsSent devid) sent_bytes sent_size (Spells devid) }
    ensures part { (devices interfaces : ℕ) → HaveSpellings (IsPart devices interfaces) part_bytes part_size (SpellsPart devices interfaces) }
    ensures answer { (asked : Asked) → HaveSpellings (IsAnswer asked) answer_bytes answer_size (downward.Spells asked) }
{}

/// Entries that are added behind the others, also while a part of an answer is held, make no message whole in that part
/// and no field bad; and what was an answer is one still.
pub fn entries_may_be_added()
    ensures neither { (entries more : List Outstanding) (rest : List ℕ) → AreNeither (SpellsAnswer entries) (down_fed.BadAt down_phase.Urbs entries) rest
        → AreNeither (SpellsAnswer (entries ++ more)) (down_fed.BadAt down_phase.Urbs (entries ++ more)) rest }
    ensures answer { (entries more : List Outstanding) (message : Message) (bytes : List ℕ)
        → SpellsAnswer entries message bytes → SpellsAnswer (entries ++ more) message bytes }
{}

/// Answers in a row, each to what the one before it left outstanding. The bytes determine the answers and the rest.
/// Answers that were written are read again, whatever follows them, and go before each reading of what follows. Where
/// the bytes of some begin those of others, so do the answers. Each list of bytes has a reading.
pub fn answers_are_read_in_turn()
    ensures determined { (awaited : List Awaited) (bytes : List ℕ) (messages others : List Message) (rest other : List ℕ)
        → ReadsAnswers awaited bytes messages rest → ReadsAnswers awaited bytes others other → (messages ≡ others) × (rest ≡ other) }
    ensures again { (awaited : List Awaited) (messages : List Message) (front tail : List ℕ) (all : List Message) (rest : List ℕ)
        → SpellsAnswers awaited messages front → ReadsAnswers awaited (front ++ tail) all rest
        → (others : List Message) × (all ≡ messages ++ others) × ReadsAnswers (left awaited messages) tail others rest }
    ensures before { (awaited : List Awaited) (messages : List Message) (front tail : List ℕ) (others : List Message) (rest : List ℕ)
        → SpellsAnswers awaited messages front → ReadsAnswers (left awaited messages) tail others rest
        → ReadsAnswers awaited (front ++ tail) (messages ++ others) rest }
    ensures begins { (awaited : List Awaited) (messages others : List Message) (front tail : List ℕ)
        → SpellsAnswers awaited messages front → SpellsAnswers awaited others (front ++ tail)
        → (more : List Message) × (others ≡ messages ++ more) × SpellsAnswers (left awaited messages) more tail }
    ensures read { (awaited : List Awaited) (bytes : List ℕ) → IsBytes bytes
        → (messages : List Message) × (rest : List ℕ) × ReadsAnswers awaited bytes messages rest }
{}

/// What an answer leaves outstanding: one to a submit all of other numbers; one to an unlink, of what was sent before the
/// unlink, all but the submit that it named, and of what was sent later all of other numbers. Where no target is known,
/// all of other numbers stay. What is sent is added behind.
pub fn answers_take_out()
    ensures submit { (awaited : List Awaited) (head : RetSubmitHead) (transferred : List ℕ)
        → entries_of (left_by awaited (RetSubmit head transferred)) ≡ others head.seqnum (entries_of awaited) }
    ensures unlink { (old later : List Awaited) (head : RetUnlinkHead) (target : ℕ) → find head.seqnum (entries_of old) ≡ None
        → left_by (old ++ Unlink head.seqnum (Some target) ∷ later) (RetUnlink head) ≡ without target old ++ without head.seqnum later }
    ensures unnamed { (awaited : List Awaited) (message : Message) → NameNone awaited
        → entries_of (left_by awaited message) ≡ entries_left (entries_of awaited) message }
    ensures added { (awaited more : List Awaited) → entries_of (awaited ++ more) ≡ entries_of awaited ++ entries_of more }
{}
