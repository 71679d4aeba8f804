//! Worked runs: sessions that the law allows, and steps that it refuses. Each function does nothing, and its contract
//! says that the run is lawful.

ghost use Rattle.std.specs.Prelude.{◌≡◌, ◌≢◌, ℕ, ◌<◌, ◌≤◌, Bool, true, false, List, [], ◌∷◌, ◌++◌, length, map, replicate, Some, None};
ghost use Rattle.std.specs.List.{range_with_len};
ghost use Rattle.tmc_base.specs.declared.field.Field.{Field};
ghost use Rattle.usbip_wire.specs.declared.submit.SubmitHead.{SubmitHead};
ghost use Rattle.usbip_wire.specs.Up as up;
ghost use Rattle.usbip_wire.specs.Stream.{InRow};
ghost use Rattle.instr_plain.specs.Standing.{power_on, at_power_on};
ghost use Rattle.tmc_law.specs.Endpoint.{Endpoint, BulkOut, number_of};
ghost use Rattle.tmc_law.specs.State.{State, Pending, Waiting, Piece, start, arrived, pending, Avoids, is_halted, Plugged, Unplugged, Closed, Idle, Owed, Sending, Nothing, AbortsOut, AbortsIn, StatusPacket};
ghost use Rattle.tmc_law.specs.Logging.{unread};
ghost use Rattle.tmc_law.specs.Halts.{halts, halt_answers};
ghost use Rattle.tmc_law.specs.BulkIn.{NoPacketWanted};
ghost use Rattle.tmc_law.specs.Put.{Put, answer_of, ended, success, stalled};
ghost use Rattle.tmc_law.specs.Queues.{pending_most};
ghost use Rattle.tmc_law.specs.Step.{Move, Comes, Refuses, Take, Begin, Fill, Pend, Poll, Steps};
ghost use Rattle.tmc_law.specs.Run.{Runs, TakesAll, Fits, outputs, SpellsPut};
ghost use Rattle.tmc_law.specs.WorkedQuery.{asking, answering, query_log, query_down, identity};
ghost use Rattle.tmc_law.specs.WorkedRead.{reading, read_log};
ghost use Rattle.tmc_law.specs.WorkedUnlink.{unlinking, unlinking_out};
ghost use Rattle.tmc_law.specs.WorkedTold.{told_query, told_at_once};
ghost use Rattle.tmc_law.specs.Told.{Tells};
ghost use Rattle.tmc_law.specs.WorkedClear.{clearing, clear_log};
ghost use Rattle.tmc_law.specs.WorkedAbortIn.{aborting_in, checking_in};
ghost use Rattle.tmc_law.specs.WorkedAbortOut.{aborting_out};
ghost use Rattle.tmc_law.specs.WorkedHalt.{halting};
ghost use Rattle.tmc_law.specs.WorkedStatus.{status_asked, answer_first, packet_first, unlink_behind_poll, no_room, statuses, status_log};
ghost use Rattle.tmc_law.specs.WorkedOverflow.{overflowing};
ghost use Rattle.tmc_law.specs.WorkedUnsuited.{sending_nothing, sending_inside, triggering_inside, sending_while_owed, sending_too_much};
ghost use Rattle.tmc_law.specs.WorkedRemote.{operating, remote_log, locking, locked_log, releasing, released_log};
ghost use Rattle.tmc_law.specs.WorkedChecks.{checking, check_log};
ghost use Rattle.instr_plain.specs.declared.remote.RemoteState.TheVariants.{Remote, LocalLockout};
ghost use Rattle.tmc_law.specs.WorkedControl.{asking_control, asking_part};
ghost use Rattle.tmc_law.specs.WorkedStandard.{asking_device, asking_interface, asking_configuration, asking_languages, asking_maker, asking_product, asking_configured, asking_alternate, asking_endpoint, setting_configuration, setting_interface, clearing_interrupt};
ghost use Rattle.tmc_law.specs.WorkedUnknown.{stalling, string_submit, configure_submit, select_submit, pulse_submit};
ghost use Rattle.tmc_law.specs.WorkedDeclined.{declining};
ghost use Rattle.tmc_law.specs.WorkedDeclinedIn.{declining_in};
ghost use Rattle.tmc_law.specs.WorkedRefused.{number_field, command_field, pending_field, coming_twice, coming_wrong, coming_many, one_came};
ghost use Rattle.tmc_law.specs.WorkedBehind.{coming_behind, closed_behind, behind_up, told_behind, told_in_parts, fine_up};
ghost use Rattle.tmc_law.specs.WorkedArriving.{other_submit, coming_to_no_endpoint, coming_for_another};
ghost use Rattle.tmc_law.specs.WorkedSession.{devid, in_submit};
ghost use Rattle.tmc_law.specs.WorkedService.{requesting, service_log};
ghost use Rattle.tmc_law.specs.WorkedInterrupt.{interrupting, interrupt_log};
ghost use Rattle.tmc_law.specs.WorkedUnplug.{unplugging};
ghost use Rattle.tmc_law.specs.WorkedParts.{sending_parts, parts_log};
ghost use Rattle.tmc_law.specs.WorkedBare.{requesting_nothing, bare_log};
ghost use Rattle.tmc_law.specs.WorkedTrigger.{triggering, trigger_log};
ghost use Rattle.tmc_law.specs.WorkedSpoiled.{sending_unknown, sending_long, sending_short, sending_rest};

use usbip_wire::urbs_are_determined;

/// The query `*IDN?`, from its arrival to the last packet of its response, and the bytes of the answers.
pub fn a_query_is_answered()
    ensures runs { Runs start (asking ++ answering) (record start { log = query_log }) }
    ensures spelled { InRow SpellsPut (outputs (asking ++ answering)) query_down [] }
{}

/// The same as bytes, step by step, and in two calls of which one is three moves and the other is five.
pub fn a_query_is_told()
    ensures stepwise { Tells devid start told_query (record start { log = query_log }) }
    ensures at_once { Tells devid start told_at_once (record start { log = query_log }) }
{}

/// An unlink hits a Bulk-IN submit with a packet in it, and a second one misses. The packet is lost, and the next
/// submit has the rest of the response.
pub fn an_unlink_loses_packets()
    ensures { Runs start (reading ++ unlinking) (record start { log = read_log }) }
{}

/// An unlink of a Bulk-OUT submit keeps the packets that were taken: the next submit has the rest of the transfer.
pub fn an_unlink_keeps_taken_packets()
    ensures { Runs start unlinking_out (record start { part = replicate 100 32 }) }
{}

/// A message in two submits is aborted between them, checked, and Bulk-OUT made usable again. Nothing is left of it.
pub fn a_split_message_is_aborted()
    ensures { Runs start aborting_out start }
{}

/// A clear ends a Bulk-IN submit with the packet that it had, and halts Bulk-OUT.
pub fn a_response_is_cleared()
    ensures { Runs start (reading ++ clearing) (record start { log = clear_log }) }
{}

/// An abort of Bulk-IN ends the submit with a packet of length 0.
pub fn a_response_is_aborted()
    ensures { Runs start (reading ++ aborting_in) (record start { log = read_log }) }
{}

/// A halt of Bulk-IN ends the submit with the packet that it had, and drops the rest of the response.
pub fn a_halt_drops_a_response()
    ensures { Runs start (reading ++ halting) (record start { log = read_log }) }
{}

/// The status byte comes in a packet, behind the answer to its request or before it.
pub fn a_status_comes_before_or_behind()
    ensures behind { Runs start (status_asked ++ answer_first) (record start { log = status_log }) }
    ensures before { Runs start (status_asked ++ packet_first) (record start { log = status_log }) }
{}

/// A response that was made available requests service, and a poll takes the request back.
pub fn a_response_requests_service()
    ensures { Runs start requesting (record start {
      log = service_log;
      standing = record { state = record power_on { sre = 16 }; unread = identity; rqs = false };
    }) }
{}

/// A message drops the unread response of the one before it, and sets QYE beside PON.
pub fn a_message_interrupts_a_response()
    ensures { Runs start interrupting (record start {
      log = interrupt_log;
      standing = record at_power_on { state = record power_on { esr = 132 }; unread = identity };
    }) }
{}

/// Unplugging answers the submits of all endpoints.
pub fn unplugging_answers_all()
    ensures { Runs start unplugging (record start { presence = Unplugged }) }
{}

/// A message in two transfers, of which the first takes two packets.
pub fn a_message_comes_in_parts()
    ensures { Runs start sending_parts (record start {
      log = parts_log;
      standing = record at_power_on { unread = identity };
    }) }
{}

/// A request where there is no response sets QYE beside PON, and stays until it is aborted.
pub fn a_bare_request_is_aborted()
    ensures { Runs start requesting_nothing (record start {
      log = bare_log;
      standing = record at_power_on { state = record power_on { esr = 132 } };
    }) }
{}

/// A trigger is counted.
pub fn a_trigger_is_counted()
    ensures { Runs start triggering (record start {
      log = trigger_log;
      standing = record at_power_on { state = record power_on { acquisitions = 1 } };
    }) }
{}

/// A header that is none, or a submit that is too long for its transfer or ends inside it with a short packet, halts
/// Bulk-OUT until its halt is cleared.
pub fn spoiled_submits_halt()
    ensures header { Runs start sending_unknown start }
    ensures size { Runs start sending_long start }
    ensures short { Runs start sending_short start }
    ensures rest { Runs start sending_rest (record start {
      halted = record { bulk_out = true; bulk_in = false; interrupt_in = false };
    }) }
{}

/// A packet that fills its submit ends it, and one that does not fit halts Bulk-IN.
pub fn a_response_overflows()
    ensures { Runs start overflowing (record start {
      halted = record { bulk_out = false; bulk_in = true; interrupt_in = false };
      log = read_log;
    }) }
{}

/// A status request that was polled is answered before an unlink of it, which misses.
pub fn a_polled_request_is_answered()
    ensures { Runs start (status_asked ++ unlink_behind_poll) (record start { log = status_log }) }
{}

/// A packet that does not fit halts Interrupt-IN, and stays queued.
pub fn a_packet_without_room_stays()
    ensures { Runs start no_room (record start {
      halted = record { bulk_out = false; bulk_in = false; interrupt_in = true };
      packets = StatusPacket 5 0 ∷ [];
      log = status_log;
    }) }
{}

/// A descriptor is sent in part where less is wanted, and so are the capabilities. An unknown request stalls.
pub fn control_requests_are_answered()
    ensures standard { Runs start asking_control start }
    ensures class { Runs start asking_part start }
{}

/// Status, descriptors and settings are told. A string is sent whole where more is wanted, and in part where less is.
pub fn standard_requests_are_answered()
    ensures device { Runs start asking_device start }
    ensures interface { Runs start asking_interface start }
    ensures control { Runs start (asking_endpoint 0x00) start }
    ensures bulk_out { Runs start (asking_endpoint 0x01) start }
    ensures interrupt_in { Runs start (asking_endpoint 0x83) start }
    ensures configuration { Runs start asking_configuration start }
    ensures languages { Runs start asking_languages start }
    ensures maker { Runs start asking_maker start }
    ensures product { Runs start asking_product start }
    ensures configured { Runs start asking_configured start }
    ensures alternate { Runs start asking_alternate start }
{}

/// A configuration or an interface that is set ends the halts of all endpoints, and a halt of one can be cleared.
pub fn settings_end_halts()
    ensures configuration { Runs start setting_configuration start }
    ensures interface { Runs start setting_interface start }
    ensures endpoint { Runs start clearing_interrupt start }
{}

/// A request for a string, a configuration, an alternate setting or an interface that there is not stalls.
pub fn near_requests_stall()
    ensures string { Runs start (stalling string_submit) start }
    ensures configuration { Runs start (stalling configure_submit) start }
    ensures alternate { Runs start (stalling select_submit) start }
    ensures pulse { Runs start (stalling pulse_submit) start }
{}

/// An abort does not begin where no transfer is in progress, another one is, or an abort runs.
pub fn aborts_are_declined()
    ensures bulk_out { Runs start declining (record start {
      halted = record { bulk_out = true; bulk_in = false; interrupt_in = false };
      running = AbortsOut;
    }) }
    ensures bulk_in { Runs start (reading ++ declining_in) (record start { log = read_log }) }
{}

/// The device closes at a number that is pending, at a message that there is not, and at a submit behind 256 others.
pub fn refused_bytes_close()
    ensures number { Runs start coming_twice (record start {
      bulk_in = arrived (in_submit 1 4096) [] ∷ [];
      presence = Closed number_field;
    }) }
    ensures command { Runs start coming_wrong (record start { presence = Closed command_field }) }
    ensures many { Runs start coming_many (record start {
      bulk_in = map one_came (range_with_len 1 256);
      presence = Closed pending_field;
    }) }
{}

/// Bytes are refused behind two messages: the run takes in the messages and then these bytes. One call may have brought
/// all of it, or three of which the second completed nothing. The run fits no bytes in which a third message follows.
pub fn bytes_are_refused_behind_messages()
    ensures runs { Runs start coming_behind closed_behind }
    ensures takes { TakesAll devid coming_behind behind_up }
    ensures told { Tells devid start told_behind closed_behind }
    ensures in_parts { Tells devid start told_in_parts closed_behind }
    ensures others { (received : List ℕ) → Fits devid coming_behind fine_up received → ⊥ }
{
    urbs_are_determined();
}

/// A submit arrives whatever its endpoint and its devid: one on endpoint 16 is turned away, and one for another device
/// is queued.
pub fn submits_arrive_for_any_device()
    ensures endpoint { Runs start coming_to_no_endpoint start }
    ensures devid { Runs start coming_for_another (record start { bulk_in = arrived other_submit [] ∷ [] }) }
{}

/// A submit of no bytes is answered. A header that does not suit the state halts Bulk-OUT: a request or a trigger
/// inside a message, a message while a response is owed, and one that would be too long.
pub fn headers_have_to_suit()
    ensures nothing { Runs start sending_nothing start }
    ensures inside { Runs start sending_inside (record start {
      halted = record { bulk_out = true; bulk_in = false; interrupt_in = false };
    }) }
    ensures trigger { Runs start triggering_inside (record start {
      halted = record { bulk_out = true; bulk_in = false; interrupt_in = false };
    }) }
    ensures owed { Runs start sending_while_owed (record start {
      halted = record { bulk_out = true; bulk_in = false; interrupt_in = false };
      side = Owed 2 4000;
      log = bare_log;
      standing = record at_power_on { state = record power_on { esr = 132 } };
    }) }
    ensures long { Runs start sending_too_much (record start {
      halted = record { bulk_out = true; bulk_in = false; interrupt_in = false };
    }) }
{}

/// A status request with a wrong tag fails, and one that comes while a packet is queued is too early.
pub fn statuses_may_fail()
    ensures { Runs start statuses (record start { packets = StatusPacket 5 0 ∷ []; log = status_log }) }
{}

/// The instrument is operated from remote, and says what it can. Local operation is locked out, and allowed again when
/// remote control ends. An indicator pulse changes nothing.
pub fn a_remote_act_is_logged()
    ensures remote { Runs start operating (record start {
      log = remote_log;
      standing = record at_power_on { state = record power_on { remote = Remote } };
    }) }
    ensures locked { Runs start locking (record start {
      log = locked_log;
      standing = record at_power_on { state = record power_on { remote = LocalLockout } };
    }) }
    ensures released { Runs start (locking ++ releasing) (record start { log = released_log }) }
{}

/// A check where nothing runs says so, and one of what runs may be answered with PENDING first. An abort of Bulk-IN is
/// pending while its packet is still to be read, and may be behind it.
pub fn checks_may_be_pending()
    ensures clear { Runs start checking (record start {
      halted = record { bulk_out = true; bulk_in = false; interrupt_in = false };
      log = check_log;
    }) }
    ensures bulk_in { Runs start (reading ++ checking_in) (record start { log = read_log }) }
{}

/// Nothing happens to a device that is unplugged.
pub fn nothing_follows_unplugging()
    ensures { (s t : State) (move : Move) (puts : List Put) → s.presence ≡ Unplugged → Steps s move puts t → ⊥ }
{}

/// No piece begins while an abort of Bulk-IN runs.
pub fn no_piece_begins_in_an_abort()
    ensures { (s t : State) (wanting : Bool) (given count : ℕ) (puts : List Put) → s.running ≡ AbortsIn wanting given
        → Steps s (Begin count) puts t → ⊥ }
{}

/// Nothing happens to a device that closed.
pub fn nothing_follows_a_refusal()
    ensures { (s t : State) (f : Field) (move : Move) (puts : List Put) → s.presence ≡ Closed f → Steps s move puts t → ⊥ }
{}

/// No submit comes whose number is pending.
pub fn no_number_comes_twice()
    ensures { (s t : State) (head : SubmitHead) (transferred : List ℕ) (puts : List Put) → (Avoids head.seqnum (pending s) → ⊥)
        → Steps s (Comes (up.Submit head transferred)) puts t → ⊥ }
{}

/// Where 256 submits are pending, no other one comes: its bytes are refused.
pub fn no_more_come_than_may_be_pending()
    ensures none { (s t : State) (head : SubmitHead) (transferred : List ℕ) (puts : List Put) → pending_most ≤ length (pending s)
        → Steps s (Comes (up.Submit head transferred)) puts t → ⊥ }
    ensures refused { (devid : ℕ) (s : State) (head : SubmitHead) (transferred bytes rest : List ℕ) → s.presence ≡ Plugged
        → pending_most ≤ length (pending s) → up.Spells devid (up.Submit head transferred) bytes
        → Steps s (Refuses devid (bytes ++ rest) pending_field) [] (record s { presence = Closed pending_field }) }
{}

/// A submit on a halted endpoint is turned away, and nothing else happens.
pub fn a_halted_endpoint_takes_nothing()
    ensures { (s t : State) (endpoint : Endpoint) (head : SubmitHead) (transferred : List ℕ) (puts : List Put)
        → is_halted endpoint s ≡ true → head.ep ≡ number_of endpoint → Steps s (Comes (up.Submit head transferred)) puts t
        → (puts ≡ answer_of head stalled [] ∷ []) × (t ≡ s) }
{}

/// No packet is taken while a message waits.
pub fn nothing_is_taken_while_a_message_waits()
    ensures { (s t : State) (message : Waiting) (count : ℕ) (puts : List Put) → s.waiting ≡ Some message
        → Steps s (Take count) puts t → ⊥ }
{}

/// A header that comes while a Bulk-IN transfer is in progress halts Bulk-OUT, and nothing else happens.
pub fn a_busy_device_takes_no_header()
    ensures { (s t : State) (submit : Pending) (behind : List Pending) (count : ℕ) (puts : List Put)
        → s.side ≢ Idle → s.transfer ≡ None → s.bulk_out ≡ submit ∷ behind → submit.head.length ≢ 0
        → Steps s (Take count) puts t → (puts ≡ halt_answers BulkOut s) × (t ≡ halts BulkOut s) }
{}

/// No piece has more bytes than are unread.
pub fn no_piece_is_longer_than_the_response()
    ensures { (s t : State) (count : ℕ) (puts : List Put) → length (unread s) < count → Steps s (Begin count) puts t → ⊥ }
{}

/// No packet is given where there is no piece, unless an abort wants one.
pub fn no_packet_without_a_piece()
    ensures { (s t : State) (count : ℕ) (puts : List Put) → NoPacketWanted s.running
        → ((piece : Piece) → s.side ≡ Sending piece → ⊥) → Steps s (Fill count) puts t → ⊥ }
{}

/// Where an abort of Bulk-IN wants its packet, that is the only one, and has no bytes.
pub fn an_aborted_piece_gives_nothing()
    ensures { (s t : State) (given count : ℕ) (submit : Pending) (behind : List Pending) (puts : List Put)
        → s.running ≡ AbortsIn true given → s.bulk_in ≡ submit ∷ behind → Steps s (Fill count) puts t
        → (puts ≡ ended success submit ∷ []) × (count ≡ 1) }
{}

/// Nothing is answered with PENDING where nothing runs.
pub fn nothing_is_pending_where_nothing_runs()
    ensures { (s t : State) (puts : List Put) → s.running ≡ Nothing → Steps s Pend puts t → ⊥ }
{}

/// No request is polled twice.
pub fn no_request_is_polled_twice()
    ensures { (s t : State) (submit : Pending) (behind : List Pending) (puts : List Put) → s.control ≡ submit ∷ behind
        → submit.polled ≡ true → Steps s Poll puts t → ⊥ }
{}
