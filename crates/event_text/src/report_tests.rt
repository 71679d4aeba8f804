use crate::answer::put_answers;
use crate::book::{put_entries, put_hub, put_service, put_ticket};
use crate::{EventAnswer, put_field, put_log, put_outcome, put_refusal, put_stream};
use host_hub::{
    AskFault, BookEntry, CancelAnswer, ClearFault, DropAnswer, End, Kind, Outcome, Service, View,
};
use instr_plain::RemoteAct;
use std::alloc::Global;
use std::process::Abort;
use std::test::Fail;
use tmc_base::{Field, Layer, Name, Octets};
use tmc_law::{Log, LogEntry};
use usbip_wire::Dir;

const QUERY: &[u8] = b"*IDN?";

const RESPONSE: &[u8] = b"EXAMPLE,TMC1,0,1.0\n";

const REFUSED: Field = Field {
    layer: Layer::Urb,
    name: Name::ActualLength,
    offset: 24,
};

fn is_text(rt: &impl Abort, text: &[u8], want: &str) {
    let bytes = want.as_bytes();
    assert_eq!(rt; text, bytes);
}

#[test]
fn prints_the_book_of_one_ask(rt: HostRuntime) -> Result<(), Fail> {
    let mut text = Vec::new(rt.alloc());
    put_hub(None, &mut text)?;
    put_service(
        Service {
            count: 0,
            last: None,
        },
        &mut text,
    )?;
    let view = View {
        ticket: 1,
        session: 0,
        kind: Kind::Ask,
        limit: 4_000,
        last: 1,
        message: QUERY,
        bytes: RESPONSE,
        outcome: Outcome::Complete,
    };
    put_ticket(&view, &mut text)?;
    put_entries(&[BookEntry::Asked(1), BookEntry::Settled(1)], &mut text)?;
    is_text(
        &rt,
        &text,
        "hub running\nservice 0 -\nticket 1 session 0 ask limit 4000 last 1 message 5 2a49444e3f bytes 19 4558414d504c452c544d43312c302c312e300a outcome Complete\nbook 1 asked 1\nbook 2 settled 1\n",
    );
    Ok(())
}

#[test]
fn prints_each_entry_of_a_book(rt: HostRuntime) -> Result<(), Fail> {
    let mut text = Vec::new(rt.alloc());
    put_hub(Some(End::DeviceFault(-71)), &mut text)?;
    let service = Service {
        count: 18_446_744_073_709_551_615,
        last: Some(80),
    };
    put_service(service, &mut text)?;
    let view = View {
        ticket: 65_536,
        session: 15,
        kind: Kind::Remote(RemoteAct::GoLocal),
        limit: 0,
        last: 0,
        message: b"".as_slice(),
        bytes: b"".as_slice(),
        outcome: Outcome::PeerFault(REFUSED),
    };
    put_ticket(&view, &mut text)?;
    let entries = [
        BookEntry::Asked(1),
        BookEntry::Cancel(1),
        BookEntry::Clear(3),
        BookEntry::GaveUp,
        BookEntry::Settled(1),
    ];
    put_entries(&entries, &mut text)?;
    is_text(
        &rt,
        &text,
        "hub ended DeviceFault -71\nservice 18446744073709551615 80\nticket 65536 session 15 remote-local limit 0 last 0 message 0 - bytes 0 - outcome PeerFault urb actual_length 24\nbook 1 asked 1\nbook 2 cancel 1\nbook 3 clear 3\nbook 4 gaveup\nbook 5 settled 1\n",
    );
    Ok(())
}

#[test]
fn prints_each_answer_of_an_event(rt: HostRuntime) -> Result<(), Fail> {
    let answers = [
        Some(EventAnswer::Ticket(1)),
        Some(EventAnswer::Refused(AskFault::Down(End::Unplugged))),
        Some(EventAnswer::Refused(AskFault::BadLimit)),
        Some(EventAnswer::CancelSaid(CancelAnswer::Settled)),
        Some(EventAnswer::DropSaid(DropAnswer::NothingLive)),
        Some(EventAnswer::NotCleared(ClearFault::NoSession)),
        Some(EventAnswer::Done),
        None,
    ];
    let mut text = Vec::new(rt.alloc());
    put_answers(&answers, &mut text)?;
    is_text(
        &rt,
        &text,
        "event 1 ticket 1\nevent 2 refused Down Unplugged\nevent 3 refused BadLimit\nevent 4 settled\nevent 5 nothing\nevent 6 refused NoSession\nevent 7 ok\nevent 8 not-enabled\n",
    );
    Ok(())
}

/// Adds an entry to a log.
fn log_more(log: &mut Log, entry: LogEntry) -> Result<(), Fail> {
    log.reserve()?;
    log.push(entry);
    Ok(())
}

#[test]
fn prints_each_entry_of_a_log(rt: HostRuntime) -> Result<(), Fail> {
    let mut log = Log::new(rt.alloc());
    let message = Octets::from_slice(rt.alloc(), QUERY)?;
    log_more(&mut log, LogEntry::Exec { seq: 1, message })?;
    log_more(&mut log, LogEntry::Took { n: 19 })?;
    log_more(&mut log, LogEntry::Interrupt)?;
    log_more(&mut log, LogEntry::Bare)?;
    log_more(&mut log, LogEntry::Trigger { seq: 2 })?;
    log_more(&mut log, LogEntry::Poll { seq: 3 })?;
    log_more(&mut log, LogEntry::Clear)?;
    let act = RemoteAct::Lockout;
    log_more(&mut log, LogEntry::Remote { act })?;
    let mut out = Vec::from_slice(rt.alloc(), b"> ")?;
    put_log(&log, &mut out)?;
    is_text(
        &rt,
        &out,
        "> log 1 exec 1 2a49444e3f\nlog 2 took 19\nlog 3 interrupt\nlog 4 bare\nlog 5 trigger 2\nlog 6 poll 3\nlog 7 clear\nlog 8 remote lockout\n",
    );
    Ok(())
}

#[test]
fn prints_a_stream_in_lines_of_32_bytes(rt: HostRuntime) -> Result<(), Fail> {
    let mut out = Vec::new(rt.alloc());
    put_stream(Dir::Out, b"", &mut out)?;
    put_stream(Dir::In, &[0xA5; 32], &mut out)?;
    put_stream(Dir::Out, &[1; 33], &mut out)?;
    is_text(
        &rt,
        &out,
        "up 0\ndown 32\nd a5a5a5a5a5a5a5a5a5a5a5a5a5a5a5a5a5a5a5a5a5a5a5a5a5a5a5a5a5a5a5a5\nup 33\nu 0101010101010101010101010101010101010101010101010101010101010101\nu 01\n",
    );
    Ok(())
}

#[test]
fn prints_words_behind_what_was_there(rt: HostRuntime) -> Result<(), Fail> {
    let mut out = Vec::new(rt.alloc());
    put_outcome(Outcome::Status(80), &mut out)?;
    put_outcome(Outcome::Live, &mut out)?;
    put_refusal(AskFault::Full, &mut out)?;
    put_field(REFUSED, &mut out)?;
    is_text(&rt, &out, "Status 80LiveFullurb actual_length 24");
    Ok(())
}
