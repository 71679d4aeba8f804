//! The lines of a hub's book.

ghost use Rattle.std.specs.Prelude.{◌≡◌, ◌++◌, ℕ, OnOk, OnErr, codes};
ghost use Rattle.std.specs.Fmt.{decimal};
ghost use Rattle.host_hub.specs.BookSeen.{Seen, Shows};
ghost use Rattle.event_text.specs.Report.{hub_line, service_line, kind_word, ticket_line, entry_line, book_text, numbered};

use crate::text::{Part, hand_over, put_parts};
use host_hub::{Book, BookEntry, End, Kind, Service, View};
use instr_plain::RemoteAct;
use tmc_base::Memory;

/// Appends the text of a hub's book: whether the hub runs, the requests for service that came, a line a ticket, and a
/// line an entry, each numbered from 1. Where memory is wanting `out` is as before.
pub fn put_book(end: Option<End>, book: &Book, out: &mut Vec<u8>) -> Result<(), Memory>
    ensures put { OnOk result (out.new.items ≡ out.old.items ++ book_text end book.now) }
    ensures kept { OnErr result (out.new.items ≡ out.old.items) }
{
    let mut text = Vec::new(*out.allocator());
    put_book_lines(end, book, &mut text)?;
    hand_over(text, out)
}

pub(crate) fn put_book_lines(
    end: Option<End>,
    book: &Book,
    text: &mut Vec<u8>,
) -> Result<(), Memory>
    ensures { OnOk result (text.new.items ≡ text.old.items ++ book_text end book.now) }
{
    put_hub(end, text)?;
    put_service(book.service(), text)?;
    put_tickets(book, text)?;
    put_entries(book.entries(), text)
}

pub(crate) fn put_hub(end: Option<End>, text: &mut Vec<u8>) -> Result<(), Memory>
    ensures { OnOk result (text.new.items ≡ text.old.items ++ hub_line end) }
{
    match end {
        None => put_parts(&[Part::Word("hub running\n")], text),
        Some(end) => put_parts(
            &[Part::Word("hub ended "), Part::End(end), Part::Word("\n")],
            text,
        ),
    }
}

pub(crate) fn put_service(service: Service, text: &mut Vec<u8>) -> Result<(), Memory>
    ensures { OnOk result (text.new.items ≡ text.old.items ++ service_line service) }
{
    let last = match service.last {
        Some(byte) => Part::Number(u64::from(byte)),
        None => Part::Word("-"),
    };
    put_parts(
        &[
            Part::Word("service "),
            Part::Number(service.count),
            Part::Word(" "),
            last,
            Part::Word("\n"),
        ],
        text,
    )
}

fn put_tickets(book: &Book, text: &mut Vec<u8>) -> Result<(), Memory>
    ensures { OnOk result (text.new.items ≡ text.old.items ++ numbered ticket_line 1 book.now.tickets) }
{
    'tickets: for index in 0..book.tickets() {
        let Some(view) = book.view(index + 1) else {
            unreachable!()
        };
        put_ticket(&view, text)?;
    }
    Ok(())
}

pub(crate) fn put_ticket(view: &View, text: &mut Vec<u8>) -> Result<(), Memory>
    ensures { (number : ℕ) (seen : Seen) → Shows number seen view.now → OnOk result (text.new.items ≡ text.old.items ++ ticket_line number seen) }
{
    put_parts(
        &[
            Part::Word("ticket "),
            Part::Number(u64::from(view.ticket)),
            Part::Word(" session "),
            Part::Number(u64::from(view.session)),
            Part::Word(" "),
            Part::Word(kind_word(view.kind)),
            Part::Word(" limit "),
            Part::Number(u64::from(view.limit)),
            Part::Word(" last "),
            Part::Number(u64::from(view.last)),
            Part::Word(" message "),
            Part::Number(view.message.len() as u64),
            Part::Word(" "),
            Part::Hex(view.message),
            Part::Word(" bytes "),
            Part::Number(view.bytes.len() as u64),
            Part::Word(" "),
            Part::Hex(view.bytes),
            Part::Word(" outcome "),
            Part::Outcome(view.outcome),
            Part::Word("\n"),
        ],
        text,
    )
}

fn kind_word(kind: Kind) -> &'static str
    ensures { result.now ≡ kind_word kind }
{
    match kind {
        Kind::Ask => "ask",
        Kind::Tell => "tell",
        Kind::Trigger => "trigger",
        Kind::Status => "status",
        Kind::Remote(RemoteAct::On) => "remote-on",
        Kind::Remote(RemoteAct::Off) => "remote-off",
        Kind::Remote(RemoteAct::GoLocal) => "remote-local",
        Kind::Remote(RemoteAct::Lockout) => "remote-lockout",
    }
}

pub(crate) fn put_entries(entries: &[BookEntry], text: &mut Vec<u8>) -> Result<(), Memory>
    ensures { OnOk result (text.new.items ≡ text.old.items ++ numbered entry_line 1 entries.now) }
{
    let mut number = 1;
    'entries: for entry in entries {
        put_entry(number, *entry, text)?;
        number += 1;
    }
    Ok(())
}

fn put_entry(number: u64, entry: BookEntry, text: &mut Vec<u8>) -> Result<(), Memory>
    ensures { OnOk result (text.new.items ≡ text.old.items ++ entry_line number entry) }
{
    match entry {
        BookEntry::Asked(ticket) => put_numbered(number, " asked ", ticket, text),
        BookEntry::Cancel(ticket) => put_numbered(number, " cancel ", ticket, text),
        BookEntry::Clear(session) => put_numbered(number, " clear ", u32::from(session), text),
        BookEntry::GaveUp => put_parts(
            &[
                Part::Word("book "),
                Part::Number(number),
                Part::Word(" gaveup\n"),
            ],
            text,
        ),
        BookEntry::Settled(ticket) => put_numbered(number, " settled ", ticket, text),
    }
}

/// A line of which a number is the last word.
fn put_numbered(number: u64, name: &str, what: u32, text: &mut Vec<u8>) -> Result<(), Memory>
    ensures { OnOk result (text.new.items ≡ text.old.items ++ (codes "book " ++ (decimal number ++ (name.now ++ (decimal what ++ codes "\n"))))) }
{
    put_parts(
        &[
            Part::Word("book "),
            Part::Number(number),
            Part::Word(name),
            Part::Number(u64::from(what)),
            Part::Word("\n"),
        ],
        text,
    )
}
