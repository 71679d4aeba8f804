use crate::Exchange;
use bytes::BytesMut;
use instr_plain::RemoteAct;
use std::alloc::Global;
use std::process::Abort;
use std::test::Fail;
use tmc_base::Memory;
use tmc_law::LogEntry;

/// What comes to an exchange, or is looked for there.
#[derive(Clone, Copy)]
enum Move<'a> {
    /// A part of a message comes from the submit of this number, with EOM or without.
    Part(u32, &'a [u8], bool),
    /// A part begins that comes by and by.
    Begin,
    /// More of it comes.
    More(&'a [u8]),
    /// It ends with the submit of this number: so many of its bytes are data.
    End(u32, usize, bool),
    /// The message that waits is executed.
    Run,
    /// So many bytes of the response are given, and whether they end it.
    Give(usize, bool),
    /// What came of a message is dropped.
    Halt,
    Clear,
    Bare,
    Trigger(u32),
    /// The status byte is polled, and is this.
    Poll(u32, u8),
    Remote(RemoteAct),
    /// The status byte is this.
    Status(u8),
    /// A message waits, or none does, and that is what has come of the next one.
    Holds(bool, &'a [u8]),
    /// That is unread.
    Unread(&'a [u8]),
}

/// A part of a message comes, where one may.
fn accept(
    rt: &impl Abort,
    exchange: &mut Exchange,
    seq: u32,
    part: &[u8],
    eom: bool,
) -> Result<(), Fail> {
    assert!(rt; !exchange.waits());
    assert!(rt; !part.is_empty());
    assert!(rt; part.len() <= 4_096);
    assert!(rt; exchange.part().len() + part.len() <= 4_096);
    exchange.reserve()?;
    exchange.accept_part(seq, part, eom);
    Ok(())
}

/// More of a part comes, where it may.
fn extend(rt: &impl Abort, exchange: &mut Exchange, bytes: &[u8]) {
    assert!(rt; !exchange.waits());
    assert!(rt; exchange.part().len() <= 4_096);
    assert!(rt; exchange.coming().len() <= 4_096);
    assert!(rt; bytes.len() <= 4_096);
    assert!(rt; exchange.part().len() + exchange.coming().len() + bytes.len() <= 4_099);
    exchange.extend_part(bytes);
}

/// A part that came by and by ends, where it may.
fn end(
    rt: &impl Abort,
    exchange: &mut Exchange,
    seq: u32,
    size: usize,
    eom: bool,
) -> Result<(), Fail> {
    assert!(rt; !exchange.waits());
    assert!(rt; size > 0);
    assert!(rt; size <= exchange.coming().len());
    assert!(rt; exchange.part().len() <= 4_096);
    assert!(rt; size <= 4_096);
    assert!(rt; exchange.part().len() + size <= 4_096);
    exchange.reserve()?;
    exchange.end_part(seq, size, eom);
    Ok(())
}

/// The next bytes of the response, and whether they end it.
fn give(
    rt: &impl Abort,
    exchange: &mut Exchange,
    n: usize,
    out: &mut BytesMut,
) -> Result<bool, Fail> {
    assert!(rt; n > 0);
    assert!(rt; n <= exchange.unread().len());
    out.reserve(n)?;
    exchange.reserve()?;
    Ok(exchange.give(n, out))
}

/// What is logged by itself: a clear, a bare request, a trigger, a poll, who may operate the instrument.
fn log(rt: &impl Abort, exchange: &mut Exchange, does: Move) -> Result<(), Fail> {
    exchange.reserve()?;
    match does {
        Move::Clear => exchange.clear(),
        Move::Bare => exchange.bare(),
        Move::Trigger(seq) => exchange.trigger(seq),
        Move::Poll(seq, byte) => assert_eq!(rt; exchange.poll(seq), byte),
        Move::Remote(act) => exchange.remote(act),
        _ => assert!(rt; false, "no such entry"),
    }
    Ok(())
}

/// One move; `given` grows by what is given.
fn step(
    rt: &impl Abort,
    exchange: &mut Exchange,
    given: &mut BytesMut,
    does: Move,
) -> Result<(), Fail> {
    match does {
        Move::Part(seq, part, eom) => accept(rt, exchange, seq, part, eom)?,
        Move::Begin => exchange.begin_part(),
        Move::More(bytes) => extend(rt, exchange, bytes),
        Move::End(seq, size, eom) => end(rt, exchange, seq, size, eom)?,
        Move::Run => {
            assert!(rt; exchange.waits());
            exchange.run()?;
        }
        Move::Give(n, ends) => assert_eq!(rt; give(rt, exchange, n, given)?, ends),
        Move::Halt => exchange.drop_part(),
        Move::Status(byte) => assert_eq!(rt; exchange.status(), byte),
        Move::Holds(waits, coming) => {
            assert_eq!(rt; exchange.waits(), waits);
            assert_eq!(rt; exchange.part(), coming);
        }
        Move::Unread(unread) => assert_eq!(rt; exchange.unread(), unread),
        _ => log(rt, exchange, does)?,
    }
    Ok(())
}

/// The log, an entry a line.
fn text_of(alloc: Global, entries: &[LogEntry]) -> Result<String, Memory> {
    let mut text = String::new(alloc);
    for entry in entries {
        let line = match entry {
            LogEntry::Exec { seq, message } => {
                let message = str::from_utf8(message.as_slice()).unwrap_or("?");
                format!(in alloc; "exec {seq} {message}\n")?
            }
            LogEntry::Took { n } => format!(in alloc; "took {n}\n")?,
            LogEntry::Interrupt => format!(in alloc; "interrupt\n")?,
            LogEntry::Bare => format!(in alloc; "bare\n")?,
            LogEntry::Trigger { seq } => format!(in alloc; "trigger {seq}\n")?,
            LogEntry::Poll { seq } => format!(in alloc; "poll {seq}\n")?,
            LogEntry::Clear => format!(in alloc; "clear\n")?,
            LogEntry::Remote { act } => format!(in alloc; "remote {act:?}\n")?,
        };
        text.push_str(line.as_str())?;
    }
    Ok(text)
}

/// What was given behind these moves from power-on, a line, and then the log.
fn told(alloc: Global, rt: &impl Abort, moves: &[Move]) -> Result<String, Fail> {
    let mut exchange = Exchange::new(alloc)?;
    let mut given = BytesMut::new(alloc);
    for does in moves {
        step(rt, &mut exchange, &mut given, *does)?;
    }
    let mut text = String::new(alloc);
    text.push_str(str::from_utf8(given.as_slice()).unwrap_or("?"))?;
    text.push_str(text_of(alloc, exchange.log().entries())?.as_str())?;
    Ok(text)
}

#[test]
fn a_query_is_executed_and_read_in_two_pieces(rt: HostRuntime) -> Result<(), Fail> {
    let text = told(
        rt.alloc(),
        &rt,
        &[
            Move::Part(7, b"*IDN?", true),
            Move::Run,
            Move::Holds(false, b""),
            Move::Give(8, false),
            Move::Unread(b"TMC1,0,1.0\n"),
            Move::Give(11, true),
            Move::Unread(b""),
        ],
    )?;
    assert_eq!(rt;
        text.as_str(),
        "EXAMPLE,TMC1,0,1.0\nexec 7 *IDN?\ntook 8\ntook 11\n"
    );
    Ok(())
}

#[test]
fn a_message_comes_in_parts(rt: HostRuntime) -> Result<(), Fail> {
    let whole = told(
        rt.alloc(),
        &rt,
        &[
            Move::Part(1, b"CONF 4;", false),
            Move::Holds(false, b"CONF 4;"),
            Move::Part(2, b"CONF?", true),
            Move::Holds(true, b""),
            Move::Run,
            Move::Unread(b"4\n"),
        ],
    )?;
    assert_eq!(rt; whole.as_str(), "exec 2 CONF 4;CONF?\n");
    let by_and_by = told(
        rt.alloc(),
        &rt,
        &[
            Move::Part(1, b"CONF 4;", false),
            Move::More(b"of another"),
            Move::Begin,
            Move::More(b"CONF"),
            Move::Holds(false, b"CONF 4;"),
            Move::More(b"?\0\0\0"),
            Move::End(2, 5, true),
            Move::Holds(true, b""),
            Move::Run,
            Move::Unread(b"4\n"),
        ],
    )?;
    assert_eq!(rt; by_and_by, whole);
    Ok(())
}

#[test]
fn a_message_interrupts_an_unread_response_once(rt: HostRuntime) -> Result<(), Fail> {
    let text = told(
        rt.alloc(),
        &rt,
        &[
            Move::Part(1, b"*IDN?", true),
            Move::Run,
            Move::Part(2, b"*ESR", false),
            Move::Unread(b""),
            Move::Part(3, b"?", true),
            Move::Run,
            // PON and QYE
            Move::Unread(b"132\n"),
        ],
    )?;
    assert_eq!(rt; text.as_str(), "exec 1 *IDN?\ninterrupt\nexec 3 *ESR?\n");
    Ok(())
}

#[test]
fn the_longest_message_is_kept(rt: HostRuntime) -> Result<(), Fail> {
    let text = told(
        rt.alloc(),
        &rt,
        &[
            Move::Part(1, &[b' '; 4_090], false),
            Move::Part(2, b"*TST?\n", true),
            Move::Run,
            Move::Unread(b"0\n"),
        ],
    )?;
    assert_eq!(rt; text.len(), "exec 2 \n".len() + 4_096);
    Ok(())
}

#[test]
fn a_halt_drops_the_part_and_not_what_waits(rt: HostRuntime) -> Result<(), Fail> {
    let text = told(
        rt.alloc(),
        &rt,
        &[
            Move::Part(1, b"CONF 4;", false),
            Move::Halt,
            Move::Holds(false, b""),
            Move::Part(2, b"CONF?", true),
            Move::Halt,
            Move::Run,
            Move::Unread(b"0\n"),
        ],
    )?;
    assert_eq!(rt; text.as_str(), "exec 2 CONF?\n");
    Ok(())
}

#[test]
fn a_clear_drops_all_and_keeps_the_registers(rt: HostRuntime) -> Result<(), Fail> {
    let text = told(
        rt.alloc(),
        &rt,
        &[
            Move::Part(1, b"*ESE 32;*IDN?", true),
            Move::Run,
            Move::Clear,
            Move::Unread(b""),
            Move::Part(2, b"*IDN?", true),
            Move::Clear,
            Move::Holds(false, b""),
            Move::Part(3, b"*ESE?", true),
            Move::Run,
            Move::Unread(b"32\n"),
        ],
    )?;
    assert_eq!(rt;
        text.as_str(),
        "exec 1 *ESE 32;*IDN?\nclear\nclear\nexec 3 *ESE?\n"
    );
    Ok(())
}

#[test]
fn what_is_not_a_message_is_logged(rt: HostRuntime) -> Result<(), Fail> {
    let text = told(
        rt.alloc(),
        &rt,
        &[
            Move::Part(1, b"*SRE 32;*ESE 4", true),
            Move::Run,
            Move::Bare,
            // QYE is enabled: ESB and RQS
            Move::Status(0x60),
            Move::Poll(5, 0x60),
            Move::Status(0x20),
            Move::Trigger(6),
            Move::Remote(RemoteAct::On),
        ],
    )?;
    assert_eq!(rt;
        text.as_str(),
        "exec 1 *SRE 32;*ESE 4\nbare\npoll 5\ntrigger 6\nremote On\n"
    );
    Ok(())
}
