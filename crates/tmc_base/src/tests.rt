ghost use Rattle.std.specs.Prelude.{◌<◌, length};

use crate::count::Count;
use crate::std_sink::write_to;
use crate::std_source::read_from;
use crate::*;
use std::io::Write;
use std::net::{Ipv4Addr, SocketAddr, TcpListener, TcpStream};
use std::test::Fail;

#[test]
fn source_gives_its_bytes_in_pieces(rt: HostRuntime) -> Result<(), Fail> {
    let bytes = b"abcde".to_vec(rt.alloc())?;
    let fails = [2].to_vec(rt.alloc())?;
    let mut source = MemSource::new(bytes, 2, fails);
    let (mut first, mut second, mut third) = ([0; 4], [0; 1], [0; 4]);
    let steps = [
        source.read(&mut first),
        source.read(&mut second),
        source.read(&mut second),
        source.read(&mut third),
        source.read(&mut [0]),
    ];
    assert_eq!(rt;
        steps,
        [
            ReadStep::Got(2),
            ReadStep::Failed,
            ReadStep::Got(1),
            ReadStep::Got(2),
            ReadStep::End
        ]
    );
    assert_eq!(rt; (first, second, third), (*b"ab\0\0", *b"c", *b"de\0\0"));
    Ok(())
}

#[test]
fn sink_takes_pieces_until_it_is_full(rt: HostRuntime) -> Result<(), Fail> {
    let fails = [2].to_vec(rt.alloc())?;
    let mut sink = MemSink::new(rt.alloc(), 5, 3, fails)?;
    let steps = [
        sink.write(b"abcdef"),
        sink.write(b"def"),
        sink.write(b"def"),
        sink.write(b"f"),
    ];
    assert_eq!(rt;
        steps,
        [
            WriteStep::Took(3),
            WriteStep::Failed,
            WriteStep::Took(2),
            WriteStep::Failed
        ]
    );
    assert_eq!(rt; sink.bytes(), b"abcde".as_slice());
    Ok(())
}

#[test]
fn reads_no_byte_past_the_most(rt: HostRuntime) -> Result<(), Fail> {
    for (most, piece, want) in [(3, 2, "abc"), (5, 5, "abcde"), (9, 1, "abcde"), (0, 1, "")] {
        let bytes = b"abcde".to_vec(rt.alloc())?;
        let mut source = MemSource::new(bytes, piece, Vec::new(rt.alloc()));
        let read = read_up_to(rt.alloc(), &mut source, most)?;
        assert_eq!(rt; read.as_slice(), want.as_bytes(), "at most {most}");
    }
    let fails = [2].to_vec(rt.alloc())?;
    let mut source = MemSource::new(b"abcde".to_vec(rt.alloc())?, 2, fails);
    let fault = read_up_to(rt.alloc(), &mut source, 9).err();
    assert_eq!(rt; fault, Some(ReadFault::Failed));
    Ok(())
}

#[test]
fn reads_to_the_end(rt: HostRuntime) -> Result<(), Fail> {
    for piece in [1, 4_096, 10_000] {
        let bytes = [b'a'; 10_000].to_vec(rt.alloc())?;
        let mut source = MemSource::new(bytes, piece, Vec::new(rt.alloc()));
        let read = read_all(rt.alloc(), &mut source)?;
        assert_eq!(rt; read.as_slice(), [b'a'; 10_000].as_slice(), "by {piece}");
        assert_eq!(rt; source.read(&mut [0]), ReadStep::End);
    }
    let fails = [2].to_vec(rt.alloc())?;
    let mut source = MemSource::new(b"abcde".to_vec(rt.alloc())?, 2, fails);
    let fault = read_all(rt.alloc(), &mut source).err();
    assert_eq!(rt; fault, Some(ReadFault::Failed));
    Ok(())
}

#[test]
fn writes_all_or_a_front(rt: HostRuntime) -> Result<(), Fail> {
    let mut sink = MemSink::new(rt.alloc(), 9, 2, Vec::new(rt.alloc()))?;
    assert!(rt; write_all(&mut sink, b"abcde"));
    assert_eq!(rt; sink.bytes(), b"abcde".as_slice());
    let fails = [3].to_vec(rt.alloc())?;
    let mut sink = MemSink::new(rt.alloc(), 9, 2, fails)?;
    assert!(rt; !write_all(&mut sink, b"abcde"));
    assert_eq!(rt; sink.bytes(), b"abcd".as_slice());
    Ok(())
}

#[test]
fn reads_no_more_behind_the_end(rt: HostRuntime) -> Result<(), Fail> {
    let fails = [3].to_vec(rt.alloc())?;
    let mut source = MemSource::new(b"abcde".to_vec(rt.alloc())?, 5, fails);
    assert_eq!(rt; read_all(rt.alloc(), &mut source)?.len(), 5);
    assert_eq!(rt; source.read(&mut [0]), ReadStep::Failed, "the third read");
    Ok(())
}

#[test]
fn writes_no_more_behind_a_fault(rt: HostRuntime) -> Result<(), Fail> {
    let fails = [2, 3].to_vec(rt.alloc())?;
    let mut sink = MemSink::new(rt.alloc(), 9, 4, fails)?;
    assert!(rt; !write_all(&mut sink, b"abcde"));
    assert_eq!(rt; sink.write(b"e"), WriteStep::Failed, "the third write");
    Ok(())
}

#[test]
fn reader_gives_pieces_and_its_end(rt: HostRuntime) -> Result<(), Fail> {
    let mut input = b"abc".as_slice();
    let mut faults = Count::new();
    let mut buf = [0; 2];
    assert_eq!(rt;
        read_from(&mut input, &mut faults, &mut buf),
        ReadStep::Got(2)
    );
    assert_eq!(rt; &buf, b"ab");
    assert_eq!(rt;
        read_from(&mut input, &mut faults, &mut buf),
        ReadStep::Got(1)
    );
    assert_eq!(rt; buf[0], b'c');
    assert_eq!(rt; read_from(&mut input, &mut faults, &mut buf), ReadStep::End);
    Ok(())
}

#[test]
fn writer_takes_a_piece_or_fails_where_it_is_full(rt: HostRuntime) -> Result<(), Fail> {
    let mut room = [0; 2];
    let mut output = room.as_mut_slice();
    let mut faults = Count::new();
    assert_eq!(rt;
        write_to(&mut output, &mut faults, b"abc"),
        WriteStep::Took(2)
    );
    assert_eq!(rt; write_to(&mut output, &mut faults, b"c"), WriteStep::Failed);
    assert_eq!(rt; &room, b"ab");
    limits_are_the_products();
    Ok(())
}

#[test]
fn octets_keep_their_bytes(rt: HostRuntime) -> Result<(), Fail> {
    let octets = Octets::from_slice(rt.alloc(), b"abc")?;
    assert_eq!(rt; octets.as_slice(), b"abc".as_slice());
    assert_eq!(rt; octets.len(), 3);
    let again = Octets::from(octets.into_vec());
    assert!(rt; !again.is_empty());
    assert!(rt; Octets::new(rt.alloc()).is_empty());
    Ok(())
}

#[test]
fn link_gives_and_takes_pieces(rt: HostRuntime) -> Result<(), Fail> {
    let gives = b"abc".to_vec(rt.alloc())?;
    let fail_sends = [2].to_vec(rt.alloc())?;
    let fail_polls = [1].to_vec(rt.alloc())?;
    let mut link = MemLink::new(rt.alloc(), gives, 3, 2, 2, fail_sends, fail_polls)?;
    let mut buf = [0; 4];
    assert_eq!(rt; link.poll(&mut buf), PollStep::Failed, "the first poll");
    assert_eq!(rt; link.poll(&mut buf), PollStep::Got(2));
    assert_eq!(rt; &buf[..2], b"ab".as_slice());
    assert_eq!(rt; link.poll(&mut buf), PollStep::Got(1));
    assert_eq!(rt; buf[0], b'c');
    assert_eq!(rt; link.poll(&mut buf), PollStep::Closed);
    assert_eq!(rt; link.send(b"xyz"), SendStep::Took(2));
    assert_eq!(rt; link.send(b"z"), SendStep::Failed, "the second send");
    assert_eq!(rt; link.send(b"z"), SendStep::Took(1));
    assert_eq!(rt; link.send(b"z"), SendStep::Failed, "no room");
    assert_eq!(rt; link.tend(()), TendStep::NotNow);
    assert_eq!(rt; link.sent(), b"xyz".as_slice());
    Ok(())
}

/// Polls until something else than idleness comes, some seconds long.
fn poll_on(link: &mut TcpLink, buf: &mut [u8]) -> PollStep
    requires { 0 < length buf.old }
{
    for _ in 0..1_000 {
        let step = link.poll(buf);
        if step != PollStep::Idle {
            return step;
        }
    }
    PollStep::Idle
}

#[test]
fn tcp_link_is_idle_until_bytes_come_and_closes(rt: HostRuntime) -> Result<(), Fail> {
    let listener = TcpListener::bind(&rt, SocketAddr::from((Ipv4Addr::LOCALHOST, 0)))?;
    let mut far = TcpStream::connect(&rt, listener.local_addr()?)?;
    let mut link = TcpLink::new(listener.accept()?.0)?;
    let mut buf = [0; 8];
    assert_eq!(rt; link.poll(&mut buf), PollStep::Idle);
    assert_eq!(rt; far.write(b"abc")?, 3);
    assert_eq!(rt; poll_on(&mut link, &mut buf), PollStep::Got(3));
    assert_eq!(rt; &buf[..3], b"abc".as_slice());
    assert_eq!(rt; link.send(b"xyz"), SendStep::Took(3));
    assert_eq!(rt; link.tend(()), TendStep::NotNow);
    drop(far);
    let step = poll_on(&mut link, &mut buf);
    assert!(rt; step == PollStep::Closed || step == PollStep::Failed);
    Ok(())
}
