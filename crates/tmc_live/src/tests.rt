ghost use Rattle.std.specs.Prelude.{◌<◌};

use crate::live::live_main;
use crate::mem_net::MemNet;
use crate::net::{Net, NetFault};
use crate::shell::{WordsFault, behind_name, live_exit};
use crate::tcp_net::TcpNet;
use std::alloc::{AllocError, Global};
use std::io::{Read, Write};
use std::net::TcpStream;
use std::process::ExitCode;
use std::test::Fail;
use std::time::Duration;
use std::{io, thread};
use tmc_base::{Link, MemLink, MemSink, MemSource, Memory, PollStep, SendStep};

/// OP_REQ_DEVLIST (version 0x0111, code 0x8005, status 0).
const DEVICE_LIST: &str = "0111800500000000";

/// OP_REQ_IMPORT of bus id `1-1` (version, code 0x8003, status 0, the bus id in 32 bytes).
const IMPORT: &str =
    "0111800300000000312d310000000000000000000000000000000000000000000000000000000000";

/// The client's bytes behind the import for one `*IDN?`: the message, the request of its response, and the read.
const ASK: &str = "\
0000000100000001000100020000000000000001000000000000001400000000\
ffffffff0000000000000000000000000101fe0005000000010000002a49444e\
3f0000000000000100000002000100020000000000000001000000000000000c\
00000000ffffffff0000000000000000000000000202fd00a00f000000000000\
0000000100000003000100020000000100000002000000000000100000000000\
ffffffff000000000000000000000000";

/// What these bytes are answered.
const ANSWER: &str = "\
0000000300000001000000000000000000000000000000000000001400000000\
ffffffff00000000000000000000000000000003000000020000000000000000\
00000000000000000000000c00000000ffffffff000000000000000000000000\
0000000300000003000000000000000000000000000000000000002000000000\
ffffffff0000000000000000000000000202fd0013000000010000004558414d\
504c452c544d43312c302c312e300a00";

/// The bytes of a device list with the instrument alone, and of an import's reply.
const LIST_SIZE: usize = 328;

const REPLY_SIZE: usize = 320;

/// The bytes of the answer to what is asked.
const ANSWER_SIZE: usize = 176;

fn bytes_of(alloc: Global, digits: &str) -> Result<Vec<u8>, Memory> {
    match hex::decode(alloc, digits) {
        Ok(bytes) => Ok(bytes),
        Err(_) => Err(Memory),
    }
}

fn words_of(alloc: Global, text: &str) -> Result<Vec<String>, AllocError> {
    let mut words = Vec::new(alloc);
    for word in text.split_whitespace() {
        words.push(String::from_str(alloc, word)?)?;
    }
    Ok(words)
}

/// A client that sends these bytes and goes away.
fn client(alloc: Global, digits: &str) -> Result<MemLink, Memory> {
    let gives = bytes_of(alloc, digits)?;
    let none = Vec::new(alloc);
    MemLink::new(alloc, gives, 4_096, 4_096, 7, none, Vec::new(alloc))
}

/// A net to which these clients come, and whose calls of these numbers fail.
fn net_of(alloc: Global, all: &[&str], fails: &[u32]) -> Result<MemNet, Memory> {
    let mut links = Vec::new(alloc);
    for digits in all {
        links.push(client(alloc, digits)?)?;
    }
    MemNet::new(alloc, links, Vec::from_slice(alloc, fails)?)
}

/// A net to which a client comes whose link fails at once, and then one that goes away.
fn failing_net(alloc: Global) -> Result<MemNet, Memory> {
    let fails = Vec::from_slice(alloc, &[1])?;
    let mut links = Vec::new(alloc);
    links.push(MemLink::new(alloc, Vec::new(alloc), 0, 1, 1, Vec::new(alloc), fails)?)?;
    links.push(client(alloc, "")?)?;
    MemNet::new(alloc, links, Vec::new(alloc))
}

/// An ample sink, which takes at most 16 bytes a write, and whose calls of these numbers fail.
fn sink_of(alloc: Global, fails: &[u32]) -> Result<MemSink, Memory> {
    MemSink::new(alloc, 4_096, 16, Vec::from_slice(alloc, fails)?)
}

/// What was sent over the link that was taken back at this place, from 0; nothing where there is none.
fn sent_at(net: &MemNet, place: usize) -> &[u8] {
    match net.back().get(place) {
        Some(link) => link.sent(),
        None => &[],
    }
}

fn back_count(net: &MemNet) -> usize {
    net.back().len()
}

/// The program over this net and this sink.
fn run<N: Net>(alloc: Global, words: &str, net: &mut N, sink: &mut MemSink) -> Result<u8, Memory> {
    let mut source = MemSource::new(Vec::new(alloc), 1, Vec::new(alloc));
    let words = words_of(alloc, words)?;
    Ok(live_main(alloc, &words, &mut source, sink, net))
}

#[test]
fn one_client_is_answered(rt: HostRuntime) -> Result<(), Fail> {
    let alloc = rt.alloc();
    let asked = format!(in alloc; "{IMPORT}{ASK}")?;
    let mut net = net_of(alloc, &[asked.as_str()], &[])?;
    let mut sink = sink_of(alloc, &[])?;
    assert_eq!(rt; run(alloc, "serve x 1", &mut net, &mut sink)?, 0);
    assert_eq!(rt; sink.bytes(), b"connection 1 Closed\n".as_slice());
    assert_eq!(rt; back_count(&net), 1);
    assert_eq!(rt; sent_at(&net, 0).len(), REPLY_SIZE + ANSWER_SIZE);
    let answer = bytes_of(alloc, ANSWER)?;
    assert!(rt; sent_at(&net, 0).ends_with(answer.as_slice()));
    Ok(())
}

#[test]
fn three_clients_are_served_in_their_order(rt: HostRuntime) -> Result<(), Fail> {
    let alloc = rt.alloc();
    let mut net = net_of(alloc, &[DEVICE_LIST, "0000", IMPORT], &[])?;
    let mut sink = sink_of(alloc, &[])?;
    assert_eq!(rt; run(alloc, "serve x 3", &mut net, &mut sink)?, 0);
    let want = "connection 1 Closed\nconnection 2 Refused op version 0\nconnection 3 Closed\n";
    assert_eq!(rt; sink.bytes(), want.as_bytes());
    assert_eq!(rt; back_count(&net), 3);
    assert_eq!(rt; sent_at(&net, 0).len(), LIST_SIZE);
    assert_eq!(rt; sent_at(&net, 1).len(), 0);
    assert_eq!(rt; sent_at(&net, 2).len(), REPLY_SIZE);
    Ok(())
}

#[test]
fn a_link_that_fails_is_no_fault_of_the_net(rt: HostRuntime) -> Result<(), Fail> {
    let alloc = rt.alloc();
    let mut net = failing_net(alloc)?;
    let mut sink = sink_of(alloc, &[])?;
    assert_eq!(rt; run(alloc, "serve x 2", &mut net, &mut sink)?, 0);
    let want = "connection 1 LinkFault\nconnection 2 Closed\n";
    assert_eq!(rt; sink.bytes(), want.as_bytes());
    Ok(())
}

/// Whether two clients that go away are served so, over a net whose call of this number fails.
fn faults(alloc: Global, fail: u32, words: &str, status: u8, text: &str) -> Result<bool, Memory> {
    let mut net = net_of(alloc, &["", ""], &[fail])?;
    let mut sink = sink_of(alloc, &[])?;
    let left = run(alloc, words, &mut net, &mut sink)?;
    Ok(left == status && sink.bytes() == text.as_bytes())
}

#[test]
fn each_fault_of_the_net_is_said(rt: HostRuntime) -> Result<(), Fail> {
    let alloc = rt.alloc();
    assert!(rt;
        faults(alloc, 1, "serve x 1", 6, "net fault\n")?,
        "no listening"
    );
    assert!(rt;
        faults(alloc, 2, "serve x 1", 6, "net fault\n")?,
        "no connection"
    );
    let one = "connection 1 Closed\nnet fault\n";
    assert!(rt;
        faults(alloc, 3, "serve x 2", 6, one)?,
        "no second connection"
    );
    let two = "connection 1 Closed\nconnection 2 Closed\nnet fault\n";
    assert!(rt;
        faults(alloc, 9, "serve x 3", 6, two)?,
        "no third connection"
    );
    assert!(rt;
        faults(alloc, 9, "serve x 1", 0, "connection 1 Closed\n")?,
        "no fault"
    );
    Ok(())
}

/// Whether a sink whose write of this number fails leaves this text, and the net so many links.
fn breaks(alloc: Global, fail: u32, words: &str, text: &str, count: usize) -> Result<bool, Memory> {
    let mut net = net_of(alloc, &["", "", ""], &[])?;
    let mut sink = sink_of(alloc, &[fail])?;
    let left = run(alloc, words, &mut net, &mut sink)?;
    Ok(left == 4 && sink.bytes() == text.as_bytes() && back_count(&net) == count)
}

#[test]
fn a_failed_write_ends_the_serving(rt: HostRuntime) -> Result<(), Fail> {
    let alloc = rt.alloc();
    let front = "connection 1 Closed\nconnection 2 Clo";
    assert!(rt;
        breaks(alloc, 4, "serve x 3", front, 2)?,
        "in the second line"
    );
    assert!(rt; breaks(alloc, 1, "serve x 3", "", 1)?, "at the first line");
    assert!(rt; breaks(alloc, 1, "frob", "", 0)?, "at usage");
    Ok(())
}

/// What the program leaves and prints over a net to which nobody comes.
fn alone(alloc: Global, words: &str, status: u8, text: &str) -> Result<bool, Memory> {
    let mut net = net_of(alloc, &[], &[])?;
    let mut sink = sink_of(alloc, &[])?;
    let left = run(alloc, words, &mut net, &mut sink)?;
    Ok(left == status && sink.bytes() == text.as_bytes())
}

#[test]
fn knows_no_other_words(rt: HostRuntime) -> Result<(), Fail> {
    for words in [
        "",
        "serve",
        "serve x",
        "serve x 0",
        "serve x 01",
        "serve x +1",
        "serve x -1",
        "serve x 1001",
        "serve x 4294967297",
        "serve x one",
        "serve x 1 1",
        "Serve x 1",
        "ask",
        "x serve 1",
    ] {
        assert!(rt; alone(rt.alloc(), words, 1, "usage\n")?, "{words:?}");
    }
    for words in ["serve x 1", "serve x 9", "serve x 10", "serve x 1000"] {
        assert!(rt; alone(rt.alloc(), words, 6, "net fault\n")?, "{words:?}");
    }
    Ok(())
}

/// Whether the program as the shell runs it leaves this code and this text.
fn leaves(
    alloc: Global,
    words: Result<Vec<String>, WordsFault>,
    code: u8,
    text: &str,
) -> Result<bool, Memory> {
    let mut source = MemSource::new(Vec::new(alloc), 1, Vec::new(alloc));
    let mut net = net_of(alloc, &[], &[])?;
    let mut sink = sink_of(alloc, &[])?;
    let left = live_exit(alloc, words, &mut source, &mut sink, &mut net);
    Ok(left == ExitCode::from(code) && sink.bytes() == text.as_bytes())
}

#[test]
fn words_that_are_no_text_are_no_command(rt: HostRuntime) -> Result<(), Fail> {
    let alloc = rt.alloc();
    let words = words_of(alloc, "serve x 1")?;
    assert!(rt; leaves(alloc, Ok(words), 6, "net fault\n")?, "words");
    assert!(rt;
        leaves(alloc, Err(WordsFault::NotText), 1, "usage\n")?,
        "no text"
    );
    assert!(rt; leaves(alloc, Err(WordsFault::Memory), 5, "")?, "no memory");
    let behind = behind_name(words_of(alloc, "tmc_live serve x 1")?);
    assert_eq!(rt; behind.len(), 3);
    let fault = WordsFault::from(io::Error::from(io::ErrorKind::InvalidData));
    assert_eq!(rt; fault, WordsFault::NotText);
    Ok(())
}

/// Sends what these digits are, and reads so many bytes of the answer.
fn exchange(
    alloc: Global,
    stream: &mut TcpStream,
    digits: &str,
    size: usize,
) -> io::Result<Vec<u8>> {
    let Ok(request) = bytes_of(alloc, digits) else {
        return Err(io::Error::from(io::ErrorKind::OutOfMemory));
    };
    stream.write_all(&request)?;
    let mut answer = vec![in alloc; 0; size]?;
    stream.read_exact(&mut answer)?;
    Ok(answer)
}

/// A client that lists, imports, asks `*IDN?` and goes away, and the answer to what it asked.
fn list_and_ask(alloc: Global, stream: TcpStream) -> io::Result<Vec<u8>> {
    let mut stream = stream;
    stream.set_read_timeout(Some(Duration::from_secs(20)))?;
    exchange(alloc, &mut stream, DEVICE_LIST, LIST_SIZE)?;
    exchange(alloc, &mut stream, IMPORT, REPLY_SIZE)?;
    exchange(alloc, &mut stream, ASK, ANSWER_SIZE)
}

#[test]
fn a_client_of_tcp_is_served(rt: HostRuntime) -> Result<(), Fail> {
    let alloc = rt.alloc();
    let mut net = TcpNet::new(alloc, &rt);
    assert!(rt; net.listen("127.0.0.1:0").is_ok());
    let stream = TcpStream::connect(&rt, net.local_addr()?)?;
    let asking = thread::spawn(&rt, move || list_and_ask(alloc, stream))?;
    let mut sink = sink_of(alloc, &[])?;
    let status = run(alloc, "serve 127.0.0.1:0 1", &mut net, &mut sink)?;
    let answer = asking.join(&rt)?;
    let want = bytes_of(alloc, ANSWER)?;
    assert_eq!(rt; answer.as_slice(), want.as_slice());
    assert_eq!(rt; sink.bytes(), b"connection 1 Closed\n".as_slice());
    assert_eq!(rt; status, 0);
    Ok(())
}

#[test]
fn tcp_net_dials_what_listens(rt: HostRuntime) -> Result<(), Fail> {
    let alloc = rt.alloc();
    let mut net = TcpNet::new(alloc, &rt);
    assert_eq!(rt; net.listen("nowhere").err(), Some(NetFault::Failed));
    assert!(rt; net.listen("127.0.0.1:0").is_ok());
    let port = net.local_addr()?.port();
    assert!(rt; net.listen("127.0.0.1:0").is_ok());
    assert_eq!(rt;
        net.local_addr()?.port(),
        port,
        "the address that it listens to already"
    );
    let address = format!(in alloc; "127.0.0.1:{port}")?;
    let mut far = TcpNet::new(alloc, &rt);
    assert_eq!(rt;
        far.listen(address.as_str()).err(),
        Some(NetFault::Failed),
        "the port is in use"
    );
    let Ok(mut dialled) = far.dial(address.as_str()) else {
        return Ok(assert!(rt; false, "the dial failed"));
    };
    let Ok(mut accepted) = net.accept() else {
        return Ok(assert!(rt; false, "the accept failed"));
    };
    let mut buf = [0; 8];
    assert_eq!(rt; dialled.send(b"abc"), SendStep::Took(3));
    assert_eq!(rt; accepted.poll(&mut buf), PollStep::Got(3));
    far.done(dialled);
    net.done(accepted);
    Ok(())
}
