use crate::{LineFault, LineWhat, put_shown, script_limits_are_the_products};
use std::alloc::Global;
use std::process::Abort;
use std::test::Fail;
use usbip_wire::Dir;

/// What stands in the buffer before each call.
const BEFORE: &str = "before\n";

/// Shows a script, and hands back what is behind the text that was there before.
fn show(alloc: Global, way: Dir, source: &[u8]) -> Result<(Result<(), LineFault>, String), Fail> {
    let mut out = Vec::from_slice(alloc, BEFORE.as_bytes())?;
    let answer = put_shown(way, source, &mut out);
    let text = String::from_utf8(out).unwrap_or(String::new(alloc));
    let behind = text.as_str().strip_prefix(BEFORE).unwrap_or("lost");
    Ok((answer, String::from_str(alloc, behind)?))
}

fn prints(rt: &impl Abort, alloc: Global, way: Dir, source: &[u8], want: &str) -> Result<(), Fail> {
    let (answer, text) = show(alloc, way, source)?;
    assert_eq!(rt; answer, Ok(()), "{source:?}");
    assert_eq!(rt; text.as_str(), want, "{source:?}");
    Ok(())
}

fn refuses(
    rt: &impl Abort,
    alloc: Global,
    way: Dir,
    source: &[u8],
    line: u32,
    what: LineWhat,
) -> Result<(), Fail> {
    let (answer, text) = show(alloc, way, source)?;
    assert_eq!(rt; answer, Err(LineFault::At { line, what }), "{source:?}");
    assert_eq!(rt; text.as_str(), "", "{source:?}");
    Ok(())
}

#[test]
fn prints_the_worked_scripts(rt: HostRuntime) -> Result<(), Fail> {
    for (way, source, want) in [
        (
            Dir::In,
            "phase urb\nsubmit 1 out 20\nbytes 0000000300000007",
            "bad urb seqnum 4\n",
        ),
        (
            Dir::In,
            "phase urb\nsubmit 1 in 64\nbytes 00000003000000010000000000000000000000000000000000000041",
            "bad urb actual_length 24\n",
        ),
        (Dir::Out, "phase urb\nbytes 00000005", "bad urb command 0\n"),
        (
            Dir::Out,
            "phase op\nbytes 0111800300000000312d310000000000000000000000000000000000000000000000000000000000",
            "import 312d31\nmore 0\n",
        ),
        (
            Dir::Out,
            "phase op\nbytes 0111800300000000312d3100000000000000000000000000000000000000000000000000000000",
            "more 39\n",
        ),
        (Dir::Out, "phase op", "more 0\n"),
        (
            Dir::In,
            "phase urb\nunlink 5\nbytes 0000000400000005000000000000000000000000ffffff98000000000000000000000000000000000000000000000000",
            "ret_unlink 5 -104\nmore 0\n",
        ),
    ] {
        prints(&rt, rt.alloc(), way, source.as_bytes(), want)?;
    }
    Ok(())
}

#[test]
fn refuses_the_worked_scripts(rt: HostRuntime) -> Result<(), Fail> {
    for (way, source, line, what) in [
        (Dir::Out, "", 1, LineWhat::Unknown),
        (Dir::In, "phase urb\nsubmit 1 in 70001", 2, LineWhat::Number),
        (
            Dir::In,
            "phase urb\nsubmit 1 in 4\nunlink 1",
            3,
            LineWhat::Twice,
        ),
    ] {
        refuses(&rt, rt.alloc(), way, source.as_bytes(), line, what)?;
    }
    Ok(())
}

#[test]
fn prints_each_kind_of_message(rt: HostRuntime) -> Result<(), Fail> {
    for (way, source, want) in [
        (
            Dir::Out,
            "phase op\nbytes 01118005000000000111800300000000312d31000000000000000000000000000000000000000000000000000000000001118003000000070000000000000000000000000000000000000000000000000000000000000000",
            "devlist\nimport 312d31\nimport -\nmore 0\n",
        ),
        (
            Dir::Out,
            "phase urb\nbytes 0000000100000007000100020000000000000001000000000000000300000000ffffffff0000000001020304050607086162630000000100000008000100020000000100000002000000000000100000000000ffffffff000000000102030405060708\nbytes 000000020000000900010002000000000000000000000008000000000000000000000000000000000000000000000000",
            "submit 7 out 1 3 0102030405060708 616263\nsubmit 8 in 2 4096 0102030405060708 -\nunlink 9 8\nmore 0\n",
        ),
        (
            Dir::In,
            "phase op\nbytes 0111000500000000000000012f737973000000000000000000000000000000000000000000000000000000000000000000000000000000000000000000000000000000000000000000000000000000000000000000000000000000000000000000000000000000000000000000000000000000000000000000000000000000000000000000000000000000000000000000000000000000000000000000000000000000000000000000000000000000000000000000000000000000000000000000000000000000000000000000000000000000000000000000000000000000000000000000000000000000000000000000000000000000000000000000000000000000000000000000000000312d310000000000000000000000000000000000000000000000000000000000000000010000000200000003f05504880100000000010102fe03010003010200",
            "count 0 1\ndevice 312d31\ninterface 254 3 1\ninterface 3 1 2\nmore 0\n",
        ),
        (
            Dir::In,
            "phase op\nbytes 01110003000000002f737973000000000000000000000000000000000000000000000000000000000000000000000000000000000000000000000000000000000000000000000000000000000000000000000000000000000000000000000000000000000000000000000000000000000000000000000000000000000000000000000000000000000000000000000000000000000000000000000000000000000000000000000000000000000000000000000000000000000000000000000000000000000000000000000000000000000000000000000000000000000000000000000000000000000000000000000000000000000000000000000000000000000000000000000000322d332e34000000000000000000000000000000000000000000000000000000000000010000000200000003f05504880100000000010101\nbytes 0111000300000001",
            "reply 0 322d332e34\nreply 1 -\nmore 0\n",
        ),
        (
            Dir::In,
            "phase urb\nsubmit 1 in 64\nsubmit 2 out 3\nsubmit 3 in 8\nunlink 4\nbytes 0000000300000001000000000000000000000000000000000000000200000000ffffffff000000000000000000000000310a0000000300000002000000000000000000000000ffffffe00000000300000000ffffffff0000000000000000000000000000000300000003000000000000000000000000ffffff940000000000000000ffffffff0000000000000000000000000000000400000004000000000000000000000000ffffff98000000000000000000000000000000000000000000000000",
            "ret_submit 1 0 2 310a\nret_submit 2 -32 3 -\nret_submit 3 -108 0 -\nret_unlink 4 -104\nmore 0\n",
        ),
    ] {
        prints(&rt, rt.alloc(), way, source.as_bytes(), want)?;
    }
    Ok(())
}

#[test]
fn refuses_a_line_for_its_first_fault(rt: HostRuntime) -> Result<(), Fail> {
    for (way, source, line, what) in [
        (Dir::Out, "\n", 1, LineWhat::Unknown),
        (Dir::Out, "bytes -", 1, LineWhat::Unknown),
        (Dir::Out, "phases op", 1, LineWhat::Unknown),
        (Dir::Out, "phase", 1, LineWhat::Words),
        (Dir::Out, "phase op urb", 1, LineWhat::Words),
        (Dir::Out, "phase Op", 1, LineWhat::Words),
        (Dir::Out, "phase op ", 1, LineWhat::Words),
        (Dir::Out, "phase op\nphase op", 2, LineWhat::Unknown),
        (Dir::Out, "phase op\nhop", 2, LineWhat::Unknown),
        (Dir::Out, "phase op\n\nbytes -", 2, LineWhat::Unknown),
        (Dir::Out, "phase urb\nsubmit 1 in 4", 2, LineWhat::Unknown),
        (Dir::Out, "phase urb\nunlink 1", 2, LineWhat::Unknown),
        (Dir::Out, "phase op\nbytes", 2, LineWhat::Words),
        (Dir::Out, "phase op\nbytes 00 00", 2, LineWhat::Words),
        (Dir::Out, "phase op\nbytes  00", 2, LineWhat::Words),
        (Dir::Out, "phase op\nbytes 0", 2, LineWhat::Hex),
        (Dir::Out, "phase op\nbytes 0A", 2, LineWhat::Hex),
        (Dir::Out, "phase op\nbytes 0g", 2, LineWhat::Hex),
        (Dir::Out, "phase op\nbytes ", 2, LineWhat::Hex),
        (Dir::Out, "phase op\nbytes --", 2, LineWhat::Hex),
        (Dir::In, "phase op\nsubmit 1 in", 2, LineWhat::Words),
        (Dir::In, "phase op\nsubmit 1 over 4", 2, LineWhat::Words),
        (Dir::In, "phase op\nsubmit x over 4", 2, LineWhat::Words),
        (Dir::In, "phase op\nsubmit x in 4", 2, LineWhat::Number),
        (Dir::In, "phase op\nsubmit 01 in 4", 2, LineWhat::Number),
        (Dir::In, "phase op\nsubmit +1 in 4", 2, LineWhat::Number),
        (
            Dir::In,
            "phase op\nsubmit 4294967296 in 4",
            2,
            LineWhat::Number,
        ),
        (Dir::In, "phase op\nsubmit 1 in -", 2, LineWhat::Number),
        (Dir::In, "phase op\nunlink", 2, LineWhat::Words),
        (Dir::In, "phase op\nunlink 1 2", 2, LineWhat::Words),
        (Dir::In, "phase op\nunlink -1", 2, LineWhat::Number),
        (
            Dir::In,
            "phase op\nunlink 1\nsubmit 1 in 4",
            3,
            LineWhat::Twice,
        ),
        (
            Dir::In,
            "phase op\nunlink 1\nsubmit 1 in 70001",
            3,
            LineWhat::Number,
        ),
    ] {
        refuses(&rt, rt.alloc(), way, source.as_bytes(), line, what)?;
    }
    Ok(())
}

#[test]
fn takes_what_no_line_refuses(rt: HostRuntime) -> Result<(), Fail> {
    for (way, source, want) in [
        (Dir::Out, "phase op\n", "more 0\n"),
        (Dir::Out, "phase urb\nbytes -\nbytes -\n", "more 0\n"),
        (
            Dir::In,
            "phase op\nsubmit 4294967295 in 70000\nunlink 0",
            "more 0\n",
        ),
    ] {
        prints(&rt, rt.alloc(), way, source.as_bytes(), want)?;
    }
    Ok(())
}

#[test]
fn answered_numbers_leave_the_list(rt: HostRuntime) -> Result<(), Fail> {
    for (way, source, want) in [
        (
            Dir::In,
            "phase urb\nunlink 0\nunlink 1\nunlink 2\nunlink 3\nunlink 4\nunlink 5\nunlink 6\nunlink 7\nunlink 8\nunlink 9\nunlink 10\nunlink 11\nunlink 12\nunlink 13\nunlink 14\nunlink 15\nbytes 000000040000000300000000000000000000000000000000000000000000000000000000000000000000000000000000\nunlink 16",
            "ret_unlink 3 0\nmore 0\n",
        ),
        (
            Dir::In,
            "phase urb\nsubmit 1 in 4\nbytes 0000000300000001000000000000000000000000000000000000000100000000ffffffff00000000000000000000000041\nsubmit 1 in 4\nbytes 0000000300000001000000000000000000000000000000000000000200000000ffffffff0000000000000000000000004142",
            "ret_submit 1 0 1 41\nret_submit 1 0 2 4142\nmore 0\n",
        ),
        (
            Dir::In,
            "phase urb\nsubmit 1 in 4\nbytes 0000000300000001000000000000000000000000000000000000000100000000ffffffff000000000000000000000000410000000300000001000000000000000000000000000000000000000100000000ffffffff00000000000000000000000041",
            "ret_submit 1 0 1 41\nbad urb seqnum 4\n",
        ),
        (
            Dir::In,
            "phase urb\nsubmit 1 in 4\nbytes 0000000300000001000000000000000000000000000000000000000200000000ffffffff00000000000000000000000041\nsubmit 2 out 4\nbytes 420000000300000002000000000000000000000000000000000000000400000000ffffffff000000000000000000000000",
            "ret_submit 1 0 2 4142\nret_submit 2 0 4 -\nmore 0\n",
        ),
    ] {
        prints(&rt, rt.alloc(), way, source.as_bytes(), want)?;
    }
    Ok(())
}

#[test]
fn refuses_a_number_twice_and_a_17th_entry(rt: HostRuntime) -> Result<(), Fail> {
    for (way, source, line, what) in [
        (
            Dir::In,
            "phase urb\nunlink 0\nunlink 1\nunlink 2\nunlink 3\nunlink 4\nunlink 5\nunlink 6\nunlink 7\nunlink 8\nunlink 9\nunlink 10\nunlink 11\nunlink 12\nunlink 13\nunlink 14\nunlink 15\nunlink 16",
            18,
            LineWhat::TooMany,
        ),
        (
            Dir::In,
            "phase urb\nunlink 0\nunlink 1\nunlink 2\nunlink 3\nunlink 4\nunlink 5\nunlink 6\nunlink 7\nunlink 8\nunlink 9\nunlink 10\nunlink 11\nunlink 12\nunlink 13\nunlink 14\nunlink 15\nunlink 15",
            18,
            LineWhat::Twice,
        ),
        (
            Dir::In,
            "phase urb\nsubmit 1 in 4\nunlink 2\nbytes 0000000400000002000000000000000000000000ffffff98000000000000000000000000000000000000000000000000\nsubmit 1 in 4",
            5,
            LineWhat::Twice,
        ),
    ] {
        refuses(&rt, rt.alloc(), way, source.as_bytes(), line, what)?;
    }
    Ok(())
}

#[test]
fn prints_nothing_behind_a_bad_field(rt: HostRuntime) -> Result<(), Fail> {
    for (way, source, want) in [
        (
            Dir::Out,
            "phase op\nbytes 01118005000000000112\nbytes 0111800500000000",
            "devlist\nbad op version 0\n",
        ),
        (
            Dir::Out,
            "phase urb\nbytes 0000000100000001000100020000000200000001000000000000000000000000ffffffff000000000102030405060708",
            "bad urb direction 12\n",
        ),
        (
            Dir::Out,
            "phase urb\nbytes 0000000100000001000100020000000000000010000000000000000000000000ffffffff000000000102030405060708",
            "bad urb endpoint 16\n",
        ),
        (
            Dir::Out,
            "phase urb\nbytes 0000000100000001000100020000000000000001000000000001117100000000ffffffff000000000102030405060708",
            "bad urb buffer_length 24\n",
        ),
        (
            Dir::Out,
            "phase urb\nbytes 000000010000000100010002000000000000000100000000000000000000000000000001000000000102030405060708",
            "bad urb packets 32\n",
        ),
        (
            Dir::Out,
            "phase urb\nbytes 0000000100000001000100030000000000000001000000000000000000000000ffffffff000000000102030405060708",
            "bad urb devid 8\n",
        ),
        (Dir::In, "phase op\nbytes 01110006", "bad op code 2\n"),
    ] {
        prints(&rt, rt.alloc(), way, source.as_bytes(), want)?;
    }
    Ok(())
}

#[test]
fn refuses_a_line_behind_a_bad_field(rt: HostRuntime) -> Result<(), Fail> {
    for (way, source, line, what) in [
        (Dir::Out, "phase op\nbytes 0112\nbytes 0", 3, LineWhat::Hex),
        (
            Dir::In,
            "phase urb\nsubmit 1 in 4\nbytes 0000000300000001000000000000000000000000000000000000000000000000ffffffff00000000000000000000000000000005\nunlink 1\nunlink 2\nbytes 000000040000000100000000000000000000000000000000000000000000000000000000000000000000000000000000\nsubmit 1 in 4",
            7,
            LineWhat::Twice,
        ),
    ] {
        refuses(&rt, rt.alloc(), way, source.as_bytes(), line, what)?;
    }
    Ok(())
}

const CLIENT_STREAM: &str =
    "0000000100000007000100020000000000000001000000000000000300000000ffffffff000000000102030405060708616263000000020000000900010002000000000000000000000008000000000000000000000000000000000000000000000000";

const DEVICE_STREAM: &str =
    "0000000300000001000000000000000000000000ffffffe00000000200000000ffffffff000000000000000000000000310a0000000400000004000000000000000000000000ffffff98000000000000000000000000000000000000000000000000";

/// A script with a piece for each of these parts of a stream.
fn in_pieces(alloc: Global, head: &str, pieces: &[&[u8]]) -> Result<Vec<u8>, Fail> {
    let mut source = Vec::from_slice(alloc, head.as_bytes())?;
    for piece in pieces {
        source.extend_from_slice(b"bytes ")?;
        source.extend_from_slice(piece)?;
        source.push(b'\n')?;
    }
    Ok(source)
}

#[test]
fn pieces_are_one_stream(rt: HostRuntime) -> Result<(), Fail> {
    let alloc = rt.alloc();
    for (way, head, stream, want) in [
        (
            Dir::Out,
            "phase urb\n",
            CLIENT_STREAM,
            "submit 7 out 1 3 0102030405060708 616263\nunlink 9 8\nmore 0\n",
        ),
        (
            Dir::In,
            "phase urb\nsubmit 1 in 64\nunlink 4\n",
            DEVICE_STREAM,
            "ret_submit 1 -32 2 310a\nret_unlink 4 -104\nmore 0\n",
        ),
    ] {
        for at in 1..stream.len() / 2 {
            let (front, back) = stream.as_bytes().split_at(2 * at);
            let source = in_pieces(alloc, head, &[front, b"-", back])?;
            prints(&rt, alloc, way, &source, want)?;
        }
    }
    Ok(())
}

#[test]
fn counts_the_bytes_of_an_unfinished_message(rt: HostRuntime) -> Result<(), Fail> {
    let alloc = rt.alloc();
    for at in 1..51usize {
        let (front, _back) = CLIENT_STREAM.as_bytes().split_at(2 * at);
        let source = in_pieces(alloc, "phase urb\n", &[front])?;
        let want = format!(in alloc; "more {at}\n")?;
        prints(&rt, alloc, Dir::Out, &source, want.as_str())?;
    }
    Ok(())
}

/// A script whose second line is so many spaces. Its first word is empty, which is no known one.
fn long_line(alloc: Global, count: usize) -> Result<Vec<u8>, Fail> {
    let mut line = Vec::from_slice(alloc, b"phase op\n")?;
    for _ in 0..count {
        line.push(b' ')?;
    }
    Ok(line)
}

#[test]
fn judges_a_line_by_its_length_first(rt: HostRuntime) -> Result<(), Fail> {
    for (count, what) in [(16_384, LineWhat::Unknown), (16_385, LineWhat::TooLong)] {
        let source = long_line(rt.alloc(), count)?;
        refuses(&rt, rt.alloc(), Dir::Out, &source, 2, what)?;
    }
    Ok(())
}

#[test]
fn takes_65536_lines(rt: HostRuntime) -> Result<(), Fail> {
    script_limits_are_the_products();
    let mut source = Vec::from_slice(rt.alloc(), b"phase op\n")?;
    for _ in 0..65_535 {
        source.extend_from_slice(b"bytes -\n")?;
    }
    prints(&rt, rt.alloc(), Dir::In, &source, "more 0\n")?;
    source.extend_from_slice(b"hop")?;
    refuses(&rt, rt.alloc(), Dir::In, &source, 65_537, LineWhat::TooMany)
}

/// The header of a submit of 70,000 bytes to the device.
const LONG_SUBMIT: &[u8] =
    b"0000000100000001000100020000000000000001000000000001117000000000ffffffff000000000102030405060708";

#[test]
fn takes_a_long_submit_byte_by_byte(rt: HostRuntime) -> Result<(), Fail> {
    let mut source = in_pieces(rt.alloc(), "phase urb\n", &[LONG_SUBMIT])?;
    for _ in 0..65_534 {
        source.extend_from_slice(b"bytes 61\n")?;
    }
    prints(&rt, rt.alloc(), Dir::Out, &source, "more 65582\n")
}
