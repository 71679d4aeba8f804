ghost use Rattle.std.specs.Prelude.{◌≡◌, ◌^◌, ◌<◌, ◌≤◌, length};

use super::*;
use host_urbs::Urbs;
use std::alloc::Global;
use std::test::Fail;
use tmc_base::{Field, Layer, Memory, Name};
use tmc_wire::OutHeader;

/// The tag of the request that is answered, and the size of it.
const TAG: u8 = 5;

const SIZE: u32 = 4_084;

/// A response's header with this tag, for so many bytes of data, and with these attributes.
fn header(tag: u8, size: u32, attributes: u8) -> [u8; 12] {
    let size = size.to_le_bytes();
    [
        2, tag, !tag, 0, size[0], size[1], size[2], size[3], attributes, 0, 0, 0,
    ]
}

/// A transfer with this header and this data, and zeros behind it.
fn transfer(
    alloc: Global,
    header: [u8; 12],
    text: &[u8],
    behind: &[u8],
) -> Result<Vec<u8>, Memory> {
    let mut bytes = header.to_vec(alloc)?;
    bytes.extend_from_slice(text)?;
    bytes.extend_from_slice(behind)?;
    Ok(bytes)
}

/// What is said of a transfer that comes in two reads, where the first one does not end it.
fn read_twice(first: &[u8], second: &[u8]) -> (Piece, Option<Piece>)
    requires first { length first.now < 2 ^ 32 }
    requires second { length second.now < 2 ^ 32 }
{
    let mut assembly = Assembly::new(TAG, SIZE);
    let said = assembly.feed(first, false);
    match said {
        Piece::Data { .. } => (said, Some(assembly.feed(second, true))),
        _ => (said, None),
    }
}

/// The data of a read.
fn data_of(piece: Piece, read: &[u8]) -> &[u8] {
    match piece {
        Piece::Data { from, to } | Piece::Ended { from, to, .. } => {
            read.get(from as usize..to as usize).unwrap_or(&[])
        }
        Piece::Bad(_) => &[],
    }
}

#[test]
fn responses_in_two_reads(rt: HostRuntime) -> Result<(), Fail> {
    let text = [b'x'; 4_084];
    for (size, padding) in [(1u32, 3), (3, 1), (4, 0), (52, 0), (4_084, 0)] {
        let text = &text[..size as usize];
        for (attributes, eom) in [(0, false), (1, true), (2, false), (3, true)] {
            let bytes = transfer(
                rt.alloc(),
                header(TAG, size, attributes),
                text,
                &[b'?'; 3][..padding],
            )?;
            assert!(rt; bytes.len() <= 4_096);
            for cut in [0, 1, 11, 12, 13, 64, 512, 4_095, 4_096] {
                let (first, second) = bytes.split_at(cut.min(bytes.len()));
                let (said, ended) = read_twice(first, second);
                let ended = ended.ok_or("refused")?;
                let mut data = data_of(said, first).to_vec(rt.alloc())?;
                data.extend_from_slice(data_of(ended, second))?;
                assert_eq!(rt; data.as_slice(), text, "{size} bytes cut at {cut}");
                let Piece::Ended { eom: said, .. } = ended else {
                    return Err("refused".into());
                };
                assert_eq!(rt; said, eom, "{size} bytes cut at {cut}");
            }
        }
    }
    Ok(())
}

fn bulk(name: Name, offset: u32) -> Field {
    Field {
        layer: Layer::Bulk,
        name,
        offset,
    }
}

#[test]
fn first_refused_field(rt: HostRuntime) {
    let msg_id = [1, 5, 0xFA, 0, 1, 0, 0, 0, 1, 0, 0, 0];
    let inverse = [2, 5, 0xFB, 0, 0, 0, 0, 0, 1, 0, 0, 0];
    let cases: [([u8; 12], &[u8], Field); 10] = [
        (msg_id, b"a\0\0\0", bulk(Name::MsgId, 0)),
        (header(0, 1, 1), b"a\0\0\0", bulk(Name::Tag, 1)),
        (inverse, b"a\0\0\0", bulk(Name::Inverse, 2)),
        (header(TAG, 0, 1), b"", bulk(Name::Size, 4)),
        // of another request, and whatever its size is
        (header(6, 1, 1), b"a\0\0\0", bulk(Name::Tag, 1)),
        (header(6, 4_085, 1), b"a\0\0\0", bulk(Name::Tag, 1)),
        // more than was requested, and whatever its length is
        (header(TAG, 4_085, 1), b"a\0\0\0", bulk(Name::Size, 4)),
        // cut, and with 4 bytes behind its data
        (header(TAG, 3, 1), b"ab", bulk(Name::Length, 12)),
        (header(TAG, 3, 1), b"abc\0\0\0\0", bulk(Name::Length, 12)),
        (header(TAG, 4, 1), b"abcd\0\0\0\0", bulk(Name::Length, 12)),
    ];
    for (header, behind, field) in cases {
        let refused = Some(Piece::Bad(field));
        let (said, ended) = read_twice(&header, behind);
        let last = if let Piece::Bad(_) = said {
            Some(said)
        } else {
            ended
        };
        assert_eq!(rt; last, refused, "{header:?}, then {behind:?}");
    }
    let cut = header(TAG, 1, 1);
    let (_, ended) = read_twice(&cut[..4], &cut[4..11]);
    assert_eq!(rt; ended, Some(Piece::Bad(bulk(Name::Length, 12))));
}

#[test]
fn messages_in_parts(rt: HostRuntime) -> Result<(), Fail> {
    let message = [b'm'; 4_096];
    for (size, parts) in [(1, 1), (1_024, 1), (1_025, 2), (4_096, 4)] {
        let message = &message[..size];
        let mut joined = Vec::new(rt.alloc());
        for count in 0..parts {
            if 1_024 * count < message.len() {
                let part = part_of(message, count);
                assert_eq!(rt;
                    part.eom,
                    count + 1 == parts,
                    "part {count} of {size} bytes"
                );
                joined.extend_from_slice(part.text)?;
            }
        }
        assert_eq!(rt; joined.as_slice(), message);
    }
    Ok(())
}

#[test]
fn transfers_with_their_tags(rt: HostRuntime) -> Result<(), Fail> {
    let mut tags = Tags::new();
    let tag = tags.draw();
    let mut urbs = Urbs::new(rt.alloc(), 0x0001_0002, 3)?;
    let header = OutHeader::Message {
        tag,
        size: 6,
        eom: true,
    };
    assert!(rt; urbs.outbox().is_empty());
    assert_eq!(rt; submit_transfer(&mut urbs, 1, header, b"*IDN?\n"), 3);
    let written = urbs.outbox();
    assert_eq!(rt; written.len(), 68);
    let transfer = b"\x01\x01\xFE\0\x06\0\0\0\x01\0\0\0*IDN?\n\0\0";
    assert_eq!(rt; &written[48..], transfer.as_slice());
    for _ in 1..255 {
        tags.draw();
    }
    assert_eq!(rt; tags.draw(), 1);
    Ok(())
}
