ghost use Rattle.std.specs.Prelude.{◌≡◌};

use super::*;
use bytes::BytesMut;
use std::process::Abort;
use std::test::Fail;
use tmc_base::{Field, Layer, Name};

/// The device that the readers await messages to: bus 1, device 2.
const DEVICE: u32 = 0x0001_0002;

const RECORD: DeviceRecord = DeviceRecord {
    path: [b'p'; 256],
    busid: [b'b'; 32],
    busnum: 1,
    devnum: 2,
    speed: 3,
    id_vendor: 0xF055,
    id_product: 0x0488,
    bcd_device: 0x0100,
    device_class: 4,
    device_subclass: 5,
    device_protocol: 6,
    configuration_value: 7,
    configurations: 8,
    interfaces: 2,
};

const UNLINK: UnlinkHead = UnlinkHead {
    seqnum: 9,
    devid: DEVICE,
    target: 8,
};

/// The submit 7 to the device, with its data.
const SUBMIT_OUT: &[u8] = &[
    0, 0, 0, 1, // command
    0, 0, 0, 7, // seqnum
    0, 1, 0, 2, // devid
    0, 0, 0, 0, // direction
    0, 0, 0, 1, // ep
    0, 0, 0, 0, // transfer_flags
    0, 0, 0, 3, // transfer_buffer_length
    0, 0, 0, 0, // start_frame
    0xFF, 0xFF, 0xFF, 0xFF, // number_of_packets
    0, 0, 0, 0, // interval
    1, 2, 3, 4, 5, 6, 7, 8, // setup
    b'a', b'b', b'c', // data
];

/// The submit 8 from the device.
const SUBMIT_IN: &[u8] = &[
    0, 0, 0, 1, // command
    0, 0, 0, 8, // seqnum
    0, 1, 0, 2, // devid
    0, 0, 0, 1, // direction
    0, 0, 0, 1, // ep
    0, 0, 0, 0, // transfer_flags
    0, 0, 0x10, 0, // transfer_buffer_length
    0, 0, 0, 0, // start_frame
    0xFF, 0xFF, 0xFF, 0xFF, // number_of_packets
    0, 0, 0, 0, // interval
    1, 2, 3, 4, 5, 6, 7, 8, // setup
];

/// The unlink 9 of the submit 8.
const UNLINKED: &[u8] = &[
    0, 0, 0, 2, // command
    0, 0, 0, 9, // seqnum
    0, 1, 0, 2, // devid
    0, 0, 0, 0, // direction
    0, 0, 0, 0, // ep
    0, 0, 0, 8, // unlink_seqnum
    0, 0, 0, 0, 0, 0, 0, 0, 0, 0, 0, 0, 0, 0, 0, 0, 0, 0, 0, 0, 0, 0, 0, 0, // padding
];

/// The submit 8 from the device, with 0 packets in place of 0xffffffff.
const SUBMIT_IN_NO_PACKETS: &[u8] = &[
    0, 0, 0, 1, // command
    0, 0, 0, 8, // seqnum
    0, 1, 0, 2, // devid
    0, 0, 0, 1, // direction
    0, 0, 0, 1, // ep
    0, 0, 0, 0, // transfer_flags
    0, 0, 0x10, 0, // transfer_buffer_length
    0, 0, 0, 0, // start_frame
    0, 0, 0, 0, // number_of_packets
    0, 0, 0, 0, // interval
    1, 2, 3, 4, 5, 6, 7, 8, // setup
];

/// The unlink 9 of the submit 8, with a direction and an endpoint of no submit.
const UNLINKED_ELSEWHERE: &[u8] = &[
    0, 0, 0, 2, // command
    0, 0, 0, 9, // seqnum
    0, 1, 0, 2, // devid
    0, 0, 0, 7, // direction
    0, 0, 0, 0x63, // ep
    0, 0, 0, 8, // unlink_seqnum
    0, 0, 0, 0, 0, 0, 0, 0, 0, 0, 0, 0, 0, 0, 0, 0, 0, 0, 0, 0, 0, 0, 0, 0, // padding
];

fn field(layer: Layer, name: Name, offset: u32) -> Field {
    Field {
        layer,
        name,
        offset,
    }
}

fn submit(seqnum: u32, dir: Dir, length: u32) -> SubmitHead
    ensures { (result.ep ≡ 1) × (result.dir ≡ dir) × (result.length ≡ length) }
{
    SubmitHead {
        seqnum,
        devid: DEVICE,
        dir,
        ep: 1,
        length,
        setup: [1, 2, 3, 4, 5, 6, 7, 8],
    }
}

fn count(status: u32, devices: u32) -> Down {
    Down::Count { status, devices }
}

fn interface(class: u8, subclass: u8, protocol: u8) -> Down {
    Down::Interface {
        class,
        subclass,
        protocol,
    }
}

/// Feeds a client's message byte by byte.
fn told_up(rt: &impl Abort, mut reader: UpReader, text: &[u8], what: Up, data: &[u8]) {
    assert!(rt; !text.is_empty());
    let (front, last) = text.split_at(text.len() - 1);
    for byte in front {
        assert_eq!(rt;
            reader.feed(&[*byte]),
            UpStep {
                used: 1,
                what: Up::More
            }
        );
        assert!(rt; reader.data().is_empty());
    }
    assert_eq!(rt; reader.feed(last), UpStep { used: 1, what });
    assert_eq!(rt; reader.data(), data);
}

/// Feeds a client's bytes, the last of which is the last of a refused field.
fn refused_up(rt: &impl Abort, mut reader: UpReader, text: &[u8], refused: Field) {
    let what = Up::Bad(refused);
    assert!(rt; !text.is_empty());
    let (front, last) = text.split_at(text.len() - 1);
    assert_eq!(rt; reader.feed(front).what, Up::More);
    assert_eq!(rt; reader.feed(last), UpStep { used: 1, what });
    assert!(rt; reader.data().is_empty());
    assert_eq!(rt; reader.feed(text), UpStep { used: 0, what });
    assert!(rt; reader.data().is_empty());
}

/// Feeds a device's bytes in two pieces.
fn told_down(
    rt: &impl Abort,
    mut reader: DownReader,
    dirs: &Dirs,
    pieces: (&[u8], &[u8]),
    parts: &[(Down, &[u8])],
) {
    let (mut front, mut back) = pieces;
    for (part, data) in parts {
        let mut step = reader.feed(front, dirs);
        front = &front[step.used..];
        if step.what == Down::More {
            assert!(rt; reader.data().is_empty());
            step = reader.feed(back, dirs);
            back = &back[step.used..];
        }
        assert_eq!(rt; step.what, *part);
        assert_eq!(rt; reader.data(), *data);
    }
    assert!(rt; front.is_empty());
    assert!(rt; back.is_empty());
}

/// Feeds a device's bytes one by one.
fn told_down_by_bytes(
    rt: &impl Abort,
    mut reader: DownReader,
    dirs: &Dirs,
    text: &[u8],
    parts: &[(Down, &[u8])],
) {
    let mut left = parts.iter();
    for byte in text {
        let step = reader.feed(&[*byte], dirs);
        assert_eq!(rt; step.used, 1);
        if step.what == Down::More {
            assert!(rt; reader.data().is_empty());
        } else {
            assert_eq!(rt; left.next(), Some(&(step.what, reader.data())));
        }
    }
    assert_eq!(rt; left.next(), None);
}

/// Feeds a device's bytes, the last of which is the last of a refused field.
fn refused_down(rt: &impl Abort, mut reader: DownReader, dirs: &Dirs, text: &[u8], refused: Field) {
    let what = Down::Bad(refused);
    assert!(rt; !text.is_empty());
    let (front, last) = text.split_at(text.len() - 1);
    assert_eq!(rt; reader.feed(front, dirs).what, Down::More);
    assert_eq!(rt; reader.feed(last, dirs), DownStep { used: 1, what });
    assert!(rt; reader.data().is_empty());
    assert_eq!(rt; reader.feed(text, dirs), DownStep { used: 0, what });
    assert!(rt; reader.data().is_empty());
}

#[test]
fn client_messages_written(rt: HostRuntime) -> Result<(), Fail> {
    let mut out = BytesMut::with_capacity(rt.alloc(), 51)?;
    put_submit(submit(7, Dir::Out, 3), b"abc", &mut out);
    assert_eq!(rt; out.as_slice(), SUBMIT_OUT);
    let mut out = BytesMut::with_capacity(rt.alloc(), 48)?;
    put_submit(submit(8, Dir::In, 4096), &[], &mut out);
    assert_eq!(rt; out.as_slice(), SUBMIT_IN);
    let mut out = BytesMut::with_capacity(rt.alloc(), 48)?;
    put_unlink(UNLINK, &mut out);
    assert_eq!(rt; out.as_slice(), UNLINKED);
    Ok(())
}

#[test]
fn client_messages_cut_at_every_place(rt: HostRuntime) -> Result<(), Fail> {
    let cases: [(&[u8], Up, &[u8]); 5] = [
        (SUBMIT_OUT, Up::Submit(submit(7, Dir::Out, 3)), b"abc"),
        (SUBMIT_IN, Up::Submit(submit(8, Dir::In, 4096)), b""),
        (UNLINKED, Up::Unlink(UNLINK), b""),
        (
            SUBMIT_IN_NO_PACKETS,
            Up::Submit(submit(8, Dir::In, 4096)),
            b"",
        ),
        (UNLINKED_ELSEWHERE, Up::Unlink(UNLINK), b""),
    ];
    for (text, what, data) in cases {
        for cut in 0..text.len() {
            let mut reader = UpReader::urbs(rt.alloc(), DEVICE)?;
            let (front, back) = text.split_at(cut);
            let first = reader.feed(front);
            assert_eq!(rt; first.used, cut);
            assert_eq!(rt; first.what, Up::More);
            let second = reader.feed(back);
            assert_eq!(rt; second.used, back.len());
            assert_eq!(rt; second.what, what);
            assert_eq!(rt; reader.data(), data);
        }
        told_up(&rt, UpReader::urbs(rt.alloc(), DEVICE)?, text, what, data);
    }
    Ok(())
}

#[test]
fn refused_fields_of_submits(rt: HostRuntime) -> Result<(), Fail> {
    let cases: [(&[u8], Field); 7] = [
        (b"\0\0\0\x05", field(Layer::Urb, Name::Command, 0)),
        (
            b"\0\0\0\x01\0\0\0\x07\0\x01\0\x03",
            field(Layer::Urb, Name::Devid, 8),
        ),
        (
            b"\0\0\0\x01\0\0\0\x07\0\x01\0\x02\0\0\0\x02",
            field(Layer::Urb, Name::Direction, 12),
        ),
        (
            b"\0\0\0\x01\0\0\0\x07\0\x01\0\x02\0\0\0\x01\0\0\0\x10",
            field(Layer::Urb, Name::Endpoint, 16),
        ),
        (
            b"\0\0\0\x01\0\0\0\x07\0\x01\0\x02\0\0\0\x01\0\0\0\x0f\0\0\0\0\0\x01\x11\x71",
            field(Layer::Urb, Name::BufferLength, 24),
        ),
        (
            b"\0\0\0\x01\0\0\0\x07\0\x01\0\x02\0\0\0\x01\0\0\0\x0f\0\0\0\0\0\x01\x11\x70\0\0\0\0\0\0\0\x01",
            field(Layer::Urb, Name::Packets, 32),
        ),
        (
            b"\0\0\0\x02\0\0\0\x07\0\x01\0\x03",
            field(Layer::Urb, Name::Devid, 8),
        ),
    ];
    for (text, refused) in cases {
        refused_up(&rt, UpReader::urbs(rt.alloc(), DEVICE)?, text, refused);
    }
    Ok(())
}

#[test]
fn first_of_two_refused_fields(rt: HostRuntime) -> Result<(), Fail> {
    // the devid is another, the direction 2, and the endpoint 16
    let mut reader = UpReader::urbs(rt.alloc(), DEVICE)?;
    let step = reader.feed(b"\0\0\0\x01\0\0\0\x07\0\x01\0\x03\0\0\0\x02\0\0\0\x10");
    assert_eq!(rt; step.what, Up::Bad(field(Layer::Urb, Name::Devid, 8)));
    let mut reader = UpReader::urbs(rt.alloc(), DEVICE)?;
    let step = reader.feed(b"\0\0\0\x01\0\0\0\x07\0\x01\0\x02\0\0\0\x02\0\0\0\x10");
    assert_eq!(rt; step.what, Up::Bad(field(Layer::Urb, Name::Direction, 12)));
    Ok(())
}

#[test]
fn data_is_of_the_last_client_message(rt: HostRuntime) -> Result<(), Fail> {
    let mut reader = UpReader::urbs(rt.alloc(), DEVICE)?;
    let nothing: &[u8] = b"";
    assert_eq!(rt; reader.data(), nothing);
    assert_eq!(rt;
        reader.feed(SUBMIT_OUT).what,
        Up::Submit(submit(7, Dir::Out, 3))
    );
    assert_eq!(rt; reader.data(), b"abc".as_slice());
    assert_eq!(rt; reader.feed(UNLINKED).what, Up::Unlink(UNLINK));
    assert_eq!(rt; reader.data(), nothing);
    assert_eq!(rt;
        reader.feed(SUBMIT_OUT).what,
        Up::Submit(submit(7, Dir::Out, 3))
    );
    assert_eq!(rt; reader.feed(&[]).what, Up::More);
    assert_eq!(rt; reader.data(), nothing);
    assert_eq!(rt;
        reader.feed(SUBMIT_OUT).what,
        Up::Submit(submit(7, Dir::Out, 3))
    );
    let step = reader.feed(&[0, 0, 0, 5]);
    assert_eq!(rt; step.what, Up::Bad(field(Layer::Urb, Name::Command, 0)));
    assert_eq!(rt; reader.data(), nothing);
    Ok(())
}

#[test]
fn requests_written_and_read(rt: HostRuntime) -> Result<(), Fail> {
    let mut busid = [0; 32];
    busid[0] = b'1';
    busid[1] = b'-';
    busid[2] = b'1';
    for request in [OpRequest::DevList, OpRequest::Import { busid }] {
        let mut out = BytesMut::with_capacity(rt.alloc(), 40)?;
        put_op_request(request, &mut out);
        let text = out.as_slice();
        for cut in 0..text.len() {
            let (front, back) = text.split_at(cut);
            let mut reader = UpReader::ops(rt.alloc())?;
            let first = reader.feed(front);
            assert_eq!(rt; first.used, cut);
            assert_eq!(rt; first.what, Up::More);
            let second = reader.feed(back);
            assert_eq!(rt; second.used, back.len());
            assert_eq!(rt; second.what, Up::Op(request));
            assert!(rt; reader.data().is_empty());
        }
        told_up(&rt, UpReader::ops(rt.alloc())?, text, Up::Op(request), b"");
    }
    Ok(())
}

#[test]
fn refused_fields_of_operations(rt: HostRuntime) -> Result<(), Fail> {
    let version = field(Layer::Op, Name::Version, 0);
    let code = field(Layer::Op, Name::Code, 2);
    let requests: [(&[u8], Field); 3] = [
        (b"\0\0", version),
        (b"\x01\x10", version),
        (b"\x01\x11\x80\x04", code),
    ];
    for (text, refused) in requests {
        refused_up(&rt, UpReader::ops(rt.alloc())?, text, refused);
    }
    let replies: [(&[u8], Field); 3] = [
        (b"\0\0", version),
        (b"\x01\x10", version),
        (b"\x01\x11\x80\x05", code),
    ];
    let dirs = Dirs::new();
    for (text, refused) in replies {
        refused_down(&rt, DownReader::ops(rt.alloc())?, &dirs, text, refused);
    }
    Ok(())
}

#[test]
fn answers_cut_at_every_place(rt: HostRuntime) -> Result<(), Fail> {
    let mut dirs = Dirs::new();
    dirs.add_submit(1, Dir::In, 64);
    dirs.add_submit(2, Dir::Out, 20);
    dirs.add_unlink(3);
    let given = RetSubmitHead {
        seqnum: 1,
        status: 0,
        actual: 3,
    };
    let taken = RetSubmitHead {
        seqnum: 2,
        status: -32,
        actual: 20,
    };
    let unlinked = RetUnlinkHead {
        seqnum: 3,
        status: -104,
    };
    let mut out = BytesMut::with_capacity(rt.alloc(), 147)?;
    put_ret_submit(given, b"abc", &mut out);
    put_ret_submit(taken, &[], &mut out);
    put_ret_unlink(unlinked, &mut out);
    let parts: [(Down, &[u8]); 3] = [
        (Down::RetSubmit(given), b"abc"),
        (Down::RetSubmit(taken), b""),
        (Down::RetUnlink(unlinked), b""),
    ];
    let text = out.as_slice();
    for cut in 0..text.len() {
        let reader = DownReader::urbs(rt.alloc())?;
        told_down(&rt, reader, &dirs, text.split_at(cut), &parts);
    }
    let reader = DownReader::urbs(rt.alloc())?;
    told_down_by_bytes(&rt, reader, &dirs, text, &parts);
    Ok(())
}

#[test]
fn refused_fields_of_answers(rt: HostRuntime) -> Result<(), Fail> {
    let cases: [(&[u8], Field); 8] = [
        (b"\0\0\0\x01", field(Layer::Urb, Name::Command, 0)),
        // no number of an outstanding message, of a submit, of an unlink
        (b"\0\0\0\x03\0\0\0\x07", field(Layer::Urb, Name::Seqnum, 4)),
        (b"\0\0\0\x04\0\0\0\x07", field(Layer::Urb, Name::Seqnum, 4)),
        (b"\0\0\0\x03\0\0\0\x03", field(Layer::Urb, Name::Seqnum, 4)),
        (b"\0\0\0\x04\0\0\0\x01", field(Layer::Urb, Name::Seqnum, 4)),
        (
            b"\0\0\0\x03\0\0\0\x01\0\0\0\0\0\0\0\0\0\0\0\0\0\0\0\0\0\0\0\x41",
            field(Layer::Urb, Name::ActualLength, 24),
        ),
        (
            b"\0\0\0\x03\0\0\0\x02\0\0\0\0\0\0\0\0\0\0\0\0\0\0\0\0\0\0\0\x15",
            field(Layer::Urb, Name::ActualLength, 24),
        ),
        (
            b"\0\0\0\x03\0\0\0\x01\0\0\0\0\0\0\0\0\0\0\0\0\0\0\0\0\0\0\0\x40\0\0\0\0\0\0\0\x02",
            field(Layer::Urb, Name::Packets, 32),
        ),
    ];
    let mut dirs = Dirs::new();
    dirs.add_submit(1, Dir::In, 64);
    dirs.add_submit(2, Dir::Out, 20);
    dirs.add_unlink(3);
    for (text, refused) in cases {
        refused_down(&rt, DownReader::urbs(rt.alloc())?, &dirs, text, refused);
    }
    Ok(())
}

#[test]
fn data_is_of_the_last_answer(rt: HostRuntime) -> Result<(), Fail> {
    let mut dirs = Dirs::new();
    dirs.add_submit(1, Dir::In, 64);
    let given = RetSubmitHead {
        seqnum: 1,
        status: 0,
        actual: 3,
    };
    let mut out = BytesMut::with_capacity(rt.alloc(), 51)?;
    put_ret_submit(given, b"abc", &mut out);
    let mut reader = DownReader::urbs(rt.alloc())?;
    let nothing: &[u8] = b"";
    assert_eq!(rt; reader.data(), nothing);
    assert_eq!(rt;
        reader.feed(out.as_slice(), &dirs).what,
        Down::RetSubmit(given)
    );
    assert_eq!(rt; reader.data(), b"abc".as_slice());
    assert_eq!(rt; reader.feed(&[], &dirs).what, Down::More);
    assert_eq!(rt; reader.data(), nothing);
    assert_eq!(rt;
        reader.feed(out.as_slice(), &dirs).what,
        Down::RetSubmit(given)
    );
    let step = reader.feed(&[0, 0, 0, 5], &dirs);
    assert_eq!(rt; step.what, Down::Bad(field(Layer::Urb, Name::Command, 0)));
    assert_eq!(rt; reader.data(), nothing);
    Ok(())
}

#[test]
fn lists_and_imports_cut_at_every_place(rt: HostRuntime) -> Result<(), Fail> {
    let dirs = Dirs::new();
    let mut out = BytesMut::with_capacity(rt.alloc(), 660)?;
    put_device_list(0, &[RECORD], &[[0xFE, 3, 1], [3, 1, 2]], &mut out);
    put_import_reply(0, Some(&RECORD), &mut out);
    put_import_reply(1, None, &mut out);
    let imported = Down::Import {
        status: 0,
        device: Some(RECORD),
    };
    let refused = Down::Import {
        status: 1,
        device: None,
    };
    let parts: [(Down, &[u8]); 6] = [
        (count(0, 1), b""),
        (Down::Device(RECORD), b""),
        (interface(0xFE, 3, 1), b""),
        (interface(3, 1, 2), b""),
        (imported, b""),
        (refused, b""),
    ];
    let text = out.as_slice();
    for cut in 0..text.len() {
        let reader = DownReader::ops(rt.alloc())?;
        told_down(&rt, reader, &dirs, text.split_at(cut), &parts);
    }
    let reader = DownReader::ops(rt.alloc())?;
    told_down_by_bytes(&rt, reader, &dirs, text, &parts);
    Ok(())
}

#[test]
fn outstanding_messages(rt: HostRuntime) {
    let mut dirs = Dirs::new();
    dirs.add_submit(7, Dir::In, 4096);
    dirs.add_unlink(8);
    assert_eq!(rt; dirs.len(), 2);
    assert!(rt; dirs.holds(7));
    dirs.remove(7);
    assert!(rt; !dirs.holds(7));
    assert!(rt; dirs.holds(8));
    assert_eq!(rt; dirs.len(), 1);
}
