ghost use Rattle.std.specs.Prelude.{◌≡◌, ◌+◌, ◌≤◌, length};
ghost use Rattle.host_urbs.specs.Held.{HasPlace};

use super::*;
use bytes::BytesMut;
use std::alloc::Global;
use std::process::Abort;
use std::test::Fail;
use tmc_base::{Field, Layer, MemLink, Memory, Name};
use usb_setup::{DescFault, Ends, configuration};
use usbip_wire::{
    DeviceRecord, Dir, RetSubmitHead, RetUnlinkHead, put_import_reply, put_ret_submit,
};

/// The instrument: bus 1, device 2.
const DEVICE: DeviceRecord = DeviceRecord {
    path: [0; 256],
    busid: [0; 32],
    busnum: 1,
    devnum: 2,
    speed: 3,
    id_vendor: 0xF055,
    id_product: 0x0488,
    bcd_device: 0x0100,
    device_class: 0,
    device_subclass: 0,
    device_protocol: 0,
    configuration_value: 1,
    configurations: 1,
    interfaces: 1,
};

const ATTACHED: Attached = Attached {
    devid: 0x0001_0002,
    ends: Ends {
        configuration: 1,
        interface: 0,
        protocol: 1,
        bulk_out: 0x01,
        bulk_in: 0x82,
        notify: Some(0x83),
        notify_size: 8,
    },
    next: 3,
};

/// What is sent until the instrument is attached.
const REQUESTS: &[u8] = &[
    0x01, 0x11, 0x80, 0x03, 0, 0, 0, 0, // OP_REQ_IMPORT
    b'1', b'-', b'1', 0, 0, 0, 0, 0, 0, 0, 0, 0, 0, 0, 0, 0, // busid
    0, 0, 0, 0, 0, 0, 0, 0, 0, 0, 0, 0, 0, 0, 0, 0, //
    0, 0, 0, 1, 0, 0, 0, 1, 0, 1, 0, 2, 0, 0, 0, 1, 0, 0, 0, 0, // submit 1, IN, endpoint 0
    0, 0, 0, 0, 0, 0, 0x10, 0, 0, 0, 0, 0, 0xFF, 0xFF, 0xFF, 0xFF, 0, 0, 0, 0, // of 4,096 bytes
    0x80, 0x06, 0x00, 0x02, 0x00, 0x00, 0x00, 0x10, // GET_DESCRIPTOR
    0, 0, 0, 1, 0, 0, 0, 2, 0, 1, 0, 2, 0, 0, 0, 0, 0, 0, 0, 0, // submit 2, OUT, endpoint 0
    0, 0, 0, 0, 0, 0, 0, 0, 0, 0, 0, 0, 0xFF, 0xFF, 0xFF, 0xFF, 0, 0, 0, 0, // of no byte
    0x00, 0x09, 0x01, 0x00, 0x00, 0x00, 0x00, 0x00, // SET_CONFIGURATION
];

/// The answers to the three requests: to the submits with these statuses, and with so many bytes of the configuration
/// descriptor.
fn answers(alloc: Global, first: i32, descriptor: &[u8], second: i32) -> Result<BytesMut, Memory>
    requires { length descriptor.now ≤ 39 }
{
    let mut bytes = BytesMut::with_capacity(alloc, 416 + descriptor.len())?;
    put_import_reply(0, Some(&DEVICE), &mut bytes);
    let head = RetSubmitHead {
        seqnum: 1,
        status: first,
        actual: descriptor.len() as u32,
    };
    put_ret_submit(head, descriptor, &mut bytes);
    let head = RetSubmitHead {
        seqnum: 2,
        status: second,
        actual: 0,
    };
    put_ret_submit(head, &[], &mut bytes);
    Ok(bytes)
}

/// A link that gives these bytes and takes and gives at most `piece` bytes at a time. The send and the poll of these numbers
/// fail.
fn link(
    alloc: Global,
    gives: &[u8],
    piece: usize,
    send: u32,
    poll: u32,
) -> Result<MemLink, Memory> {
    let gives = gives.to_vec(alloc)?;
    let piece = piece.max(1);
    MemLink::new(
        alloc,
        gives,
        4_096,
        piece,
        piece,
        [send].to_vec(alloc)?,
        [poll].to_vec(alloc)?,
    )
}

#[test]
fn attached_in_pieces(rt: HostRuntime) -> Result<(), Fail> {
    let gives = answers(rt.alloc(), 0, &configuration(), 0)?;
    for (piece, turns) in [(1, 591), (7, 475), (4_096, 458)] {
        let mut instrument = link(rt.alloc(), gives.as_slice(), piece, 0, 0)?;
        let attached = attach(rt.alloc(), &mut instrument, b"1-1", turns);
        assert_eq!(rt; attached, Ok(ATTACHED), "by {piece}");
        assert_eq!(rt; instrument.sent(), REQUESTS, "by {piece}");
        let mut instrument = link(rt.alloc(), gives.as_slice(), piece, 0, 0)?;
        let attached = attach(rt.alloc(), &mut instrument, b"1-1", turns - 1);
        assert_eq!(rt; attached, Err(AttachFault::Spent), "by {piece}");
    }
    Ok(())
}

#[test]
fn first_event_against_it(rt: HostRuntime) -> Result<(), Fail> {
    let good = answers(rt.alloc(), 0, &configuration(), 0)?;
    let first = answers(rt.alloc(), -32, &[], 0)?;
    let none = answers(rt.alloc(), 0, &[], 0)?;
    let second = answers(rt.alloc(), 0, &configuration(), -71)?;
    let bytes = good.as_slice();
    assert_eq!(rt; bytes.len(), 455);
    let version = Field {
        layer: Layer::Op,
        name: Name::Version,
        offset: 0,
    };
    let code = Field {
        layer: Layer::Op,
        name: Name::Code,
        offset: 2,
    };
    let list: [u8; 12] = [0x01, 0x11, 0x00, 0x05, 0, 0, 0, 0, 0, 0, 0, 0];
    let taken: [u8; 8] = [0x01, 0x11, 0x00, 0x03, 0, 0, 0, 1];
    let old: [u8; 2] = [0x01, 0x10];
    for cut in [0, 1, 319, 320, 406, 407, 454] {
        let (gives, _) = bytes.split_at(cut.min(bytes.len()));
        let mut server = link(rt.alloc(), gives, 7, 0, 0)?;
        let attached = attach(rt.alloc(), &mut server, b"1-1", 1_000);
        assert_eq!(rt; attached, Err(AttachFault::Closed), "behind {cut} bytes");
    }
    let cases: [(&[u8], AttachFault); 6] = [
        (&list, AttachFault::Bad(code)),
        (&taken, AttachFault::NoDevice(1)),
        (&old, AttachFault::Bad(version)),
        (first.as_slice(), AttachFault::DeviceFault(-32)),
        (
            none.as_slice(),
            AttachFault::Desc(DescFault::Length { at: 0 }),
        ),
        (second.as_slice(), AttachFault::DeviceFault(-71)),
    ];
    for (gives, fault) in cases {
        let mut server = link(rt.alloc(), gives, 7, 0, 0)?;
        let attached = attach(rt.alloc(), &mut server, b"1-1", 1_000);
        assert_eq!(rt; attached, Err(fault), "behind {} bytes", gives.len());
    }
    Ok(())
}

#[test]
fn failing_calls(rt: HostRuntime) -> Result<(), Fail> {
    let gives = answers(rt.alloc(), 0, &configuration(), 0)?;
    for (send, poll) in [(1, 0), (2, 0), (3, 0), (0, 1), (0, 321), (0, 408), (0, 455)] {
        let mut failing = link(rt.alloc(), gives.as_slice(), 4_096, send, poll)?;
        let attached = attach(rt.alloc(), &mut failing, b"1-1", 458);
        assert_eq!(rt;
            attached,
            Err(AttachFault::LinkFault),
            "send {send}, poll {poll}"
        );
    }
    let mut later = link(rt.alloc(), gives.as_slice(), 4_096, 4, 456)?;
    assert_eq!(rt; attach(rt.alloc(), &mut later, b"1-1", 458), Ok(ATTACHED));
    Ok(())
}

#[test]
fn messages_until_they_are_answered(rt: HostRuntime) -> Result<(), Fail> {
    let mut urbs = Urbs::new(rt.alloc(), 0x0001_0002, 3)?;
    assert_eq!(rt; urbs.submit(Dir::In, 2, 1_024, [0; 8], &[]), 3);
    assert_eq!(rt; urbs.outbox().len(), 48);
    assert_eq!(rt; urbs.submit_pieces(1, b"ab", b"cd", b"e"), 4);
    assert_eq!(rt; urbs.outbox().len(), 101);
    assert_eq!(rt; urbs.unlink(3), 5);
    assert_eq!(rt; urbs.next(), 6);
    assert_eq!(rt; urbs.outbox().len(), 149);
    assert_eq!(rt; &urbs.outbox()[96..101], b"abcde".as_slice());
    urbs.sent(47);
    assert_eq!(rt; urbs.dirs().len(), 0);
    assert_eq!(rt; urbs.outbox().len(), 102);
    urbs.sent(1);
    assert!(rt; urbs.dirs().holds(3) && !urbs.dirs().holds(4));
    assert_eq!(rt; urbs.outbox().len(), 101);
    urbs.sent(53);
    assert_eq!(rt; urbs.dirs().len(), 2);
    assert_eq!(rt; urbs.outbox().len(), 48);
    urbs.sent(48);
    assert!(rt; urbs.dirs().holds(5) && urbs.outbox().is_empty());
    urbs.unlinked(RetUnlinkHead {
        seqnum: 5,
        status: 0,
    });
    assert!(rt; !urbs.dirs().holds(3) && urbs.dirs().holds(4));
    urbs.answer(RetSubmitHead {
        seqnum: 4,
        status: 0,
        actual: 5,
    });
    assert_eq!(rt; urbs.dirs().len(), 0);
    Ok(())
}

/// A Bulk-IN submit of this number is written.
fn read(rt: &impl Abort, urbs: &mut Urbs, number: u32)
    requires { HasPlace urbs.old }
    ensures { length urbs.new.entries ≡ length urbs.old.entries + 1 }
{
    assert!(rt; urbs.next() == number && number < 1_000);
    assert!(rt; urbs.outbox().len() < 1_000);
    assert_eq!(rt; urbs.submit(Dir::In, 2, 64, [0; 8], &[]), number);
}

#[test]
fn sixteen_are_outstanding(rt: HostRuntime) -> Result<(), Fail> {
    let mut urbs = Urbs::new(rt.alloc(), 0x0001_0002, 3)?;
    for number in 3..19 {
        read(&rt, &mut urbs, number);
    }
    let all = urbs.outbox().len();
    assert_eq!(rt; all, 768);
    urbs.sent(all.saturating_sub(1));
    assert_eq!(rt; urbs.dirs().len(), 15);
    assert!(rt; urbs.dirs().holds(17) && !urbs.dirs().holds(18));
    urbs.sent(urbs.outbox().len());
    assert_eq!(rt; urbs.dirs().len(), 16);
    for number in 3..19 {
        assert!(rt; urbs.dirs().holds(number), "{number}");
    }
    Ok(())
}
