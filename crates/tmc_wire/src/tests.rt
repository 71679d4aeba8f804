ghost use Rattle.std.specs.Prelude.{◌≡◌, Ok, Some};
ghost use Rattle.tmc_wire.specs.Header.{IsOutProper, IsInProper};

use super::*;
use std::test::Fail;
use tmc_base::{Field, Layer, Name};
use usb_setup::{Ends, Setup};

const OWN: Ends = Ends {
    configuration: 1,
    interface: 0,
    protocol: 1,
    bulk_out: 0x01,
    bulk_in: 0x82,
    notify: Some(0x83),
    notify_size: 8,
};

const OTHER: Ends = Ends {
    configuration: 2,
    interface: 3,
    protocol: 0,
    bulk_out: 0x05,
    bulk_in: 0x86,
    notify: None,
    notify_size: 0,
};

/// Any header that can be written is read again.
fn out_again(header: OutHeader) -> Result<OutHeader, HeaderFault>
    requires { IsOutProper header }
    ensures { result ≡ Ok header }
{
    read_out(&out_bytes(header))
}

/// Any header that can be written is read again.
fn in_again(header: InHeader) -> Result<InHeader, HeaderFault>
    requires { IsInProper header }
    ensures { result ≡ Ok header }
{
    read_in(&in_bytes(header))
}

/// Any request's setup is read as that request.
fn class_again(request: ClassRequest, ends: &Ends) -> Option<ClassRequest>
    ensures { result ≡ Some request }
{
    read_class(&class_setup(request, ends), ends)
}

#[test]
fn written_headers(rt: HostRuntime) {
    headers_are_read_again();
    header_offsets_are_laid_out();
    let message = OutHeader::Message {
        tag: 1,
        size: 0x0004_0302,
        eom: true,
    };
    assert_eq!(rt; out_bytes(message), [1, 1, 0xFE, 0, 2, 3, 4, 0, 1, 0, 0, 0]);
    assert_eq!(rt; out_again(message), Ok(message));
    let part = OutHeader::Message {
        tag: 255,
        size: 1024,
        eom: false,
    };
    assert_eq!(rt; out_bytes(part), [1, 255, 0, 0, 0, 4, 0, 0, 0, 0, 0, 0]);
    let request = OutHeader::Request { tag: 2, size: 4000 };
    assert_eq!(rt;
        out_bytes(request),
        [2, 2, 0xFD, 0, 0xA0, 0x0F, 0, 0, 0, 0, 0, 0]
    );
    let trigger = OutHeader::Trigger { tag: 3 };
    assert_eq!(rt;
        out_bytes(trigger),
        [128, 3, 0xFC, 0, 0, 0, 0, 0, 0, 0, 0, 0]
    );
    let response = InHeader {
        tag: 2,
        size: 19,
        eom: true,
    };
    assert_eq!(rt;
        in_bytes(response),
        [2, 2, 0xFD, 0, 19, 0, 0, 0, 1, 0, 0, 0]
    );
    assert_eq!(rt; in_again(response), Ok(response));
}

const MESSAGE: OutHeader = OutHeader::Message {
    tag: 5,
    size: 4,
    eom: true,
};

const TRIGGER: OutHeader = OutHeader::Trigger { tag: 5 };

const REQUEST: OutHeader = OutHeader::Request { tag: 5, size: 256 };

const RESPONSE: InHeader = InHeader {
    tag: 5,
    size: 256,
    eom: true,
};

#[test]
fn headers_read(rt: HostRuntime) {
    let foreign = Err(HeaderFault::MsgId);
    let cases: [(
        &[u8],
        Result<OutHeader, HeaderFault>,
        Result<InHeader, HeaderFault>,
    ); 4] = [
        (b"\x01\x05\xFA\0\x04\0\0\0\x01\0\0\0", Ok(MESSAGE), foreign),
        // reserved bytes and unknown attributes
        (
            b"\x01\x05\xFA\xFF\x04\0\0\0\xFF\xAA\xBB\xCC",
            Ok(MESSAGE),
            foreign,
        ),
        (
            b"\x80\x05\xFA\x7F\0\0\0\0\x01\x02\x03\x04",
            Ok(TRIGGER),
            foreign,
        ),
        // with data behind the header
        (
            b"\x02\x05\xFA\0\0\x01\0\0\x03\0\0\x99\x98",
            Ok(REQUEST),
            Ok(RESPONSE),
        ),
    ];
    for (bytes, out, response) in cases {
        assert_eq!(rt; read_out(bytes), out, "{bytes:?}");
        assert_eq!(rt; read_in(bytes), response, "{bytes:?}");
    }
}

#[test]
fn headers_with_a_fault(rt: HostRuntime) {
    let cases: [(&[u8], HeaderFault); 10] = [
        (b"\0\x05\xFA\0\x04\0\0\0\x01\0\0\0", HeaderFault::MsgId),
        (b"\x02\0\xFF\0\x04\0\0\0\x01\0\0\0", HeaderFault::Tag),
        (b"\x02\x05\xFB\0\x04\0\0\0\x01\0\0\0", HeaderFault::Inverse),
        (b"\x02\x05\xFA\0\0\0\0\0\x01\0\0\0", HeaderFault::Size),
        (b"\x02\x05\xFA\0\x04\0\0\0\x01\0\0", HeaderFault::Length),
        (b"", HeaderFault::Length),
        // each fault before those behind it
        (b"\0\0\0\0\0\0\0\0\0\0\0", HeaderFault::Length),
        (b"\0\0\0\0\0\0\0\0\0\0\0\0", HeaderFault::MsgId),
        (b"\x02\0\0\0\0\0\0\0\0\0\0\0", HeaderFault::Tag),
        (b"\x02\x05\0\0\0\0\0\0\0\0\0\0", HeaderFault::Inverse),
    ];
    for (bytes, fault) in cases {
        assert_eq!(rt; read_out(bytes), Err(fault), "{bytes:?}");
        assert_eq!(rt; read_in(bytes), Err(fault), "{bytes:?}");
    }
}

#[test]
fn texts_of_faults(rt: HostRuntime) -> Result<(), Fail> {
    let cases = [
        (
            HeaderFault::Length,
            "the transfer is shorter than its header of 12 bytes; abort the transfer and begin it again",
        ),
        (
            HeaderFault::Tag,
            "the tag of the transfer's header is 0; number transfers from 1 to 255",
        ),
    ];
    for (fault, text) in cases {
        let shown = format!(in rt.alloc(); "{fault}")?;
        assert_eq!(rt; shown.as_str(), text);
    }
    Ok(())
}

/// A request, its setup for the instrument's ends, and wIndex of its setup for others.
const SETUPS: [(ClassRequest, [u8; 8], u16); 13] = [
    (
        ClassRequest::AbortOut { tag: 7 },
        [0xA2, 1, 7, 0, 0x01, 0, 2, 0],
        0x05,
    ),
    (ClassRequest::CheckOut, [0xA2, 2, 0, 0, 0x01, 0, 8, 0], 0x05),
    (
        ClassRequest::AbortIn { tag: 255 },
        [0xA2, 3, 255, 0, 0x82, 0, 2, 0],
        0x86,
    ),
    (ClassRequest::CheckIn, [0xA2, 4, 0, 0, 0x82, 0, 8, 0], 0x86),
    (ClassRequest::Clear, [0xA1, 5, 0, 0, 0, 0, 1, 0], 3),
    (ClassRequest::CheckClear, [0xA1, 6, 0, 0, 0, 0, 2, 0], 3),
    (ClassRequest::Capabilities, [0xA1, 7, 0, 0, 0, 0, 24, 0], 3),
    (ClassRequest::Pulse, [0xA1, 64, 0, 0, 0, 0, 1, 0], 3),
    (
        ClassRequest::ReadStatus { tag: 2 },
        [0xA1, 128, 2, 0, 0, 0, 3, 0],
        3,
    ),
    (
        ClassRequest::Ren { on: true },
        [0xA1, 160, 1, 0, 0, 0, 1, 0],
        3,
    ),
    (
        ClassRequest::Ren { on: false },
        [0xA1, 160, 0, 0, 0, 0, 1, 0],
        3,
    ),
    (ClassRequest::GoLocal, [0xA1, 161, 0, 0, 0, 0, 1, 0], 3),
    (ClassRequest::Lockout, [0xA1, 162, 0, 0, 0, 0, 1, 0], 3),
];

#[test]
fn class_requests_both_ways(rt: HostRuntime) {
    requests_are_read_again();
    for (request, bytes, index) in SETUPS {
        let setup = Setup::from_bytes(bytes);
        let other = Setup { index, ..setup };
        assert_eq!(rt; class_setup(request, &OWN), setup);
        assert_eq!(rt; class_setup(request, &OTHER), other);
        assert_eq!(rt; class_again(request, &OTHER), Some(request));
        assert_eq!(rt; read_class(&setup, &OWN), Some(request));
        assert_eq!(rt; read_class(&other, &OTHER), Some(request));
        assert_eq!(rt; read_class(&setup, &OTHER), None);
        assert_eq!(rt;
            read_class(
                &Setup {
                    length: 0xFFFF,
                    ..setup
                },
                &OWN
            ),
            Some(request)
        );
    }
}

/// A request, an answer to it with one byte behind it, and the answer's status, second byte and number.
const ANSWERS: [(ClassRequest, &[u8], u8, u8, u32); 12] = [
    (
        ClassRequest::AbortOut { tag: 7 },
        b"\x01\x07\xEE",
        0x01,
        7,
        0,
    ),
    (
        ClassRequest::CheckOut,
        b"\x01\0\0\0\x78\x56\x34\x12\xEE",
        0x01,
        0,
        0x1234_5678,
    ),
    (
        ClassRequest::AbortIn { tag: 8 },
        b"\x81\x09\xEE",
        0x81,
        9,
        0,
    ),
    (
        ClassRequest::CheckIn,
        b"\x02\x01\0\0\x04\x03\x02\xFF\xEE",
        0x02,
        1,
        0xFF02_0304,
    ),
    (ClassRequest::Clear, b"\x01\xEE", 0x01, 0, 0),
    (ClassRequest::CheckClear, b"\x02\x01\xEE", 0x02, 1, 0),
    (
        ClassRequest::Capabilities,
        b"\x01\0\0\x01\x04\0\0\0\0\0\0\0\0\x01\x07\x07\0\0\0\0\0\0\0\0\xEE",
        0x01,
        0,
        0,
    ),
    (ClassRequest::Pulse, b"\x01\xEE", 0x01, 0, 0),
    (
        ClassRequest::ReadStatus { tag: 2 },
        b"\x01\x02\x40\xEE",
        0x01,
        2,
        0x40,
    ),
    (ClassRequest::Ren { on: true }, b"\x80\xEE", 0x80, 0, 0),
    (ClassRequest::GoLocal, b"\x01\xEE", 0x01, 0, 0),
    (ClassRequest::Lockout, b"\x83\xEE", 0x83, 0, 0),
];

#[test]
fn answers_and_those_one_byte_short(rt: HostRuntime) {
    for (request, bytes, status, second, count) in ANSWERS {
        let want = ClassAnswer {
            status,
            second,
            bytes: count,
        };
        assert_eq!(rt; read_answer(request, bytes), Ok(want), "{request:?}");
        let [front @ .., _, _] = bytes else {
            panic!(rt; "no byte behind the answer to {request:?}");
        };
        let short = Field {
            layer: Layer::Control,
            name: Name::Length,
            offset: u32::try_from(front.len()).unwrap_or(u32::MAX),
        };
        assert_eq!(rt; read_answer(request, front), Err(short), "{request:?}");
    }
}

#[test]
fn setups_of_no_class_request(rt: HostRuntime) {
    let setups = [
        [0xA1, 0, 0, 0, 0, 0, 1, 0],
        [0xA1, 8, 0, 0, 0, 0, 1, 0],
        [0xA1, 160, 2, 0, 0, 0, 1, 0],
        [0xA1, 5, 1, 0, 0, 0, 1, 0],
        [0x21, 5, 0, 0, 0, 0, 1, 0],
        [0xA1, 7, 0, 1, 0, 0, 24, 0],
        [0xA1, 128, 7, 1, 0, 0, 3, 0],
        [0xA1, 1, 7, 0, 0x01, 0, 2, 0],
        [0xA2, 1, 7, 0, 0x82, 0, 2, 0],
        [0x80, 6, 0, 1, 0, 0, 18, 0],
    ];
    for bytes in setups {
        assert_eq!(rt;
            read_class(&Setup::from_bytes(bytes), &OWN),
            None,
            "{bytes:?}"
        );
    }
}

#[test]
fn packets(rt: HostRuntime) {
    let short = |offset| Field {
        layer: Layer::Notify,
        name: Name::Length,
        offset,
    };
    let cases: [(&[u8], Result<Notify, Field>); 9] = [
        (b"\x82\x77", Ok(Notify::Status { tag: 2, byte: 0x77 })),
        (b"\xFF\x01", Ok(Notify::Status { tag: 127, byte: 1 })),
        (b"\x81\x40", Ok(Notify::Service { byte: 0x40 })),
        (b"\x81\x40\0\0", Ok(Notify::Service { byte: 0x40 })),
        (b"\x80\0", Ok(Notify::Other)),
        (b"\x7F\x01", Ok(Notify::Other)),
        (b"\0\0", Ok(Notify::Other)),
        (b"\x82", Err(short(1))),
        (b"", Err(short(0))),
    ];
    for (bytes, want) in cases {
        assert_eq!(rt; read_notify(bytes), want, "{bytes:?}");
    }
}
