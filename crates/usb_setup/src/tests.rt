use super::*;
use bytes::BytesMut;
use std::test::Fail;

#[test]
fn setups_both_ways(rt: HostRuntime) {
    let cases = [
        (
            [0x80, 0x06, 0x00, 0x01, 0x00, 0x00, 0x12, 0x00],
            Setup {
                request_type: 0x80,
                request: 6,
                value: 0x0100,
                index: 0,
                length: 18,
            },
        ),
        (
            [0x01, 0x02, 0x03, 0x04, 0x05, 0x06, 0x07, 0x08],
            Setup {
                request_type: 1,
                request: 2,
                value: 0x0403,
                index: 0x0605,
                length: 0x0807,
            },
        ),
    ];
    for (bytes, setup) in cases {
        assert_eq!(rt; Setup::from_bytes(bytes), setup);
        assert_eq!(rt; setup.to_bytes(), bytes);
    }
}

#[test]
fn own_descriptors_byte_by_byte(rt: HostRuntime) {
    offsets_are_laid_out();
    assert_eq!(rt;
        device_descriptor(),
        [
            0x12, 0x01, 0x00, 0x02, 0x00, 0x00, 0x00, 0x40, 0x55, 0xF0, 0x88, 0x04, 0x00, 0x01,
            0x01, 0x02, 0x03, 0x01
        ]
    );
    assert_eq!(rt;
        configuration(),
        [
            0x09, 0x02, 0x27, 0x00, 0x01, 0x01, 0x00, 0xC0, 0x00, 0x09, 0x04, 0x00, 0x00, 0x03,
            0xFE, 0x03, 0x01, 0x00, 0x07, 0x05, 0x01, 0x02, 0x40, 0x00, 0x00, 0x07, 0x05, 0x82,
            0x02, 0x40, 0x00, 0x00, 0x07, 0x05, 0x83, 0x03, 0x08, 0x00, 0x0A
        ]
    );
}

#[test]
fn strings_of_each_index(rt: HostRuntime) -> Result<(), Fail> {
    let cases: [(u8, bool, &[u8]); 6] = [
        (0, true, &[0x04, 0x03, 0x09, 0x04]),
        (1, true, b"\x10\x03E\0X\0A\0M\0P\0L\0E\0"),
        (2, true, b"\x0A\x03T\0M\0C\01\0"),
        (3, true, b"\x04\x030\0"),
        (4, false, b""),
        (255, false, b""),
    ];
    for (index, known, text) in cases {
        let mut out = BytesMut::with_capacity(rt.alloc(), 64)?;
        assert_eq!(rt; put_string(index, &mut out), known, "string {index}");
        assert_eq!(rt; out.as_slice(), text, "string {index}");
    }
    Ok(())
}

const OWN: Ends = Ends {
    configuration: 1,
    interface: 0,
    protocol: 1,
    bulk_out: 0x01,
    bulk_in: 0x82,
    notify: Some(0x83),
    notify_size: 8,
};

/// Bytes of the instrument's configuration that are changed, and what is then found.
type Case<'a> = (&'a [(usize, u8)], Result<Ends, DescFault>);

#[test]
fn changed_configurations(rt: HostRuntime) {
    let none = Err(DescFault::NoInterface);
    let cases: [Case; 24] = [
        (&[], Ok(OWN)),
        (
            &[(5, 2)],
            Ok(Ends {
                configuration: 2,
                ..OWN
            }),
        ),
        (
            &[(11, 7)],
            Ok(Ends {
                interface: 7,
                ..OWN
            }),
        ),
        (&[(16, 0)], Ok(Ends { protocol: 0, ..OWN })),
        (
            &[(37, 1)],
            Ok(Ends {
                notify_size: 0x0108,
                ..OWN
            }),
        ),
        // the third endpoint is Interrupt-OUT
        (
            &[(34, 3)],
            Ok(Ends {
                notify: None,
                notify_size: 0,
                ..OWN
            }),
        ),
        // Bulk-IN stands before Bulk-OUT
        (
            &[(20, 0x81), (27, 2)],
            Ok(Ends {
                bulk_out: 2,
                bulk_in: 0x81,
                ..OWN
            }),
        ),
        // the lengths of the configuration, the interface and the endpoints
        (&[(0, 8)], length_fault(0)),
        (&[(0, 40)], length_fault(0)),
        (&[(1, 1)], length_fault(0)),
        (&[(9, 0)], length_fault(9)),
        (&[(9, 1)], length_fault(9)),
        (&[(9, 8)], length_fault(9)),
        (&[(18, 6)], length_fault(18)),
        (&[(32, 8)], length_fault(32)),
        // class, subclass and protocol
        (&[(14, 0xFF)], none),
        (&[(15, 2)], none),
        (&[(16, 2)], none),
        // Bulk-IN, Interrupt-OUT, and an unknown descriptor in place of Bulk-OUT; Bulk-OUT in place of Bulk-IN
        (&[(20, 0x81)], Err(DescFault::NoBulkOut)),
        (&[(21, 3)], Err(DescFault::NoBulkOut)),
        (&[(19, 0x24)], Err(DescFault::NoBulkOut)),
        (&[(27, 2)], Err(DescFault::NoBulkIn)),
        // a wrong length behind another fault, and behind another wrong length
        (&[(16, 2), (32, 8)], length_fault(32)),
        (&[(18, 1), (32, 8)], length_fault(18)),
    ];
    for (changes, found) in cases {
        let mut list = configuration();
        assert!(rt; changes.len() < 10);
        for (at, byte) in changes {
            assert!(rt; *at < list.len());
            list[*at] = *byte;
        }
        assert_eq!(rt; find_interface(&list), found, "changes {changes:?}");
    }
}

#[test]
fn faults_say_what_to_do(rt: HostRuntime) -> Result<(), Fail> {
    let cases = [
        (
            DescFault::Length { at: 18 },
            "the descriptors are cut or damaged at byte 18; read the device's configuration again, with its \
             wTotalLength as the length",
        ),
        (
            DescFault::NoInterface,
            "the configuration has no USBTMC interface; check that the right device is attached and in the \
             configuration that offers USBTMC",
        ),
        (
            DescFault::NoBulkOut,
            "the USBTMC interface has no Bulk-OUT endpoint, which the class demands; update the device's \
             firmware or use another device",
        ),
        (
            DescFault::NoBulkIn,
            "the USBTMC interface has no Bulk-IN endpoint, which the class demands; update the device's \
             firmware or use another device",
        ),
    ];
    for (fault, text) in cases {
        let shown = format!(in rt.alloc(); "{fault}")?;
        assert_eq!(rt; shown.as_str(), text);
    }
    Ok(())
}

fn length_fault(at: u32) -> Result<Ends, DescFault> {
    Err(DescFault::Length { at })
}

/// A communications device, a USBTMC interface with Bulk-IN first and Interrupt-IN last, and a keyboard.
const COMPOSITE: [u8; 144] = [
    0x09, 0x02, 0x90, 0x00, 0x04, 0x03, 0x00, 0x80, 0x32, // the configuration
    0x08, 0x0B, 0x00, 0x02, 0x02, 0x02, 0x01, 0x00, // an association of interfaces 0 and 1
    0x09, 0x04, 0x00, 0x00, 0x01, 0x02, 0x02, 0x01, 0x00, // interface 0: communications
    0x05, 0x24, 0x00, 0x10, 0x01, // its functional descriptors
    0x05, 0x24, 0x01, 0x00, 0x01, //
    0x04, 0x24, 0x02, 0x02, //
    0x05, 0x24, 0x06, 0x00, 0x01, //
    0x07, 0x05, 0x81, 0x03, 0x08, 0x00, 0xFF, // Interrupt-IN
    0x09, 0x04, 0x01, 0x00, 0x02, 0x0A, 0x00, 0x00, 0x00, // interface 1: its data
    0x07, 0x05, 0x02, 0x02, 0x40, 0x00, 0x00, // Bulk-OUT
    0x07, 0x05, 0x82, 0x02, 0x40, 0x00, 0x00, // Bulk-IN
    0x09, 0x04, 0x02, 0x00, 0x04, 0xFE, 0x03, 0x01, 0x05, // interface 2: USBTMC
    0x05, 0x30, 0x00, 0x00, 0x01, // an unknown descriptor
    0x09, 0x05, 0x84, 0x02, 0x00, 0x02, 0x00, 0x00, 0x00, // Bulk-IN, in 9 bytes
    0x07, 0x05, 0x03, 0x02, 0x00, 0x02, 0x00, // Bulk-OUT
    0x07, 0x05, 0x86, 0x02, 0x00, 0x02, 0x00, // a second Bulk-IN
    0x07, 0x05, 0x85, 0x03, 0x10, 0x01, 0x07, // Interrupt-IN
    0x09, 0x04, 0x03, 0x00, 0x01, 0x03, 0x01, 0x01, 0x00, // interface 3: a keyboard
    0x09, 0x21, 0x11, 0x01, 0x00, 0x01, 0x22, 0x41, 0x00, // its class descriptor
    0x07, 0x05, 0x87, 0x03, 0x08, 0x00, 0x0A, // Interrupt-IN
];

/// A USBTMC interface whose alternate setting 0 has no endpoints.
const ALTERNATES: [u8; 41] = [
    0x09, 0x02, 0x29, 0x00, 0x01, 0x01, 0x00, 0xC0, 0x00, // the configuration
    0x09, 0x04, 0x00, 0x00, 0x00, 0xFE, 0x03, 0x01, 0x00, // alternate setting 0
    0x09, 0x04, 0x00, 0x01, 0x02, 0xFE, 0x03, 0x01, 0x00, // alternate setting 1
    0x07, 0x05, 0x01, 0x02, 0x40, 0x00, 0x00, // Bulk-OUT
    0x07, 0x05, 0x82, 0x02, 0x40, 0x00, 0x00, // Bulk-IN
];

/// A configuration with a device descriptor of four bytes behind it, where one has 18.
const SHORT_DEVICE: [u8; 13] = [
    0x09, 0x02, 0x0D, 0x00, 0x00, 0x01, 0x00, 0xC0, 0x00, // the configuration
    0x04, 0x01, 0x00, 0x00, // the device
];

#[test]
fn whole_and_cut_lists(rt: HostRuntime) {
    let composite = Ends {
        configuration: 3,
        interface: 2,
        protocol: 1,
        bulk_out: 0x03,
        bulk_in: 0x84,
        notify: Some(0x85),
        notify_size: 0x0110,
    };
    // an unknown descriptor in place of Interrupt-IN, which the keyboard's does not replace
    let mut without_notify = COMPOSITE;
    without_notify[113] = 0x24;
    let own = configuration();
    let cases: [(&[u8], Result<Ends, DescFault>); 10] = [
        (&COMPOSITE, Ok(composite)),
        // without the interfaces behind it
        (&COMPOSITE[..119], Ok(composite)),
        (
            &without_notify,
            Ok(Ends {
                notify: None,
                notify_size: 0,
                ..composite
            }),
        ),
        (&ALTERNATES, Err(DescFault::NoBulkOut)),
        (&SHORT_DEVICE, length_fault(9)),
        (&[], length_fault(0)),
        (&[0x09, 0x02], length_fault(0)),
        (&own[..9], Err(DescFault::NoInterface)),
        (&own[..38], length_fault(32)),
        (&own[..33], length_fault(32)),
    ];
    for (list, found) in cases {
        assert!(rt; list.len() < 1000);
        assert_eq!(rt; find_interface(list), found, "{} bytes", list.len());
    }
}
