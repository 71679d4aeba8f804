ghost use Rattle.std.specs.Prelude.{IsTrue};
ghost use Rattle.host_recover.specs.Recover.{Awaits, Wants, IsAwaited};
ghost use Rattle.usb_setup.specs.declared.ends.Ends.{Ends};

use super::*;
use tmc_wire::ClassAnswer;
use usb_setup::{Ends, Setup};

const ENDS: Ends = Ends {
    configuration: 1,
    interface: 4,
    protocol: 1,
    bulk_out: 0x01,
    bulk_in: 0x82,
    notify: Some(0x83),
    notify_size: 2,
};

/// A control submit with these fields of its setup: bmRequestType, bRequest, wValue, wIndex and wLength.
macro_rules! control {
    ($request_type:expr, $request:expr, $value:expr, $index:expr, $length:expr) => {
        Want::Control(Setup {
            request_type: $request_type,
            request: $request,
            value: $value,
            index: $index,
            length: $length,
        })
    };
}

// USBTMC 1.0, table 15 and sections 4.2.1.2 to 4.2.1.7, and USB 2.0, table 9-3

const ABORT_OUT: Want = control!(0xA2, 1, 5, 0x01, 2);

const CHECK_OUT: Want = control!(0xA2, 2, 0, 0x01, 8);

const ABORT_IN: Want = control!(0xA2, 3, 7, 0x82, 2);

const CHECK_IN: Want = control!(0xA2, 4, 0, 0x82, 8);

const CLEAR: Want = control!(0xA1, 5, 0, 4, 1);

const CHECK_CLEAR: Want = control!(0xA1, 6, 0, 4, 2);

const FREE_OUT: Want = control!(0x02, 1, 0, 0x01, 0);

const FREE_IN: Want = control!(0x02, 1, 0, 0x82, 0);

const FREE_NOTIFY: Want = control!(0x02, 1, 0, 0x83, 0);

fn says(status: u8, second: u8) -> Heard {
    Heard::Class(ClassAnswer {
        status,
        second,
        bytes: 0,
    })
}

/// Whether it is an answer to what is wanted.
fn answers(want: Want, heard: Heard) -> bool
    ensures { (ends : Ends) (awaits : Awaits) → Wants ends awaits want → IsTrue result → IsAwaited awaits heard }
{
    match want {
        Want::Control(setup) if setup.request_type == 0x02 => heard == Heard::Feature,
        Want::Control(_) => matches!(heard, Heard::Class(_)),
        Want::Drain => matches!(
            heard,
            Heard::FullRead | Heard::ShortRead | Heard::FailedRead
        ),
        Want::Done | Want::Stuck(_) => false,
    }
}

/// The first of these answers behind which something else is wanted. A read that failed is one that stalled.
fn first_difference(
    need: Need,
    first: Want,
    steps: &[(Heard, Want)],
    mut in_halted: bool,
    mut notify_halted: bool,
) -> Option<usize> {
    let mut recover = Recover::new(need, ENDS);
    let mut want = recover.next(Heard::Start, in_halted, notify_halted);
    if want != first {
        return Some(0);
    }
    for (at, (heard, behind)) in steps.iter().enumerate() {
        if !answers(want, *heard) {
            return Some(at);
        }
        in_halted = *heard == Heard::FailedRead || in_halted && want != FREE_IN;
        notify_halted = notify_halted && want != FREE_NOTIFY;
        want = recover.next(*heard, in_halted, notify_halted);
        if want != *behind {
            return Some(at);
        }
    }
    None
}

#[test]
fn aborts_of_messages(rt: HostRuntime) {
    let known: [&[(Heard, Want)]; 7] = [
        &[
            (says(0x01, 5), CHECK_OUT),
            (says(0x02, 1), CHECK_OUT),
            (says(0x02, 0), CHECK_OUT),
            (says(0x01, 0), FREE_OUT),
            (Heard::Feature, Want::Done),
        ],
        // the device knows no such transfer
        &[(says(0x80, 0), Want::Done)],
        // it says what it may not say here, or has another transfer
        &[(says(0x02, 0), CLEAR), (says(0x01, 0), CHECK_CLEAR)],
        &[(says(0x81, 0), CLEAR), (says(0x01, 0), CHECK_CLEAR)],
        &[(says(0x83, 0), CLEAR), (says(0x80, 0), Want::Stuck(0x80))],
        // the abort came to nothing
        &[
            (says(0x01, 5), CHECK_OUT),
            (says(0x80, 0), CLEAR),
            (says(0x01, 0), CHECK_CLEAR),
        ],
        &[(says(0x01, 5), CHECK_OUT), (says(0x82, 0), CLEAR)],
    ];
    for steps in known {
        let need = Need::Out {
            tag: 5,
            parts: false,
        };
        let difference = first_difference(need, ABORT_OUT, steps, false, false);
        assert_eq!(rt; difference, None, "{steps:?}");
    }
    // an earlier part was accepted
    let behind_a_part: [&[(Heard, Want)]; 2] = [
        &[
            (says(0x01, 5), CHECK_OUT),
            (says(0x01, 0), FREE_OUT),
            (Heard::Feature, Want::Done),
        ],
        &[(says(0x80, 0), CLEAR), (says(0x01, 0), CHECK_CLEAR)],
    ];
    for steps in behind_a_part {
        let need = Need::Out {
            tag: 5,
            parts: true,
        };
        let difference = first_difference(need, ABORT_OUT, steps, true, true);
        assert_eq!(rt; difference, None, "{steps:?}");
    }
}

#[test]
fn aborts_of_responses(rt: HostRuntime) {
    let responses: [&[(Heard, Want)]; 7] = [
        &[
            (says(0x01, 7), Want::Drain),
            (Heard::FullRead, Want::Drain),
            (Heard::FullRead, Want::Drain),
            (Heard::ShortRead, CHECK_IN),
            (says(0x02, 1), Want::Drain),
            (Heard::FullRead, Want::Drain),
            (Heard::ShortRead, CHECK_IN),
            (says(0x02, 2), CHECK_IN),
            (says(0x01, 0), Want::Done),
        ],
        &[(says(0x80, 0), Want::Done)],
        &[(says(0x02, 1), CLEAR), (says(0x01, 0), CHECK_CLEAR)],
        &[(says(0x81, 0), CLEAR), (says(0x01, 0), CHECK_CLEAR)],
        &[
            (says(0x01, 7), Want::Drain),
            (Heard::FullRead, Want::Drain),
            (Heard::FailedRead, CLEAR),
            (says(0x01, 0), CHECK_CLEAR),
        ],
        &[
            (says(0x01, 7), Want::Drain),
            (Heard::ShortRead, CHECK_IN),
            (says(0x80, 0), CLEAR),
            (says(0x01, 0), CHECK_CLEAR),
        ],
        &[
            (says(0x01, 7), Want::Drain),
            (Heard::ShortRead, CHECK_IN),
            (says(0x02, 3), Want::Drain),
            (Heard::FailedRead, CLEAR),
            (says(0x01, 0), CHECK_CLEAR),
        ],
    ];
    for steps in responses {
        let difference = first_difference(Need::In { tag: 7 }, ABORT_IN, steps, false, false);
        assert_eq!(rt; difference, None, "{steps:?}");
    }
}

#[test]
fn full_clears(rt: HostRuntime) {
    let clears: [(&[(Heard, Want)], bool, bool); 10] = [
        (
            &[
                (says(0x01, 0), CHECK_CLEAR),
                (says(0x02, 1), Want::Drain),
                (Heard::FullRead, Want::Drain),
                (Heard::ShortRead, CHECK_CLEAR),
                (says(0x02, 2), CHECK_CLEAR),
                (says(0x01, 0), FREE_OUT),
                (Heard::Feature, Want::Done),
            ],
            false,
            false,
        ),
        // it is begun again where a read failed
        (
            &[
                (says(0x01, 0), CHECK_CLEAR),
                (says(0x02, 1), Want::Drain),
                (Heard::FailedRead, CLEAR),
                (says(0x01, 0), CHECK_CLEAR),
                (says(0x01, 0), FREE_IN),
                (Heard::Feature, FREE_OUT),
                (Heard::Feature, Want::Done),
            ],
            false,
            false,
        ),
        // the halts that were seen
        (
            &[
                (says(0x01, 0), CHECK_CLEAR),
                (says(0x01, 0), FREE_IN),
                (Heard::Feature, FREE_NOTIFY),
                (Heard::Feature, FREE_OUT),
                (Heard::Feature, Want::Done),
            ],
            true,
            true,
        ),
        (
            &[
                (says(0x01, 0), CHECK_CLEAR),
                (says(0x01, 0), FREE_IN),
                (Heard::Feature, FREE_OUT),
                (Heard::Feature, Want::Done),
            ],
            true,
            false,
        ),
        (
            &[
                (says(0x01, 0), CHECK_CLEAR),
                (says(0x01, 0), FREE_NOTIFY),
                (Heard::Feature, FREE_OUT),
                (Heard::Feature, Want::Done),
            ],
            false,
            true,
        ),
        // it is refused
        (&[(says(0x80, 0), Want::Stuck(0x80))], false, false),
        (&[(says(0x02, 0), Want::Stuck(0x02))], false, false),
        (
            &[
                (says(0x01, 0), CHECK_CLEAR),
                (says(0x80, 0), Want::Stuck(0x80)),
            ],
            false,
            false,
        ),
        (
            &[
                (says(0x01, 0), CHECK_CLEAR),
                (says(0x82, 0), Want::Stuck(0x82)),
            ],
            false,
            false,
        ),
        (
            &[
                (says(0x01, 0), CHECK_CLEAR),
                (says(0x02, 0), CHECK_CLEAR),
                (says(0x83, 0), Want::Stuck(0x83)),
            ],
            false,
            false,
        ),
    ];
    for (steps, in_halted, notify_halted) in clears {
        let difference = first_difference(Need::Full, CLEAR, steps, in_halted, notify_halted);
        assert_eq!(rt; difference, None, "{steps:?}");
    }
}
