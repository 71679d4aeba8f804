use super::session::Row::{Answered, Ask, Control, Filled, Goes, Send, Silent, Stays, Taken, Told};
use super::session::{REQUEST, runs};
use crate::{DevEvent, Device};
use std::test::Fail;

#[test]
fn bulk_out_halts_until_its_halt_is_cleared(rt: HostRuntime) -> Result<(), Fail> {
    let mut device = Device::new(rt.alloc())?;
    runs(
        &rt,
        &mut device,
        &[
            Send(1, &[0; 12]),
            Send(2, &[]),
            Goes(DevEvent::Halt(1)),
            Taken(1, -32, 0),
            Taken(2, -32, 0),
            Stays(DevEvent::Halt(1)),
            Send(3, &REQUEST),
            Taken(3, -32, 0),
            Told(4, (0x82, 0, 0, 0x01, 2), &[1, 0]), // GET_STATUS
            Told(5, (0x02, 1, 0, 0x01, 0), &[]), // CLEAR_FEATURE
            Told(6, (0x82, 0, 0, 0x01, 2), &[0, 0]),
            Send(7, &REQUEST),
            Goes(DevEvent::Take(1)),
            Taken(7, 0, 12),
            Silent,
        ],
    )
}

#[test]
fn in_endpoints_halt_until_their_halts_are_cleared(rt: HostRuntime) -> Result<(), Fail> {
    for (ep, number, address) in [(2, 2, 0x82), (3, 3, 0x83)] {
        let mut device = Device::new(rt.alloc())?;
        runs(
            &rt,
            &mut device,
            &[
                Ask(1, number, 64),
                Ask(2, number, 64),
                Goes(DevEvent::Halt(ep)),
                Filled(1, -32, 0),
                Filled(2, -32, 0),
                Stays(DevEvent::Halt(ep)),
                Ask(3, number, 64),
                Filled(3, -32, 0),
                Told(4, (0x82, 0, 0, address, 2), &[1, 0]), // GET_STATUS
                Told(5, (0x02, 1, 0, address, 0), &[]), // CLEAR_FEATURE
                Told(6, (0x82, 0, 0, address, 2), &[0, 0]),
                Ask(7, number, 64),
                Silent,
            ],
        )?;
    }
    Ok(())
}

#[test]
fn bulk_out_halts_at_a_header_that_is_none(rt: HostRuntime) -> Result<(), Fail> {
    let mut device = Device::new(rt.alloc())?;
    runs(
        &rt,
        &mut device,
        &[
            Stays(DevEvent::Halt(0)),
            Stays(DevEvent::Halt(4)),
            Send(1, &[0; 12]),
            Send(2, &[]),
            Goes(DevEvent::Take(1)),
            Taken(1, -32, 0),
            Taken(2, -32, 0),
            Told(3, (0x00, 9, 1, 0, 0), &[]), // SET_CONFIGURATION ends the halt
            Send(4, &[]),
            Silent,
        ],
    )
}

#[test]
fn unplugging_answers_all_that_is_pending(rt: HostRuntime) -> Result<(), Fail> {
    let mut device = Device::new(rt.alloc())?;
    runs(
        &rt,
        &mut device,
        &[
            Ask(1, 3, 8),
            Ask(2, 2, 64),
            Send(3, &[0; 12]),
            Control(4, (0x80, 0, 0, 0, 2)),
            Goes(DevEvent::Unplug),
            Answered(4, -108, &[]),
            Taken(3, -108, 0),
            Filled(2, -108, 0),
            Filled(1, -108, 0),
            Stays(DevEvent::Unplug),
            Stays(DevEvent::Answer),
            Silent,
        ],
    )?;
    assert!(rt; device.closed());
    Ok(())
}
