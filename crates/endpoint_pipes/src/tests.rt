use crate::{Over, PipeFault, Pipes, Unlinked};
use std::process::Abort;
use std::test::Fail;
use usbip_wire::{Dir, SubmitHead};

/// An IN submit arrives.
fn ask(
    rt: &impl Abort,
    pipes: &mut Pipes,
    seqnum: u32,
    ep: u32,
    length: u32,
) -> Result<(), PipeFault> {
    assert!(rt; ep < 4);
    let head = SubmitHead {
        seqnum,
        devid: 0x0001_0002,
        dir: Dir::In,
        ep,
        length,
        setup: [0; 8],
    };
    pipes.submit(head, &[])
}

/// A Bulk-OUT submit arrives.
fn send(rt: &impl Abort, pipes: &mut Pipes, seqnum: u32, bytes: &[u8]) -> Result<(), PipeFault> {
    assert!(rt; bytes.len() < 1_000);
    let head = SubmitHead {
        seqnum,
        devid: 0x0001_0002,
        dir: Dir::Out,
        ep: 1,
        length: bytes.len() as u32,
        setup: [0; 8],
    };
    pipes.submit(head, bytes)
}

/// Packets of the first Bulk-OUT submit are taken, where it has so many.
fn take(rt: &impl Abort, pipes: &mut Pipes, packets: u32) {
    assert!(rt; pipes.first(1).is_some());
    assert!(rt; packets > 0);
    let left = pipes.rest_out().len();
    assert!(rt; packets == 1 || packets as usize * 64 < left + 64);
    pipes.take_out(packets);
}

/// A packet goes into the first submit of an endpoint, where it has room.
fn give(rt: &impl Abort, pipes: &mut Pipes, ep: u8, packet: &[u8]) {
    assert!(rt; ep < 4);
    if let Some(first) = pipes.first(ep) {
        assert!(rt; matches!(first.head.dir, Dir::In));
        assert!(rt; packet.len() < 1_000);
        assert!(rt; first.moved as usize + packet.len() <= first.head.length as usize);
        pipes.give_in(ep, packet);
    } else {
        assert!(rt; false, "nothing is pending");
    }
}

/// The first submit of an endpoint is answered.
fn answer(rt: &impl Abort, pipes: &mut Pipes, ep: u8) -> Over {
    assert!(rt; ep < 4);
    assert!(rt; pipes.first(ep).is_some());
    pipes.answer(ep)
}

/// How many bytes of the first submit were moved.
fn moved(rt: &impl Abort, pipes: &Pipes, ep: u8) -> Option<u32> {
    assert!(rt; ep < 4);
    Some(pipes.first(ep)?.moved)
}

#[test]
fn out_submits_are_taken_in_packets(rt: HostRuntime) -> Result<(), Fail> {
    // the length of a submit, and how many bytes are moved with each of its packets
    let rows: [(usize, &[u32]); 6] = [
        (0, &[0]),
        (12, &[12]),
        (63, &[63]),
        (64, &[64]),
        (65, &[64, 65]),
        (128, &[64, 128]),
    ];
    let bytes = [7u8; 128];
    for (length, steps) in rows {
        assert!(rt; length <= 128);
        let mut pipes = Pipes::new(rt.alloc())?;
        assert!(rt; send(&rt, &mut pipes, 1, &bytes[..length]).is_ok());
        assert_eq!(rt; pipes.rest_out().len(), length);
        for step in steps {
            take(&rt, &mut pipes, 1);
            assert_eq!(rt; moved(&rt, &pipes, 1), Some(*step));
            assert!(rt; pipes.rest_out().len() + *step as usize == length);
        }
        let over = answer(&rt, &mut pipes, 1);
        assert_eq!(rt; over.actual as usize, length);
        assert!(rt; over.bytes.is_empty());
        assert!(rt; pipes.first(1).is_none());
    }
    Ok(())
}

#[test]
fn several_packets_are_taken_at_once(rt: HostRuntime) -> Result<(), Fail> {
    let mut pipes = Pipes::new(rt.alloc())?;
    let mut bytes = [1u8; 150];
    bytes[128] = 2;
    assert!(rt; send(&rt, &mut pipes, 1, &bytes).is_ok());
    take(&rt, &mut pipes, 2);
    assert_eq!(rt; pipes.rest_out().len(), 22);
    assert_eq!(rt; pipes.rest_out()[0], 2);
    take(&rt, &mut pipes, 1);
    assert!(rt; pipes.rest_out().is_empty());
    Ok(())
}

#[test]
fn in_submits_are_given_packets(rt: HostRuntime) -> Result<(), Fail> {
    let rows: [(u32, &[usize]); 6] = [
        (0, &[0]),
        (12, &[12]),
        (63, &[63]),
        (64, &[64]),
        (65, &[64, 1]),
        (128, &[64, 64]),
    ];
    let bytes = [9u8; 64];
    for (length, packets) in rows {
        let mut pipes = Pipes::new(rt.alloc())?;
        assert!(rt; ask(&rt, &mut pipes, 5, 2, length).is_ok());
        for packet in packets {
            assert!(rt; *packet <= 64);
            give(&rt, &mut pipes, 2, &bytes[..*packet]);
        }
        assert_eq!(rt; moved(&rt, &pipes, 2), Some(length));
        let over = answer(&rt, &mut pipes, 2);
        assert_eq!(rt; over.seqnum, 5);
        assert_eq!(rt; over.actual, length);
        assert_eq!(rt; over.bytes.len(), length as usize);
    }
    Ok(())
}

#[test]
fn the_bytes_come_back_in_order(rt: HostRuntime) -> Result<(), Fail> {
    let mut pipes = Pipes::new(rt.alloc())?;
    assert!(rt; ask(&rt, &mut pipes, 5, 3, 4).is_ok());
    give(&rt, &mut pipes, 3, b"ab");
    give(&rt, &mut pipes, 3, b"c");
    let over = answer(&rt, &mut pipes, 3);
    assert_eq!(rt; over.actual, 3);
    assert_eq!(rt; over.bytes.as_slice(), b"abc".as_slice());
    Ok(())
}

#[test]
fn so_many_are_pending_and_no_number_twice(rt: HostRuntime) -> Result<(), Fail> {
    let mut pipes = Pipes::new(rt.alloc())?;
    for seqnum in 0..255 {
        assert!(rt; ask(&rt, &mut pipes, seqnum, seqnum % 4, 8).is_ok());
    }
    assert!(rt; matches!(ask(&rt, &mut pipes, 254, 3, 8), Err(PipeFault::Twice)));
    assert!(rt; ask(&rt, &mut pipes, 255, 3, 8).is_ok());
    assert_eq!(rt; pipes.len(), 256);
    assert!(rt; matches!(ask(&rt, &mut pipes, 256, 0, 8), Err(PipeFault::Full)));
    assert!(rt; matches!(ask(&rt, &mut pipes, 7, 0, 8), Err(PipeFault::Full)));
    assert!(rt; matches!(pipes.unlink(7), Unlinked::Hit));
    assert!(rt; !pipes.holds(7));
    assert!(rt; ask(&rt, &mut pipes, 7, 0, 8).is_ok());
    assert!(rt; pipes.holds(7));
    Ok(())
}

#[test]
fn unlinks_hit_anywhere_in_a_queue(rt: HostRuntime) -> Result<(), Fail> {
    let mut pipes = Pipes::new(rt.alloc())?;
    for seqnum in 1..6 {
        assert!(rt; ask(&rt, &mut pipes, seqnum, 2, 8).is_ok());
    }
    give(&rt, &mut pipes, 2, b"lost");
    assert!(rt; matches!(pipes.unlink(3), Unlinked::Hit));
    assert!(rt; matches!(pipes.unlink(3), Unlinked::Miss));
    assert!(rt; matches!(pipes.unlink(1), Unlinked::Hit));
    assert!(rt; matches!(pipes.unlink(5), Unlinked::Hit));
    assert!(rt; matches!(pipes.unlink(9), Unlinked::Miss));
    let second = answer(&rt, &mut pipes, 2);
    assert_eq!(rt; second.seqnum, 2);
    assert_eq!(rt; second.actual, 0);
    assert_eq!(rt; answer(&rt, &mut pipes, 2).seqnum, 4);
    assert_eq!(rt; pipes.len(), 0);
    Ok(())
}

#[test]
fn each_endpoint_halts_by_itself(rt: HostRuntime) -> Result<(), Fail> {
    let mut pipes = Pipes::new(rt.alloc())?;
    for ep in 0..4 {
        pipes.halt(ep);
    }
    assert!(rt; !pipes.halted(0));
    assert!(rt; pipes.halted(1) && pipes.halted(2) && pipes.halted(3));
    pipes.unhalt(2);
    assert!(rt; pipes.halted(1) && !pipes.halted(2) && pipes.halted(3));
    Ok(())
}
