use crate::{Log, LogEntry, RemoteAct};
use std::test::Fail;
use tmc_base::Octets;

#[test]
fn log_keeps_its_entries_in_order(rt: HostRuntime) -> Result<(), Fail> {
    let mut log = Log::new(rt.alloc());
    assert!(rt; log.entries().is_empty());
    log.reserve()?;
    log.push(LogEntry::Exec {
        seq: 7,
        message: Octets::from_slice(rt.alloc(), b"*OPC?")?,
    });
    for n in [1, 2] {
        log.reserve()?;
        log.push(LogEntry::Took { n });
    }
    log.reserve()?;
    log.push(LogEntry::Remote {
        act: RemoteAct::GoLocal,
    });
    log.reserve()?;
    assert!(rt;
        matches!(
            log.entries(),
            [
                LogEntry::Exec { seq: 7, .. },
                LogEntry::Took { n: 1 },
                LogEntry::Took { n: 2 },
                LogEntry::Remote {
                    act: RemoteAct::GoLocal
                }
            ]
        )
    );
    if let [LogEntry::Exec { message, .. }, ..] = log.entries() {
        assert_eq!(rt; message.as_slice(), b"*OPC?".as_slice());
    }
    Ok(())
}

#[test]
fn log_takes_as_many_entries_as_there_is_memory_for(rt: HostRuntime) -> Result<(), Fail> {
    let mut log = Log::new(rt.alloc());
    for seq in 0..1000_u32 {
        log.reserve()?;
        log.push(LogEntry::Trigger { seq });
    }
    assert_eq!(rt; log.entries().len(), 1000);
    assert!(rt;
        matches!(
            log.entries(),
            [
                LogEntry::Trigger { seq: 0 },
                ..,
                LogEntry::Trigger { seq: 999 }
            ]
        )
    );
    Ok(())
}
