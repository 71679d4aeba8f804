use crate::RemoteAct;
use tmc_base::Octets;

/// What happened at the instrument (IEEE 488.2, section 6, the message exchange).
#[derive(Drop, Debug)]
pub enum LogEntry {
    /// A message was executed, and its response became the unread output.
    Exec {
        /// The number of the submit that ended the message.
        seq: u32,
        message: Octets,
    },
    /// So many bytes of the response were read.
    Took {
        n: u32,
    },
    /// A message came while a response was unread, which drops the response (section 6.3.2.3).
    Interrupt,
    /// A response was requested where there was none (section 6.3.2.2).
    Bare,
    /// An acquisition was triggered.
    Trigger {
        /// The number of the submit that carried the trigger.
        seq: u32,
    },
    /// The status byte was polled.
    Poll {
        /// The number of the submit that asked for it.
        seq: u32,
    },
    /// The unread output was dropped by a clear.
    Clear,
    /// Something changed who may operate the instrument.
    Remote {
        act: RemoteAct,
    },
}
