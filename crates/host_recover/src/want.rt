use tmc_wire::ClassAnswer;
use usb_setup::Setup;

/// What is heard of the submit that a recovery wanted last.
#[derive(Clone, Copy, Debug, PartialEq, Eq)]
pub enum Heard {
    /// Nothing yet: the recovery begins.
    Start,
    /// A class request was answered.
    Class(ClassAnswer),
    /// CLEAR_FEATURE was answered.
    Feature,
    /// A read was answered with as many bytes as it asked for.
    FullRead,
    /// A read was answered with fewer bytes.
    ShortRead,
    /// A read was answered with a nonzero status.
    FailedRead,
}

/// What a recovery wants next.
#[derive(Clone, Copy, Debug, PartialEq, Eq)]
pub enum Want {
    /// A control submit with this setup.
    Control(Setup),
    /// A Bulk-IN submit of 4,096 bytes, whose data is dropped.
    Drain,
    /// Nothing: it is over.
    Done,
    /// Nothing: a request of the clear was answered with this USBTMC_status, and it does not go on.
    Stuck(u8),
}
