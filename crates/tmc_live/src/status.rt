ghost use Rattle.std.specs.Prelude.{◌≡◌};

/// How a call of the program ends.
#[derive(Clone, Copy, Debug, PartialEq, Eq)]
pub enum Status {
    /// As many connections were served as were asked for, and the line of each was written whole.
    Served,
    /// The words are none that the program knows.
    Usage,
    /// A write to the sink failed.
    SinkFault,
    /// Memory is wanting.
    NoMemory,
    /// The net could not listen, or could not accept a connection.
    NetFault,
}

impl Status {
    ghost use Rattle.tmc_live.specs.Live.{code_of};

    /// The number that the status is to the shell.
    pub fn code(self) -> u8
        ensures { result ≡ code_of self }
    {
        match self {
            Status::Served => 0,
            Status::Usage => 1,
            Status::SinkFault => 4,
            Status::NoMemory => 5,
            Status::NetFault => 6,
        }
    }
}
