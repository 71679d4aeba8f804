ghost use Rattle.std.specs.Prelude.{◌≡◌};

/// How a call of the program ends.
#[derive(Clone, Copy, Debug, PartialEq, Eq)]
pub enum Status {
    /// The input was read to its end, and the text was written whole.
    Printed,
    /// The words are none that the program knows.
    Usage,
    /// A line of the input is refused.
    Refused,
    /// A read of the source failed.
    SourceFault,
    /// A write to the sink failed.
    SinkFault,
    /// Memory is wanting.
    NoMemory,
}

impl Status {
    ghost use Rattle.tmc_tool.specs.Tool.{code_of};

    /// The number that the status is to the shell.
    pub fn code(self) -> u8
        ensures { result ≡ code_of self }
    {
        match self {
            Status::Printed => 0,
            Status::Usage => 1,
            Status::Refused => 2,
            Status::SourceFault => 3,
            Status::SinkFault => 4,
            Status::NoMemory => 5,
        }
    }
}
