ghost use Rattle.std.specs.Prelude.{◌≡◌, ◌≤◌, length};
ghost use Rattle.instr_plain.specs.Answer.{bytes_of, is_last};

use crate::decimal::decimal_len;

/// What `*IDN?` answers: maker, model, serial number and firmware level (IEEE 488.2, section 10.14).
pub(crate) const IDENTITY: &[u8] = b"EXAMPLE,TMC1,0,1.0";

/// What a query answers.
#[derive(Clone, Copy, Debug, PartialEq, Eq)]
pub enum Answer {
    /// The identity.
    Identity,
    /// A number in decimal.
    Number(u8),
    /// A block of so many samples.
    Block {
        acquisitions: u32,
        conf: u8,
        size: u16,
    },
}

impl Answer {
    /// How many bytes it has.
    pub(crate) fn len(&self) -> usize
        ensures value { result ≡ length (bytes_of self.now) }
        ensures short { result ≤ 70000 }
    {
        match self {
            Answer::Identity => IDENTITY.len(),
            Answer::Number(n) => decimal_len(u16::from(*n)),
            Answer::Block { size, .. } => 2 + decimal_len(*size) + usize::from(*size),
        }
    }

    /// Whether no answer can stand behind it, since only the end of the response ends it.
    pub(crate) fn is_last(&self) -> bool
        ensures { result ≡ is_last self.now }
    {
        matches!(self, Answer::Identity)
    }
}
