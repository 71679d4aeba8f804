use tmc_base::Field;

/// Why the bytes that are held make no whole message.
#[derive(Clone, Copy, Debug, PartialEq, Eq)]
pub(crate) enum Stop {
    /// So many more bytes are wanted, for the next field or for the data.
    Short(usize),
    /// This field has no accepted value.
    Refused(Field),
}
