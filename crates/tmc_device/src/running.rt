/// The split transaction that runs (USBTMC 1.0, sections 4.2.1.2 to 4.2.1.7).
#[derive(Clone, Copy, Debug, PartialEq, Eq)]
pub(crate) enum Running {
    Nothing,
    AbortsOut,
    /// An abort of Bulk-IN, which may still want its packet, and has given so many bytes of data.
    AbortsIn { wanting: bool, given: u32 },
    Clears,
}
