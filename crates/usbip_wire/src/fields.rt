//! The judged fields, each at its place in its message.

use tmc_base::{Field, Layer, Name};

pub(crate) const VERSION: Field = Field {
    layer: Layer::Op,
    name: Name::Version,
    offset: 0,
};

pub(crate) const CODE: Field = Field {
    layer: Layer::Op,
    name: Name::Code,
    offset: 2,
};

pub(crate) const COMMAND: Field = Field {
    layer: Layer::Urb,
    name: Name::Command,
    offset: 0,
};

pub(crate) const SEQNUM: Field = Field {
    layer: Layer::Urb,
    name: Name::Seqnum,
    offset: 4,
};

pub(crate) const DEVID: Field = Field {
    layer: Layer::Urb,
    name: Name::Devid,
    offset: 8,
};

pub(crate) const DIRECTION: Field = Field {
    layer: Layer::Urb,
    name: Name::Direction,
    offset: 12,
};

pub(crate) const ENDPOINT: Field = Field {
    layer: Layer::Urb,
    name: Name::Endpoint,
    offset: 16,
};

pub(crate) const BUFFER_LENGTH: Field = Field {
    layer: Layer::Urb,
    name: Name::BufferLength,
    offset: 24,
};

pub(crate) const ACTUAL_LENGTH: Field = Field {
    layer: Layer::Urb,
    name: Name::ActualLength,
    offset: 24,
};

pub(crate) const PACKETS: Field = Field {
    layer: Layer::Urb,
    name: Name::Packets,
    offset: 32,
};
