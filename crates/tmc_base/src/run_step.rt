use crate::Octets;

/// A step of a link's peer, as the link can tell it: the bytes that it took in, and those that it put out.
#[derive(Drop, Debug)]
pub struct RunStep {
    pub took: Octets,
    pub put: Octets,
}
