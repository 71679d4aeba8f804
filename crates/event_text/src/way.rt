ghost use Rattle.std.specs.Prelude.{◌≡◌};
ghost use Rattle.event_text.specs.Way.{way_of};

use usbip_wire::Dir;

/// The way of a stream: up is what a client sends, down what a device sends.
#[derive(Clone, Copy, Debug, PartialEq, Eq)]
pub(crate) enum Way {
    Up,
    Down,
}

impl Way {
    /// The way of the bytes that are called by the direction of their transfers.
    pub(crate) fn of(dir: Dir) -> Way
        ensures { result ≡ way_of dir }
    {
        match dir {
            Dir::Out => Way::Up,
            Dir::In => Way::Down,
        }
    }
}
