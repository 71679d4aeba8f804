ghost use Rattle.std.specs.Prelude.{◌≡◌, ◌++◌, ◌∷◌, []};
ghost use Rattle.usbip_wire.specs.Awaited.{entry_of};
ghost use Rattle.usbip_wire.specs.Dirs as dirs;
ghost use Rattle.usbip_wire.specs.Dirs.{HasRoom, IsShort, find};

use usbip_wire::{Dir, Dirs};

/// A message that is not answered yet.
#[derive(Clone, Copy, Debug)]
pub(crate) enum Unanswered {
    /// A submit of `length` bytes.
    Submit { seqnum: u32, dir: Dir, length: u32 },
    /// An unlink of the submit `target`.
    Unlink { seqnum: u32, target: u32 },
}

impl Unanswered {
    ghost use Rattle.host_urbs.specs.Entries.{awaited_of, number_of, named_by};
    ghost use Rattle.std.specs.Prelude.{Option, None};

    /// Its sequence number.
    pub(crate) fn seqnum(&self) -> u32
        ensures { result ≡ number_of self.now }
    {
        match *self {
            Unanswered::Submit { seqnum, .. } => seqnum,
            Unanswered::Unlink { seqnum, .. } => seqnum,
        }
    }

    /// The submit that it names, where it is an unlink.
    pub(crate) fn target(&self) -> Option<u32>
        ensures { result ≡ named_by self.now }
    {
        match *self {
            Unanswered::Submit { .. } => None,
            Unanswered::Unlink { target, .. } => Some(target),
        }
    }

    /// Adds it to what answers are read by.
    pub(crate) fn add_to(&self, dirs: &mut Dirs)
        requires free { HasRoom dirs.old }
        requires new { find (number_of self.now) dirs.old ≡ None }
        requires short { IsShort (entry_of (awaited_of self.now)) }
        ensures { dirs.new ≡ dirs.old ++ entry_of (awaited_of self.now) ∷ [] }
    {
        match *self {
            Unanswered::Submit {
                seqnum,
                dir,
                length,
            } => dirs.add_submit(seqnum, dir, length),
            Unanswered::Unlink { seqnum, .. } => dirs.add_unlink(seqnum),
        }
    }
}

/// A message that is not answered yet, and how many bytes are to be sent until its last one is: none once it was sent.
#[derive(Clone, Copy, Debug)]
pub(crate) struct Entry {
    pub(crate) message: Unanswered,
    pub(crate) unsent: usize,
}
