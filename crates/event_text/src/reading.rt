//! A stream that is shown, as far as it was read.

ghost use Rattle.std.specs.Prelude.{◌≡◌, ◌++◌, ◌∷◌, [], ℕ, List, None, Some, IfOk, IfErr, OnOk, length};
ghost use Rattle.usbip_wire.specs.Dirs.{IsShort};
ghost use Rattle.usbip_wire.specs.DownFed as down_fed;
ghost use Rattle.usbip_wire.specs.UpFed as up_fed;
ghost use Rattle.usbip_wire.specs.declared.dirs.Outstanding.{Outstanding};
ghost use Rattle.usbip_wire.specs.declared.down.DownStep.{DownStep};
ghost use Rattle.usbip_wire.specs.declared.up.UpStep.{UpStep};
ghost use Rattle.event_text.specs.Read.{Stepped, IsSound, IsSettled, IsOurReader, standing_of, is_bad, client_step, device_step, client_text, device_text, answered};
ghost use Rattle.event_text.specs.declared.script.Line.TheVariants.{Bytes};
ghost use Rattle.event_text.specs.Script.{entry_fault};
ghost use Rattle.event_text.specs.Shown.{begun, Prints, ending};

use crate::line_fault::LineWhat;
use crate::printed::{put_client, put_device, put_more};
use crate::script::Phase;
use crate::way::Way;
use std::alloc::Global;
use tmc_base::Memory;
use usbip_wire::{
    DIRS_MAX, Dirs, Down, DownReader, Outstanding, Up, UpReader, entries_may_be_added,
};

/// The device that URB messages go to: bus 1, device 2.
const DEVID: u32 = 0x0001_0002;

/// Whose bytes are read.
#[derive(Drop)]
pub(crate) enum Reader {
    Client(UpReader),
    Device(DownReader),
}

impl Reader {
    /// The reader of a script's stream.
    fn new(alloc: Global, way: Way, phase: Phase) -> Result<Reader, Memory>
        ensures begun { IfOk result (λ reader. standing_of reader [] ≡ begun way phase) }
        ensures ours { IfOk result IsOurReader }
    {
        Ok(match (way, phase) {
            (Way::Up, Phase::Op) => Reader::Client(UpReader::ops(alloc)?),
            (Way::Up, Phase::Urb) => Reader::Client(UpReader::urbs(alloc, DEVID)?),
            (Way::Down, Phase::Op) => Reader::Device(DownReader::ops(alloc)?),
            (Way::Down, Phase::Urb) => Reader::Device(DownReader::urbs(alloc)?),
        })
    }

    /// The number of bytes that are not part of a message yet, where no field was refused.
    fn kept(&self) -> usize
        ensures { (entries : List Outstanding) → (standing_of self.now entries).bad ≡ None → result ≡ length (standing_of self.now entries).rest }
    {
        match self {
            Reader::Client(reader) => reader.kept(),
            Reader::Device(reader) => reader.kept(),
        }
    }
}

/// What one call of a reader gave.
#[derive(Clone, Copy, Debug, PartialEq, Eq)]
pub(crate) enum Step {
    /// So many bytes completed a message.
    Message(usize),
    /// All bytes were used, and no message is whole.
    More,
    /// A field is refused.
    Bad,
}

impl Step {
    fn is_bad(self) -> bool
        ensures { result ≡ is_bad self }
    {
        match self {
            Step::Message(_) | Step::More => false,
            Step::Bad => true,
        }
    }
}

/// A stream with what is outstanding, and whether a field was refused.
#[derive(Drop)]
pub(crate) struct Reading {
    pub(crate) reader: Reader,
    pub(crate) dirs: Dirs,
    pub(crate) refused: bool,
}

impl Reading {
    /// The stream of a script, before its first byte.
    pub(crate) fn new(alloc: Global, way: Way, phase: Phase) -> Result<Reading, Memory>
        ensures begun { IfOk result (λ reading. standing_of reading.reader reading.dirs ≡ begun way phase) }
        ensures sound { IfOk result (λ reading. IsSound reading.reader reading.dirs reading.refused) }
    {
        let reader = Reader::new(alloc, way, phase)?;
        Ok(Reading {
            reader,
            dirs: Dirs::new(),
            refused: false,
        })
    }

    /// A submit or an unlink is outstanding from here on.
    pub(crate) fn add(&mut self, entry: Outstanding) -> Result<(), LineWhat>
        requires short { IsShort entry }
        requires sound { IsSound self.old.reader self.old.dirs self.old.refused }
        ensures ok { OnOk result (entry_fault self.old.dirs entry ≡ None) }
        ensures added { OnOk result (standing_of self.new.reader self.new.dirs ≡ standing_of self.old.reader (self.old.dirs ++ entry ∷ [])) }
        ensures err { IfErr result (λ what. entry_fault self.old.dirs entry ≡ Some what) }
        ensures sound { OnOk result (IsSound self.new.reader self.new.dirs self.new.refused) }
    {
        if self.dirs.holds(entry.seqnum()) {
            return Err(LineWhat::Twice);
        }
        if self.dirs.len() == DIRS_MAX {
            return Err(LineWhat::TooMany);
        }
        entries_may_be_added();
        match entry {
            Outstanding::Submit {
                seqnum,
                dir,
                length,
            } => self.dirs.add_submit(seqnum, dir, length),
            Outstanding::Unlink { seqnum } => self.dirs.add_unlink(seqnum),
        }
        Ok(())
    }

    /// Reads a piece, and appends the lines of the messages that it completes. Behind a bad field nothing is
    /// read.
    pub(crate) fn give(&mut self, piece: &[u8], text: &mut Vec<u8>) -> Result<(), Memory>
        requires { IsSound self.old.reader self.old.dirs self.old.refused }
        ensures printed { OnOk result ((printed : List ℕ) × (text.new.items ≡ text.old.items ++ printed)
            × Prints (standing_of self.old.reader self.old.dirs) (Bytes piece.now) printed (standing_of self.new.reader self.new.dirs)) }
        ensures sound { OnOk result (IsSound self.new.reader self.new.dirs self.new.refused) }
    {
        if self.refused {
            return Ok(());
        }
        let mut left = piece;
        while let Step::Message(used) = self.step(left, text)? {
            left = &left[used..];
        }
        Ok(())
    }

    /// Appends what is printed behind the last line.
    pub(crate) fn end(&self, text: &mut Vec<u8>) -> Result<(), Memory>
        requires { IsSound self.now.reader self.now.dirs self.now.refused }
        ensures { OnOk result (text.new.items ≡ text.old.items ++ ending (standing_of self.now.reader self.now.dirs).bad (standing_of self.now.reader self.now.dirs).rest) }
    {
        if self.refused {
            return Ok(());
        }
        put_more(self.reader.kept(), text)
    }

    /// Reads up to the end of the next message, and appends what is printed of it.
    fn step(&mut self, piece: &[u8], text: &mut Vec<u8>) -> Result<Step, Memory>
        requires good { (standing_of self.old.reader self.old.dirs).bad ≡ None }
        requires sound { IsSound self.old.reader self.old.dirs self.old.refused }
        ensures stepped { IfOk result (λ step. (printed : List ℕ) × (text.new.items ≡ text.old.items ++ printed)
            × Stepped (standing_of self.old.reader self.old.dirs) piece.now step printed (standing_of self.new.reader self.new.dirs)) }
        ensures sound { OnOk result (IsSound self.new.reader self.new.dirs self.new.refused) }
    {
        let step = self.feed(piece, text)?;
        self.refused = step.is_bad();
        Ok(step)
    }

    fn feed(&mut self, piece: &[u8], text: &mut Vec<u8>) -> Result<Step, Memory>
        requires good { (standing_of self.old.reader self.old.dirs).bad ≡ None }
        requires settled { IsSettled (standing_of self.old.reader self.old.dirs) }
        requires ours { IsOurReader self.old.reader }
        ensures stepped { IfOk result (λ step. (printed : List ℕ) × (text.new.items ≡ text.old.items ++ printed)
            × Stepped (standing_of self.old.reader self.old.dirs) piece.now step printed (standing_of self.new.reader self.new.dirs)) }
        ensures ours { OnOk result (IsOurReader self.new.reader) }
    {
        match &mut self.reader {
            Reader::Client(reader) => feed_client(reader, piece, text),
            Reader::Device(reader) => feed_device(reader, &mut self.dirs, piece, text),
        }
    }
}

/// Feeds a client's bytes up to the end of the next message, and appends what is printed of it.
fn feed_client(reader: &mut UpReader, piece: &[u8], text: &mut Vec<u8>) -> Result<Step, Memory>
    ensures { IfOk result (λ step. (fed : UpStep) × up_fed.Fed reader.old piece.now fed reader.new
        × (step ≡ client_step fed)
        × (text.new.items ≡ text.old.items ++ client_text fed.what (up_fed.data_of reader.new))) }
{
    let fed = reader.feed(piece);
    put_client(&fed.what, reader.data(), text)?;
    Ok(match fed.what {
        Up::Op(_) | Up::Submit(_) | Up::Unlink(_) => Step::Message(fed.used),
        Up::More => Step::More,
        Up::Bad(_) => Step::Bad,
    })
}

/// Feeds a device's bytes up to the end of the next message, and appends what is printed of it. What it
/// answers is no longer outstanding.
fn feed_device(
    reader: &mut DownReader,
    dirs: &mut Dirs,
    piece: &[u8],
    text: &mut Vec<u8>,
) -> Result<Step, Memory>
    requires good { reader.old.bad ≡ None }
    requires unread { down_fed.NoneWhole reader.old.phase dirs.old (down_fed.kept reader.old) }
    ensures { IfOk result (λ step. (fed : DownStep) × down_fed.Fed reader.old dirs.old piece.now fed reader.new
        × (step ≡ device_step fed)
        × (dirs.new ≡ answered dirs.old fed.what)
        × (text.new.items ≡ text.old.items ++ device_text fed.what (down_fed.data_of reader.new))) }
{
    let fed = reader.feed(piece, dirs);
    put_device(&fed.what, reader.data(), text)?;
    match fed.what {
        Down::RetSubmit(head) => dirs.remove(head.seqnum),
        Down::RetUnlink(head) => dirs.remove(head.seqnum),
        _ => {}
    }
    Ok(match fed.what {
        Down::More => Step::More,
        Down::Bad(_) => Step::Bad,
        _ => Step::Message(fed.used),
    })
}
