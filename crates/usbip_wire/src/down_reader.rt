//! The reader of what a device sends.

ghost use Rattle.std.specs.Prelude.{◌≡◌, ◌+◌, ◌≤◌, [], ◌++◌, length, IfOk, IfSome, Some, None, true, false};
ghost use Rattle.usbip_wire.specs.declared.down.DownPhase.TheVariants.{Ops, Urbs};
ghost use Rattle.usbip_wire.specs.Dirs.{AreShort};
ghost use Rattle.usbip_wire.specs.DownForm.{after};
ghost use Rattle.usbip_wire.specs.Given.{IsBytes};
ghost use Rattle.usbip_wire.specs.DownFed.{Held, Fed, Answers, Keeps, NoneWhole, Judged, kept, data_of};
ghost use Rattle.usbip_wire.specs.Urb.{message_max};

use crate::dirs::Dirs;
use crate::down::{Down, DownPhase, DownStep};
use crate::down_reading::read_down;
use crate::reading::are_bytes;
use crate::room::{Last, Room};
use crate::stop::Stop;
use crate::urb::behind_header;
use std::alloc::Global;
use std::marker::Model;
use tmc_base::{Field, Memory};

/// Reads a device's messages from bytes that come in pieces. It holds at most one message.
#[derive(Drop)]
pub struct DownReader {
    phase: DownPhase,
    room: Room,
}

impl Model for DownReader {
    ghost use Rattle.usbip_wire.specs.DownFed.{Held};
    ghost use Rattle.usbip_wire.specs.Room.{is_whole, refused_by};

    ghost Value = { Held };

    ghost view = { λ r. record { phase = r.phase; rest = r.room.rest; whole = is_whole r.room.last; bad = refused_by r.room.last } };
}

impl DownReader {
    /// A reader of the answers to operations. It takes all the memory that it will need.
    pub fn ops(alloc: Global) -> Result<DownReader, Memory>
        ensures { IfOk result (λ reader. reader ≡ record { phase = Ops 0 0; rest = []; whole = false; bad = None }) }
    {
        DownReader::begun(
            alloc,
            DownPhase::Ops {
                devices: 0,
                interfaces: 0,
            },
        )
    }

    /// A reader of the answers to URB messages. It takes all the memory that it will need.
    pub fn urbs(alloc: Global) -> Result<DownReader, Memory>
        ensures { IfOk result (λ reader. reader ≡ record { phase = Urbs; rest = []; whole = false; bad = None }) }
    {
        DownReader::begun(alloc, DownPhase::Urbs)
    }

    fn begun(alloc: Global, phase: DownPhase) -> Result<DownReader, Memory>
        ensures { IfOk result (λ reader. reader ≡ record { phase = phase; rest = []; whole = false; bad = None }) }
    {
        let room = Room::new(alloc)?;
        Ok(DownReader { phase, room })
    }

    /// Takes bytes up to the end of the next message, of answers to what `dirs` says is outstanding. It
    /// takes no memory. `Bad` comes where the last byte of a refused field has come; from then on nothing
    /// is used, and the answer stays the same. The bytes that are kept are judged by the `dirs` of each
    /// call: while part of an answer is kept, its entry must stand as it did.
    pub fn feed(&mut self, piece: &[u8], dirs: &Dirs) -> DownStep
        ensures { Fed self.old dirs.now piece.now result self.new }
    {
        self.know();
        if let Some(field) = self.room.refused() {
            return DownStep {
                used: 0,
                what: Down::Bad(field),
            };
        }
        self.begin();
        self.fill(piece, dirs)
    }

    /// How many bytes are held of a message that is not whole yet: at most one message's.
    pub fn kept(&self) -> usize
        ensures { result ≡ length (kept self.now) }
    {
        self.room.kept()
    }

    /// The data of the answer that the last `feed` gave, and nothing after any other.
    pub fn data(&self) -> &[u8]
        ensures { result.now ≡ data_of self.now }
    {
        if !self.room.is_whole() {
            return &[];
        }
        match self.phase {
            DownPhase::Ops { .. } => &[],
            DownPhase::Urbs => behind_header(self.room.bytes()),
        }
    }

    /// Lets the last message go.
    fn begin(&mut self)
        requires { self.old.bad ≡ None }
        ensures { self.new ≡ record { phase = self.old.phase; rest = kept self.old; whole = false; bad = None } }
    {
        self.room.begin();
    }

    fn fill(&mut self, piece: &[u8], dirs: &Dirs) -> DownStep
        requires good { self.old.bad ≡ None }
        requires unread { self.old.whole ≡ false }
        ensures fresh { NoneWhole self.old.phase dirs.now self.old.rest
            → Answers self.old.phase dirs.now self.old.rest piece.now result.used result.what self.new }
        ensures always { Keeps self.old.phase dirs.now self.old.rest piece.now result.used result.what self.new }
        ensures one_held { length self.new.rest ≤ message_max }
        ensures within { result.used ≤ length piece.now }
    {
        if self.room.bytes().is_empty()
            && let Some(step) = self.take_whole(piece, dirs)
        {
            return step;
        }
        self.gather(piece, dirs)
    }

    /// A message that is whole at the front of a piece, where nothing is held: it is judged there, once.
    fn take_whole(&mut self, piece: &[u8], dirs: &Dirs) -> Option<DownStep>
        requires good { self.old.bad ≡ None }
        requires unread { self.old.whole ≡ false }
        requires empty { self.old.rest ≡ [] }
        ensures whole { IfSome result (λ step. Answers self.old.phase dirs.now self.old.rest piece.now step.used step.what self.new) }
        ensures always { IfSome result (λ step. Keeps self.old.phase dirs.now self.old.rest piece.now step.used step.what self.new) }
        ensures within { IfSome result (λ step. step.used ≤ length piece.now) }
        ensures none { result ≡ None → self.new ≡ self.old }
        ensures one_held { length self.new.rest ≤ message_max }
    {
        are_bytes(piece);
        dirs.know();
        let Ok((what, left)) = read_down(self.phase, dirs, piece) else {
            return None;
        };
        let used = piece.len() - left.len();
        self.add(&piece[..used]);
        self.finish(&what);
        Some(DownStep { used, what })
    }

    /// Holds what a message lacks, field by field, until it is whole or a field is refused. A field is judged where
    /// its last byte has come, and not before.
    fn gather(&mut self, piece: &[u8], dirs: &Dirs) -> DownStep
        requires good { self.old.bad ≡ None }
        requires unread { self.old.whole ≡ false }
        ensures fresh { NoneWhole self.old.phase dirs.now self.old.rest
            → Answers self.old.phase dirs.now self.old.rest piece.now result.used result.what self.new }
        ensures always { Keeps self.old.phase dirs.now self.old.rest piece.now result.used result.what self.new }
        ensures one_held { length self.new.rest ≤ message_max }
        ensures within { result.used ≤ length piece.now }
    {
        self.know();
        let mut used = 0;
        loop {
            match self.judge(dirs) {
                Ok(what) => {
                    self.finish(&what);
                    return DownStep { used, what };
                }
                Err(Stop::Refused(field)) => {
                    self.refuse(field);
                    return DownStep {
                        used,
                        what: Down::Bad(field),
                    };
                }
                Err(Stop::Short(missing)) => {
                    let rest = piece.len() - used;
                    if rest < missing {
                        self.add(&piece[used..]);
                        return DownStep {
                            used: piece.len(),
                            what: Down::More,
                        };
                    }
                    self.add(&piece[used..used + missing]);
                    used += missing;
                }
            }
        }
    }

    /// What the bytes held are.
    fn judge(&self, dirs: &Dirs) -> Result<Down, Stop>
        ensures judged { Judged self.now.phase dirs.now self.now.rest result }
        ensures bytes { IsBytes self.now.rest }
        ensures short { AreShort dirs.now }
    {
        dirs.know();
        let (what, _left) = read_down(self.phase, dirs, self.room.bytes())?;
        Ok(what)
    }

    /// What `u8` says of the bytes held, and how many there are at most.
    fn know(&self)
        ensures bytes { IsBytes self.now.rest }
        ensures one_held { length self.now.rest ≤ message_max }
    {
        let _bytes = self.room.bytes();
    }

    /// Holds these bytes too.
    fn add(&mut self, next: &[u8])
        requires { length self.old.rest + length next.now ≤ message_max }
        ensures { self.new ≡ record self.old { rest = self.old.rest ++ next.now } }
    {
        self.room.add(next);
    }

    /// A message is whole.
    fn finish(&mut self, what: &Down)
        requires { self.old.bad ≡ None }
        ensures { self.new ≡ record self.old { phase = after self.old.phase what.now; whole = true } }
    {
        self.phase = self.phase.after(what);
        self.room.end(Last::Whole);
    }

    /// A field is refused.
    fn refuse(&mut self, field: Field)
        requires { self.old.whole ≡ false }
        ensures { self.new ≡ record self.old { bad = Some field } }
    {
        self.room.end(Last::Refused(field));
    }
}
