//! The reader of what a client sends.

ghost use Rattle.std.specs.Prelude.{◌≡◌, ◌+◌, ◌≤◌, [], ◌++◌, length, IfOk, IfSome, Some, None, true, false};
ghost use Rattle.usbip_wire.specs.declared.up.UpPhase.TheVariants.{Ops, Urbs};
ghost use Rattle.usbip_wire.specs.Given.{IsBytes};
ghost use Rattle.usbip_wire.specs.UpFed.{Held, Fed, Answers, Judged, Ends, kept, data_of};
ghost use Rattle.usbip_wire.specs.Urb.{message_max};

use crate::reading::are_bytes;
use crate::room::{Last, Room};
use crate::stop::Stop;
use crate::up::{Up, UpPhase, UpStep};
use crate::up_reading::read_up;
use crate::urb::behind_header;
use std::alloc::Global;
use std::marker::Model;
use tmc_base::{Field, Memory};

/// Reads a client's messages from bytes that come in pieces. It holds at most one message.
#[derive(Drop)]
pub struct UpReader {
    phase: UpPhase,
    room: Room,
}

impl Model for UpReader {
    ghost use Rattle.usbip_wire.specs.UpFed.{Held, EndsWhere};
    ghost use Rattle.usbip_wire.specs.Room.{is_whole, refused_by};

    ghost Value = { Held };

    ghost view = { λ r. record { phase = r.phase; rest = r.room.rest; whole = is_whole r.room.last; bad = refused_by r.room.last } };

    ghost invariant = { λ r. EndsWhere r.phase r.room.rest r.room.last };
}

impl UpReader {
    /// A reader of operations. It takes all the memory that it will need.
    pub fn ops(alloc: Global) -> Result<UpReader, Memory>
        ensures { IfOk result (λ reader. reader ≡ record { phase = Ops; rest = []; whole = false; bad = None }) }
    {
        UpReader::begun(alloc, UpPhase::Ops)
    }

    /// A reader of URB messages to the device `devid`. It takes all the memory that it will need.
    pub fn urbs(alloc: Global, devid: u32) -> Result<UpReader, Memory>
        ensures { IfOk result (λ reader. reader ≡ record { phase = Urbs devid; rest = []; whole = false; bad = None }) }
    {
        UpReader::begun(alloc, UpPhase::Urbs { devid })
    }

    fn begun(alloc: Global, phase: UpPhase) -> Result<UpReader, Memory>
        ensures { IfOk result (λ reader. reader ≡ record { phase = phase; rest = []; whole = false; bad = None }) }
    {
        let room = Room::new(alloc)?;
        Ok(UpReader { phase, room })
    }

    /// Takes bytes up to the end of the next message. It takes no memory. `Bad` comes where the last byte
    /// of a refused field has come; from then on nothing is used, and the answer stays the same.
    pub fn feed(&mut self, piece: &[u8]) -> UpStep
        ensures { Fed self.old piece.now result self.new }
    {
        self.know();
        if let Some(field) = self.room.refused() {
            return UpStep {
                used: 0,
                what: Up::Bad(field),
            };
        }
        self.begin();
        self.fill(piece)
    }

    /// How many bytes are held of a message that is not whole yet: at most one message's.
    pub fn kept(&self) -> usize
        ensures { result ≡ length (kept self.now) }
    {
        self.room.kept()
    }

    /// The data of the submit that the last `feed` gave, and nothing after any other answer.
    pub fn data(&self) -> &[u8]
        ensures { result.now ≡ data_of self.now }
    {
        if self.room.is_whole() {
            behind_header(self.room.bytes())
        } else {
            &[]
        }
    }

    /// Lets the last message go.
    fn begin(&mut self)
        requires { self.old.bad ≡ None }
        ensures { self.new ≡ record { phase = self.old.phase; rest = kept self.old; whole = false; bad = None } }
    {
        self.room.begin();
    }

    fn fill(&mut self, piece: &[u8]) -> UpStep
        requires good { self.old.bad ≡ None }
        requires unread { self.old.whole ≡ false }
        ensures answers { Answers self.old.phase self.old.rest piece.now result.used result.what self.new }
        ensures one_held { length self.new.rest ≤ message_max }
    {
        if self.room.bytes().is_empty()
            && let Some(step) = self.take_whole(piece)
        {
            return step;
        }
        self.gather(piece)
    }

    /// A message that is whole at the front of a piece, where nothing is held: it is judged there, once.
    fn take_whole(&mut self, piece: &[u8]) -> Option<UpStep>
        requires good { self.old.bad ≡ None }
        requires unread { self.old.whole ≡ false }
        requires empty { self.old.rest ≡ [] }
        ensures whole { IfSome result (λ step. Answers self.old.phase self.old.rest piece.now step.used step.what self.new) }
        ensures none { result ≡ None → self.new ≡ self.old }
        ensures one_held { length self.new.rest ≤ message_max }
    {
        are_bytes(piece);
        let Ok((what, left)) = read_up(self.phase, piece) else {
            return None;
        };
        let used = piece.len() - left.len();
        self.add(&piece[..used]);
        self.finish();
        Some(UpStep { used, what })
    }

    /// Holds what a message lacks, field by field, until it is whole or a field is refused. A field is judged where
    /// its last byte has come, and not before.
    fn gather(&mut self, piece: &[u8]) -> UpStep
        requires good { self.old.bad ≡ None }
        requires unread { self.old.whole ≡ false }
        ensures answers { Answers self.old.phase self.old.rest piece.now result.used result.what self.new }
        ensures one_held { length self.new.rest ≤ message_max }
    {
        self.know();
        let mut used = 0;
        loop {
            match self.judge() {
                Ok(what) => {
                    self.finish();
                    return UpStep { used, what };
                }
                Err(Stop::Refused(field)) => {
                    self.refuse(field);
                    return UpStep {
                        used,
                        what: Up::Bad(field),
                    };
                }
                Err(Stop::Short(missing)) => {
                    let rest = piece.len() - used;
                    if rest < missing {
                        self.add(&piece[used..]);
                        return UpStep {
                            used: piece.len(),
                            what: Up::More,
                        };
                    }
                    self.add(&piece[used..used + missing]);
                    used += missing;
                }
            }
        }
    }

    /// What the bytes held are.
    fn judge(&self) -> Result<Up, Stop>
        requires good { self.now.bad ≡ None }
        requires unread { self.now.whole ≡ false }
        ensures judged { Judged self.now.phase self.now.rest result }
        ensures bytes { IsBytes self.now.rest }
    {
        let (what, _left) = read_up(self.phase, self.room.bytes())?;
        Ok(what)
    }

    /// What `u8` says of the bytes held, and how many there are at most.
    fn know(&self)
        ensures bytes { IsBytes self.now.rest }
        ensures one_held { length self.now.rest ≤ message_max }
    {
        let _bytes = self.room.bytes();
    }

    /// Holds these bytes too.
    fn add(&mut self, next: &[u8])
        requires room { length self.old.rest + length next.now ≤ message_max }
        requires ends { Ends self.old.phase (self.old.rest ++ next.now) }
        ensures { self.new ≡ record self.old { rest = self.old.rest ++ next.now } }
    {
        self.room.add(next);
    }

    /// A message is whole.
    fn finish(&mut self)
        requires { self.old.bad ≡ None }
        ensures { self.new ≡ record self.old { whole = true } }
    {
        self.room.end(Last::Whole);
    }

    /// A field is refused.
    fn refuse(&mut self, field: Field)
        requires { self.old.whole ≡ false }
        ensures { self.new ≡ record self.old { bad = Some field } }
    {
        self.room.end(Last::Refused(field));
    }
}
