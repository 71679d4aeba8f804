ghost use Rattle.std.specs.Prelude.{◌≡◌, ◌+◌, ◌*◌, ◌<◌, ◌≤◌, [], length, IfOk, OnOk};
ghost use Rattle.host_hub.specs.declared.limits.TheConstants.{TICKETS_MAX};
ghost use Rattle.host_hub.specs.Noted.{with_mark, with_ticket, with_start, born_of};

use std::alloc::Global;
use std::marker::Model;
use tmc_base::Memory;

/// How many whole messages a hub had written and taken when it made an entry of its book.
#[derive(Clone, Copy, Debug)]
pub(crate) struct Mark {
    pub(crate) written: u32,
    pub(crate) taken: u32,
}

/// What a hub keeps beside its book: the mark of each entry, and of each ticket the number of its first submit, 0 while there
/// is none, and how many turns there had been when it was asked.
#[derive(Drop)]
pub(crate) struct Notes {
    marks: Vec<Mark>,
    starts: Vec<u32>,
    births: Vec<u64>,
    /// So many marks take no memory.
    room: usize,
    /// So many tickets take no memory.
    places: usize,
}

impl Model for Notes {
    ghost use Rattle.std.specs.Prelude.{◌+◌, ◌≤◌, length, vec_capacity};
    ghost use Rattle.host_hub.specs.Noted.{Noted};

    ghost Value = { Noted };

    ghost view = { λ a. record { marks = a.marks.items; starts = a.starts.items; births = a.births.items; room = a.room; places = a.places } };

    ghost invariant = { λ a. (length a.marks.items + a.room ≤ vec_capacity a.marks)
        × (length a.starts.items + a.places ≤ vec_capacity a.starts)
        × (length a.births.items + a.places ≤ vec_capacity a.births) };
}

impl Notes {
    /// Nothing is noted. Takes the memory for the mark of giving up.
    pub(crate) fn new(alloc: Global) -> Result<Notes, Memory>
        ensures { IfOk result (λ notes. notes ≡ record { marks = []; starts = []; births = []; room = 1; places = 0 }) }
    {
        Ok(Notes {
            marks: Vec::with_capacity(alloc, 1)?,
            starts: Vec::new(alloc),
            births: Vec::new(alloc),
            room: 1,
            places: 0,
        })
    }

    /// Takes the memory for a ticket more, where so many are not settled: for the mark of its asking, those of its cancel and its
    /// settling, and theirs, and that of giving up.
    pub(crate) fn reserve(&mut self, live: usize) -> Result<(), Memory>
        requires { live ≤ TICKETS_MAX }
        ensures kept { self.new ≡ record self.old { room = self.new.room; places = self.new.places } }
        ensures room { OnOk result (2 * live + 4 ≤ self.new.room) }
        ensures places { OnOk result (1 ≤ self.new.places) }
        ensures no_less { self.old.room ≤ self.new.room }
    {
        self.marks.reserve(2 * live + 4)?;
        self.room = self.room.max(2 * live + 4);
        self.starts.reserve(self.places + 1)?;
        self.births.reserve(self.places + 1)?;
        self.places += 1;
        Ok(())
    }

    /// A ticket was asked, and that was entered.
    pub(crate) fn ask(&mut self, mark: Mark, turned: u64)
        requires room { 0 < self.old.room }
        requires places { 0 < self.old.places }
        ensures { self.new ≡ with_ticket mark turned self.old }
    {
        self.marks.push_reserved(mark);
        self.room -= 1;
        self.starts.push_reserved(0);
        self.births.push_reserved(turned);
        self.places -= 1;
    }

    /// An entry was made.
    pub(crate) fn mark(&mut self, mark: Mark)
        requires { 0 < self.old.room }
        ensures { self.new ≡ with_mark mark self.old }
    {
        self.marks.push_reserved(mark);
        self.room -= 1;
    }

    /// The first submit of this ticket has this number.
    pub(crate) fn start(&mut self, ticket: u32, number: u32)
        requires first { 1 ≤ ticket }
        requires last { ticket ≤ length self.old.starts }
        ensures { self.new ≡ with_start ticket number self.old }
    {
        self.starts[ticket as usize - 1] = number;
    }

    /// How many turns there had been when this ticket was asked.
    pub(crate) fn born(&self, ticket: u32) -> Option<u64>
        ensures { result ≡ born_of ticket self.now.births }
    {
        if ticket == 0 {
            return None;
        }
        self.births.get(ticket as usize - 1).copied()
    }
}
