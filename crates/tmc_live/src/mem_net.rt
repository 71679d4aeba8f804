ghost use Rattle.std.specs.Prelude.{◌≡◌, [], false, IfOk};
ghost use Rattle.tmc_base.specs.Faults.{raised};
ghost use Rattle.tmc_base.specs.FailPlan.{after_call, next_fails};
ghost use Rattle.tmc_live.specs.declared.net.NetFault.TheVariants.{Failed};
ghost use Rattle.tmc_live.specs.Net.{Gives, IsFault};
ghost use Rattle.tmc_live.specs.MemNet.{GivesNext, standing_of};

use crate::net::{Net, NetFault};
use std::alloc::Global;
use std::collections::VecDeque;
use std::marker::Model;
use tmc_base::{MemLink, Memory};

/// A net in memory. It gives its links in their order, keeps those that it takes back, and fails at the calls that it is
/// told to. With no link left a dial and an accept fail.
#[derive(Drop)]
pub struct MemNet {
    links: VecDeque<MemLink>,
    back: Vec<MemLink>,
    listens: bool,
    given: usize,
    fails: Vec<u32>,
    calls: u32,
    faults: u64,
}

impl Model for MemNet {
    ghost use Rattle.std.specs.Prelude.{◌+◌, ◌≤◌, length, vec_capacity};
    ghost use Rattle.tmc_live.specs.MemNet.{Held};

    ghost Value = { Held };

    ghost view = { λ a. record {
      links = a.links.items;
      back = a.back.items;
      listens = a.listens;
      given = a.given;
      plan = record { fails = a.fails.items; calls = a.calls };
      faults = a.faults;
    } };

    ghost invariant = { λ a. length a.back.items + (a.given + length a.links.items) ≤ vec_capacity a.back };
}

impl MemNet {
    /// Gives these links, and takes room for as many to come back. The calls of `dial`, `listen` and `accept` are counted
    /// together from 1, and those in `fails` fail.
    pub fn new(alloc: Global, links: Vec<MemLink>, fails: Vec<u32>) -> Result<MemNet, Memory>
        ensures { IfOk result (λ net. net ≡ record {
          links = links.items;
          back = [];
          listens = false;
          given = 0;
          plan = record { fails = fails.items; calls = 0 };
          faults = 0;
        }) }
    {
        Ok(MemNet {
            back: Vec::with_capacity(alloc, links.len())?,
            links: VecDeque::from(links),
            listens: false,
            given: 0,
            fails,
            calls: 0,
            faults: 0,
        })
    }

    /// The links that were taken back.
    pub fn back(&self) -> &[MemLink]
        ensures { result.now ≡ self.now.back }
    {
        self.back.as_slice()
    }

    /// Counts one more call, and tells whether it is to fail.
    fn next_fails(&mut self) -> bool
        ensures answer { result ≡ next_fails self.old.plan }
        ensures counted { self.new ≡ record self.old { plan = after_call self.old.plan } }
    {
        self.calls = self.calls.saturating_add(1);
        self.fails.contains(&self.calls)
    }

    fn fail(&mut self) -> NetFault
        ensures answer { result ≡ Failed }
        ensures counted { self.new ≡ record self.old { faults = raised self.old.faults } }
        ensures standing { IsFault result (standing_of self.old) (standing_of self.new) }
    {
        self.faults = self.faults.saturating_add(1);
        NetFault::Failed
    }

    /// Gives the next link.
    fn give(&mut self) -> Result<MemLink, NetFault>
        ensures goes { GivesNext self.old result self.new }
        ensures standing { Gives result (standing_of self.old) (standing_of self.new) }
    {
        if self.next_fails() {
            return Err(self.fail());
        }
        match self.links.pop_front() {
            Some(link) => {
                self.given += 1;
                Ok(link)
            }
            None => Err(self.fail()),
        }
    }
}

impl Net for MemNet {
    ghost use Rattle.std.specs.Prelude.{Some};
    ghost use Rattle.tmc_live.specs.MemNet.{Opens, Takes};

    type L = MemLink;

    ghost standing = { standing_of };

    ghost back = { λ a. Some a.back };

    ghost dials = { λ old _ answer new. GivesNext old answer new };

    ghost opens = { λ old _ answer new. Opens old answer new };

    ghost accepts = { GivesNext };

    ghost takes = { Takes };

    fn dial(&mut self, _address: &str) -> Result<MemLink, NetFault> {
        self.give()
    }

    fn listen(&mut self, _address: &str) -> Result<(), NetFault> {
        if self.next_fails() {
            return Err(self.fail());
        }
        self.listens = true;
        Ok(())
    }

    fn accept(&mut self) -> Result<MemLink, NetFault> {
        self.give()
    }

    fn done(&mut self, link: MemLink) {
        match self.back.push(link) {
            Ok(()) => self.given -= 1,
            Err(_) => unreachable!(),
        }
    }
}
