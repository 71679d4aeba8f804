ghost use Rattle.std.specs.Prelude.{◌≡◌, ◌+◌, ◌<◌, ◌++◌, ◌∷◌, [], length, remove, slice_index_or, IfOk, OnOk, OnErr};
ghost use Rattle.endpoint_pipes.specs.Held.{endpoint_of};
ghost use Rattle.endpoint_pipes.specs.Keys.{Keys, no_keys, keys_at, with_keys};

use std::alloc::Global;
use std::collections::VecDeque;
use std::marker::Model;
use tmc_base::Memory;

/// The keys of the submits of each endpoint, in the order of arrival.
#[derive(Drop)]
pub(crate) struct Queues {
    control: VecDeque<usize>,
    bulk_out: VecDeque<usize>,
    bulk_in: VecDeque<usize>,
    interrupt_in: VecDeque<usize>,
}

impl Model for Queues {
    ghost use Rattle.endpoint_pipes.specs.Keys.{Keys};

    ghost Value = { Keys };

    ghost view = { λ q. record {
      control = q.control.items;
      bulk_out = q.bulk_out.items;
      bulk_in = q.bulk_in.items;
      interrupt_in = q.interrupt_in.items;
    } };
}

impl Queues {
    /// Four empty queues, each with room for so many keys.
    pub(crate) fn with_room(alloc: Global, room: usize) -> Result<Queues, Memory>
        ensures { IfOk result (λ queues. queues ≡ no_keys) }
    {
        Ok(Queues {
            control: VecDeque::with_capacity(alloc, room)?,
            bulk_out: VecDeque::with_capacity(alloc, room)?,
            bulk_in: VecDeque::with_capacity(alloc, room)?,
            interrupt_in: VecDeque::with_capacity(alloc, room)?,
        })
    }

    /// How many keys an endpoint has.
    pub(crate) fn len_at(&self, ep: u8) -> usize
        ensures { result ≡ length (keys_at (endpoint_of ep) self.now) }
    {
        match ep {
            0 => self.control.len(),
            1 => self.bulk_out.len(),
            2 => self.bulk_in.len(),
            _ => self.interrupt_in.len(),
        }
    }

    /// The key at this place of an endpoint's queue.
    pub(crate) fn key(&self, ep: u8, place: usize) -> usize
        requires { place < length (keys_at (endpoint_of ep) self.now) }
        ensures { result ≡ slice_index_or (keys_at (endpoint_of ep) self.now) place result }
    {
        match ep {
            0 => self.control[place],
            1 => self.bulk_out[place],
            2 => self.bulk_in[place],
            _ => self.interrupt_in[place],
        }
    }

    /// How many keys there are.
    pub(crate) fn len(&self) -> usize
        requires { length self.now.control + (length self.now.bulk_out + (length self.now.bulk_in + length self.now.interrupt_in)) < 1000 }
        ensures { result ≡ length self.now.control + (length self.now.bulk_out + (length self.now.bulk_in + length self.now.interrupt_in)) }
    {
        self.control.len() + (self.bulk_out.len() + (self.bulk_in.len() + self.interrupt_in.len()))
    }

    /// A key comes behind the others of its endpoint. After [`Memory`] nothing has changed.
    pub(crate) fn push(&mut self, ep: u8, key: usize) -> Result<(), Memory>
        ensures ok { OnOk result
            (self.new ≡ with_keys (endpoint_of ep) (keys_at (endpoint_of ep) self.old ++ key ∷ []) self.old) }
        ensures err { OnErr result (self.new ≡ self.old) }
    {
        let pushed = match ep {
            0 => self.control.push_back(key),
            1 => self.bulk_out.push_back(key),
            2 => self.bulk_in.push_back(key),
            _ => self.interrupt_in.push_back(key),
        };
        match pushed {
            Ok(()) => Ok(()),
            Err(_) => Err(Memory),
        }
    }

    /// The key at this place of an endpoint's queue leaves it.
    pub(crate) fn remove(&mut self, ep: u8, place: usize)
        requires { place < length (keys_at (endpoint_of ep) self.old) }
        ensures { self.new ≡ with_keys (endpoint_of ep) (remove (keys_at (endpoint_of ep) self.old) place) self.old }
    {
        match ep {
            0 => self.control.remove(place),
            1 => self.bulk_out.remove(place),
            2 => self.bulk_in.remove(place),
            _ => self.interrupt_in.remove(place),
        };
    }
}
