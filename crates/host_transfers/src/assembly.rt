ghost use Rattle.std.specs.Prelude.{◌≡◌, ℕ, ◌+◌, ◌-◌, ◌^◌, ◌<◌, ◌≤◌, ◌++◌, [], List, length, min, false};
ghost use Rattle.host_transfers.specs.Assembly.{Held, Holds, Says, is_over};
ghost use Rattle.tmc_wire.specs.Standard.{header_size};

use crate::head::Head;
use crate::judged::{Judged, judge};
use crate::piece::Piece;
use std::marker::Model;
use tmc_wire::BULK_HEADER;

/// A piece of a response: one Bulk-IN transfer, assembled from the reads that it comes in.
///
/// `feed` gives the bounds of a read's data, and copies none. It takes no memory.
#[derive(Drop)]
pub struct Assembly {
    tag: u8,
    size: u32,
    head: Head,
    count: u64,
    over: bool,
}

impl Model for Assembly {
    ghost use Rattle.host_transfers.specs.Assembly.{Held, IsKept};

    ghost Value = { Held };

    ghost view = { λ a. record { tag = a.tag; size = a.size; head = a.head; count = a.count; over = a.over } };

    ghost invariant = { λ a. IsKept (record { tag = a.tag; size = a.size; head = a.head; count = a.count; over = a.over }) };
}

impl Assembly {
    /// The answer to a request with this tag, of at most `size` bytes of data. Nothing came yet.
    pub fn new(tag: u8, size: u32) -> Assembly
        ensures begun { result ≡ record { tag = tag; size = size; head = []; count = 0; over = false } }
        ensures holds { Holds [] result }
    {
        Assembly {
            tag,
            size,
            head: Head::new(),
            count: 0,
            over: false,
        }
    }

    /// Takes the bytes of the next read. With `short` it is the last one of the transfer. Behind one that has ended or is
    /// refused nothing is fed.
    pub fn feed(&mut self, bytes: &[u8], short: bool) -> Piece
        requires few { length bytes.now < 2 ^ 32 }
        requires goes_on { self.old.over ≡ false }
        ensures says { (all : List ℕ) → Holds all self.old → Says self.old.tag self.old.size all bytes.now short result }
        ensures holds { (all : List ℕ) → Holds all self.old → Holds (all ++ bytes.now) self.new }
        ensures tag { self.new.tag ≡ self.old.tag }
        ensures size { self.new.size ≡ self.old.size }
        ensures over { self.new.over ≡ is_over result }
    {
        let before = self.count;
        self.head.fill(bytes);
        self.count = before + bytes.len() as u64;
        match judge(self.head.as_slice(), self.count, self.tag, self.size, short) {
            Judged::Open => Piece::Data { from: 0, to: 0 },
            Judged::Bad(field) => {
                self.over = true;
                Piece::Bad(field)
            }
            Judged::Begins(header) => {
                self.over = short;
                let from = data_start(before);
                let to = data_end(before, self.count, header.size);
                if short {
                    let eom = header.eom;
                    Piece::Ended { from, to, eom }
                } else {
                    Piece::Data { from, to }
                }
            }
        }
    }
}

/// Where data begins in a read, with so many bytes before it.
fn data_start(before: u64) -> u32
    ensures { result ≡ header_size - before }
{
    (BULK_HEADER as u64).saturating_sub(before) as u32
}

/// Where data ends in a read, with so many bytes before it and so many with it, in a transfer with `size` bytes of data.
fn data_end(before: u64, count: u64, size: u32) -> u32
    requires { count < before + 2 ^ 32 }
    ensures { result ≡ min (header_size + size) count - before }
{
    let end = BULK_HEADER as u64 + u64::from(size);
    end.min(count).saturating_sub(before) as u32
}
