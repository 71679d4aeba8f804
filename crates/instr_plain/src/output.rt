ghost use Rattle.std.specs.Prelude.{◌≡◌, ◌+◌, ◌<◌, ◌≤◌, ◌++◌, ◌∷◌, [], true, false, length, vec_capacity, IfOk};
ghost use Rattle.tmc_base.specs.declared.limits.TheConstants.{RESPONSE_MAX};
ghost use Rattle.instr_plain.specs.Answer.{bytes_of, samples};
ghost use Rattle.instr_plain.specs.Exec.{Progress, response_of};
ghost use Rattle.instr_plain.specs.Output.{Written, with_answer, is_too_long, parts_of};

use crate::Answer;
use crate::answer::IDENTITY;
use crate::decimal::{decimal_len, put_decimal};
use std::alloc::Global;
use std::marker::Model;
use tmc_base::{Memory, RESPONSE_MAX};

/// The answers of a message, and then its response. It has room for the longest response.
#[derive(Drop)]
pub(crate) struct Output {
    bytes: Vec<u8>,
    dropped: bool,
    ended: bool,
}

impl Model for Output {
    ghost use Rattle.std.specs.Prelude.{◌≤◌, length, vec_capacity};
    ghost use Rattle.tmc_base.specs.declared.limits.TheConstants.{RESPONSE_MAX};
    ghost use Rattle.instr_plain.specs.Output.{Written};

    ghost Value = { Written };

    ghost view = { λ a. record { bytes = a.bytes.items; dropped = a.dropped; ended = a.ended } };

    ghost invariant = { λ a. (RESPONSE_MAX ≤ vec_capacity a.bytes) × (length a.bytes.items ≤ RESPONSE_MAX) };
}

impl Output {
    /// No answers. Takes the memory of the longest response.
    pub(crate) fn new(alloc: Global) -> Result<Output, Memory>
        ensures { IfOk result (λ output. output ≡ record { bytes = []; dropped = false; ended = false }) }
    {
        Ok(Output {
            bytes: Vec::with_capacity(alloc, RESPONSE_MAX)?,
            dropped: false,
            ended: false,
        })
    }

    /// Drops all that is written, and begins the answers of a message.
    pub(crate) fn begin(&mut self)
        ensures { self.new ≡ record { bytes = []; dropped = false; ended = false } }
    {
        self.bytes.clear();
        self.dropped = false;
        self.ended = false;
    }

    /// What is written.
    pub(crate) fn bytes(&self) -> &[u8]
        ensures written { result.now ≡ self.now.bytes }
        ensures short { length result.now ≤ RESPONSE_MAX }
    {
        self.bytes.as_slice()
    }

    /// Whether an answer was given behind which none can stand.
    pub(crate) fn is_ended(&self) -> bool
        ensures { result ≡ self.now.ended }
    {
        self.ended
    }

    /// One more answer. Where it would make the response too long, all answers are dropped, and that is said.
    pub(crate) fn put(&mut self, answer: &Answer) -> bool
        ensures output { self.new ≡ with_answer answer.now self.old }
        ensures too_long { result ≡ is_too_long answer.now self.old }
    {
        if answer.is_last() {
            self.ended = true;
        }
        if self.dropped {
            return false;
        }
        if self.bytes.len() + answer.len() + 1 > RESPONSE_MAX {
            self.bytes.clear();
            self.dropped = true;
            return true;
        }
        put_answer(answer, &mut self.bytes);
        put_byte(b';', &mut self.bytes);
        false
    }

    /// Ends the answers of a message, which makes them its response.
    pub(crate) fn finish(&mut self)
        ensures { (progress : Progress) → parts_of progress.answers ≡ self.old.bytes → self.new.bytes ≡ response_of progress.answers }
    {
        if self.bytes.pop().is_some() {
            put_byte(b'\n', &mut self.bytes);
        }
    }
}

/// Appends an answer, within the capacity.
fn put_answer(answer: &Answer, output: &mut Vec<u8>)
    requires { length output.old.items + length (bytes_of answer.now) ≤ vec_capacity output.old }
    ensures items { output.new.items ≡ output.old.items ++ bytes_of answer.now }
    ensures capacity { vec_capacity output.old ≤ vec_capacity output.new }
{
    match answer {
        Answer::Identity => put_bytes(IDENTITY, output),
        Answer::Number(n) => put_decimal(u16::from(*n), output),
        Answer::Block {
            acquisitions,
            conf,
            size,
        } => {
            put_byte(b'#', output);
            put_decimal(decimal_len(*size) as u16, output);
            put_decimal(*size, output);
            put_samples(*acquisitions, *conf, *size, output);
        }
    }
}

/// Appends so many samples, within the capacity.
fn put_samples(acquisitions: u32, conf: u8, size: u16, output: &mut Vec<u8>)
    requires { length output.old.items + size ≤ vec_capacity output.old }
    ensures items { output.new.items ≡ output.old.items ++ samples acquisitions conf size }
    ensures capacity { vec_capacity output.old ≤ vec_capacity output.new }
{
    let first = 31 * u64::from(acquisitions) + 7 * u64::from(conf);
    for k in 0..size {
        put_byte(((first + u64::from(k)) % 251) as u8, output);
    }
}

/// Appends bytes, within the capacity.
fn put_bytes(bytes: &[u8], output: &mut Vec<u8>)
    requires { length output.old.items + length bytes.now ≤ vec_capacity output.old }
    ensures items { output.new.items ≡ output.old.items ++ bytes.now }
    ensures capacity { vec_capacity output.old ≤ vec_capacity output.new }
{
    match output.extend_from_slice(bytes) {
        Ok(()) => (),
        Err(_) => unreachable!(),
    }
}

/// Appends a byte, within the capacity.
pub(crate) fn put_byte(byte: u8, output: &mut Vec<u8>)
    requires { length output.old.items < vec_capacity output.old }
    ensures items { output.new.items ≡ output.old.items ++ byte ∷ [] }
    ensures capacity { vec_capacity output.old ≤ vec_capacity output.new }
{
    match output.push(byte) {
        Ok(()) => (),
        Err(_) => unreachable!(),
    }
}
