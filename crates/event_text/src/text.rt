//! Text that is appended to one buffer: words, numbers and HEX.

ghost use Rattle.std.specs.Prelude.{◌≡◌, ◌++◌, ◌^◌, ◌<◌, List, ℕ, OnOk, OnErr, codes};
ghost use Rattle.std.specs.Fmt.{decimal, signed_decimal};
ghost use Rattle.std.specs.List.{flat_map};
ghost use Rattle.hex.specs.Hex.{encode_lower};
ghost use Rattle.event_text.specs.Words.{hex_word};
ghost use Rattle.event_text.specs.Text.{part_text};

use crate::answer::{EventAnswer, put_answer_words};
use crate::field::put_field_words;
use crate::outcome::{put_end_words, put_outcome_words};
use host_hub::{End, Outcome};
use tmc_base::{Field, Memory};

/// So many bytes are written at a time.
const PIECE: usize = 256;

/// A part of a line.
#[derive(Clone, Copy, Debug)]
pub(crate) enum Part<'a> {
    Word(&'a str),
    Number(u64),
    Signed(i32),
    /// Bytes as one word: two lower-case digits each, and `-` where there are none.
    Hex(&'a [u8]),
    /// The same of bytes of which there always are some.
    Digits(&'a [u8]),
    Field(Field),
    Outcome(Outcome),
    End(End),
    Answer(Option<EventAnswer>),
}

/// Appends these parts.
pub(crate) fn put_parts(parts: &[Part], out: &mut Vec<u8>) -> Result<(), Memory>
    ensures { OnOk result (out.new.items ≡ out.old.items ++ flat_map part_text parts.now) }
{
    for part in parts {
        put_part(*part, out)?;
    }
    Ok(())
}

fn put_part(part: Part, out: &mut Vec<u8>) -> Result<(), Memory>
    ensures { OnOk result (out.new.items ≡ out.old.items ++ part_text part.entry) }
{
    match part {
        Part::Word(word) => put_word(word, out),
        Part::Number(number) => put_number(number, out),
        Part::Signed(number) => put_signed(number, out),
        Part::Hex(bytes) => put_hex(bytes, out),
        Part::Digits(bytes) => put_digits(bytes, out),
        Part::Field(field) => put_field_words(field, out),
        Part::Outcome(outcome) => put_outcome_words(outcome, out),
        Part::End(end) => put_end_words(end, out),
        Part::Answer(answer) => put_answer_words(answer, out),
    }
}

pub(crate) fn put_word(word: &str, out: &mut Vec<u8>) -> Result<(), Memory>
    ensures { OnOk result (out.new.items ≡ out.old.items ++ word.now) }
{
    Ok(out.extend_from_slice(word.as_bytes())?)
}

pub(crate) fn put_space(out: &mut Vec<u8>) -> Result<(), Memory>
    ensures { OnOk result (out.new.items ≡ out.old.items ++ codes " ") }
{
    Ok(out.push(b' ')?)
}

/// Appends a name and a number behind it.
pub(crate) fn put_named_number(name: &str, number: u64, out: &mut Vec<u8>) -> Result<(), Memory>
    ensures { OnOk result (out.new.items ≡ out.old.items ++ (name.now ++ decimal number)) }
{
    put_word(name, out)?;
    put_number(number, out)
}

/// Appends a name and a signed number behind it.
pub(crate) fn put_named_signed(name: &str, number: i32, out: &mut Vec<u8>) -> Result<(), Memory>
    ensures { OnOk result (out.new.items ≡ out.old.items ++ (name.now ++ signed_decimal number)) }
{
    put_word(name, out)?;
    put_signed(number, out)
}

/// Appends a whole text. An empty buffer takes it over, so that it is not copied.
pub(crate) fn hand_over(text: Vec<u8>, out: &mut Vec<u8>) -> Result<(), Memory>
    ensures put { OnOk result (out.new.items ≡ out.old.items ++ text.items) }
    ensures kept { OnErr result (out.new.items ≡ out.old.items) }
{
    if out.is_empty() {
        *out = text;
        return Ok(());
    }
    Ok(out.extend_from_slice(&text)?)
}

/// Appends a number in decimal.
pub(crate) fn put_number(number: u64, out: &mut Vec<u8>) -> Result<(), Memory>
    ensures { OnOk result (out.new.items ≡ out.old.items ++ decimal number) }
{
    if number >= 10 {
        put_number(number / 10, out)?;
    }
    Ok(out.push(b'0' + (number % 10) as u8)?)
}

fn put_signed(number: i32, out: &mut Vec<u8>) -> Result<(), Memory>
    ensures { OnOk result (out.new.items ≡ out.old.items ++ signed_decimal number) }
{
    if number < 0 {
        out.push(b'-')?;
    }
    put_number(u64::from(number.unsigned_abs()), out)
}

fn put_hex(bytes: &[u8], out: &mut Vec<u8>) -> Result<(), Memory>
    ensures { OnOk result (out.new.items ≡ out.old.items ++ hex_word bytes.now) }
{
    if bytes.is_empty() {
        return Ok(out.push(b'-')?);
    }
    put_digits(bytes, out)
}

/// Appends two lower-case digits a byte.
fn put_digits(bytes: &[u8], out: &mut Vec<u8>) -> Result<(), Memory>
    ensures { OnOk result (out.new.items ≡ out.old.items ++ encode_lower bytes.now) }
{
    let mut digits = [0; 2 * PIECE];
    let mut rest = bytes;
    while !rest.is_empty() {
        let (piece, more) = rest.split_at(rest.len().min(PIECE));
        let room = &mut digits[..2 * piece.len()];
        match hex::encode_to_slice(piece, room) {
            Ok(()) => out.extend_from_slice(room)?,
            Err(_) => unreachable!(),
        }
        rest = more;
    }
    Ok(())
}
