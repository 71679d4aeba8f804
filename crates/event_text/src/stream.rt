//! The lines of the bytes of one direction.

ghost use Rattle.std.specs.Prelude.{◌≡◌, ◌++◌, OnOk, OnErr, List, ℕ, length, codes};
ghost use Rattle.std.specs.Fmt.{decimal};
ghost use Rattle.event_text.specs.Report.{IsStream, StreamText, StreamLines, stream_line, stream_word, stream_letter};

use crate::text::{Part, hand_over, put_parts};
use crate::way::Way;
use tmc_base::Memory;
use usbip_wire::Dir;

/// The most bytes of one line.
const LINE: usize = 32;

/// Appends `up` or `down` with the number of bytes, and then a line for each 32 of them, behind `u` or `d`. `Dir::Out`
/// is `up`, from the hub to the node. Where memory is wanting `out` is as before.
pub fn put_stream(way: Dir, bytes: &[u8], out: &mut Vec<u8>) -> Result<(), Memory>
    ensures put { OnOk result ((text : List ℕ) × IsStream way bytes.now text × (out.new.items ≡ out.old.items ++ text)) }
    ensures kept { OnErr result (out.new.items ≡ out.old.items) }
{
    let mut text = Vec::new(*out.allocator());
    put_stream_lines(Way::of(way), bytes, &mut text)?;
    hand_over(text, out)
}

pub(crate) fn put_stream_lines(way: Way, bytes: &[u8], text: &mut Vec<u8>) -> Result<(), Memory>
    ensures { OnOk result ((lines : List ℕ) × StreamText way bytes.now lines × (text.new.items ≡ text.old.items ++ lines)) }
{
    put_count(way, bytes.len(), text)?;
    put_lines(way, bytes, text)
}

/// The line that says how many bytes there are.
fn put_count(way: Way, count: usize, text: &mut Vec<u8>) -> Result<(), Memory>
    ensures { OnOk result (text.new.items ≡ text.old.items ++ (stream_word way ++ (decimal count ++ codes "\n"))) }
{
    put_parts(
        &[
            Part::Word(stream_word(way)),
            Part::Number(count as u64),
            Part::Word("\n"),
        ],
        text,
    )
}

fn put_lines(way: Way, bytes: &[u8], text: &mut Vec<u8>) -> Result<(), Memory>
    ensures { OnOk result ((lines : List ℕ) × StreamLines (stream_letter way) bytes.now lines × (text.new.items ≡ text.old.items ++ lines)) }
{
    let mut rest = bytes;
    'lines: while !rest.is_empty() {
        let (piece, more) = rest.split_at(rest.len().min(LINE));
        put_line(way, piece, text)?;
        rest = more;
    }
    Ok(())
}

fn put_line(way: Way, piece: &[u8], text: &mut Vec<u8>) -> Result<(), Memory>
    ensures { OnOk result (text.new.items ≡ text.old.items ++ stream_line (stream_letter way) piece.now) }
{
    put_parts(
        &[
            Part::Word(line_word(way)),
            Part::Digits(piece),
            Part::Word("\n"),
        ],
        text,
    )
}

fn stream_word(way: Way) -> &'static str
    ensures { result.now ≡ stream_word way }
{
    match way {
        Way::Up => "up ",
        Way::Down => "down ",
    }
}

/// What each line begins with.
fn line_word(way: Way) -> &'static str
    ensures { result.now ≡ stream_letter way }
{
    match way {
        Way::Up => "u ",
        Way::Down => "d ",
    }
}
