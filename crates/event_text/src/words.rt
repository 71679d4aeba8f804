//! Lines, words, numbers and HEX.

ghost use Rattle.std.specs.Prelude.{◌≡◌, ◌==◌, ◌<◌, ◌∷◌, ◌++◌, length, Some, None, IfOk, MatchOption};
ghost use Rattle.std.specs.Char.{is_ascii_uppercase};
ghost use Rattle.std.specs.List.{AllByRecursion, list_any, position};
ghost use Rattle.std.specs.Str.{bytes_eq};
ghost use Rattle.event_text.specs.Words.{IsInside, lines_of, number_of, bytes_of};
ghost use Rattle.event_text.specs.Read.{starts_plain, HexRead, Decoded};

use memchr::memchr;
use std::alloc::Global;
use tmc_base::{Memory, Octets};

/// The place of the first byte with this value.
pub(crate) fn place_of(bytes: &[u8], value: u8) -> Option<usize>
    ensures { result ≡ position (λ byte. byte == value) bytes.now }
{
    memchr(value, bytes)
}

/// The first line that an NL ends, without it, and what stands behind the NL.
pub fn split_line(bytes: &[u8]) -> Option<(&[u8], &[u8])>
    ensures { MatchOption result (AllByRecursion IsInside bytes.now)
        (λ cut. AllByRecursion IsInside cut.0.now × (bytes.now ≡ cut.0.now ++ 10 ∷ cut.1.now)) }
{
    let at = memchr(b'\n', bytes)?;
    Some((&bytes[..at], &bytes[at + 1..]))
}

/// The first line without its NL, which the last may lack, and what stands behind the NL.
pub(crate) fn first_line(source: &[u8]) -> (&[u8], &[u8])
    requires { 0 < length source.now }
    ensures cut { lines_of source.now ≡ result.0.now ∷ lines_of result.1.now }
    ensures shorter { length result.1.now < length source.now }
{
    match split_line(source) {
        Some(cut) => cut,
        None => (source, &[]),
    }
}

/// Whether a word is this one.
pub(crate) fn is(word: &[u8], name: &str) -> bool
    ensures { result ≡ bytes_eq word.now name.now }
{
    word == name.as_bytes()
}

/// The number that a word is: decimal without sign or leading zero, at most 4294967295. One word spells each number, so
/// it is the one that is written of it.
pub fn read_number(word: &[u8]) -> Option<u32>
    ensures { result ≡ number_of word.now }
{
    if !is_plain(word) {
        return None;
    }
    let Ok(text) = str::from_utf8(word) else {
        return None;
    };
    match text.parse::<u32>() {
        Ok(number) => Some(number),
        Err(_) => None,
    }
}

/// Whether a word has no sign and no leading zero.
fn is_plain(word: &[u8]) -> bool
    ensures { result ≡ starts_plain word.now }
{
    match word {
        [b'0'] => true,
        [first, ..] => *first >= b'1' && *first <= b'9',
        [] => false,
    }
}

/// Appends the bytes that a word is: two lower-case digits each, and `-` for none. `false` says that the word is no such
/// HEX; then, and where memory is wanting, `out` is as before.
pub fn read_hex(word: &[u8], out: &mut Vec<u8>) -> Result<bool, Memory>
    ensures { HexRead word.now out.old.items result out.new.items }
{
    if is(word, "-") {
        return Ok(true);
    }
    if word.is_empty() {
        return Ok(false);
    }
    if has_upper(word) {
        return Ok(false);
    }
    decode_behind(word, out)
}

/// Whether a byte is an upper-case letter. All are looked at, so that many are at once.
fn has_upper(word: &[u8]) -> bool
    ensures { result ≡ list_any is_ascii_uppercase word.now }
{
    let mut found = false;
    'bytes: for byte in word {
        found |= byte.is_ascii_uppercase();
    }
    found
}

/// Decodes digits of either case straight behind what `out` has.
fn decode_behind(word: &[u8], out: &mut Vec<u8>) -> Result<bool, Memory>
    ensures { Decoded word.now out.old.items result out.new.items }
{
    let start = out.len();
    out.resize(start + word.len() / 2, 0)?;
    match hex::decode_to_slice(word, &mut out[start..]) {
        Ok(()) => Ok(true),
        Err(_) => {
            out.truncate(start);
            Ok(false)
        }
    }
}

/// The bytes that a word is. One word spells them, so it is the one that is written of them.
pub(crate) fn octets_of(alloc: Global, word: &[u8]) -> Result<Option<Octets>, Memory>
    ensures { IfOk result (λ bytes. bytes ≡ bytes_of word.now) }
{
    octets_in(Vec::new(alloc), word)
}

/// The same, in this room. What it held is dropped.
pub(crate) fn octets_in(room: Vec<u8>, word: &[u8]) -> Result<Option<Octets>, Memory>
    ensures { IfOk result (λ bytes. bytes ≡ bytes_of word.now) }
{
    let mut bytes = room;
    bytes.clear();
    if read_hex(word, &mut bytes)? {
        Ok(Some(Octets::from(bytes)))
    } else {
        Ok(None)
    }
}
