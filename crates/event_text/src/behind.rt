//! The words of a line, one after another.

ghost use Rattle.std.specs.Prelude.{◌≡◌, ◌≤◌, ◌∷◌, MatchOption, IfSome, None, Some};
ghost use Rattle.event_text.specs.Words.{words_of};
ghost use Rattle.event_text.specs.EventLine.{number_within};
ghost use Rattle.event_text.specs.Script.{if_none, if_one, if_two, if_three};
ghost use Rattle.event_text.specs.Read.{words_behind};

use crate::words::{place_of, read_number};

/// What stands behind a word of a line.
#[derive(Clone, Copy, Debug)]
pub(crate) enum Behind<'a> {
    Nothing,
    /// A space, and these words.
    Words(&'a [u8]),
}

/// The first word of a line, and what stands behind it.
pub(crate) fn first_word<'a>(line: &'a [u8]) -> (&'a [u8], Behind<'a>)
    ensures { words_of line.now ≡ result.0.now ∷ words_behind result.1 }
{
    match place_of(line, b' ') {
        Some(at) => (&line[..at], Behind::Words(&line[at + 1..])),
        None => (line, Behind::Nothing),
    }
}

impl<'a> Behind<'a> {
    /// Whether there is no word.
    pub(crate) fn none(self) -> Option<()>
        ensures { result ≡ if_none (words_behind self.entry) }
    {
        match self {
            Behind::Nothing => Some(()),
            Behind::Words(_) => None,
        }
    }

    /// The word, where there is exactly one.
    pub(crate) fn one(self) -> Option<&'a [u8]>
        ensures { MatchOption result (if_one (words_behind self.entry) ≡ None) (λ word. if_one (words_behind self.entry) ≡ Some word.now) }
    {
        let Behind::Words(rest) = self else {
            return None;
        };
        let (word, more) = first_word(rest);
        more.none()?;
        Some(word)
    }

    /// The words, where there are exactly two.
    pub(crate) fn two(self) -> Option<(&'a [u8], &'a [u8])>
        ensures { MatchOption result (if_two (words_behind self.entry) ≡ None) (λ words. if_two (words_behind self.entry) ≡ Some (words.0.now, words.1.now)) }
    {
        let Behind::Words(rest) = self else {
            return None;
        };
        let (word, more) = first_word(rest);
        let last = more.one()?;
        Some((word, last))
    }

    /// The words, where there are exactly three.
    pub(crate) fn three(self) -> Option<(&'a [u8], &'a [u8], &'a [u8])>
        ensures { MatchOption result (if_three (words_behind self.entry) ≡ None)
            (λ words. if_three (words_behind self.entry) ≡ Some (words.0.now, (words.1.now, words.2.now))) }
    {
        let Behind::Words(rest) = self else {
            return None;
        };
        let (word, more) = first_word(rest);
        let (middle, last) = more.two()?;
        Some((word, middle, last))
    }
}

/// The number that a word is, where it is within these bounds.
pub(crate) fn number_within(word: &[u8], least: u32, most: u32) -> Option<u32>
    ensures value { result ≡ number_within least most word.now }
    ensures within { IfSome result (λ number. (least ≤ number) × (number ≤ most)) }
{
    let number = read_number(word)?;
    if number < least || number > most {
        return None;
    }
    Some(number)
}
