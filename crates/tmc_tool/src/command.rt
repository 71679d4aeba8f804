//! What the words behind the program's name call for.

ghost use Rattle.std.specs.Prelude.{◌≡◌, ◌↔◌, ◌∷◌, [], ℕ, Some, map, string_bytes};
ghost use Rattle.std.specs.Fmt.{decimal};
ghost use Rattle.usbip_wire.specs.declared.urb.Dir.{Dir};
ghost use Rattle.tmc_tool.specs.declared.command.Command.{Command};
ghost use Rattle.tmc_tool.specs.Command.{way_word, Names, IsLimitWord};

use crate::ask_limits::{ASK_LIMIT, LIMIT_MOST};
use event_text::{read_number, words_spell_their_values};
use usbip_wire::Dir;

/// What the program can do.
#[derive(Clone, Copy, Debug, PartialEq, Eq)]
pub enum Command {
    /// It asks the instrument one message, and for at most so many bytes of its response.
    Ask(u32),
    /// It applies the events of a script to an instrument and a host, and tells what came of them.
    Replay,
    /// It shows what crossed the link in one direction.
    Show(Dir),
}

/// The command that the words name.
pub(crate) fn command_of(words: &[String]) -> Option<Command>
    ensures { (command : Command) → (result ≡ Some command) ↔ Names (map string_bytes words.now) command }
{
    match words {
        [word] => alone(word.as_str()),
        [word, second] => of_two(word.as_str(), second.as_str()),
        _ => None,
    }
}

/// The command that one word names.
fn alone(word: &str) -> Option<Command>
    ensures { (command : Command) → (result ≡ Some command) ↔ Names (word.now ∷ []) command }
{
    if word == "ask" {
        Some(Command::Ask(ASK_LIMIT))
    } else if word == "replay" {
        Some(Command::Replay)
    } else {
        None
    }
}

/// The command that two words name.
fn of_two(word: &str, second: &str) -> Option<Command>
    ensures { (command : Command) → (result ≡ Some command) ↔ Names (word.now ∷ second.now ∷ []) command }
{
    if word == "ask" {
        Some(Command::Ask(limit_of(second)?))
    } else if word == "show" {
        Some(Command::Show(way_of(second)?))
    } else {
        None
    }
}

/// The limit that a word names.
fn limit_of(word: &str) -> Option<u32>
    ensures { (limit : ℕ) → (result ≡ Some limit) ↔ IsLimitWord limit word.now }
{
    words_spell_their_values();
    let limit = read_number(word.as_bytes())?;
    if limit == 0 || limit > LIMIT_MOST {
        return None;
    }
    Some(limit)
}

/// The direction that a word names.
fn way_of(word: &str) -> Option<Dir>
    ensures { (way : Dir) → (result ≡ Some way) ↔ (word.now ≡ way_word way) }
{
    if word == "up" {
        Some(Dir::Out)
    } else if word == "down" {
        Some(Dir::In)
    } else {
        None
    }
}
