//! What the words behind the program's name call for.

ghost use Rattle.std.specs.Prelude.{◌≡◌, ◌↔◌, ℕ, Some, None, IfSome, map, string_bytes};
ghost use Rattle.tmc_live.specs.Command.{Asks, IsCommand, IsCount, begins_above_zero};

/// The most connections that one call serves.
pub(crate) const CONNECTIONS_MOST: u32 = 1_000;

/// The command `serve`: so many connections that come to the address are served.
#[derive(Clone, Copy, Debug)]
pub(crate) struct Serve<'a> {
    pub(crate) address: &'a str,
    pub(crate) count: u32,
}

/// The command that the words name.
pub(crate) fn command_of(words: &[String]) -> Option<Serve<'_>>
    ensures named { IfSome result (λ command. Asks (map string_bytes words.now) command.address.now command.count) }
    ensures none { result ≡ None → IsCommand (map string_bytes words.now) → ⊥ }
{
    match words {
        [word, address, count] if word.as_str() == "serve" => Some(Serve {
            address: address.as_str(),
            count: count_of(count.as_str())?,
        }),
        _ => None,
    }
}

/// The number of connections that a word is: decimal digits without a sign or a leading zero.
fn count_of(word: &str) -> Option<u32>
    ensures { (count : ℕ) → (result ≡ Some count) ↔ IsCount word.now count }
{
    if !begins_above_zero(word.as_bytes()) {
        return None;
    }
    match word.parse::<u32>() {
        Ok(count) if count <= CONNECTIONS_MOST => Some(count),
        _ => None,
    }
}

/// Whether a word begins with a digit above 0.
fn begins_above_zero(word: &[u8]) -> bool
    ensures { result ≡ begins_above_zero word.now }
{
    match word {
        [first, ..] => *first >= b'1' && *first <= b'9',
        [] => false,
    }
}
