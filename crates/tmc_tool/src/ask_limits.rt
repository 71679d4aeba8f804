//! The limits of `ask`, each in bytes.

ghost use Rattle.std.specs.Prelude.{◌≡◌};

/// The longest program message.
pub const MESSAGE_MOST: usize = 4_096;

/// The longest response that is asked for where the words name no limit.
pub const ASK_LIMIT: u32 = 4_000;

/// The greatest limit that words may name.
pub const LIMIT_MOST: u32 = 65_535;

/// The limits by their numbers. The definitions cite a limit by its name.
pub fn ask_limits_are_the_products()
    ensures message { MESSAGE_MOST ≡ 4096 }
    ensures response { ASK_LIMIT ≡ 4000 }
    ensures limit { LIMIT_MOST ≡ 65535 }
{}
