//! The limits of a script.

ghost use Rattle.std.specs.Prelude.{◌≡◌};

/// The most lines of a script.
pub const LINES_MOST: u32 = 65_536;

/// The longest line of a script, in bytes without its NL.
pub const LINE_MOST: usize = 16_384;

/// The limits by their numbers. The definitions cite a limit by its name.
pub fn script_limits_are_the_products()
    ensures lines { LINES_MOST ≡ 65536 }
    ensures line { LINE_MOST ≡ 16384 }
{}
