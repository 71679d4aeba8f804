ghost use Rattle.std.specs.Prelude.{◌≡◌};
ghost use Rattle.ieee_syntax.specs.Kind.{kind_of, IsSmall};

/// What the grammar sees of a byte.
#[derive(Clone, Copy)]
pub(crate) enum Kind {
    /// White space.
    Space,
    NewLine,
    /// A digit, by its value from 0 to 9.
    Digit(u8),
    /// A letter, by its byte in upper case.
    Letter(u8),
    Underscore,
    Star,
    Question,
    Comma,
    Semicolon,
    Plus,
    Minus,
    Point,
    /// A byte that stands in no message.
    Other,
}

impl Kind {
    /// The kind of a byte.
    #[tactic(auto, unfolding(crate::specs::Kind::kind_of))]
    pub(crate) fn of(byte: u8) -> Kind
        ensures value { result ≡ kind_of byte }
        ensures small { IsSmall result }
    {
        match byte {
            b'\n' => Kind::NewLine,
            0..=b' ' => Kind::Space,
            b'0'..=b'9' => Kind::Digit(byte - b'0'),
            b'A'..=b'Z' => Kind::Letter(byte),
            b'a'..=b'z' => Kind::Letter(byte - (b'a' - b'A')),
            b'_' => Kind::Underscore,
            b'*' => Kind::Star,
            b'?' => Kind::Question,
            b',' => Kind::Comma,
            b';' => Kind::Semicolon,
            b'+' => Kind::Plus,
            b'-' => Kind::Minus,
            b'.' => Kind::Point,
            _ => Kind::Other,
        }
    }
}
