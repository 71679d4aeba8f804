ghost use Rattle.std.specs.Prelude.{◌≡◌, ◌*◌, ◌^◌, ◌≤◌};
ghost use Rattle.ieee_syntax.specs.Rounded.{rounded, Rounds, clamped, numerator, denominator};

/// The greatest magnitude that rounding answers.
const LIMIT: u128 = 1_000_000;

/// The greatest power of ten that a `u128` holds. No `u128` is half of the next.
const GREATEST_POWER: u32 = 38;

/// A decimal number, `<DECIMAL NUMERIC PROGRAM DATA>` of IEEE 488.2, 7.7.2.
///
/// Its value is `digits`, negated where `negative`, times ten to the power of `exponent`. The digits before
/// and behind the point stand together in `digits`, so `exponent` is the one that was written, less the
/// number of digits behind the point: `-1.25E3` has the digits 125 and the exponent 1. What `units` answers has
/// at most 32 digits, and an exponent from -100,031 to 99,999.
#[derive(Clone, Copy, Debug, PartialEq, Eq)]
pub struct Nrf {
    /// Whether a `-` stands before the digits.
    pub negative: bool,
    /// The digits as one whole number.
    pub digits: u128,
    /// The power of ten that the digits are multiplied by.
    pub exponent: i32,
}

impl Nrf {
    /// The value rounded half away from zero, and clamped to -1,000,000 to 1,000,000. It is exact at every
    /// number, and takes no memory.
    pub fn rounded(&self) -> i64
        ensures value { result ≡ rounded self.now }
        ensures nearest { Rounds self.now result }
    {
        let magnitude = i64::from(magnitude(self.digits, self.exponent));
        if self.negative { -magnitude } else { magnitude }
    }
}

/// The digits times a power of ten, rounded and clamped.
fn magnitude(digits: u128, exponent: i32) -> u32
    ensures value { result ≡ clamped (numerator digits exponent) (denominator exponent) }
    ensures least { result ≤ 1000000 }
{
    let shift = exponent.unsigned_abs();
    if exponent < 0 {
        divided(digits, shift)
    } else {
        multiplied(digits, shift)
    }
}

/// The digits with so many zeros behind them, clamped.
fn multiplied(digits: u128, zeros: u32) -> u32
    ensures { result ≡ clamped (digits * 10 ^ zeros) 1 }
{
    if digits == 0 {
        return 0;
    }
    if zeros > 6 || digits >= LIMIT {
        return LIMIT as u32;
    }
    (digits * 10u128.pow(zeros)).min(LIMIT) as u32
}

/// The digits with so many of them behind the point, rounded and clamped.
fn divided(digits: u128, places: u32) -> u32
    ensures { result ≡ clamped digits (10 ^ places) }
{
    if places > GREATEST_POWER {
        return 0;
    }
    let power = 10u128.pow(places);
    let whole = digits / power;
    let rest = digits % power;
    if whole >= LIMIT {
        return LIMIT as u32;
    }
    if rest >= power - rest {
        return (whole + 1) as u32;
    }
    whole as u32
}
