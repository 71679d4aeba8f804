ghost use Rattle.std.specs.Prelude.{◌≡◌, ◌<◌, IfSome, unsigned_abs};
ghost use Rattle.ieee_syntax.specs.Kind.{IsSmall};
ghost use Rattle.ieee_syntax.specs.Automaton.{MantissaFits, PowerFits, NumberFits, no_mantissa, no_power, push, push_power, with_point, number_of, power_of, begin, next, in_mantissa, behind_mantissa, behind_mark, in_power, behind_power, value_of};

use crate::Nrf;
use crate::kind::Kind;

/// The most digits of a mantissa.
const MANTISSA_MOST: u8 = 32;

/// The most digits of an exponent.
const EXPONENT_MOST: u8 = 5;

/// The digits of a mantissa so far.
#[derive(Clone, Copy)]
pub(crate) struct Mantissa {
    negative: bool,
    digits: u128,
    /// How many digits there are.
    count: u8,
    /// How many of the digits stand behind the point.
    places: u8,
    /// Whether the point has come.
    point: bool,
}

/// The digits of an exponent so far.
#[derive(Clone, Copy)]
pub(crate) struct Power {
    negative: bool,
    value: u32,
    /// How many digits there are.
    count: u8,
}

/// How far a number has come.
#[derive(Clone, Copy)]
pub(crate) enum Number {
    Mantissa(Mantissa),
    /// White space behind a mantissa.
    Gap(Mantissa),
    /// Behind an `E`.
    Mark(Mantissa),
    Power(Mantissa, Power),
    /// White space behind an exponent.
    PowerGap(Mantissa, Power),
}

impl Number {
    /// A number that begins with this byte.
    pub(crate) fn begin(kind: Kind) -> Option<Number>
        requires { IsSmall kind }
        ensures value { result ≡ begin kind }
        ensures fits { IfSome result NumberFits }
    {
        let mantissa = match kind {
            Kind::Plus => Mantissa::new(false),
            Kind::Minus => Mantissa::new(true),
            Kind::Point => Mantissa::new(false).with_point(),
            Kind::Digit(digit) => Mantissa::new(false).with_digit(digit),
            _ => return None,
        };
        Some(Number::Mantissa(mantissa))
    }

    /// The number after this byte, where it goes on with it.
    pub(crate) fn next(self, kind: Kind) -> Option<Number>
        requires small { IsSmall kind }
        requires fits { NumberFits self }
        ensures value { result ≡ next self kind }
        ensures fits { IfSome result NumberFits }
    {
        match self {
            Number::Mantissa(mantissa) => mantissa.next(kind),
            Number::Gap(mantissa) => mantissa.next_behind(kind),
            Number::Mark(mantissa) => mantissa.next_behind_mark(kind),
            Number::Power(mantissa, power) => power.next(mantissa, kind),
            Number::PowerGap(mantissa, power) => power.next_behind(mantissa, kind),
        }
    }

    /// The number, where it may end here.
    pub(crate) fn value(self) -> Option<Nrf>
        requires { NumberFits self }
        ensures { result ≡ value_of self }
    {
        match self {
            Number::Mantissa(mantissa) => {
                if mantissa.count == 0 {
                    None
                } else {
                    Some(mantissa.number(0))
                }
            }
            Number::Gap(mantissa) => Some(mantissa.number(0)),
            Number::Mark(_) => None,
            Number::Power(mantissa, power) => {
                if power.count == 0 {
                    None
                } else {
                    Some(mantissa.number(power.exponent()))
                }
            }
            Number::PowerGap(mantissa, power) => Some(mantissa.number(power.exponent())),
        }
    }
}

impl Mantissa {
    /// No digits yet.
    fn new(negative: bool) -> Mantissa
        ensures value { result ≡ no_mantissa negative }
        ensures fits { MantissaFits result }
    {
        Mantissa {
            negative,
            digits: 0,
            count: 0,
            places: 0,
            point: false,
        }
    }

    /// The mantissa with one more digit.
    fn with_digit(self, digit: u8) -> Mantissa
        requires digit { digit < 10 }
        requires room { self.count < 32 }
        requires fits { MantissaFits self }
        ensures value { result ≡ push self digit }
        ensures fits { MantissaFits result }
    {
        Mantissa {
            negative: self.negative,
            digits: 10 * self.digits + u128::from(digit),
            count: self.count + 1,
            places: if self.point {
                self.places + 1
            } else {
                self.places
            },
            point: self.point,
        }
    }

    /// The mantissa with its point.
    fn with_point(self) -> Mantissa
        requires { MantissaFits self }
        ensures value { result ≡ with_point self }
        ensures fits { MantissaFits result }
    {
        Mantissa {
            point: true,
            ..self
        }
    }

    /// A digit, the point where it has not come, or what stands behind a mantissa that has a digit.
    fn next(self, kind: Kind) -> Option<Number>
        requires small { IsSmall kind }
        requires fits { MantissaFits self }
        ensures value { result ≡ in_mantissa self kind }
        ensures fits { IfSome result NumberFits }
    {
        match kind {
            Kind::Digit(digit) => {
                if self.count < MANTISSA_MOST {
                    Some(Number::Mantissa(self.with_digit(digit)))
                } else {
                    None
                }
            }
            Kind::Point => {
                if self.point {
                    None
                } else {
                    Some(Number::Mantissa(self.with_point()))
                }
            }
            _ => {
                if self.count == 0 {
                    None
                } else {
                    self.next_behind(kind)
                }
            }
        }
    }

    /// White space or an `E`.
    fn next_behind(self, kind: Kind) -> Option<Number>
        requires { MantissaFits self }
        ensures value { result ≡ behind_mantissa self kind }
        ensures fits { IfSome result NumberFits }
    {
        match kind {
            Kind::Space => Some(Number::Gap(self)),
            Kind::Letter(b'E') => Some(Number::Mark(self)),
            _ => None,
        }
    }

    /// White space, a sign or the first digit of the exponent.
    fn next_behind_mark(self, kind: Kind) -> Option<Number>
        requires small { IsSmall kind }
        requires fits { MantissaFits self }
        ensures value { result ≡ behind_mark self kind }
        ensures fits { IfSome result NumberFits }
    {
        match kind {
            Kind::Space => Some(Number::Mark(self)),
            Kind::Plus => Some(Number::Power(self, Power::new(false))),
            Kind::Minus => Some(Number::Power(self, Power::new(true))),
            Kind::Digit(digit) => Some(Number::Power(self, Power::new(false).with_digit(digit))),
            _ => None,
        }
    }

    /// The number of these digits and the exponent that was written.
    fn number(self, exponent: i32) -> Nrf
        requires fits { MantissaFits self }
        requires small { unsigned_abs exponent < 100000 }
        ensures { result ≡ number_of self exponent }
    {
        Nrf {
            negative: self.negative,
            digits: self.digits,
            exponent: exponent - i32::from(self.places),
        }
    }
}

impl Power {
    /// No digits yet.
    fn new(negative: bool) -> Power
        ensures value { result ≡ no_power negative }
        ensures fits { PowerFits result }
    {
        Power {
            negative,
            value: 0,
            count: 0,
        }
    }

    /// The exponent with one more digit.
    fn with_digit(self, digit: u8) -> Power
        requires digit { digit < 10 }
        requires room { self.count < 5 }
        requires fits { PowerFits self }
        ensures value { result ≡ push_power self digit }
        ensures fits { PowerFits result }
    {
        Power {
            negative: self.negative,
            value: 10 * self.value + u32::from(digit),
            count: self.count + 1,
        }
    }

    /// A digit, or white space behind one.
    fn next(self, mantissa: Mantissa, kind: Kind) -> Option<Number>
        requires small { IsSmall kind }
        requires mantissa { MantissaFits mantissa }
        requires power { PowerFits self }
        ensures value { result ≡ in_power mantissa self kind }
        ensures fits { IfSome result NumberFits }
    {
        match kind {
            Kind::Digit(digit) => {
                if self.count < EXPONENT_MOST {
                    Some(Number::Power(mantissa, self.with_digit(digit)))
                } else {
                    None
                }
            }
            Kind::Space => {
                if self.count == 0 {
                    None
                } else {
                    Some(Number::PowerGap(mantissa, self))
                }
            }
            _ => None,
        }
    }

    /// White space.
    fn next_behind(self, mantissa: Mantissa, kind: Kind) -> Option<Number>
        requires mantissa { MantissaFits mantissa }
        requires power { PowerFits self }
        ensures value { result ≡ behind_power mantissa self kind }
        ensures fits { IfSome result NumberFits }
    {
        match kind {
            Kind::Space => Some(Number::PowerGap(mantissa, self)),
            _ => None,
        }
    }

    /// The exponent that was written.
    fn exponent(self) -> i32
        requires { PowerFits self }
        ensures value { result ≡ power_of self }
        ensures small { unsigned_abs result < 100000 }
    {
        if self.negative {
            -(self.value as i32)
        } else {
            self.value as i32
        }
    }
}
