//! Decimal digits, with no memory taken.

ghost use Rattle.std.specs.Prelude.{◌≡◌, ◌≤◌, ◌+◌, ◌++◌, length, vec_capacity};
ghost use Rattle.std.specs.Fmt.{decimal};

use crate::output::put_byte;

/// How many digits a number has.
pub(crate) fn decimal_len(n: u16) -> usize
    ensures value { result ≡ length (decimal n) }
    ensures short { result ≤ 5 }
{
    match n {
        0..=9 => 1,
        10..=99 => 2,
        100..=999 => 3,
        1_000..=9_999 => 4,
        _ => 5,
    }
}

/// Appends the digits of a number, within the capacity.
pub(crate) fn put_decimal(n: u16, output: &mut Vec<u8>)
    requires { length output.old.items + length (decimal n) ≤ vec_capacity output.old }
    ensures items { output.new.items ≡ output.old.items ++ decimal n }
    ensures capacity { vec_capacity output.old ≤ vec_capacity output.new }
{
    if n >= 10 {
        put_decimal(n / 10, output);
    }
    put_byte(b'0' + (n % 10) as u8, output);
}
