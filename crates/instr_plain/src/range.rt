ghost use Rattle.std.specs.Prelude.{◌≡◌, ◌≤◌, IfSome};
ghost use Rattle.instr_plain.specs.Outcome.{in_range};

use ieee_syntax::Nrf;

/// The number, rounded, where it is from 0 to the most.
pub(crate) fn in_range(number: &Nrf, most: u16) -> Option<u16>
    ensures value { result ≡ in_range most number.now }
    ensures bounded { IfSome result (λ value. value ≤ most) }
{
    let value = number.rounded();
    if value < 0 || value > i64::from(most) {
        None
    } else {
        Some(value as u16)
    }
}
