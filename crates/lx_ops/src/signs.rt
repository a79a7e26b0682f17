//! Signs and magnitudes of integers.

ghost use Rattle.std.specs.Prelude.{◌≡◌};
ghost use Rattle.lx_num.specs.Fewest.{below_zero, magnitude_of};

/// Whether a number is below 0.
pub fn is_below_zero(number: i128) -> bool
    ensures { result ≡ below_zero number }
{
    if number < 0 { true } else { false }
}

/// The number, or -1 minus it where it is below 0.
pub fn magnitude(number: i128) -> u128
    ensures { result ≡ magnitude_of number }
{
    if number < 0 {
        !number as u128
    } else {
        number as u128
    }
}
