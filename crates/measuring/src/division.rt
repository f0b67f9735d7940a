//! Quotients of whole numbers, also by 0.
//! They are those of the definitions.
ghost use Rattle.std.specs.Prelude.{◌≡◌, ◌/◌};

/// A quotient of whole numbers, and 0 where the divisor is 0.
pub(crate) fn quotient(n: u128, by: u128) -> u128
    ensures { result ≡ n / by }
{
    if by == 0 { 0 } else { n / by }
}
