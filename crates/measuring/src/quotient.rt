//! Square roots of quotients in thousandths, rounded to nearest by whole numbers alone.
//! Another precision is a change here and of the same numbers in `Rounding`.
ghost use Rattle.std.specs.Prelude.{◌≤◌, ◌<◌, ◌^◌};
ghost use Rattle.measure_terms.specs.Rounding.{IsQuotientRoot};

/// The square root of a quotient in thousandths, rounded to nearest and a half up.
pub(crate) fn quotient_root(square: u128, by: u64) -> u128
    requires small { square ≤ 2 ^ 80 }
    requires some { 0 < by }
    ensures nearest { IsQuotientRoot square by result }
    ensures small { result ≤ 2 ^ 52 }
    ensures root { square ≤ 2 ^ 55 → result ≤ 2 ^ 40 }
{
    let whole = (4_000_000 * square / by as u128).isqrt();
    (whole + 1) / 2
}
