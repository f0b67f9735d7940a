//! Thousandths, rounded to nearest by whole numbers alone.
//! Another precision is a change here and of the same numbers in `Rounding`.
ghost use Rattle.std.specs.Prelude.{◌≡◌, ◌≤◌, ◌*◌};
ghost use Rattle.shape_terms.specs.Limits.{most_points, most_coordinate};
ghost use Rattle.measure_terms.specs.Rounding.{IsRoot, mean, root};

/// The quotient of a sum by a count, in thousandths, rounded to nearest and a half up.
pub(crate) fn mean(sum: u64, count: u32) -> u64
    requires { sum ≤ most_coordinate * most_points }
    ensures value { result ≡ mean sum count }
{
    if count == 0 {
        0
    } else {
        (2000 * sum + count as u64) / (2 * count as u64)
    }
}

/// The square root of a number, in thousandths, rounded to nearest.
pub fn root(square: u64) -> u128
    ensures value { result ≡ root square }
    ensures nearest { IsRoot square result }
{
    let whole = (4_000_000 * square as u128).isqrt();
    (whole + 1) / 2
}
