//! A number over a square root, rounded down.
//! The sizes for which nothing overflows stand here.
ghost use Rattle.std.specs.Prelude.{◌≡◌, ◌*◌, ◌^◌, ◌≤◌};
ghost use Rattle.measure_terms.specs.Quotients.{root_quotient};
ghost use Rattle.measure_terms.specs.Runs.{most_coefficient};

// The side of a pixel in units.
const PIXEL: u128 = 1_000_000_000_000;

/// The length, in units, of a step with a weight along a line whose direction has a squared length; 0 where that is 0.
pub(crate) fn quotient(weight: u64, norm: u64) -> u64
    requires { weight ≤ 2 * most_coefficient }
    ensures { result ≡ root_quotient (weight * 10 ^ 12) norm }
{
    if norm == 0 {
        return 0;
    }
    let v = weight as u128 * PIXEL;
    (v * v / norm as u128).isqrt() as u64
}
