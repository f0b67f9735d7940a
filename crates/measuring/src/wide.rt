//! Sums of two squares beside a third one, where the squares are of more than 128 bits.
//! Naturals alone: what they measure is not told here.
ghost use Rattle.std.specs.Prelude.{◌<◌, ◌+◌, ◌*◌, ◌^◌, ◌↔◌, IsTrue};

// Whether a product is less than another one, of any size.
fn product_less(a: u128, b: u128, c: u128, d: u128) -> bool
    ensures { IsTrue result ↔ a * b < c * d }
{
    let (low, high) = a.carrying_mul(b, 0);
    let (most_low, most_high) = c.carrying_mul(d, 0);
    high < most_high || (high == most_high && low < most_low)
}

/// Whether the sum of the squares of two numbers is less than the square of a third one.
pub(crate) fn squares_less(a: u128, b: u128, c: u128) -> bool
    requires { b + c < 2 ^ 128 }
    ensures { IsTrue result ↔ a * a + b * b < c * c }
{
    b < c && product_less(a, a, c - b, b + c)
}

/// Whether the sum of the squares of two numbers is more than the square of a third one.
pub(crate) fn squares_more(a: u128, b: u128, c: u128) -> bool
    requires { b + c < 2 ^ 128 }
    ensures { IsTrue result ↔ c * c < a * a + b * b }
{
    c < b || product_less(c - b, b + c, a, a)
}
