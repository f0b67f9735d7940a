//! Which way three corners turn, by whole numbers that nothing overflows.
//! One operation in each function, since proofs of overflow rest on the sizes.
ghost use Rattle.std.specs.Prelude.{◌≡◌, ◌≤◌, ◌^◌, ◌+ℤ◌, ◌-ℤ◌, ◌*ℤ◌, unsigned_abs};
ghost use Rattle.measure_terms.specs.Hulls.{turn};
ghost use Rattle.measure_terms.specs.Polygons.{squared_length};
ghost use Rattle.measuring.specs.Corners.{corner};

use shape_space::P2;

// How much a coordinate changes.
fn gap(from: i32, to: i32) -> i64
    ensures value { result ≡ to -ℤ from }
    ensures small { unsigned_abs result ≤ 2 ^ 33 }
{
    to as i64 - from as i64
}

// A product of two changes.
fn product(a: i64, b: i64) -> i128
    requires a_small { unsigned_abs a ≤ 2 ^ 33 }
    requires b_small { unsigned_abs b ≤ 2 ^ 33 }
    ensures value { result ≡ a *ℤ b }
    ensures small { unsigned_abs result ≤ 2 ^ 66 }
{
    a as i128 * b as i128
}

// A difference of two products.
fn difference(a: i128, b: i128) -> i128
    requires a_small { unsigned_abs a ≤ 2 ^ 66 }
    requires b_small { unsigned_abs b ≤ 2 ^ 66 }
    ensures { result ≡ a -ℤ b }
{
    a - b
}

// A sum of two products.
fn sum(a: i128, b: i128) -> i128
    requires a_small { unsigned_abs a ≤ 2 ^ 66 }
    requires b_small { unsigned_abs b ≤ 2 ^ 66 }
    ensures { result ≡ a +ℤ b }
{
    a + b
}

/// Twice the area of the triangle of three corners, and above 0 where the third lies to the left of the way from the first to
/// the second, as mathematicians draw: to its right on a picture, where y grows downwards.
pub(crate) fn turn(a: P2, b: P2, c: P2) -> i128
    ensures { result ≡ turn (corner a) (corner b) (corner c) }
{
    difference(
        product(gap(a.x, b.x), gap(a.y, c.y)),
        product(gap(a.y, b.y), gap(a.x, c.x)),
    )
}

/// The square of the length of a side.
pub(crate) fn squared_length(p: P2, q: P2) -> i128
    ensures { result ≡ squared_length (corner p) (corner q) }
{
    let (x, y) = (gap(p.x, q.x), gap(p.y, q.y));
    sum(product(x, x), product(y, y))
}
