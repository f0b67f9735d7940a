//! The scalar product of coefficients and a point, which no value of either overflows.
//! One operation in each function; a further dimension adds a term.
ghost use Rattle.std.specs.Prelude.{◌≡◌, ◌≤◌, ◌^◌, unsigned_abs, ◌+ℤ◌, ◌*ℤ◌, take};
ghost use Rattle.shape_terms.specs.Vectors.{dot};

use crate::point::Point;

// A product of a coefficient and a coordinate.
fn product(a: i64, x: i32) -> i128
    ensures value { result ≡ a *ℤ x }
    ensures small { unsigned_abs result ≤ 2 ^ 94 }
{
    a as i128 * x as i128
}

// A sum of two products, or of sums of them.
fn sum(x: i128, y: i128) -> i128
    requires x_small { unsigned_abs x ≤ 2 ^ 100 }
    requires y_small { unsigned_abs y ≤ 2 ^ 100 }
    ensures value { result ≡ x +ℤ y }
{
    x + y
}

/// The scalar product: the sum over the axes of coefficient times coordinate. In the plane the third coefficient does not count.
pub fn dot<P: Point>(a: &[i64; 3], p: P) -> i128
    ensures { result ≡ dot (take P.DIM a.now) (P.coords p) }
{
    let flat = sum(product(a[0], p.coord(0)), product(a[1], p.coord(1)));
    if P::DIM == 2 {
        flat
    } else {
        sum(flat, product(a[2], p.coord(2)))
    }
}
