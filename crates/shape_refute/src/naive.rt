//! Naive lines and planes: when their parameters are proper, and which points they hold.
//! A further dimension adds an entry to `Naive::a` and to the product.
ghost use Rattle.std.specs.Prelude.{◌≡◌, ◌≤◌, ◌<◌, ◌↔◌, ℕ, pos, unsigned_abs, nat_abs, ◌+ℤ◌, ◌*ℤ◌, ◌≤ℤ◌, ◌<ℤ◌, IsTrue, take};
ghost use Rattle.shape_terms.specs.Points.{coordinate};
ghost use Rattle.shape_terms.specs.Naive.{IsProper, HoldsPoint};
ghost use Rattle.shape_refute.specs.Terms.{naive_of};

use shape_space::{Point, dot};

/// The parameters of a naive line or plane, in Reveillès' form: it holds a point `p` where `mu <= a.p < mu + a[axis]`.
///
/// In the plane the third coefficient does not count.
#[derive(Clone, Copy, Debug, PartialEq, Eq)]
pub struct Naive {
    /// The coefficients of x, y and z.
    pub a: [i64; 3],
    /// The least value of `a.p` that it holds.
    pub mu: i64,
    /// The main axis: 0 for x, 1 for y and 2 for z.
    pub axis: u8,
}

// The coefficient of the main axis, and 0 where the space has no such axis.
fn main_coefficient<P: Point>(n: &Naive) -> i64
    ensures { result ≡ coordinate (take P.DIM n.now.a) n.now.axis }
{
    let axis = n.axis as usize;
    if axis < P::DIM { n.a[axis] } else { 0 }
}

// Whether a number is no greater in size than a bound.
fn is_within(a: i64, bound: i64) -> bool
    requires { pos 1 ≤ℤ bound }
    ensures { IsTrue result ↔ pos (nat_abs a) ≤ℤ bound }
{
    -bound <= a && a <= bound
}

// Whether a value lies in the strip of a width from a lower bound on.
fn is_between(value: i128, low: i64, width: i64) -> bool
    ensures { IsTrue result ↔ (low ≤ℤ value) × (value <ℤ (low +ℤ width)) }
{
    low as i128 <= value && value < low as i128 + width as i128
}

// Whether no coefficient is greater in size than a bound.
fn are_within<P: Point>(a: &[i64; 3], bound: i64) -> bool
    requires { pos 1 ≤ℤ bound }
    ensures { IsTrue result ↔ ((u : ℕ) → pos (nat_abs (coordinate (take P.DIM a.now) u)) ≤ℤ bound) }
{
    for k in 0..P::DIM {
        if !is_within(a[k], bound) {
            return false;
        }
    }
    true
}

/// Whether the coefficient of the main axis is at least 1, and no other is greater in size.
///
/// A main axis that the space does not have is not proper.
pub fn is_proper<P: Point>(n: &Naive) -> bool
    ensures { IsTrue result ↔ IsProper n.now.axis (naive_of P.DIM n.now) }
{
    let main = main_coefficient::<P>(n);
    main >= 1 && are_within::<P>(&n.a, main)
}

/// Whether the line or plane holds a point.
///
/// Where the space does not have the main axis, it holds none.
pub fn holds<P: Point>(n: &Naive, p: P) -> bool
    ensures { IsTrue result ↔ HoldsPoint n.now.axis (naive_of P.DIM n.now) (P.coords p) }
{
    is_between(dot(&n.a, p), n.mu, main_coefficient::<P>(n))
}
