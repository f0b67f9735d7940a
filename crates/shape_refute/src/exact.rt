//! Sums and products that no value of a field overflows, one operation in each function.
//! Bounds are stated by numerals, since proofs of overflow rest on them.
ghost use Rattle.std.specs.Prelude.{◌≡◌, ◌≤◌, ◌^◌, ◌↔◌, IsTrue, pos, unsigned_abs, ◌+ℤ◌, ◌-ℤ◌, ◌*ℤ◌};

/// A sum of two products, or of sums of them.
pub fn sum(x: i128, y: i128) -> i128
    requires x_small { unsigned_abs x ≤ 2 ^ 100 }
    requires y_small { unsigned_abs y ≤ 2 ^ 100 }
    ensures value { result ≡ x +ℤ y }
{
    x + y
}

/// A sum of two coordinates.
pub fn plus(x: i32, y: i32) -> i64
    ensures value { result ≡ x +ℤ y }
    ensures small { unsigned_abs result ≤ 2 ^ 33 }
{
    x as i64 + y as i64
}

/// A difference of two coordinates.
pub fn minus(x: i32, y: i32) -> i64
    ensures value { result ≡ x -ℤ y }
    ensures small { unsigned_abs result ≤ 2 ^ 33 }
{
    x as i64 - y as i64
}

/// A number, taken as often as a weight says.
pub fn weighed(weight: u64, x: i64) -> i128
    requires { unsigned_abs x ≤ 2 ^ 33 }
    ensures value { result ≡ pos weight *ℤ x }
    ensures small { unsigned_abs result ≤ 2 ^ 97 }
{
    weight as i128 * x as i128
}

/// Whether two sums are equal.
pub fn are_equal(x: i128, y: i128) -> bool
    ensures { IsTrue result ↔ x ≡ y }
{
    x == y
}
