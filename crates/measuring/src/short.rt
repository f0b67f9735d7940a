//! Turns and lengths of corners that lie in a box, and fractions of them, one operation in each function.
//! Bounds are stated by numerals, since proofs of overflow rest on them.
ghost use Rattle.std.specs.Prelude.{◌≡◌, ◌≤◌, ◌↔◌, ◌^◌, ◌-ℤ◌, ◌*ℤ◌, ◌<ℤ◌, IsTrue, unsigned_abs};
ghost use Rattle.measure_terms.specs.Hulls.{turn};
ghost use Rattle.measure_terms.specs.Polygons.{squared_length};
ghost use Rattle.measuring.specs.Corners.{corner, IsShort};

use crate::turn::{squared_length, turn};
use shape_space::P2;

/// The step between two coordinates of a box.
pub(crate) fn short_step(from: i32, to: i32) -> i32
    requires from { unsigned_abs from ≤ 2 ^ 16 }
    requires to { unsigned_abs to ≤ 2 ^ 16 }
    ensures { result ≡ to -ℤ from }
{
    to - from
}

// A small number in fewer bytes.
fn narrowed(a: i128) -> i64
    requires { unsigned_abs a ≤ 2 ^ 35 }
    ensures value { result ≡ a }
    ensures small { unsigned_abs result ≤ 2 ^ 35 }
{
    a as i64
}

/// The turn of three corners of a box.
pub(crate) fn short_turn(a: P2, b: P2, c: P2) -> i64
    requires a { IsShort (corner a) }
    requires b { IsShort (corner b) }
    requires c { IsShort (corner c) }
    ensures value { result ≡ turn (corner a) (corner b) (corner c) }
    ensures small { unsigned_abs result ≤ 2 ^ 35 }
{
    narrowed(turn(a, b, c))
}

/// The squared distance of two corners of a box.
pub(crate) fn short_length(p: P2, q: P2) -> i64
    requires p { IsShort (corner p) }
    requires q { IsShort (corner q) }
    ensures value { result ≡ squared_length (corner p) (corner q) }
    ensures small { unsigned_abs result ≤ 2 ^ 35 }
{
    narrowed(squared_length(p, q))
}

// The square of a number.
fn square(a: i64) -> i128
    requires { unsigned_abs a ≤ 2 ^ 35 }
    ensures value { result ≡ a *ℤ a }
    ensures small { unsigned_abs result ≤ 2 ^ 70 }
{
    a as i128 * a as i128
}

// A square times a number.
fn scaled(a: i128, b: i64) -> i128
    requires a_small { unsigned_abs a ≤ 2 ^ 70 }
    requires b_small { unsigned_abs b ≤ 2 ^ 35 }
    ensures { result ≡ a *ℤ b }
{
    a * b as i128
}

/// Whether the square of one number by another is less than that of two others.
pub(crate) fn is_less(across: i64, length: i64, other: i64, other_length: i64) -> bool
    requires across { unsigned_abs across ≤ 2 ^ 35 }
    requires length { unsigned_abs length ≤ 2 ^ 35 }
    requires other { unsigned_abs other ≤ 2 ^ 35 }
    requires other_length { unsigned_abs other_length ≤ 2 ^ 35 }
    ensures { IsTrue result
        ↔ ((across *ℤ across) *ℤ other_length) <ℤ ((other *ℤ other) *ℤ length) }
{
    scaled(square(across), other_length) < scaled(square(other), length)
}
