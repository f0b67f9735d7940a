//! The steps of the seven classes where voxels have the sides of a spacing, and which of them are nearest to a direction.
//! Cosines are compared by their squares, crosswise and exactly.
ghost use Rattle.std.specs.Prelude.{◌≡◌, ◌*◌, ◌≤◌, ◌<◌, ◌^◌, cond, nat_eq};
ghost use Rattle.measure_terms.specs.Shares as Terms;
ghost use Rattle.measuring.specs.Spaced.{spacing_told};
ghost use Rattle.measuring.specs.Fan.{direction_told};

use crate::division::quotient;
use crate::spacing::Spacing;

/// A direction in which no coordinate is below 0.
#[derive(Clone, Copy)]
pub(crate) struct Direction {
    pub(crate) x: u16,
    pub(crate) y: u16,
    pub(crate) z: u16,
}

// A side where a step moves along it, and else 0.
fn side_where(moves: u32, side: u16) -> u16
    requires { moves ≤ 1 }
    ensures { result ≡ moves * side }
{
    if moves == 1 { side } else { 0 }
}

/// The step of a class.
pub(crate) fn spaced_step(spacing: Spacing, class: u32) -> Direction
    requires { class ≤ 7 }
    ensures { direction_told result ≡ Terms.spaced_step (spacing_told spacing) class }
{
    Direction {
        x: side_where(class % 2, spacing.x),
        y: side_where(class / 2 % 2, spacing.y),
        z: side_where(class / 4, spacing.z),
    }
}

// The product of two coordinates.
fn product(m: u16, n: u16) -> u64
    ensures value { result ≡ m * n }
    ensures small { result < 2 ^ 32 }
{
    m as u64 * n as u64
}

/// The inner product.
pub(crate) fn dot(u: Direction, v: Direction) -> u64
    ensures value { result ≡ Terms.dot (direction_told u) (direction_told v) }
    ensures small { result < 2 ^ 34 }
{
    product(u.x, v.x) + (product(u.y, v.y) + product(u.z, v.z))
}

// The square of a number, times another.
fn square_times(n: u64, m: u64) -> u128
    requires n { n < 2 ^ 34 }
    requires m { m < 2 ^ 34 }
    ensures { result ≡ n * n * m }
{
    n as u128 * n as u128 * m as u128
}

// The square of the cosine of two directions, but for the length of the first, as the upper number of a quotient, times the lower one of another.
fn crosswise(u: Direction, v: Direction, w: Direction) -> u128
    ensures { result
        ≡ Terms.crosswise (direction_told u) (direction_told v) (direction_told w) }
{
    square_times(dot(u, v), dot(w, w))
}

// 1 where two numbers are equal, and else 0.
fn tie(mine: u128, its: u128) -> u32
    ensures { result ≡ cond (nat_eq mine its) 1 0 }
{
    if mine == its { 1 } else { 0 }
}

/// The part of a direction that counts for a class, in units of which it has 420.
pub(crate) fn portion(spacing: Spacing, class: u32, u: Direction) -> u128
    requires { class ≤ 7 }
    ensures value { result ≡ Terms.portion (spacing_told spacing) class (direction_told u) }
    ensures small { result ≤ 420 }
{
    let own = spaced_step(spacing, class);
    let mut as_near: u32 = 0;
    for other_class in 1..8 {
        let other = spaced_step(spacing, other_class);
        let mine = crosswise(u, own, other);
        let its = crosswise(u, other, own);
        if mine < its {
            return 0;
        }
        as_near += tie(mine, its);
    }
    quotient(420, as_near as u128)
}
