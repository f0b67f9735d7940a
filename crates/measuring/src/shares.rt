//! Which share of a fixed fan of directions is nearest to each class of steps.
//! Another fan is a change here and of the same numbers in `Shares`.
ghost use Rattle.std.specs.Prelude.{◌≡◌, ◌<◌, ◌≤◌, ◌*◌, ◌/◌, ◌^◌, sum_by};
ghost use Rattle.measure_terms.specs.Shares as Terms;
ghost use Rattle.measuring.specs.Spaced.{spacing_told};
ghost use Rattle.measuring.specs.Fan.{AreShares, most_angle, most_given};

use crate::division::quotient;
use crate::nearest::{Direction, portion};
use crate::round::root;
use crate::spacing::Spacing;

// How many lattice points the fan has on each face.
const FAN_SIZE: u32 = 10946;

// The side of a face.
const FAN_SIDE: u16 = 21892;

// The first coordinate of a lattice point.
fn first_of(i: u32) -> u16
    requires { i < Terms.fan_size }
    ensures value { result ≡ Terms.first_of i }
{
    (2 * i + 1) as u16
}

// The second coordinate of a lattice point.
fn second_of(i: u32) -> u16
    requires { i < Terms.fan_size }
    ensures value { result ≡ Terms.second_of i }
{
    ((13530 * i + 1) % FAN_SIDE as u32) as u16
}

// The solid angle that a lattice point stands for.
fn solid_angle(a: u16, b: u16) -> u128
    ensures value { result ≡ Terms.solid_angle a b }
    ensures small { result ≤ most_angle }
{
    let (side, a, b) = (FAN_SIDE as u64, a as u64, b as u64);
    let reach = side * side + (a * a + b * b);
    quotient(
        100_000_000_000_000_000_000_000_000 / reach as u128,
        root(reach),
    )
}

// The direction to a point.
fn to(x: u16, y: u16, z: u16) -> Direction
    ensures x { result.x ≡ x }
    ensures y { result.y ≡ y }
    ensures z { result.z ≡ z }
{
    Direction { x, y, z }
}

// What the six directions of a lattice point give to a class.
fn portions(spacing: Spacing, class: u32, a: u16, b: u16) -> u128
    requires { class ≤ 7 }
    ensures value { result
        ≡ sum_by (Terms.portion (spacing_told spacing) class) (Terms.directions_of a b) }
    ensures small { result ≤ 2520 }
{
    let side = FAN_SIDE;
    let along_x = portion(spacing, class, to(side, a, b)) + portion(spacing, class, to(side, b, a));
    let along_y = portion(spacing, class, to(a, side, b)) + portion(spacing, class, to(b, side, a));
    let along_z = portion(spacing, class, to(a, b, side)) + portion(spacing, class, to(b, a, side));
    along_x + along_y + along_z
}

// What a lattice point gives to a class.
fn given(spacing: Spacing, class: u32, i: u32) -> u128
    requires class { class ≤ 7 }
    requires point { i < Terms.fan_size }
    ensures value { result ≡ Terms.given (spacing_told spacing) class i }
    ensures small { result ≤ most_given }
{
    let (a, b) = (first_of(i), second_of(i));
    let portions = portions(spacing, class, a, b);
    if portions == 0 {
        return 0;
    }
    solid_angle(a, b) * portions
}

// What a class has of the whole fan.
fn gathered(spacing: Spacing, class: u32) -> u128
    requires { class ≤ 7 }
    ensures value { result ≡ Terms.gathered (spacing_told spacing) Terms.fan_size class }
    ensures small { result ≤ Terms.fan_size * most_given }
{
    let mut sum: u128 = 0;
    for i in 0..FAN_SIZE {
        sum += given(spacing, class, i);
    }
    sum
}

/// The shares of the classes, each with twelve digits.
#[derive(Clone, Copy)]
pub(crate) struct Shares {
    pub(crate) x: u128,
    pub(crate) y: u128,
    pub(crate) z: u128,
    pub(crate) xy: u128,
    pub(crate) xz: u128,
    pub(crate) yz: u128,
    pub(crate) xyz: u128,
}

// A share of all, with twelve digits.
fn share(part: u128, all: u128) -> u128
    requires small { part ≤ Terms.fan_size * most_given }
    requires within { part ≤ all }
    ensures value { result ≡ 10 ^ 12 * part / all }
    ensures few { result ≤ 10 ^ 12 }
{
    quotient(1_000_000_000_000 * part, all)
}

/// The shares of all classes.
pub(crate) fn all_shares(spacing: Spacing) -> Shares
    ensures { AreShares (spacing_told spacing) result }
{
    let x = gathered(spacing, 1);
    let y = gathered(spacing, 2);
    let xy = gathered(spacing, 3);
    let z = gathered(spacing, 4);
    let xz = gathered(spacing, 5);
    let yz = gathered(spacing, 6);
    let xyz = gathered(spacing, 7);
    let all = x + (y + (xy + (z + (xz + (yz + xyz)))));
    Shares {
        x: share(x, all),
        y: share(y, all),
        z: share(z, all),
        xy: share(xy, all),
        xz: share(xz, all),
        yz: share(yz, all),
        xyz: share(xyz, all),
    }
}
