//! The directions of near neighbours, one of two opposite ones, by the axes that they move along.
//! Sets of them are bits, made once for each dimension; which points are object is not asked here.
ghost use Rattle.std.specs.Prelude.{◌≡◌, ◌≤◌};
ghost use Rattle.shape_terms.specs.Points.{coordinate};
ghost use Rattle.measure_terms.specs.Crossings.{IsSizeOf, moves, step_class};
ghost use Rattle.measuring.specs.Gains.{IsUnseen};
ghost use Rattle.measuring.specs.Tables.{HasDirections, AreDirections};

use shape_adj::Pairing;
use shape_space::Point;

/// The directions that move along each axis, along each two of them, and along all three.
#[derive(Clone, Copy)]
pub(crate) struct Directions {
    pub(crate) x: u32,
    pub(crate) y: u32,
    pub(crate) z: u32,
    pub(crate) xy: u32,
    pub(crate) xz: u32,
    pub(crate) yz: u32,
    pub(crate) xyz: u32,
}

// 1 where a step moves along an axis, and else 0.
fn moves<P: Point>(v: P, k: usize) -> u32
    ensures value { result ≡ moves (coordinate (P.coords v) k) }
    ensures small { result ≤ 1 }
{
    if k < P::DIM && v.coord(k) != 0 { 1 } else { 0 }
}

// The class of a step: a bit for each axis that it moves along.
fn class_of<P: Point>(v: P) -> u32
    ensures { result ≡ step_class (P.coords v) }
{
    moves(v, 0) + 2 * moves(v, 1) + 4 * moves(v, 2)
}

// The directions of a class.
fn directions_along<P: Pairing>(class: u32) -> u32
    ensures { HasDirections P.DIM class result }
{
    let mut mask = 0;
    for k in 0..P::NEAR_COUNT / 2 {
        if class_of(P::near_step(k)) == class {
            mask |= 1u32 << k;
        }
    }
    mask
}

/// How many of some directions lead to a near neighbour that was not seen.
pub(crate) fn count_unseen(directions: u32, seen: u32) -> u32
    ensures size { IsSizeOf (IsUnseen directions seen) result }
    ensures few { result ≤ 32 }
{
    (directions & !seen).count_ones()
}

/// All directions.
pub(crate) fn all_directions<P: Pairing>() -> Directions
    ensures { AreDirections P.DIM result }
{
    Directions {
        x: directions_along::<P>(1),
        y: directions_along::<P>(2),
        z: directions_along::<P>(4),
        xy: directions_along::<P>(3),
        xz: directions_along::<P>(5),
        yz: directions_along::<P>(6),
        xyz: directions_along::<P>(7),
    }
}
