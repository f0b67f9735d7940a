//! What one point more adds to the numbers of its object: the cells of its cube that are new, and its steps out.
//! Which near neighbours were seen before is told by the caller.
ghost use Rattle.std.specs.Prelude.{◌≡◌, ◌≤◌, ◌+ℤ◌, ◌==◌, pos, cond, length, nat_abs, unsigned_abs};
ghost use Rattle.std.specs.Int.Bits.{bit_and};
ghost use Rattle.measure_terms.specs.Cells.{sign};
ghost use Rattle.measure_terms.specs.Gains.{gained};
ghost use Rattle.measuring.specs.Tables.{AreCells, is_new};
ghost use Rattle.measuring.specs.Gains.{IsGain};

use crate::cell::{Cell, sign};
use crate::direction::{Directions, count_unseen};
use shape_adj::Pairing;

/// What one point more adds to the numbers of its object.
#[derive(Clone, Copy)]
pub(crate) struct Gain {
    pub(crate) euler: i32,
    pub(crate) x: u32,
    pub(crate) y: u32,
    pub(crate) z: u32,
    pub(crate) xy: u32,
    pub(crate) xz: u32,
    pub(crate) yz: u32,
    pub(crate) xyz: u32,
}

// A sum with one cell more, where it is new.
fn with_cell(n: i32, cell: Cell, seen: u32) -> i32
    requires few { unsigned_abs n ≤ 26 }
    requires sign { unsigned_abs cell.sign ≤ 1 }
    ensures { result ≡ n +ℤ cond (bit_and seen cell.shared == 0) cell.sign (pos 0) }
{
    if seen & cell.shared == 0 {
        n + cell.sign
    } else {
        n
    }
}

// What those of the near cells add that are new.
fn gained<P: Pairing>(cells: &[Cell], seen: u32) -> i32
    requires { AreCells P.DIM cells.now }
    ensures value { result ≡ gained P.DIM (is_new cells.now seen) (length cells.now) }
    ensures small { nat_abs result ≤ 26 }
{
    let mut n = 0;
    for cell in cells {
        n = with_cell(n, *cell, seen);
    }
    n
}

// What the cube of one point more adds, whose near neighbours seen before are these bits: its own middle, and the cells that are new.
fn euler_gain<P: Pairing>(cells: &[Cell], seen: u32) -> i32
    requires { AreCells P.DIM cells.now }
    ensures value { result
        ≡ sign P.DIM +ℤ gained P.DIM (is_new cells.now seen) (length cells.now) }
    ensures small { nat_abs result ≤ 27 }
{
    sign(P::DIM) + gained::<P>(cells, seen)
}

/// What one point more adds, whose near neighbours seen before are these bits.
pub(crate) fn gain_of<P: Pairing>(cells: &[Cell], directions: Directions, seen: u32) -> Gain
    requires { AreCells P.DIM cells.now }
    ensures { IsGain P.DIM cells.now directions seen result }
{
    Gain {
        euler: euler_gain::<P>(cells, seen),
        x: count_unseen(directions.x, seen),
        y: count_unseen(directions.y, seen),
        z: count_unseen(directions.z, seen),
        xy: count_unseen(directions.xy, seen),
        xz: count_unseen(directions.xz, seen),
        yz: count_unseen(directions.yz, seen),
        xyz: count_unseen(directions.xyz, seen),
    }
}
