//! The cells of the cube around a point: which near cubes share them, and what they count for.
//! A table of them is made once for each dimension; which points are object is not asked here.
ghost use Rattle.std.specs.Prelude.{◌≡◌, ◌<◌, ◌≤◌, ◌↔◌, ℕ, ◌+ℤ◌, ◌-ℤ◌, IsTrue, IfOk, nat_abs};
ghost use Rattle.shape_adj.specs.NearMasks.{In};
ghost use Rattle.shape_adj.specs.Offsets.{IsShort};
ghost use Rattle.shape_terms.specs.Adjacency.{near_step};
ghost use Rattle.measure_terms.specs.Cells.{IsCellOf, dimension, sign};
ghost use Rattle.measuring.specs.Tables.{AreCells};

use shape_adj::Pairing;
use shape_space::{NoMemory, Point};
use std::alloc::Global;

/// A cell of the cube around a point, to which a near step leads from its middle.
#[derive(Clone, Copy)]
pub(crate) struct Cell {
    /// Bit j is set where the cube around near neighbour j has the cell too.
    pub(crate) shared: u32,
    /// 1 where its dimension is even, and else -1.
    pub(crate) sign: i32,
}

// Whether the cubes that two short steps lead to meet along an axis in the cell that the second one leads to.
fn meets(w: i32, v: i32) -> bool
    requires w { nat_abs w ≤ 1 }
    requires v { nat_abs v ≤ 1 }
    ensures { IsTrue result ↔ (nat_abs ((w +ℤ w) -ℤ v) ≤ 1) }
{
    w == 0 || w == v
}

// Whether the cube around the point that a short step leads to has the cell to which another leads from the middle.
fn shares<P: Point>(w: P, v: P) -> bool
    requires w { IsShort (P.coords w) }
    requires v { IsShort (P.coords v) }
    ensures { IsTrue result ↔ IsCellOf (P.coords w) (P.coords v) }
{
    for k in 0..P::DIM {
        if !meets(w.coord(k), v.coord(k)) {
            return false;
        }
    }
    true
}

// The near neighbours whose cubes share the cell with a number.
fn shared_mask<P: Pairing>(k: usize) -> u32
    requires { k < P.NEAR_COUNT }
    ensures { (j : ℕ) → In result j
        ↔ ((j < P.NEAR_COUNT) × IsCellOf (near_step P.DIM j) (near_step P.DIM k)) }
{
    let mut mask = 0;
    for j in 0..P::NEAR_COUNT {
        if shares(P::near_step(j), P::near_step(k)) {
            mask |= 1u32 << j;
        }
    }
    mask
}

// The dimension of the cell to which a short step leads.
pub(crate) fn dimension<P: Point>(v: P) -> u32
    requires { IsShort (P.coords v) }
    ensures { result ≡ dimension (P.coords v) }
{
    let mut n = 0;
    for k in 0..P::DIM {
        if v.coord(k) == 0 {
            n += 1;
        }
    }
    n
}

// What a cell of this dimension counts for.
pub(crate) fn sign(n: usize) -> i32
    ensures value { result ≡ sign n }
    ensures small { nat_abs result ≤ 1 }
{
    if n % 2 == 0 { 1 } else { -1 }
}

/// The cells to which the near steps lead, in the order of their numbers.
pub(crate) fn near_cells<P: Pairing>(alloc: Global) -> Result<Vec<Cell>, NoMemory>
    ensures { IfOk result (λ cells. AreCells P.DIM cells.items) }
{
    let mut cells = Vec::new(alloc);
    for k in 0..P::NEAR_COUNT {
        cells.push(Cell {
            shared: shared_mask::<P>(k),
            sign: sign(dimension(P::near_step(k)) as usize),
        })?;
    }
    Ok(cells)
}
