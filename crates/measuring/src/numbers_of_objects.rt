//! The numbers of each object of a box, from the labels of its points, in one pass over them.
//! Points are taken in raster order; each adds the cells of its cube that no cube of its object before it has, and its steps out.
ghost use Rattle.std.specs.Prelude.{◌≡◌, ◌<◌, ◌+◌, ℕ, List, IfOk, length};
ghost use Rattle.shape_terms.specs.Points.{sides_of, box_count};
ghost use Rattle.measure_terms.specs.Minkowski.{AreMinkowski};
ghost use Rattle.measuring.specs.Tables.{AreCells, AreDirections};
ghost use Rattle.measuring.specs.MinkowskiSoFar.{AreSoFar};
ghost use Rattle.measuring.specs.MinkowskiTold.{all_told};
ghost use Rattle.measuring.specs.Fan.{AreFew};

use crate::cell::{Cell, near_cells};
use crate::direction::{Directions, all_directions};
use crate::gain::gain_of;
use crate::labelling::Labelling;
use crate::numbers::Minkowski;
use crate::seen::seen_before;
use crate::sum::with_gain;
use shape_adj::{Labels, NearNumbers, Pairing};
use shape_space::{NoMemory, Sides};
use std::alloc::Global;

// So many objects without a point.
fn no_points(alloc: Global, count: u32) -> Result<Vec<Minkowski>, NoMemory>
    ensures { (sides labels : List ℕ) → IfOk result (λ ms. AreSoFar sides labels count 0 ms.items) }
{
    let mut all = Vec::new(alloc);
    for _i in 0..count {
        all.push(Minkowski {
            euler: 0,
            x: 0,
            y: 0,
            z: 0,
            xy: 0,
            xz: 0,
            yz: 0,
            xyz: 0,
        })?;
    }
    Ok(all)
}

// Adds the point with a raster number to the numbers of its object, where it has one.
fn add_point<P: Pairing, L: Labelling>(
    all: &mut Vec<Minkowski>,
    cells: &[Cell],
    directions: Directions,
    near: &NearNumbers<P>,
    labels: &L,
    i: u32,
)
    requires cells { AreCells P.DIM cells.now }
    requires directions { AreDirections P.DIM directions }
    requires below { i < box_count (sides_of (P.coords near.now.sides.lengths)) }
    requires labels { length (L.labels labels.now)
        ≡ box_count (sides_of (P.coords near.now.sides.lengths)) }
    requires so_far { AreSoFar (sides_of (P.coords near.now.sides.lengths)) (L.labels labels.now)
        (length all.old.items) i all.old.items }
    ensures { AreSoFar (sides_of (P.coords near.now.sides.lengths)) (L.labels labels.now)
        (length all.old.items) (i + 1) all.new.items }
{
    let label = labels.label_at(i) as usize;
    if label == 0 || label > all.len() {
        return;
    }
    let gain = gain_of::<P>(cells, directions, seen_before(near, labels, i));
    all[label - 1] = with_gain(all[label - 1], gain);
}

/// The numbers of each of the objects 1 to `count`.
pub(crate) fn numbers<P: Pairing, L: Labelling>(
    alloc: Global,
    sides: Sides<P>,
    labels: &L,
    count: u32,
) -> Result<Vec<Minkowski>, NoMemory>
    requires { length (L.labels labels.now) ≡ box_count (sides_of (P.coords sides.lengths)) }
    ensures all { IfOk result (λ ms. AreMinkowski (sides_of (P.coords sides.lengths))
        (L.labels labels.now) count (all_told ms.items)) }
    ensures count { IfOk result (λ ms. length ms.items ≡ count) }
    ensures few { IfOk result (λ ms. AreFew ms.items) }
{
    let cells = near_cells::<P>(alloc)?;
    let directions = all_directions::<P>();
    let near = NearNumbers::new(alloc, sides)?;
    let mut all = no_points(alloc, count)?;
    for i in 0..sides.count() {
        add_point(&mut all, cells.as_slice(), directions, &near, labels, i);
    }
    Ok(all)
}

/// The Euler number of each of the objects 1 to `count`, where an object has the points with its label, and how many steps lead
/// out of it.
///
/// It takes memory for 64 bytes for each object, and no more than some hundred bytes beside.
pub fn minkowski_numbers<P: Pairing>(
    alloc: Global,
    sides: Sides<P>,
    labels: &Labels,
    count: u32,
) -> Result<Vec<Minkowski>, NoMemory>
    requires { length labels.now ≡ box_count (sides_of (P.coords sides.lengths)) }
    ensures all { IfOk result (λ ms. AreMinkowski (sides_of (P.coords sides.lengths)) labels.now
        count (all_told ms.items)) }
    ensures count { IfOk result (λ ms. length ms.items ≡ count) }
    ensures few { IfOk result (λ ms. AreFew ms.items) }
{
    numbers(alloc, sides, labels, count)
}
