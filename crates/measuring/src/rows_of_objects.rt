//! The rows of each object of a box, from the labels of its points.
//! Rows are made in one pass over the box, one row of an object after the other.
ghost use Rattle.std.specs.Prelude.{◌≡◌, ◌<◌, ◌≤◌, ◌+◌, ℕ, List, length, IfOk, OnOk, IsTrue};
ghost use Rattle.shape_terms.specs.Points.{sides_of, box_count, in_box, raster_number};
ghost use Rattle.measuring.specs.FeretsTold.{flat, spot_point};
ghost use Rattle.measuring.specs.Seen.{HaveRows};

use crate::outline::Outline;
use crate::spot::Spot;
use shape_adj::Labels;
use shape_space::{NoMemory, P2, Sides};
use std::alloc::Global;

// The spot with a raster number.
fn spot_at(sides: Sides<P2>, i: u32) -> Spot
    requires { i < box_count (sides_of (flat sides.lengths)) }
    ensures inside { IsTrue (in_box (sides_of (flat sides.lengths)) (spot_point result)) }
    ensures number { raster_number (sides_of (flat sides.lengths)) (spot_point result) ≡ i }
{
    let p = sides.unraster(i);
    Spot {
        x: p.x as u16,
        y: p.y as u16,
    }
}

// So many objects without a row.
fn no_outlines(alloc: Global, count: u32) -> Result<Vec<Outline>, NoMemory>
    ensures { (sides labels : List ℕ)
        → IfOk result (λ all. HaveRows sides labels count 0 all.items) }
{
    let mut all = Vec::new(alloc);
    for _i in 0..count {
        all.push(Outline::new(alloc))?;
    }
    Ok(all)
}

// Puts the point with a raster number to the rows of its object, where it has one.
fn put_point(
    all: &mut Vec<Outline>,
    sides: Sides<P2>,
    labels: &Labels,
    i: u32,
) -> Result<(), NoMemory>
    requires below { i < box_count (sides_of (flat sides.lengths)) }
    requires labels { length labels.now ≡ box_count (sides_of (flat sides.lengths)) }
    ensures { (n : ℕ) → HaveRows (sides_of (flat sides.lengths)) labels.now n i all.old.items
        → OnOk result
        (HaveRows (sides_of (flat sides.lengths)) labels.now n (i + 1) all.new.items) }
{
    let label = labels.label(i) as usize;
    if label == 0 || label > all.len() {
        return Ok(());
    }
    all[label - 1].put(spot_at(sides, i))?;
    Ok(())
}

/// The rows of each of the objects 1 to `count`.
pub(crate) fn outlines(
    alloc: Global,
    sides: Sides<P2>,
    labels: &Labels,
    count: u32,
) -> Result<Vec<Outline>, NoMemory>
    requires { length labels.now ≡ box_count (sides_of (flat sides.lengths)) }
    ensures { IfOk result (λ all. HaveRows (sides_of (flat sides.lengths)) labels.now count
        (box_count (sides_of (flat sides.lengths))) all.items) }
{
    let mut all = no_outlines(alloc, count)?;
    for i in 0..sides.count() {
        put_point(&mut all, sides, labels, i)?;
    }
    Ok(all)
}
