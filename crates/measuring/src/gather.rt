//! The stretches of each object of a box, from the labels of its points.
//! Stretches are made in one pass over the box, one of an object after the other.
ghost use Rattle.std.specs.Prelude.{◌≡◌, ◌<◌, ◌+◌, ℕ, List, length, IfOk, OnOk, slice_index};
ghost use Rattle.shape_terms.specs.Points.{sides_of, box_count};
ghost use Rattle.measuring.specs.Stretches.{HaveStretches};

use crate::stretch::Stretches;
use shape_adj::Labels;
use shape_space::{NoMemory, Point, Sides};
use std::alloc::Global;

// So many objects without a stretch.
fn no_stretches(alloc: Global, count: u32) -> Result<Vec<Stretches>, NoMemory>
    ensures { (width : ℕ) (labels : List ℕ)
        → IfOk result (λ all. HaveStretches width labels count 0 all.items) }
{
    let mut all = Vec::new(alloc);
    for _i in 0..count {
        all.push(Stretches::new(alloc))?;
    }
    Ok(all)
}

// Puts the point with a raster number to the stretches of its object, where it has one.
fn put_number(all: &mut Vec<Stretches>, width: u32, labels: &Labels, i: u32) -> Result<(), NoMemory>
    requires width { 0 < width }
    requires labels { i < length labels.now }
    ensures { (n : ℕ) → HaveStretches width labels.now n i all.old.items
        → OnOk result (HaveStretches width labels.now n (i + 1) all.new.items) }
{
    let label = labels.label(i) as usize;
    if label == 0 || label > all.len() {
        return Ok(());
    }
    all[label - 1].put(width, i)?;
    Ok(())
}

// How many points a line of the box has.
fn width<P: Point>(sides: Sides<P>) -> u32
    ensures value { result ≡ slice_index (sides_of (P.coords sides.lengths)) 0 }
    ensures some { 0 < result }
{
    sides.side(0) as u32
}

/// The stretches of each of the objects 1 to `count`.
pub(crate) fn stretches<P: Point>(
    alloc: Global,
    sides: Sides<P>,
    labels: &Labels,
    count: u32,
) -> Result<Vec<Stretches>, NoMemory>
    requires { length labels.now ≡ box_count (sides_of (P.coords sides.lengths)) }
    ensures { IfOk result (λ all. HaveStretches
        (slice_index (sides_of (P.coords sides.lengths)) 0) labels.now count
        (box_count (sides_of (P.coords sides.lengths))) all.items) }
{
    let width = width(sides);
    let mut all = no_stretches(alloc, count)?;
    for i in 0..sides.count() {
        put_number(&mut all, width, labels, i)?;
    }
    Ok(all)
}
