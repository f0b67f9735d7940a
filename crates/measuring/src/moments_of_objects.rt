//! The second moments of each object of a box, from the labels of its points.
//! Points are taken in raster order; what a point adds to its object stands in `sums`.
ghost use Rattle.std.specs.Prelude.{◌≡◌, ◌<◌, ◌+◌, ℕ, List, IfOk, length};
ghost use Rattle.shape_terms.specs.Points.{sides_of, box_count};
ghost use Rattle.measure_terms.specs.Moments.{AreMoments};
ghost use Rattle.measuring.specs.MomentsSoFar.{AreMomentsSoFar};
ghost use Rattle.measuring.specs.MomentsTold.{all_told};

use crate::moments::Moments;
use shape_adj::Labels;
use shape_space::{NoMemory, Point, Sides};
use std::alloc::Global;

// So many objects of no point.
fn no_points(alloc: Global, count: u32) -> Result<Vec<Moments>, NoMemory>
    ensures { (sides labels : List ℕ)
        → IfOk result (λ ms. AreMomentsSoFar sides labels count 0 (all_told ms.items)) }
{
    let mut all = Vec::new(alloc);
    for _i in 0..count {
        all.push(Moments::none())?;
    }
    Ok(all)
}

// Adds the point with a raster number to its object, where it has one.
fn add_point<P: Point>(all: &mut Vec<Moments>, sides: Sides<P>, labels: &Labels, i: u32)
    requires below { i < box_count (sides_of (P.coords sides.lengths)) }
    requires labels { length labels.now ≡ box_count (sides_of (P.coords sides.lengths)) }
    requires so_far { AreMomentsSoFar (sides_of (P.coords sides.lengths)) labels.now
        (length all.old.items) i (all_told all.old.items) }
    ensures { AreMomentsSoFar (sides_of (P.coords sides.lengths)) labels.now
        (length all.old.items) (i + 1) (all_told all.new.items) }
{
    let label = labels.label(i) as usize;
    if label == 0 || label > all.len() {
        return;
    }
    all[label - 1] = all[label - 1].with(sides, sides.unraster(i));
}

/// The second moments of each of the objects 1 to `count`, where an object has the points with its label: an object has none
/// where no point has its label, and then all its numbers are 0.
///
/// It takes memory for eighty bytes for each object, and no more beside.
pub fn second_moments<P: Point>(
    alloc: Global,
    sides: Sides<P>,
    labels: &Labels,
    count: u32,
) -> Result<Vec<Moments>, NoMemory>
    requires { length labels.now ≡ box_count (sides_of (P.coords sides.lengths)) }
    ensures all { IfOk result (λ ms. AreMoments (sides_of (P.coords sides.lengths)) labels.now
        count (all_told ms.items)) }
    ensures count { IfOk result (λ ms. length ms.items ≡ count) }
{
    let mut all = no_points(alloc, count)?;
    for i in 0..sides.count() {
        add_point(&mut all, sides, labels, i);
    }
    Ok(all)
}
