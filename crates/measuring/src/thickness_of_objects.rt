//! The sums of each object of a box, in one pass over the box.
//! What a point adds to the sums of its object stands in `thick`.
ghost use Rattle.std.specs.Prelude.{◌≡◌, ◌<◌, ◌+◌, ℕ, List, IfOk, length};
ghost use Rattle.shape_terms.specs.Points.{sides_of, box_count};
ghost use Rattle.shape_terms.specs.Limits.{most_points};
ghost use Rattle.measure_terms.specs.ThicknessColumns.{AreThicknessSums};
ghost use Rattle.measuring.specs.ThicknessSoFar.{AreSumsSoFar};

use crate::thick::ThicknessSum;
use shape_adj::Labels;
use shape_space::{NoMemory, Point, Sides};
use std::alloc::Global;

// So many objects without a point.
fn no_sums(alloc: Global, count: u32) -> Result<Vec<ThicknessSum>, NoMemory>
    ensures { (labels thicknesses : List ℕ)
        → IfOk result (λ ss. AreSumsSoFar labels count thicknesses 0 ss.items) }
{
    let mut all = Vec::new(alloc);
    for _i in 0..count {
        all.push(ThicknessSum::none())?;
    }
    Ok(all)
}

// Adds the point with a raster number to its object, where it has one.
fn add_point(all: &mut Vec<ThicknessSum>, labels: &Labels, thicknesses: &[u32], i: u32)
    requires few { i < most_points }
    requires labels { i < length labels.now }
    requires thicknesses { i < length thicknesses.now }
    requires so_far { AreSumsSoFar labels.now (length all.old.items)
        thicknesses.now i all.old.items }
    ensures { AreSumsSoFar labels.now (length all.old.items) thicknesses.now (i + 1) all.new.items }
{
    let label = labels.label(i) as usize;
    if label == 0 || label > all.len() {
        return;
    }
    all[label - 1].add(thicknesses[i as usize]);
}

/// Of each of the objects 1 to `count`, where an object has the points with its label: how thick it is, where `thicknesses`
/// has the square of the greatest ball that holds it for each point of the box, in raster order.
///
/// It takes memory for 48 bytes for each object, and no more beside.
pub fn thickness_sums<P: Point>(
    alloc: Global,
    sides: Sides<P>,
    labels: &Labels,
    count: u32,
    thicknesses: &[u32],
) -> Result<Vec<ThicknessSum>, NoMemory>
    requires labels { length labels.now ≡ box_count (sides_of (P.coords sides.lengths)) }
    requires thicknesses { length thicknesses.now ≡ box_count (sides_of (P.coords sides.lengths)) }
    ensures { IfOk result (λ ss.
        AreThicknessSums (sides_of (P.coords sides.lengths)) labels.now count
        thicknesses.now ss.items) }
{
    let mut all = no_sums(alloc, count)?;
    for i in 0..sides.count() {
        add_point(&mut all, labels, thicknesses, i);
    }
    Ok(all)
}
