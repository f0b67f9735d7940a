//! The size of the convex hull of each object of a box, from the labels of its points.
//! Each object is taken for itself, by its rows.
ghost use Rattle.std.specs.Prelude.{◌≡◌, ◌≤◌, length, IfOk};
ghost use Rattle.shape_terms.specs.Points.{sides_of, box_count};
ghost use Rattle.measure_terms.specs.HullSizes.{AreHulls};
ghost use Rattle.measuring.specs.FeretsTold.{flat};
ghost use Rattle.measuring.specs.Rows.{AreRows};
ghost use Rattle.measuring.specs.Seen.{AreInOrder};
ghost use Rattle.measuring.specs.Sizes.{hull_told, hulls_told, IsSizeOfRows, HaveSizes};

use crate::outline::Outline;
use crate::rows_of_objects::outlines;
use crate::size::{HullSize, size_of_rows};
use shape_adj::Labels;
use shape_space::{NoMemory, P2, Sides};
use std::alloc::Global;

// How large the hull of an object is, and 0 throughout where it has no row.
fn size_of(alloc: Global, outline: &Outline) -> Result<HullSize, NoMemory>
    requires { AreRows outline.now.rows.items }
    ensures { 1 ≤ length outline.now.rows.items
        → IfOk result (λ z. IsSizeOfRows outline.now.rows.items (hull_told z)) }
{
    let rows = outline.rows.as_slice();
    if rows.is_empty() {
        return Ok(HullSize {
            double_area: 0,
            perimeter: 0,
            across: 0,
            length: 0,
            min_feret: 0,
            dx: 0,
            dy: 0,
        });
    }
    size_of_rows(alloc, rows)
}

// How large the hull of each object is.
fn sizes_of_all(alloc: Global, outlines: &[Outline]) -> Result<Vec<HullSize>, NoMemory>
    requires { AreInOrder outlines.now }
    ensures { IfOk result (λ zs. HaveSizes outlines.now (length outlines.now) zs.items) }
{
    let mut all = Vec::new(alloc);
    for outline in outlines {
        all.push(size_of(alloc, outline)?)?;
    }
    Ok(all)
}

/// How large the convex hull of the corners of each of the objects 1 to `count` is, where an object has the pixels with its
/// label: its area, its border, and its least width with the side across which it is so wide.
///
/// It takes memory for six bytes for each row of an object, some for each object, and some for each line of the greatest one.
pub fn hulls(
    alloc: Global,
    sides: Sides<P2>,
    labels: &Labels,
    count: u32,
) -> Result<Vec<HullSize>, NoMemory>
    requires { length labels.now ≡ box_count (sides_of (flat sides.lengths)) }
    ensures all { IfOk result (λ zs. AreHulls (sides_of (flat sides.lengths)) labels.now count
        (hulls_told zs.items)) }
    ensures count { IfOk result (λ zs. length zs.items ≡ count) }
{
    let outlines = outlines(alloc, sides, labels, count)?;
    sizes_of_all(alloc, outlines.as_slice())
}
