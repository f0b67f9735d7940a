//! The Feret diameter of each object of a box, from the labels of its points.
//! Each object is searched for itself, by the vertices of its layers.
ghost use Rattle.std.specs.Prelude.{◌≡◌, ◌≤◌, length, slice_index, IfOk};
ghost use Rattle.shape_terms.specs.Points.{sides_of, box_count};
ghost use Rattle.measure_terms.specs.Spacing.{IsSpacing, spaced_distance};
ghost use Rattle.measure_terms.specs.Feret.{AreFerets};
ghost use Rattle.measuring.specs.Spaced.{spacing_told};
ghost use Rattle.measuring.specs.FeretsTold.{ferets_told};
ghost use Rattle.measuring.specs.Stretches.{AreStretches};
ghost use Rattle.measuring.specs.Farthest.{IsFarthest, IsEnd, IsWithin, AreBelow, AreObjects, HaveFarthest};

use crate::farthest::{Feret, farthest};
use crate::gather::stretches;
use crate::site::Site;
use crate::spacing::Spacing;
use crate::stretch::Stretches;
use crate::vertices::vertices;
use shape_adj::Labels;
use shape_space::{NoMemory, Point, Sides};
use std::alloc::Global;

// The two farthest points of an object, and the origin twice where it has none.
fn feret_of<P: Point>(
    alloc: Global,
    sides: Sides<P>,
    spacing: Spacing,
    object: &Stretches,
) -> Result<Feret, NoMemory>
    requires spacing { IsSpacing (spacing_told spacing) }
    requires order { AreStretches (slice_index (sides_of (P.coords sides.lengths)) 0)
        object.now.all.items }
    requires below { AreBelow (box_count (sides_of (P.coords sides.lengths))) object.now.all.items }
    ensures { 1 ≤ length object.now.all.items → IfOk result
        (IsFarthest (spacing_told spacing)
        (IsEnd (sides_of (P.coords sides.lengths)) object.now.all.items)
        (IsWithin (sides_of (P.coords sides.lengths)) object.now.all.items)) }
{
    let stretches = object.all.as_slice();
    if stretches.is_empty() {
        let origin = Site {
            number: 0,
            x: 0,
            y: 0,
            z: 0,
        };
        return Ok(Feret {
            square: 0,
            from: origin,
            to: origin,
        });
    }
    let sites = vertices(alloc, sides, stretches)?;
    Ok(farthest(spacing, sites.as_slice()))
}

// The two farthest points of each object.
fn farthest_of_all<P: Point>(
    alloc: Global,
    sides: Sides<P>,
    spacing: Spacing,
    objects: &[Stretches],
) -> Result<Vec<Feret>, NoMemory>
    requires spacing { IsSpacing (spacing_told spacing) }
    requires objects { AreObjects (slice_index (sides_of (P.coords sides.lengths)) 0)
        (box_count (sides_of (P.coords sides.lengths))) objects.now }
    ensures { IfOk result (λ fs. HaveFarthest (spacing_told spacing)
        (sides_of (P.coords sides.lengths)) objects.now (length objects.now) fs.items) }
{
    let mut all = Vec::new(alloc);
    for object in objects {
        all.push(feret_of(alloc, sides, spacing, object)?)?;
    }
    Ok(all)
}

/// The Feret diameter of each of the objects 1 to `count`, where an object has the points with its label: the greatest
/// distance between two of its points, with the two points. Pixels and voxels have the sides that the spacing gives.
///
/// It takes memory for eight bytes for each line of an object along the first axis, some for each object, and some for each
/// line of the greatest one.
pub fn ferets<P: Point>(
    alloc: Global,
    sides: Sides<P>,
    spacing: Spacing,
    labels: &Labels,
    count: u32,
) -> Result<Vec<Feret>, NoMemory>
    requires labels { length labels.now ≡ box_count (sides_of (P.coords sides.lengths)) }
    ensures all { IfOk result (λ fs. AreFerets (spaced_distance (spacing_told spacing))
        (sides_of (P.coords sides.lengths)) labels.now count (ferets_told P.DIM fs.items)) }
    ensures count { IfOk result (λ fs. length fs.items ≡ count) }
{
    let objects = stretches(alloc, sides, labels, count)?;
    farthest_of_all(alloc, sides, spacing, objects.as_slice())
}
