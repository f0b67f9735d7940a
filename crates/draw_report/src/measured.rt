//! What is measured of the objects of a picture for the lines of a drawing, each kind by its own crate.
//! A further kind is one more field, here and in `specs/Measured.antt`.
ghost use Rattle.std.specs.Prelude.{◌≡◌, IfOk, length, slice_index_or};
ghost use Rattle.shape_terms.specs.Points.{sides_of, box_count};
ghost use Rattle.measuring.specs.MomentsTold.{moments_told, all_told};
ghost use Rattle.measuring.specs.FeretsTold.{feret_told, ferets_told};
ghost use Rattle.measuring.specs.Sizes.{hull_told, hulls_told};
ghost use Rattle.drawing.specs.Seen.{flat};
ghost use Rattle.draw_report.specs.Measured.{no_moments, no_feret, no_hull, AreMeasured};
ghost use Rattle.draw_report.specs.MeasuresTold.{measured_told};

use crate::axes::{Axes, all_axes};
use measuring::{Feret, HullSize, Moments, Site, Spacing, ferets, hulls, second_moments};
use shape_adj::Labels;
use shape_space::{NoMemory, P2, Sides};
use std::alloc::Global;

/// Of each kind a list, with an entry for each object.
#[derive(Drop)]
pub struct Measured {
    pub(crate) moments: Vec<Moments>,
    pub(crate) axes: Vec<Axes>,
    pub(crate) ferets: Vec<Feret>,
    pub(crate) hulls: Vec<HullSize>,
}

/// The measures of the objects 1 to `count`, where an object has the points with its label.
pub(crate) fn measure_labels(
    alloc: Global,
    sides: Sides<P2>,
    labels: &Labels,
    count: u32,
) -> Result<Measured, NoMemory>
    requires { length labels.now ≡ box_count (sides_of (flat sides.lengths)) }
    ensures { IfOk result (λ m. AreMeasured (sides_of (flat sides.lengths)) labels.now count
        (measured_told m)) }
{
    let moments = second_moments(alloc, sides, labels, count)?;
    let axes = all_axes(alloc, moments.as_slice())?;
    let ferets = ferets(alloc, sides, Spacing::unit(), labels, count)?;
    let hulls = hulls(alloc, sides, labels, count)?;
    Ok(Measured {
        moments,
        axes,
        ferets,
        hulls,
    })
}

/// The moments of the object with a place, and zeros where there is no such object.
pub(crate) fn moments_at(all: &[Moments], i: usize) -> Moments
    ensures { moments_told result ≡ slice_index_or (all_told all.now) i no_moments }
{
    if i < all.len() {
        all[i]
    } else {
        Moments::none()
    }
}

/// Its Feret diameter.
pub(crate) fn feret_at(all: &[Feret], i: usize) -> Feret
    ensures { feret_told 2 result ≡ slice_index_or (ferets_told 2 all.now) i no_feret }
{
    if i < all.len() {
        all[i]
    } else {
        let origin = Site {
            number: 0,
            x: 0,
            y: 0,
            z: 0,
        };
        Feret {
            square: 0,
            from: origin,
            to: origin,
        }
    }
}

/// The size of its hull.
pub(crate) fn hull_at(all: &[HullSize], i: usize) -> HullSize
    ensures { hull_told result ≡ slice_index_or (hulls_told all.now) i no_hull }
{
    if i < all.len() {
        all[i]
    } else {
        HullSize {
            double_area: 0,
            perimeter: 0,
            across: 0,
            length: 0,
            min_feret: 0,
            dx: 0,
            dy: 0,
        }
    }
}
