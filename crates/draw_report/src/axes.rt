//! The axes of the ellipses of objects, with how far they are turned, for the lines of a drawing.
//! What an ellipse is of moments, `moments` knows.
ghost use Rattle.std.specs.Prelude.{◌≡◌, ◌≤◌, IfOk, length, slice_index_or};
ghost use Rattle.measure_terms.specs.Ellipse.{IsEllipse};
ghost use Rattle.measuring.specs.MomentsTold.{moments_told, all_told, ellipse_told};
ghost use Rattle.draw_report.specs.Measured.{no_axes, AreAxesOf, AreAxes};
ghost use Rattle.draw_report.specs.MeasuresTold.{axes_told, all_axes};

use measuring::{Ellipse, Moments, Turn};
use shape_space::NoMemory;
use std::alloc::Global;

/// The axes of an object, and how far they are turned.
#[derive(Clone, Copy)]
pub struct Axes {
    pub(crate) ellipse: Ellipse,
    pub(crate) turn: Turn,
}

// The ellipse of an object, and zeros where it has no point.
fn ellipse_of(m: &Moments) -> Ellipse
    ensures { 1 ≤ m.now.count → IsEllipse (moments_told m.now) (ellipse_told result) }
{
    match m.ellipse() {
        Some(ellipse) => ellipse,
        None => Ellipse {
            major: 0,
            minor: 0,
            double_x: 0,
            double_y: 0,
        },
    }
}

// The axes of an object with these moments.
fn axes_of(m: &Moments) -> Axes
    ensures { AreAxesOf (moments_told m.now) (axes_told result) }
{
    Axes {
        ellipse: ellipse_of(m),
        turn: m.turn(),
    }
}

/// The axes of objects with these moments.
pub(crate) fn all_axes(alloc: Global, all: &[Moments]) -> Result<Vec<Axes>, NoMemory>
    ensures { IfOk result (λ xs. AreAxes (length all.now) (all_told all.now) (all_axes xs.items)) }
{
    let mut found = Vec::new(alloc);
    for i in 0..all.len() {
        found.push(axes_of(&all[i]))?;
    }
    Ok(found)
}

/// The axes of the object with a place, and zeros where there is no such object.
pub(crate) fn axes_at(all: &[Axes], i: usize) -> Axes
    ensures { axes_told result ≡ slice_index_or (all_axes all.now) i no_axes }
{
    if i < all.len() {
        all[i]
    } else {
        Axes {
            ellipse: Ellipse {
                major: 0,
                minor: 0,
                double_x: 0,
                double_y: 0,
            },
            turn: Turn { cosine: 0, sine: 0 },
        }
    }
}
