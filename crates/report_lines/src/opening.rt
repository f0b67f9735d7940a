//! Headings: what the first line of a report tells.
//! Another space is one more variant of `Opening`.
ghost use Rattle.std.specs.Prelude.{◌≡◌, ◌∷◌, []};
ghost use Rattle.shape_terms.specs.Points.{sides_of};
ghost use Rattle.shape_report.specs.LineOf.{line_of};
ghost use Rattle.report_lines.specs.Said.{given_sides};

use shape_report::Line;
use shape_space::{P2, P3, Point, Sides};
use std::alloc::AllocError;

/// The heading of a report whose picture stands in a box.
pub struct Heading<P: Point> {
    /// The line, which gives the sides.
    pub line: Line<P>,
    /// The sides of the picture.
    pub sides: Sides<P>,
    pub ghost given: { given_sides (line_of P.coords line ∷ [])
        ≡ sides_of (P.coords sides.lengths) },
}

impl<P: Point> Clone for Heading<P> {
    ghost use Rattle.std.specs.Prelude.{⊤};

    ghost is_clone = { λ old new. new ≡ old };

    ghost is_infallible = { λ _. ⊤ };

    fn clone(&self) -> Result<Heading<P>, AllocError> {
        Ok(*self)
    }
}

impl<P: Point> Copy for Heading<P> {}

/// What a report is about, as its first line tells.
pub enum Opening {
    /// A flat picture.
    Flat(Heading<P2>),
    /// A volume.
    Solid(Heading<P3>),
    /// A volume with a side below 1 or above most_solid.
    NoBox,
}
