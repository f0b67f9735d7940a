//! The exposed points of a face of a volume, as a grid of their own.
//! Faces go by their numbers: x -, x +, y -, y +, z -, z +, from 0 on, as the side neighbours of a point do.
ghost use Rattle.std.specs.Prelude.{◌≡◌, ◌<◌};
ghost use Rattle.shape_terms.specs.Pictures.{object_points};
ghost use Rattle.shape_refute.specs.Senses.{sense_of};
ghost use Rattle.report_terms.specs.FaceFacts.{face_axis, face_sense};
ghost use Rattle.judge_outline.specs.Exposure.{exposed_at};

use shape_adj::expose;
use shape_grid::Grid;
use shape_refute::Sense;
use shape_space::P3;

/// There are so many faces.
pub(crate) const FACES: u32 = 6;

/// The axis of a face.
pub(crate) fn axis_of(face: u32) -> u8
    requires { face < 6 }
    ensures value { result ≡ face_axis face }
    ensures below { result < 3 }
{
    (face / 2) as u8
}

/// The sense of a face.
pub(crate) fn sense_in(face: u32) -> Sense
    ensures { sense_of result ≡ face_sense face }
{
    if face % 2 == 0 {
        Sense::Minus
    } else {
        Sense::Plus
    }
}

/// Makes the exposed points of a face the object points of a grid, in place of those that it had.
pub(crate) fn expose_all(grid: &Grid<P3>, face: u32, exposed: &mut Grid<P3>)
    requires face { face < 6 }
    requires box_ { exposed.old.sides ≡ grid.now.sides }
    ensures box_ { exposed.new.sides ≡ grid.now.sides }
    ensures points { object_points exposed.new ≡ exposed_at grid.now face }
{
    expose(grid, axis_of(face) as usize, face % 2 == 1, exposed);
}
