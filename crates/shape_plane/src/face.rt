//! The exposed points of a face: object points whose neighbour one step on is background.
//! How they fall into patches belongs elsewhere.
ghost use Rattle.std.specs.Prelude.{◌≡◌, ◌<◌, IfOk};
ghost use Rattle.shape_adj.specs.FacePoints.{sense_up};
ghost use Rattle.shape_plane.specs.Faces.{IsFace};
ghost use Rattle.shape_refute.specs.Senses.{sense_of};

use crate::parts::Parting;
use shape_adj::{Pairing, expose};
use shape_grid::Grid;
use shape_refute::Sense;
use shape_space::{NoMemory, Point};
use std::alloc::Global;

// Whether the face is seen towards greater coordinates.
fn is_up(sense: Sense) -> bool
    ensures { sense_up result ≡ sense_of sense }
{
    match sense {
        Sense::Minus => false,
        Sense::Plus => true,
    }
}

// The exposed points.
fn exposed<P: Point>(
    alloc: Global,
    grid: &Grid<P>,
    axis: usize,
    sense: Sense,
) -> Result<Grid<P>, NoMemory>
    requires axis { axis < P.DIM }
    ensures { IfOk result (λ g. IsFace grid.now axis (sense_of sense) g) }
{
    let mut left = Grid::new(alloc, grid.sides())?;
    expose(grid, axis, is_up(sense), &mut left);
    Ok(left)
}

/// The exposed points of a face, of which patches are taken one after another, until no point is left.
///
/// Each patch begins with the first exposed point in raster order that no earlier patch has, and takes, one after the other, each
/// exposed point near one of its points that a naive plane of the axis holds with all of them. What is taken so far and what is left
/// stays parted (`IsParted`), by `parted_none` and `parted_more`; and once no point is left, all patches that were taken are the
/// partition of the exposed points, each with its plane of the axis and the points that it refused (`ArePatches`), by `parted_all`.
pub fn patches<P: Pairing>(
    alloc: Global,
    grid: &Grid<P>,
    axis: usize,
    sense: Sense,
) -> Result<Parting<P>, NoMemory>
    requires axis { axis < P.DIM }
    ensures axis { IfOk result (λ x. x.axis ≡ axis) }
    ensures left { IfOk result (λ x. IsFace grid.now axis (sense_of sense) x.left) }
{
    let left = exposed(alloc, grid, axis, sense)?;
    Parting::new(alloc, axis, left)
}
