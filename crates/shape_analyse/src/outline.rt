//! What stands between the nearest points and the thinning in a report: the contours of a flat picture, the faces of a volume.
//! A further dimension is one more `impl` of `Outlined`.
ghost use Rattle.std.specs.Prelude.{◌≡◌, IfOk};
ghost use Rattle.shape_analyse.specs.Finding.{IsOutlineOf};
ghost use Rattle.shape_analyse.specs.Tallies.{IsExtentOf};

use crate::contour::add_contours;
use crate::faces::add_faces;
use crate::tally::Extent;
use report_text::Report;
use shape_crack::contours;
use shape_grid::Grid;
use shape_space::{NoMemory, P2, P3};
use shape_topo::SimpleMask;
use std::alloc::Global;

/// The outline of a picture: the text of its lines, since the evidence in them has no form that is smaller, and how much
/// of it there is.
#[derive(Drop)]
pub(crate) struct Outline {
    pub(crate) lines: Report,
    pub(crate) extent: Extent,
}

/// Points of pictures whose outline a report tells in a way of its own.
pub(crate) trait Outlined: SimpleMask {
    /// The outline of a picture.
    fn outline(alloc: Global, grid: &Grid<Self>) -> Result<Outline, NoMemory>
        ensures extent { IfOk result (λ o. IsExtentOf grid.now o.extent) }
        ensures text { IfOk result (λ o. IsOutlineOf Self.DIM grid.now o.lines) };
}

impl Outlined for P2 {
    fn outline(alloc: Global, grid: &Grid<P2>) -> Result<Outline, NoMemory> {
        grid.is_picture();
        let contours = contours(alloc, grid)?;
        let mut lines = Report::new(alloc);
        let segments = add_contours(alloc, &contours, &mut lines)?;
        let extent = Extent::Contours {
            contours: contours.len(),
            segments,
        };
        Ok(Outline { lines, extent })
    }
}

impl Outlined for P3 {
    fn outline(alloc: Global, grid: &Grid<P3>) -> Result<Outline, NoMemory> {
        grid.is_picture();
        let mut lines = Report::new(alloc);
        let exposed = add_faces(alloc, grid, &mut lines)?;
        let extent = Extent::Faces { exposed };
        Ok(Outline { lines, extent })
    }
}
