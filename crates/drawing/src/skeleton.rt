//! The points that a report deletes, and those that are left.
//! They are kept as a picture, so that it is quick to see whether a point was deleted.
ghost use Rattle.std.specs.Prelude.{◌≡◌, ◌++◌, ◌∷◌, [], ℕ, List, not, map, filter, IfOk};
ghost use Rattle.shape_terms.specs.Pictures.{at};
ghost use Rattle.report_terms.specs.Lines as Terms;
ghost use Rattle.report_lines.specs.Seen.{flat_line};
ghost use Rattle.drawing.specs.Seen.{flat};
ghost use Rattle.drawing.specs.Standing.{HasDeleted};

use crate::pixels::Pixel;
use shape_grid::Grid;
use shape_report::Line;
use shape_space::{NoMemory, P2};
use std::alloc::Global;

/// Takes of a line the point that it deletes.
pub(crate) fn take_deleted(deleted: &mut Grid<P2>, line: &Line<P2>)
    ensures { (sides : List ℕ) (lines : List Terms.Line) → HasDeleted sides lines deleted.old
        → HasDeleted sides (lines ++ flat_line line.now ∷ []) deleted.new }
{
    if let Line::Del { p } = line {
        if deleted.sides().inside(*p) {
            deleted.set(*p);
        }
    }
}

/// The points of the pixels that are not deleted.
pub(crate) fn points_left(
    alloc: Global,
    found: &[Pixel],
    deleted: &Grid<P2>,
) -> Result<Vec<P2>, NoMemory>
    ensures { IfOk result (λ ps. ps.items
        ≡ filter (λ p. not (at deleted.now (flat p))) (map (λ x. x.point) found.now)) }
{
    let points = found
        .iter()
        .map(|pixel| pixel.point)
        .filter(|point| !deleted.has(*point))
        .collect(alloc)?;
    Ok(points)
}
