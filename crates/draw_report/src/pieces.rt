//! Straight pieces of contours as strokes, over the contours that an analysis gives.
//! A stroke with an end outside the box is not drawn.
ghost use Rattle.std.specs.Prelude.{◌≡◌, ◌++◌, filter, IfOk, OnOk};
ghost use Rattle.shape_terms.specs.Points.{sides_of};
ghost use Rattle.drawing.specs.Seen.{flat, stroke, all_strokes};
ghost use Rattle.drawing.specs.Outlines.{is_inside};
ghost use Rattle.drawing.specs.Svg.{contour_layer};
ghost use Rattle.draw_report.specs.Borders.{borders, strokes_over};
ghost use Rattle.draw_report.specs.Seen.{all_marks, all_paths};

use crate::borders::strokes_over;
use crate::part::Mark;
use drawing::{Stroke, Svg, put_contours};
use shape_space::{NoMemory, P2, Sides};
use std::alloc::Global;

// Whether both ends of a stroke are in the box.
fn is_inside(sides: Sides<P2>, s: Stroke) -> bool
    ensures { result ≡ is_inside (sides_of (flat sides.lengths)) (stroke s) }
{
    sides.inside(s.from) && sides.inside(s.to)
}

// The strokes with both ends in the box.
fn inside(alloc: Global, sides: Sides<P2>, strokes: &[Stroke]) -> Result<Vec<Stroke>, NoMemory>
    ensures { IfOk result (λ ss. all_strokes ss.items
        ≡ filter (is_inside (sides_of (flat sides.lengths))) (all_strokes strokes.now)) }
{
    let mut found = Vec::new(alloc);
    for s in strokes {
        if is_inside(sides, *s) {
            found.push(*s)?;
        }
    }
    Ok(found)
}

/// Puts the pieces among marks over these contours.
pub(crate) fn put_pieces(
    alloc: Global,
    sides: Sides<P2>,
    contours: &[Vec<P2>],
    marks: &[Mark],
    svg: &mut Svg,
) -> Result<(), NoMemory>
    ensures { OnOk result (svg.new ≡ svg.old
        ++ contour_layer (filter (is_inside (sides_of (flat sides.lengths)))
        (strokes_over (all_paths contours.now) (borders (all_marks marks.now))))) }
{
    let strokes = strokes_over(alloc, contours, marks)?;
    let inside = inside(alloc, sides, &strokes)?;
    put_contours(&inside, svg)
}
