//! The whole drawing: the front, the object, and the marks on it.
//! A further kind is one more arm of `put_marks`.
ghost use Rattle.std.specs.Prelude.{◌≡◌, List, IfOk, OnOk};
ghost use Rattle.report_terms.specs.Lines as Terms;
ghost use Rattle.draw_report.specs.Layers.{MarksPut, IsOverlay};
ghost use Rattle.draw_report.specs.Seen.{all_marks};
ghost use Rattle.draw_report.specs.Standing.{IsAnalysisOf};

use crate::analysis::Analysis;
use crate::balls::put_balls;
use crate::edges::put_edges;
use crate::further::Further;
use crate::kind::Kind;
use crate::pieces::put_pieces;
use drawing::{Svg, put_head, put_object};
use shape_space::NoMemory;
use std::alloc::Global;

// Puts the marks of a further report over an analysis.
fn put_marks(
    alloc: Global,
    analysis: &Analysis,
    further: &Further,
    svg: &mut Svg,
) -> Result<(), NoMemory>
    ensures { (lines : List Terms.Line) → IsAnalysisOf lines analysis.now
        → OnOk result (MarksPut further.now.kind lines (all_marks further.now.marks.items)
        svg.old svg.new) }
{
    match further.kind {
        Kind::Balls => put_balls(alloc, analysis.sides, &further.marks, svg),
        Kind::Pieces => put_pieces(
            alloc,
            analysis.sides,
            &analysis.contours,
            &further.marks,
            svg,
        ),
        Kind::Edges => put_edges(alloc, analysis.seen.object(), &further.marks, svg),
    }
}

/// The drawing of a further report over the object of an analysis.
pub(crate) fn draw(
    alloc: Global,
    analysis: &Analysis,
    further: &Further,
) -> Result<Vec<u8>, NoMemory>
    ensures { (lines : List Terms.Line) → IsAnalysisOf lines analysis.now
        → IfOk result (λ svg. IsOverlay further.now.kind lines
        (all_marks further.now.marks.items) svg.items) }
{
    let mut svg = Svg::new(alloc);
    put_head(analysis.sides, &mut svg)?;
    put_object(alloc, &analysis.pixels, &mut svg)?;
    put_marks(alloc, analysis, further, &mut svg)?;
    svg.put(b"</svg>\n")?;
    Ok(svg.into_text())
}
