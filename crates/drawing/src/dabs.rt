//! The dabs of ink for what a report says: of each line as it comes, and of each voxel at the end.
//! What is drawn where is told in `specs/Dabs.antt`.
ghost use Rattle.std.specs.Prelude.{◌≡◌, ◌∷◌, []};
ghost use Rattle.shape_terms.specs.Points.{sides_of};
ghost use Rattle.shape_report.specs.LineOf.{line_of};
ghost use Rattle.drawing.specs.Seen.{flat};
ghost use Rattle.drawing.specs.SolidSeen.{solid};
ghost use Rattle.drawing.specs.Layout.{IsBox, IsIn};
ghost use Rattle.drawing.specs.Canvas.{laid_all};
ghost use Rattle.drawing.specs.Dabs.{face_dab, point_dabs, line_dabs, view_cell, through, voxel_dabs, view_dabs};

use crate::canvas::Canvas;
use crate::cell::Cell;
use crate::layout::{Panel, Triple, depth, extent, place, quarter, voxel_in};
use crate::pen::Pen;
use report_lines::Seen;
use shape_report::Line;
use shape_space::{P3, Sides};

// The cell of a voxel on a face.
fn face_cell(s: Triple, panel: Panel, colour: u8, v: Triple) -> Cell
    requires small { IsBox s }
    requires inside { IsIn s v }
    ensures { result ≡ (face_dab s panel colour v).cell }
{
    Cell {
        depth: depth(s, panel, v) as u16,
        colour,
        shade: quarter(s, panel, v),
    }
}

// Draws a point of the face and patch that were begun last.
fn draw_point(canvas: &mut Canvas, sides: Sides<P3>, pen: Pen, p: P3)
    ensures { canvas.new
        ≡ laid_all canvas.old (point_dabs (sides_of (solid sides.lengths)) pen (solid p)) }
{
    let s = extent(sides);
    let Some(v) = voxel_in(sides, p) else {
        return;
    };
    let Some(panel) = pen.panel else {
        return;
    };
    let Some(colour) = pen.colour else {
        return;
    };
    canvas.lay(place(s, panel, v), face_cell(s, panel, colour, v));
}

/// Draws what a line gives.
pub(crate) fn draw_line(canvas: &mut Canvas, sides: Sides<P3>, pen: Pen, line: &Line<P3>)
    ensures { canvas.new ≡ laid_all canvas.old
        (line_dabs (sides_of (solid sides.lengths)) pen (line_of solid line.now)) }
{
    match line {
        Line::On { p } => draw_point(canvas, sides, pen, *p),
        _ => {}
    }
}

// What the views show of a point.
fn view_cell(seen: &Seen<P3>, p: P3) -> Option<Cell>
    ensures { result ≡ view_cell seen.now (solid p) }
{
    if seen.left().has(p) {
        return Some(Cell {
            depth: 0,
            colour: 7,
            shade: 0,
        });
    }
    if seen.object().has(p) {
        return Some(Cell {
            depth: 1,
            colour: 6,
            shade: 0,
        });
    }
    None
}

// Draws a voxel in the three views.
fn draw_through(canvas: &mut Canvas, s: Triple, v: Triple, cell: Cell)
    requires small { IsBox s }
    requires inside { IsIn s v }
    ensures { canvas.new ≡ laid_all canvas.old (through s v cell) }
{
    canvas.lay(place(s, Panel::AlongX, v), cell);
    canvas.lay(place(s, Panel::AlongY, v), cell);
    canvas.lay(place(s, Panel::AlongZ, v), cell);
}

// Draws what the views show of a point.
fn draw_voxel(canvas: &mut Canvas, sides: Sides<P3>, seen: &Seen<P3>, p: P3)
    ensures { canvas.new ≡ laid_all canvas.old
        (voxel_dabs (sides_of (solid sides.lengths)) seen.now (solid p)) }
{
    let Some(cell) = view_cell(seen, p) else {
        return;
    };
    let Some(v) = voxel_in(sides, p) else {
        return;
    };
    draw_through(canvas, extent(sides), v, cell);
}

/// Draws the three views.
pub(crate) fn draw_views(canvas: &mut Canvas, sides: Sides<P3>, seen: &Seen<P3>)
    ensures { canvas.new
        ≡ laid_all canvas.old (view_dabs (sides_of (solid sides.lengths)) seen.now) }
{
    for i in 0..sides.count() {
        draw_voxel(canvas, sides, seen, sides.unraster(i));
    }
}
