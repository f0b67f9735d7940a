//! What is known of a volume's report while it is read, and the drawing of all of it.
//! A further part of the sheet is told in `layout` and drawn in `dabs`.
ghost use Rattle.std.specs.Prelude.{◌≡◌, ◌∷◌, [], List, IfOk};
ghost use Rattle.report_terms.specs.Lines as Terms;
ghost use Rattle.report_lines.specs.Seen as Lines;
ghost use Rattle.drawing.specs.Sheets.{sheet};
ghost use Rattle.drawing.specs.SheetStanding.{IsSheetOf};

use crate::canvas::Canvas;
use crate::dabs::{draw_line, draw_views};
use crate::layout::{extent, sheet_sides};
use crate::pen::Pen;
use crate::sheet_layers::put_sheet;
use crate::svg::Svg;
use report_lines::{Heading, Seen, Sketch};
use shape_report::Line;
use shape_space::{NoMemory, P3, Sides};
use std::alloc::Global;

/// What is known of a report: the sides of its box, the face and patch that were begun last, the voxels seen on the faces, and
/// what it says of the points of the box.
///
/// It takes what `Seen` does, and four bytes for each place of the sheet.
#[derive(Drop)]
pub struct Sheet {
    pub(crate) sides: Sides<P3>,
    pub(crate) pen: Pen,
    pub(crate) canvas: Canvas,
    pub(crate) seen: Seen<P3>,
}

impl Sheet {
    /// A report of which its heading has come.
    pub fn new(alloc: Global, heading: &Heading<P3>) -> Result<Sheet, NoMemory>
        ensures { IfOk result (IsSheetOf (Lines.solid_line heading.now.line ∷ [])) }
    {
        let sides = heading.sides;
        let canvas = Canvas::new(alloc, sheet_sides(extent(sides)))?;
        let seen = Seen::new(alloc, heading)?;
        Ok(Sheet {
            sides,
            pen: Pen::new(),
            canvas,
            seen,
        })
    }

    /// The drawing.
    pub fn draw(self, alloc: Global) -> Result<Vec<u8>, NoMemory>
        ensures { (lines : List Terms.Line) → IsSheetOf lines self
            → IfOk result (λ svg. svg.items ≡ sheet lines) }
    {
        let mut canvas = self.canvas;
        draw_views(&mut canvas, self.sides, &self.seen);
        let mut svg = Svg::new(alloc);
        put_sheet(alloc, extent(self.sides), &canvas, &mut svg)?;
        Ok(svg.into_text())
    }
}

impl Sketch<P3> for Sheet {
    ghost IsOf = { IsSheetOf };

    fn take(&mut self, line: &Line<P3>) -> Result<(), NoMemory> {
        draw_line(&mut self.canvas, self.sides, self.pen, line);
        self.pen = self.pen.after(line);
        self.seen.take(line)?;
        Ok(())
    }
}
