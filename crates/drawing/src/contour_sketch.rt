//! What is known of the contours of a flat picture's report while it is read, and the drawing of them alone.
//! Of the object and of the skeleton nothing is kept, so that the contours of a large picture are drawn in little room.
ghost use Rattle.std.specs.Prelude.{◌≡◌, ◌∷◌, [], List, IfOk};
ghost use Rattle.report_terms.specs.Lines as Terms;
ghost use Rattle.report_lines.specs.Seen as Lines;
ghost use Rattle.drawing.specs.Svg.{contour_drawing};
ghost use Rattle.drawing.specs.Standing.{IsContourSketchOf};

use crate::layers::{put_contours, put_head};
use crate::outlines::Outlines;
use crate::svg::Svg;
use report_lines::{Heading, Sketch};
use shape_report::Line;
use shape_space::{NoMemory, P2, Sides};
use std::alloc::Global;

/// What is known of the contours of a report: its sides, and the strokes.
#[derive(Drop)]
pub struct ContourSketch {
    pub(crate) sides: Sides<P2>,
    pub(crate) outlines: Outlines,
}

impl ContourSketch {
    /// A report of which its heading has come.
    pub fn new(alloc: Global, heading: &Heading<P2>) -> ContourSketch
        ensures { IsContourSketchOf (Lines.flat_line heading.now.line ∷ []) result }
    {
        ContourSketch {
            sides: heading.sides,
            outlines: Outlines::new(alloc),
        }
    }

    /// The drawing.
    pub fn draw(self, alloc: Global) -> Result<Vec<u8>, NoMemory>
        ensures { (lines : List Terms.Line) → IsContourSketchOf lines self
            → IfOk result (λ svg. svg.items ≡ contour_drawing lines) }
    {
        let strokes = self.outlines.into_strokes(self.sides)?;
        let mut svg = Svg::new(alloc);
        put_head(self.sides, &mut svg)?;
        put_contours(&strokes, &mut svg)?;
        svg.put(b"</svg>\n")?;
        Ok(svg.into_text())
    }
}

impl Sketch<P2> for ContourSketch {
    ghost IsOf = { IsContourSketchOf };

    fn take(&mut self, line: &Line<P2>) -> Result<(), NoMemory> {
        self.outlines.take(self.sides, line)?;
        Ok(())
    }
}
