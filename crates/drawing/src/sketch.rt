//! What is known of a flat picture's report while it is read, and the drawing of all of it.
//! A further layer is a field here, which takes each line and is drawn behind the others.
ghost use Rattle.std.specs.Prelude.{◌≡◌, ◌∷◌, ◌++◌, [], List, IfOk, OnOk};
ghost use Rattle.report_terms.specs.Lines as Terms;
ghost use Rattle.report_lines.specs.Seen as Lines;
ghost use Rattle.drawing.specs.Svg.{report_layers, drawing};
ghost use Rattle.drawing.specs.Standing.{IsSketchOf};

use crate::layers::put_layers;
use crate::outlines::Outlines;
use crate::pixels::{Pixel, take_pixel};
use crate::skeleton::{points_left, take_deleted};
use crate::svg::Svg;
use report_lines::{Heading, Sketch};
use shape_grid::Grid;
use shape_report::Line;
use shape_space::{NoMemory, P2, Sides};
use std::alloc::Global;

/// What is known of a report: its sides, its object, its contours, and the points that it deletes.
#[derive(Drop)]
pub struct FlatSketch {
    pub(crate) sides: Sides<P2>,
    pub(crate) pixels: Vec<Pixel>,
    pub(crate) outlines: Outlines,
    pub(crate) deleted: Grid<P2>,
}

impl FlatSketch {
    /// A report of which its heading has come.
    pub fn new(alloc: Global, heading: &Heading<P2>) -> Result<FlatSketch, NoMemory>
        ensures { IfOk result (IsSketchOf (Lines.flat_line heading.now.line ∷ [])) }
    {
        let deleted = Grid::new(alloc, heading.sides)?;
        Ok(FlatSketch {
            sides: heading.sides,
            pixels: Vec::new(alloc),
            outlines: Outlines::new(alloc),
            deleted,
        })
    }

    /// Puts the layers, and nothing behind them: the text of a drawing is still open.
    pub fn put_layers(self, alloc: Global, svg: &mut Svg) -> Result<(), NoMemory>
        ensures { (lines : List Terms.Line) → IsSketchOf lines self
            → OnOk result (svg.new ≡ svg.old ++ report_layers lines) }
    {
        let strokes = self.outlines.into_strokes(self.sides)?;
        let left = points_left(alloc, &self.pixels, &self.deleted)?;
        put_layers(alloc, self.sides, &self.pixels, &strokes, &left, svg)?;
        Ok(())
    }

    /// The drawing.
    pub fn draw(self, alloc: Global) -> Result<Vec<u8>, NoMemory>
        ensures { (lines : List Terms.Line) → IsSketchOf lines self
            → IfOk result (λ svg. svg.items ≡ drawing lines) }
    {
        let mut svg = Svg::new(alloc);
        self.put_layers(alloc, &mut svg)?;
        svg.put(b"</svg>\n")?;
        Ok(svg.into_text())
    }
}

impl Sketch<P2> for FlatSketch {
    ghost IsOf = { IsSketchOf };

    fn take(&mut self, line: &Line<P2>) -> Result<(), NoMemory> {
        take_pixel(&mut self.pixels, self.sides, line)?;
        self.outlines.take(self.sides, line)?;
        take_deleted(&mut self.deleted, line);
        Ok(())
    }
}
