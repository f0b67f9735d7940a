//! What is kept of an analysis: its sides, its object with depths, its contours, and what it says of the points of its box.
//! No claim is judged; what is drawn of it is told in `over_layers`.
ghost use Rattle.std.specs.Prelude.{◌≡◌, ◌∷◌, [], IfOk, OnOk};
ghost use Rattle.report_lines.specs.Seen as Lines;
ghost use Rattle.report_lines.specs.Seen.{flat_line};
ghost use Rattle.drawing.specs.Seen.{flat};
ghost use Rattle.draw_report.specs.Contours.{with_point, with_line};
ghost use Rattle.draw_report.specs.Seen.{all_paths};
ghost use Rattle.draw_report.specs.Standing.{IsAnalysisOf};

use drawing::{Pixel, take_pixel};
use report_lines::{Heading, Seen, Sketch};
use shape_report::Line;
use shape_space::{NoMemory, P2, Sides};
use std::alloc::Global;

/// What is kept of the analysis of a flat picture.
#[derive(Drop)]
pub struct Analysis {
    pub(crate) sides: Sides<P2>,
    pub(crate) pixels: Vec<Pixel>,
    pub(crate) contours: Vec<Vec<P2>>,
    pub(crate) seen: Seen<P2>,
    alloc: Global,
}

// Puts a point behind those of the last contour, where there is one.
fn add_point(contours: &mut Vec<Vec<P2>>, p: P2) -> Result<(), NoMemory>
    ensures { OnOk result (all_paths contours.new.items
        ≡ with_point (all_paths contours.old.items) (flat p)) }
{
    let count = contours.len();
    if count > 0 {
        contours[count - 1].push(p)?;
    }
    Ok(())
}

// Takes of a line what it gives of a contour.
fn take_contour(alloc: Global, contours: &mut Vec<Vec<P2>>, line: &Line<P2>) -> Result<(), NoMemory>
    ensures { OnOk result (all_paths contours.new.items
        ≡ with_line (all_paths contours.old.items) (flat_line line.now)) }
{
    match line {
        Line::Contour { .. } => {
            contours.push(Vec::new(alloc))?;
            Ok(())
        }
        Line::At { p } => add_point(contours, *p),
        _ => Ok(()),
    }
}

impl Analysis {
    /// An analysis of which its heading has come.
    pub(crate) fn new(alloc: Global, heading: &Heading<P2>) -> Result<Analysis, NoMemory>
        ensures { IfOk result (IsAnalysisOf (Lines.flat_line heading.now.line ∷ [])) }
    {
        let seen = Seen::new(alloc, heading)?;
        Ok(Analysis {
            sides: heading.sides,
            pixels: Vec::new(alloc),
            contours: Vec::new(alloc),
            seen,
            alloc,
        })
    }
}

impl Sketch<P2> for Analysis {
    ghost IsOf = { IsAnalysisOf };

    fn take(&mut self, line: &Line<P2>) -> Result<(), NoMemory> {
        take_pixel(&mut self.pixels, self.sides, line)?;
        take_contour(self.alloc, &mut self.contours, line)?;
        self.seen.take(line)?;
        Ok(())
    }
}
