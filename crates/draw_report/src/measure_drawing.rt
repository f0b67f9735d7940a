//! What is made of a flat picture's report with the word `measures`: its drawing, with the lines of the measures of its objects.
//! Of a volume nothing is drawn.
ghost use Rattle.std.specs.Prelude.{◌≡◌, List, ◌++◌, codes, length, IfOk, OnOk};
ghost use Rattle.shape_terms.specs.Points.{sides_of, box_count};
ghost use Rattle.report_terms.specs.Lines.{Line};
ghost use Rattle.report_lines.specs.Said.{said};
ghost use Rattle.drawing.specs.Seen.{flat};
ghost use Rattle.drawing.specs.Standing.{IsSketchOf};
ghost use Rattle.drawing.specs.Svg.{report_layers};
ghost use Rattle.measuring.specs.TellsTable.{TellsTable};
ghost use Rattle.draw_report.specs.MeasureLines.{measure_layer};
ghost use Rattle.draw_report.specs.Measured.{shown_at, AreMeasured};
ghost use Rattle.draw_report.specs.MeasuresTold.{measured_told};
ghost use Rattle.draw_report.specs.MeasureDrawings.{IsMeasuredText};
ghost use Rattle.draw_report.specs.Kept.{IsNumberedOf};

use crate::drawings::table_of;
use crate::measure_layer::put_measures;
use crate::measured::{Measured, measure_labels};
use crate::numbered::Numbered;
use drawing::{FlatSketch, Svg};
use measuring::Table;
use report_lines::{Heading, Making, Seen, Sketch};
use shape_report::Line as ReportLine;
use shape_space::{NoMemory, P2, P3, Sides};
use std::alloc::Global;

/// What is kept of a volume's report, of which nothing is drawn: nothing.
#[derive(Drop)]
pub struct Nothing;

impl Sketch<P3> for Nothing {
    ghost use Rattle.draw_report.specs.MeasureDrawings.{IsNothingOf};

    ghost IsOf = { IsNothingOf };

    fn take(&mut self, _line: &ReportLine<P3>) -> Result<(), NoMemory> {
        Ok(())
    }
}

// The measures of the objects in a table.
fn measured_of(alloc: Global, seen: &Seen<P2>, table: &Table) -> Result<Measured, NoMemory>
    requires { TellsTable seen.now.object seen.now.squares seen.now.left table.now }
    ensures { IfOk result (λ m. AreMeasured seen.now.object.sides table.now.labels
        table.now.count (measured_told m)) }
{
    measure_labels(alloc, seen.sides(), &table.labels, table.count)
}

// Puts the layers, the lines of the measures on top, and the end of the drawing.
fn put_measured(
    alloc: Global,
    sketch: FlatSketch,
    sides: Sides<P2>,
    measured: &Measured,
    count: u32,
    svg: &mut Svg,
) -> Result<(), NoMemory>
    ensures { (lines : List Line) → IsSketchOf lines sketch
        → OnOk result (svg.new ≡ svg.old ++ (report_layers lines
        ++ (measure_layer (sides_of (flat sides.lengths))
        (shown_at (measured_told measured.now)) count ++ codes "</svg>\n"))) }
{
    sketch.put_layers(alloc, svg)?;
    put_measures(sides, measured, count, svg)?;
    svg.put(b"</svg>\n")?;
    Ok(())
}

// The drawing of these layers with the measures of the objects that lines tell.
fn measured_text(alloc: Global, sketch: FlatSketch, seen: &Seen<P2>) -> Result<Vec<u8>, NoMemory>
    ensures { (lines : List Line) → IsSketchOf lines sketch → seen.now ≡ said lines
        → IfOk result (λ svg. IsMeasuredText lines svg.items) }
{
    let table = table_of(alloc, seen)?;
    let measured = measured_of(alloc, seen, &table)?;
    let mut svg = Svg::new(alloc);
    put_measured(
        alloc,
        sketch,
        seen.sides(),
        &measured,
        table.count,
        &mut svg,
    )?;
    Ok(svg.into_text())
}

// The drawing of a flat picture with the measures of its objects.
fn drawing_of(alloc: Global, kept: Numbered) -> Result<Vec<u8>, NoMemory>
    ensures { (lines : List Line) → IsNumberedOf lines kept
        → IfOk result (λ svg. IsMeasuredText lines svg.items) }
{
    let Numbered { sketch, seen } = kept;
    measured_text(alloc, sketch, &seen)
}

/// Makes the drawing of a flat picture's report with the measures of each object as lines.
#[derive(Clone, Copy, Debug, PartialEq, Eq)]
pub struct MeasureDrawings;

impl Making for MeasureDrawings {
    ghost use Rattle.draw_report.specs.MeasureDrawings.{IsMeasuredDrawing};

    type Flat = Numbered;

    type Solid = Nothing;

    ghost makes = { λ _. IsMeasuredDrawing };

    fn begin_flat(&self, alloc: Global, heading: &Heading<P2>) -> Result<Numbered, NoMemory> {
        Numbered::new(alloc, heading)
    }

    fn make_flat(&self, alloc: Global, kept: Numbered) -> Result<Vec<u8>, NoMemory> {
        drawing_of(alloc, kept)
    }

    fn begin_solid(&self, _alloc: Global, _heading: &Heading<P3>) -> Result<Nothing, NoMemory> {
        Ok(Nothing)
    }

    fn make_solid(&self, alloc: Global, _kept: Nothing) -> Result<Vec<u8>, NoMemory> {
        Ok(Vec::new(alloc))
    }
}
