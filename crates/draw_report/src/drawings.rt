//! What is made of a report: its drawing, without the numbers of the objects or with them, or that of its contours alone.
//! What the layers are is known to `drawing`; which objects there are, to `measuring`.
ghost use Rattle.std.specs.Prelude.{◌≡◌, List, ◌++◌, codes, map, IfOk, OnOk};
ghost use Rattle.shape_terms.specs.Points.{sides_of};
ghost use Rattle.report_terms.specs.Lines.{Line};
ghost use Rattle.report_lines.specs.Said.{said};
ghost use Rattle.drawing.specs.Seen.{flat};
ghost use Rattle.drawing.specs.Standing.{IsSketchOf};
ghost use Rattle.drawing.specs.Svg.{report_layers};
ghost use Rattle.measuring.specs.Told.{measures_told};
ghost use Rattle.measuring.specs.TellsTable.{TellsTable};
ghost use Rattle.draw_report.specs.Numbers.{deepest_point, number_layer};
ghost use Rattle.draw_report.specs.Kept.{IsNumberedOf};
ghost use Rattle.draw_report.specs.Drawings.{IsNumberedText};

use crate::numbered::Numbered;
use crate::numbers::put_numbers;
use drawing::{ContourSketch, FlatSketch, Sheet, Svg};
use measuring::{Measures, Table, measure};
use report_lines::{Heading, Making, Seen};
use shape_space::{NoMemory, P2, P3, Sides};
use std::alloc::Global;

/// Makes the drawing of a report.
#[derive(Clone, Copy, Debug, PartialEq, Eq)]
pub struct Drawings;

impl Making for Drawings {
    ghost use Rattle.draw_report.specs.Drawings.{IsDrawing};

    type Flat = FlatSketch;

    type Solid = Sheet;

    ghost makes = { λ _. IsDrawing };

    fn begin_flat(&self, alloc: Global, heading: &Heading<P2>) -> Result<FlatSketch, NoMemory> {
        FlatSketch::new(alloc, heading)
    }

    fn make_flat(&self, alloc: Global, kept: FlatSketch) -> Result<Vec<u8>, NoMemory> {
        kept.draw(alloc)
    }

    fn begin_solid(&self, alloc: Global, heading: &Heading<P3>) -> Result<Sheet, NoMemory> {
        Sheet::new(alloc, heading)
    }

    fn make_solid(&self, alloc: Global, kept: Sheet) -> Result<Vec<u8>, NoMemory> {
        kept.draw(alloc)
    }
}

/// The table of the objects that lines tell.
pub(crate) fn table_of(alloc: Global, seen: &Seen<P2>) -> Result<Table, NoMemory>
    ensures { IfOk result (TellsTable seen.now.object seen.now.squares seen.now.left) }
{
    seen.is_of_box();
    let table = measure(alloc, seen.object(), seen.squares(), seen.left())?;
    Ok(table)
}

// Puts the layers, the numbers of the objects on top, and the end of the drawing.
fn put_numbered(
    alloc: Global,
    sketch: FlatSketch,
    sides: Sides<P2>,
    objects: &[Measures],
    svg: &mut Svg,
) -> Result<(), NoMemory>
    ensures { (lines : List Line) → IsSketchOf lines sketch
        → OnOk result (svg.new ≡ svg.old ++ (report_layers lines
        ++ (number_layer (sides_of (flat sides.lengths))
        (map deepest_point (map (measures_told (sides_of (flat sides.lengths))) objects.now))
        ++ codes "</svg>\n"))) }
{
    sketch.put_layers(alloc, svg)?;
    put_numbers(sides, objects, svg)?;
    svg.put(b"</svg>\n")?;
    Ok(())
}

// The drawing of these layers with the numbers of the objects that lines tell.
fn numbered_text(alloc: Global, sketch: FlatSketch, seen: &Seen<P2>) -> Result<Vec<u8>, NoMemory>
    ensures { (lines : List Line) → IsSketchOf lines sketch → seen.now ≡ said lines
        → IfOk result (λ svg. IsNumberedText lines svg.items) }
{
    let table = table_of(alloc, seen)?;
    let mut svg = Svg::new(alloc);
    put_numbered(alloc, sketch, seen.sides(), table.rows.as_slice(), &mut svg)?;
    Ok(svg.into_text())
}

// The drawing of a flat picture with the numbers of its objects.
fn numbered(alloc: Global, kept: Numbered) -> Result<Vec<u8>, NoMemory>
    ensures { (lines : List Line) → IsNumberedOf lines kept
        → IfOk result (λ svg. IsNumberedText lines svg.items) }
{
    let Numbered { sketch, seen } = kept;
    numbered_text(alloc, sketch, &seen)
}

/// Makes the drawing of a report with the number of each object at its deepest point, where it is that of a flat picture.
#[derive(Clone, Copy, Debug, PartialEq, Eq)]
pub struct NumberedDrawings;

impl Making for NumberedDrawings {
    ghost use Rattle.draw_report.specs.Drawings.{IsNumberedDrawing};

    type Flat = Numbered;

    type Solid = Sheet;

    ghost makes = { λ _. IsNumberedDrawing };

    fn begin_flat(&self, alloc: Global, heading: &Heading<P2>) -> Result<Numbered, NoMemory> {
        Numbered::new(alloc, heading)
    }

    fn make_flat(&self, alloc: Global, kept: Numbered) -> Result<Vec<u8>, NoMemory> {
        numbered(alloc, kept)
    }

    fn begin_solid(&self, alloc: Global, heading: &Heading<P3>) -> Result<Sheet, NoMemory> {
        Sheet::new(alloc, heading)
    }

    fn make_solid(&self, alloc: Global, kept: Sheet) -> Result<Vec<u8>, NoMemory> {
        kept.draw(alloc)
    }
}

/// Makes the drawing of the contours of a report alone, where it is that of a flat picture.
#[derive(Clone, Copy, Debug, PartialEq, Eq)]
pub struct ContourDrawings;

impl Making for ContourDrawings {
    ghost use Rattle.draw_report.specs.Drawings.{IsContourDrawing};

    type Flat = ContourSketch;

    type Solid = Sheet;

    ghost makes = { λ _. IsContourDrawing };

    fn begin_flat(&self, alloc: Global, heading: &Heading<P2>) -> Result<ContourSketch, NoMemory> {
        Ok(ContourSketch::new(alloc, heading))
    }

    fn make_flat(&self, alloc: Global, kept: ContourSketch) -> Result<Vec<u8>, NoMemory> {
        kept.draw(alloc)
    }

    fn begin_solid(&self, alloc: Global, heading: &Heading<P3>) -> Result<Sheet, NoMemory> {
        Sheet::new(alloc, heading)
    }

    fn make_solid(&self, alloc: Global, kept: Sheet) -> Result<Vec<u8>, NoMemory> {
        kept.draw(alloc)
    }
}
