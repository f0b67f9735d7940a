//! The borders of a report, kept while its lines come.
//! Points and runs of the contour that was begun last are kept until the next one begins.
ghost use Rattle.std.specs.Prelude.{◌≡◌, ◌++◌, ◌∷◌, [], List, IfOk, OnOk};
ghost use Rattle.std.specs.Option.{option_map};
ghost use Rattle.report_terms.specs.Lines as Terms;
ghost use Rattle.measure_terms.specs.Borders.{borders as borders_of};
ghost use Rattle.bordering.specs.Told.{flat, flat_line, crack_told, run_told, all_borders};
ghost use Rattle.bordering.specs.Kept.{begin_with, closed, with_point, with_segment, HasBorders};

use crate::border::{Border, Start};
use crate::cells::Cell;
use crate::length::contour_length;
use crate::run::Run;
use crate::runs::run_along;
use shape_report::Line;
use shape_space::{NoMemory, P2};
use std::alloc::Global;
use std::marker::Model;

/// The borders of the contours before the last, and what is known of the last.
#[derive(Drop)]
pub struct Contours {
    borders: Vec<Border>,
    begun: Option<Start>,
    points: Vec<P2>,
    runs: Vec<Run>,
    cells: Vec<Cell>,
}

impl Model for Contours {
    ghost use Rattle.std.specs.Option.{option_map};
    ghost use Rattle.bordering.specs.Told.{flats, crack_told, runs_told, all_borders};
    ghost use Rattle.bordering.specs.Kept.{Kept};

    ghost Value = { Kept };

    ghost view = { λ o. record {
      borders = all_borders o.borders.items;
      begun = option_map crack_told o.begun;
      points = flats o.points.items;
      runs = runs_told o.runs.items;
    } };
}

impl Contours {
    /// No contour.
    pub fn new(alloc: Global) -> Contours
        ensures { HasBorders [] result }
    {
        Contours {
            borders: Vec::new(alloc),
            begun: None,
            points: Vec::new(alloc),
            runs: Vec::new(alloc),
            cells: Vec::new(alloc),
        }
    }

    // Puts the border of the contour that was begun last, and forgets its points and runs.
    fn close(&mut self) -> Result<(), NoMemory>
        ensures { OnOk result (self.new ≡ closed self.old) }
    {
        if let Some(start) = self.begun {
            let length = contour_length(&mut self.cells, &self.points, &self.runs)?;
            self.borders.push(Border { start, length })?;
        }
        self.points.clear();
        self.runs.clear();
        Ok(())
    }

    // Begins the next contour.
    fn begin(&mut self, start: Start) -> Result<(), NoMemory>
        ensures { OnOk result (self.new ≡ begin_with (crack_told start) self.old) }
    {
        self.close()?;
        self.begun = Some(start);
        Ok(())
    }

    // Puts a point of the contour that was begun last.
    fn add_point(&mut self, p: P2) -> Result<(), NoMemory>
        ensures { OnOk result (self.new ≡ with_point self.old (flat p)) }
    {
        if self.begun.is_some() {
            self.points.push(p)?;
        }
        Ok(())
    }

    // Puts a run of the contour that was begun last, where there is one.
    fn add_segment(&mut self, r: Option<Run>) -> Result<(), NoMemory>
        ensures { OnOk result (self.new ≡ with_segment self.old (option_map run_told r)) }
    {
        let (Some(_), Some(run)) = (self.begun, r) else {
            return Ok(());
        };
        self.runs.push(run)?;
        Ok(())
    }

    /// Takes of a line what it gives of a contour.
    pub fn take(&mut self, line: &Line<P2>) -> Result<(), NoMemory>
        ensures { (lines : List Terms.Line) → HasBorders lines self.old
            → OnOk result (HasBorders (lines ++ flat_line line.now ∷ []) self.new) }
    {
        match line {
            Line::Contour { p, side, .. } => {
                self.begin(Start {
                    point: *p,
                    side: *side,
                })?;
                Ok(())
            }
            Line::At { p } => {
                self.add_point(*p)?;
                Ok(())
            }
            Line::Seg { first, last, line } => {
                self.add_segment(run_along(*first, *last, line))?;
                Ok(())
            }
            _ => Ok(()),
        }
    }

    /// The borders of all contours.
    pub fn into_borders(mut self) -> Result<Vec<Border>, NoMemory>
        ensures { (lines : List Terms.Line) → HasBorders lines self
            → IfOk result (λ bs. all_borders bs.items ≡ borders_of lines) }
    {
        self.close()?;
        Ok(self.borders)
    }
}
