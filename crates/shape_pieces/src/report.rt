//! The report of the fewest straight pieces of each contour of a flat picture: its lines, in order.
//! How a split is found is told in `walk`; how a line is spelled belongs elsewhere.
ghost use Rattle.std.specs.Prelude.{◌≡◌, ◌<◌, ◌+◌, ℕ, IfOk, OnOk, All, length};
ghost use Rattle.shape_terms.specs.Pictures.{Picture};
ghost use Rattle.shape_terms.specs.Traces.{Contour as Trace, AreContours};
ghost use Rattle.text_terms.specs.Reports.{Holds};
ghost use Rattle.piece_terms.specs.Pieces.{ArePieces};
ghost use Rattle.piece_terms.specs.PieceReports.{piece_report};
ghost use Rattle.shape_pieces.specs.Growing.{HasSplits, HasPieces, IsContourAt, IsSomeSplit};

use crate::list::Split;
use crate::walk::split;
use judge_pieces::PieceLine;
use report_text::Report;
use shape_crack::{Contour, Contours, contours};
use shape_grid::Grid;
use shape_space::{NoMemory, P2};
use std::alloc::Global;

// Adds the line of a piece and, where it is not the last, the two lines that tell why it can't be longer.
fn add_piece(split: &Split, j: u32, report: &mut Report) -> Result<(), NoMemory>
    requires some { IsSomeSplit split.now }
    requires place { j < length split.now }
    ensures { (X : Picture) (k : ℕ) (contour : Trace) → IsContourAt X k contour
        → ArePieces contour.points split.now → HasPieces X k split.now j report.old
        → OnOk result (HasPieces X k split.now (j + 1) report.new) }
{
    let count = split.len();
    let piece = split.piece(j);
    report.add(&PieceLine::Piece {
        first: piece.first,
        last: piece.last,
        line: piece.line,
    })?;
    if j + 1 == count {
        return Ok(());
    }
    let gap = split.refused(j);
    report.add(&PieceLine::Gap {
        axis: 0,
        why: gap.x,
    })?;
    report.add(&PieceLine::Gap {
        axis: 1,
        why: gap.y,
    })?;
    Ok(())
}

// Adds the lines of all pieces of a contour.
fn add_pieces(split: &Split, report: &mut Report) -> Result<(), NoMemory>
    requires { IsSomeSplit split.now }
    ensures { (X : Picture) (k : ℕ) (contour : Trace) → IsContourAt X k contour
        → ArePieces contour.points split.now → HasPieces X k split.now 0 report.old
        → OnOk result (HasPieces X k split.now (length split.now) report.new) }
{
    for j in 0..split.len() {
        add_piece(split, j, report)?;
    }
    Ok(())
}

// Adds the lines of a contour.
fn add_split(alloc: Global, contour: &Contour, report: &mut Report) -> Result<(), NoMemory>
    requires { contour.now.start.side < 4 }
    ensures { (X : Picture) (k : ℕ) → IsContourAt X k contour.now → HasSplits X k report.old
        → OnOk result (HasSplits X (k + 1) report.new) }
{
    let split = split(alloc, contour)?;
    report.add(&PieceLine::Chain {
        start: contour.start(),
        points: contour.len(),
        pieces: split.len(),
    })?;
    add_pieces(&split, report)?;
    Ok(())
}

// Adds the lines of each contour.
fn add_splits(alloc: Global, contours: &Contours, report: &mut Report) -> Result<(), NoMemory>
    requires { All (λ c. c.start.side < 4) contours.now }
    ensures { (X : Picture) → AreContours X contours.now → HasSplits X 0 report.old
        → OnOk result (HasSplits X (length contours.now) report.new) }
{
    for k in 0..contours.len() {
        add_split(alloc, contours.contour(k), report)?;
    }
    Ok(())
}

/// The report of the fewest straight pieces of each contour of a flat picture, which holds of it.
///
/// It takes a fixed number of operations for each pixel, for each crack and for each point of a contour, and memory for the
/// contours, for the pieces of one of them and for the text.
///
/// # Errors
///
/// `NoMemory` where there is none for these.
pub fn pieces(alloc: Global, grid: &Grid<P2>) -> Result<Report, NoMemory>
    ensures { IfOk result (Holds (piece_report grid.now)) }
{
    let contours = contours(alloc, grid)?;
    let mut report = Report::new(alloc);
    report.add(&PieceLine::Pieces {
        sides: grid.sides().lengths,
    })?;
    add_splits(alloc, &contours, &mut report)?;
    report.add(&PieceLine::End)?;
    Ok(report)
}
