//! The edge report of a picture, as it is built: its sides, then each cycle with its arcs and the evidence for its gaps, and the end.
//! What is found of a cycle comes from `walk`; how a line is spelled, `judge_edges` says.
ghost use Rattle.std.specs.Prelude.{◌≡◌, ◌<◌, ◌+◌, ℕ, [], IfOk, OnOk, length};
ghost use Rattle.shape_terms.specs.Pictures.{Picture};
ghost use Rattle.shape_terms.specs.Contours.{Crack as Term};
ghost use Rattle.shape_terms.specs.Traces.{AreContours};
ghost use Rattle.text_terms.specs.Reports.{Holds};
ghost use Rattle.edge_terms.specs.EdgeReports.{edge_report, State};
ghost use Rattle.shape_crack.specs.Terms.{crack_of};
ghost use Rattle.shape_edges.specs.Growing.{Tells, HasTold, IsFoundAt, IsSomeCover, with_arcs, with_gaps};

use crate::list::EdgeCover;
use crate::walk::edge_cover;
use judge_edges::{EdgeLine, flat_sides};
use report_text::Report;
use shape_crack::{Contours, Crack, contours};
use shape_grid::Grid;
use shape_space::{NoMemory, P2};
use std::alloc::Global;

// Adds the line of the sides.
fn add_sides(grid: &Grid<P2>, report: &mut Report) -> Result<(), NoMemory>
    requires { report.old ≡ [] }
    ensures { OnOk result (HasTold grid.now 0 report.new) }
{
    let sides = flat_sides(grid);
    report.add(&EdgeLine::Edges {
        width: sides.width,
        height: sides.height,
    })
}

// Adds the line of a cycle.
fn add_head(start: Crack, cover: &EdgeCover, report: &mut Report) -> Result<(), NoMemory>
    requires { (crack_of start).side < 4 }
    ensures { (X : Picture) (k : ℕ) → IsFoundAt X k (crack_of start) cover.now
        → HasTold X k report.old
        → OnOk result (Tells X (State.Open (with_arcs k cover.now 0)) report.new) }
{
    report.add(&EdgeLine::Cycle {
        start,
        steps: cover.steps(),
        arcs: cover.len(),
    })
}

// Adds the lines of the arcs of a cycle.
fn add_arcs(cover: &EdgeCover, report: &mut Report) -> Result<(), NoMemory>
    requires { IsSomeCover cover.now }
    ensures { (X : Picture) (k : ℕ) (start : Term) → IsFoundAt X k start cover.now
        → Tells X (State.Open (with_arcs k cover.now 0)) report.old
        → OnOk result (Tells X (State.Open (with_gaps k cover.now 0)) report.new) }
{
    for j in 0..cover.len() {
        report.add(&EdgeLine::Arc(cover.arc(j)))?;
    }
    Ok(())
}

// Adds the lines of the gaps of a cycle.
fn add_gaps(cover: &EdgeCover, report: &mut Report) -> Result<(), NoMemory>
    requires { IsSomeCover cover.now }
    ensures { (X : Picture) (k : ℕ) (start : Term) → IsFoundAt X k start cover.now
        → Tells X (State.Open (with_gaps k cover.now 0)) report.old
        → OnOk result (HasTold X (k + 1) report.new) }
{
    for j in 0..cover.len() {
        report.add(&EdgeLine::Gap(cover.gap(j)))?;
    }
    Ok(())
}

// Adds all lines of a cycle.
fn add_cycle(start: Crack, cover: &EdgeCover, report: &mut Report) -> Result<(), NoMemory>
    requires side { (crack_of start).side < 4 }
    requires cover { IsSomeCover cover.now }
    ensures { (X : Picture) (k : ℕ) → IsFoundAt X k (crack_of start) cover.now
        → HasTold X k report.old → OnOk result (HasTold X (k + 1) report.new) }
{
    add_head(start, cover, report)?;
    add_arcs(cover, report)?;
    add_gaps(cover, report)
}

// Adds the lines of all cycles.
fn add_cycles(
    alloc: Global,
    grid: &Grid<P2>,
    contours: &Contours,
    report: &mut Report,
) -> Result<(), NoMemory>
    requires are { AreContours grid.now contours.now }
    requires sides { HasTold grid.now 0 report.old }
    ensures { OnOk result (HasTold grid.now (length contours.now) report.new) }
{
    for k in 0..contours.len() {
        let start = contours.contour(k).start();
        let cover = edge_cover(alloc, grid, start)?;
        add_cycle(start, &cover, report)?;
    }
    Ok(())
}

/// The edge report of a flat picture: for each cycle of its cracks, in the order of their least cracks, exactly the maximal straight runs of
/// its corner path, each with a standard line that holds it, and the evidence for each gap.
///
/// It takes time and memory by the numbers of pixels and cracks.
///
/// # Errors
///
/// `NoMemory` where there is none for the corners, the arcs or the text.
pub fn edges(alloc: Global, grid: &Grid<P2>) -> Result<Report, NoMemory>
    ensures { IfOk result (Holds (edge_report grid.now)) }
{
    let contours = contours(alloc, grid)?;
    let mut report = Report::new(alloc);
    add_sides(grid, &mut report)?;
    add_cycles(alloc, grid, &contours, &mut report)?;
    report.add(&EdgeLine::End)?;
    Ok(report)
}
