//! Arcs of borders as strokes from corner to corner, over the corner paths of the object.
//! The paths are found anew; which of their corners an arc joins, its mark tells.
ghost use Rattle.std.specs.Prelude.{◌≡◌, IfOk, OnOk};
ghost use Rattle.drawing.specs.Seen.{flats};
ghost use Rattle.draw_report.specs.Corners.{paths_of, AreCornerPaths};
ghost use Rattle.draw_report.specs.Layers.{EdgesPut};
ghost use Rattle.draw_report.specs.Seen.{all_marks, all_paths};

use crate::borders::strokes_over;
use crate::part::Mark;
use drawing::{Svg, put_contours};
use judge_edges::{Corners, Cycles, all_cycles};
use shape_grid::Grid;
use shape_space::{NoMemory, P2};
use std::alloc::Global;

// The corners of a path.
fn corners_of(alloc: Global, path: &Corners) -> Result<Vec<P2>, NoMemory>
    ensures { IfOk result (λ v. flats v.items ≡ path.now) }
{
    let mut points = Vec::new(alloc);
    for i in 0..path.len() {
        points.push(path.corner(i))?;
    }
    Ok(points)
}

// The corners of the path of each cycle.
fn paths_of(alloc: Global, cycles: &Cycles) -> Result<Vec<Vec<P2>>, NoMemory>
    ensures { IfOk result (λ v. all_paths v.items ≡ paths_of cycles.now) }
{
    let mut paths = Vec::new(alloc);
    for k in 0..cycles.len() {
        let path = corners_of(alloc, cycles.cycle(k).path())?;
        paths.push(path)?;
    }
    Ok(paths)
}

// The corner paths of an object.
fn corner_paths(alloc: Global, object: &Grid<P2>) -> Result<Vec<Vec<P2>>, NoMemory>
    ensures { IfOk result (λ v. AreCornerPaths object.now (all_paths v.items)) }
{
    let cycles = all_cycles(alloc, object)?;
    paths_of(alloc, &cycles)
}

/// Puts the arcs among marks over the corner paths of an object.
pub(crate) fn put_edges(
    alloc: Global,
    object: &Grid<P2>,
    marks: &[Mark],
    svg: &mut Svg,
) -> Result<(), NoMemory>
    ensures { OnOk result (EdgesPut object.now (all_marks marks.now) svg.old svg.new) }
{
    let paths = corner_paths(alloc, object)?;
    let strokes = strokes_over(alloc, &paths, marks)?;
    svg.put(b"<g transform=\"translate(-.5 -.5)\">\n")?;
    put_contours(&strokes, svg)?;
    svg.put(b"</g>\n")
}
