//! The lines of the contours of a flat picture: each with its points, its segments, and the evidence for the gaps between these.
//! What is found of a contour comes from `shape_crack` and `shape_line`.
ghost use Rattle.std.specs.Prelude.{◌≡◌, ◌≤◌, ◌<◌, ◌+◌, ◌*◌, ◌^◌, ℕ, List, [], ◌∷◌, ◌++◌, Some, slice_get, IfOk, OnOk, length, All};
ghost use Rattle.shape_terms.specs.Limits.{most_round};
ghost use Rattle.shape_terms.specs.Traces.{Contour as Trace};
ghost use Rattle.shape_crack.specs.Terms.{point_of};
ghost use Rattle.shape_line.specs.Found.{IsCoverOf};
ghost use Rattle.shape_analyse.specs.Growing.{Aim, HasOutlined, IsTextOf, Stands, IsSomeCover, outlined, covered};
ghost use Rattle.shape_analyse.specs.Tallies.{HasSegments, HaveCovers};

use report_text::Report;
use shape_crack::{Contour, Contours};
use shape_line::{Cover, cover};
use shape_report::Line;
use shape_space::{NoMemory, P2};
use std::alloc::Global;

// Adds the `contour` line and the points of a contour, of which so many segments are to come.
fn add_outline(contour: &Contour, segments: u32, report: &mut Report) -> Result<(), NoMemory>
    requires side { contour.now.start.side < 4 }
    requires some { 1 ≤ segments }
    requires few { segments ≤ length contour.now.points }
    ensures { (X : Aim) (contours : List Trace) (k : ℕ) (before : List ℕ)
        → slice_get contours k ≡ Some contour.now
        → IsTextOf (HasOutlined X contours k) (before ++ report.old)
        → OnOk result (Stands X contours (outlined k contour.now segments) (before ++ report.new)) }
{
    let start = contour.start();
    let head = Line::Contour {
        p: start.p,
        side: start.side,
        points: contour.len(),
        segments,
    };
    report.add(&head)?;
    for i in 0..contour.len() {
        report.add(&Line::At {
            p: contour.point(i),
        })?;
    }
    Ok(())
}

// Adds the segments of a contour, and behind each two pairs of places that show its line to be least.
fn add_segments(cover: &Cover, report: &mut Report) -> Result<(), NoMemory>
    requires { IsSomeCover cover.now }
    ensures { (X : Aim) (contours : List Trace) (k : ℕ) (contour : Trace)
        (before : List ℕ) → slice_get contours k ≡ Some contour → IsCoverOf contour.points cover.now
        → Stands X contours (outlined k contour (length cover.now)) (before ++ report.old)
        → OnOk result (Stands X contours (covered k contour cover.now 0) (before ++ report.new)) }
{
    for j in 0..cover.len() {
        let segment = cover.segment(j);
        let line: Line<P2> = Line::Seg {
            first: segment.first,
            last: segment.last,
            line: segment.line,
        };
        report.add(&line)?;
        let bounds = cover.bounds(j);
        report.add(&Line::<P2>::Least { bounds })?;
    }
    Ok(())
}

// Adds the lines of the gaps of a contour, for each the one of the axis x and then the one of the axis y.
fn add_gaps(cover: &Cover, report: &mut Report) -> Result<(), NoMemory>
    requires { IsSomeCover cover.now }
    ensures { (X : Aim) (contours : List Trace) (k : ℕ) (contour : Trace)
        (before : List ℕ) → slice_get contours k ≡ Some contour → IsCoverOf contour.points cover.now
        → Stands X contours (covered k contour cover.now 0) (before ++ report.old)
        → OnOk result (Stands X contours
        (covered k contour cover.now (2 * length cover.now)) (before ++ report.new)) }
{
    for j in 0..cover.len() {
        let gap = cover.gap(j);
        report.add(&Line::<P2>::Gap {
            axis: 0,
            refusal: gap.x,
        })?;
        report.add(&Line::<P2>::Gap {
            axis: 1,
            refusal: gap.y,
        })?;
    }
    Ok(())
}

// Adds all lines of a contour, and tells the number of its segments.
fn add_contour(alloc: Global, contour: &Contour, report: &mut Report) -> Result<u32, NoMemory>
    requires side { contour.now.start.side < 4 }
    ensures segments { IfOk result (HasSegments contour.now) }
    ensures few { IfOk result (λ n. n ≤ most_round) }
    ensures text { (X : Aim) (contours : List Trace) (k : ℕ) (before : List ℕ)
        → slice_get contours k ≡ Some contour.now
        → IsTextOf (HasOutlined X contours k) (before ++ report.old)
        → OnOk result (IsTextOf (HasOutlined X contours (k + 1)) (before ++ report.new)) }
{
    contour.is_closed_path();
    let cover = cover(alloc, contour)?;
    let segments = cover.len();
    add_outline(contour, segments, report)?;
    add_segments(&cover, report)?;
    add_gaps(&cover, report)?;
    Ok(segments)
}

// Adds the lines of each contour, and tells the number of all segments.
pub(crate) fn add_contours(
    alloc: Global,
    contours: &Contours,
    report: &mut Report,
) -> Result<u64, NoMemory>
    requires sides { All (λ c. c.start.side < 4) contours.now }
    ensures segments { IfOk result (HaveCovers contours.now) }
    ensures text { (X : Aim) (before : List ℕ)
        → IsTextOf (HasOutlined X contours.now 0) (before ++ report.old)
        → OnOk result (IsTextOf (HasOutlined X contours.now (length contours.now))
        (before ++ report.new)) }
{
    let mut segments: u64 = 0;
    for k in 0..contours.len() {
        segments += u64::from(add_contour(alloc, contours.contour(k), report)?);
    }
    Ok(segments)
}
