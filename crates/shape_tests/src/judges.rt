//! What no report asks of the judges of contours, faces and thinnings: lines that never come to them, and a count before it is wanted.
use crate::pictures::stepped;
use judge_field::Scans;
use judge_outline::{CoverJudge, PlaneJudge};
use shape_check::{ThinJudge, distances_of};
use shape_grid::Grid;
use shape_refute::Naive;
use shape_report::Line;
use shape_rules::NoEnds;
use shape_space::{NoMemory, P2, P3, Point};
use std::alloc::{AllocError, Global};
use std::test::Fail;

const ROW: P2 = P2 { x: 3, y: 1 };

// Whether the judge of a row of three pixels takes a segment along it of this axis, once it took the points of its contour.
fn takes_segment(alloc: Global, axis: u8) -> Result<bool, Fail> {
    let mut judge = CoverJudge::new(alloc, &stepped(alloc, ROW, 1)?, 1)?;
    let contour = Line::Contour {
        p: P2::origin(),
        side: 0,
        points: 4,
        segments: 2,
    };
    let mut is_good = judge.take(&contour);
    for x in [0, 1, 2, 1] {
        is_good = is_good && judge.take(&Line::At { p: P2 { x, y: 0 } });
    }
    if !is_good {
        return Err(Fail::from(AllocError));
    }
    let a = [0, 1, 0];
    let line = Naive { a, mu: 0, axis };
    Ok(judge.take(&Line::Seg {
        first: 0,
        last: 2,
        line,
    }))
}

// The third axis is one that no line of a flat picture can name.
#[test]
fn a_segment_of_another_axis(rt: HostRuntime) -> Result<(), Fail> {
    assert!(rt; takes_segment(rt.alloc(), 1)? && !takes_segment(rt.alloc(), 2)?);
    Ok(())
}

// Whether the judge of the contours of a picture takes the last line of a report.
fn contours_take_an_end(alloc: Global, grid: &Grid<P2>) -> Result<bool, NoMemory> {
    Ok(CoverJudge::new(alloc, grid, 1)?.take(&Line::End))
}

// Whether the judge of the faces of a volume takes a line of a nearest point.
fn faces_take_a_near(alloc: Global, grid: &Grid<P3>) -> Result<bool, NoMemory> {
    let near = Line::Near {
        p: P3::origin(),
        q: P3 { x: 0, y: 0, z: -1 },
        s: 1,
    };
    Ok(PlaneJudge::new(alloc, grid)?.take(&near))
}

// Lines of other sections, which a check does not hand to these judges.
#[test]
fn lines_of_other_sections(rt: HostRuntime) -> Result<(), Fail> {
    let row = stepped(rt.alloc(), ROW, 1)?;
    assert!(rt; !contours_take_an_end(rt.alloc(), &row)?);
    let voxel = stepped(rt.alloc(), P3 { x: 1, y: 1, z: 1 }, 1)?;
    assert!(rt; !faces_take_a_near(rt.alloc(), &voxel)?);
    Ok(())
}

// The judge of the thinning of a picture.
fn thinning_of(alloc: Global, grid: &Grid<P2>) -> Result<ThinJudge<P2>, NoMemory> {
    let scans = Scans::new(alloc, grid)?;
    let distances = distances_of(alloc, &scans)?;
    ThinJudge::new(alloc, grid, distances)
}

// A check asks how many points are left where the thinning is complete, and not before.
#[test]
fn points_left_before_the_end(rt: HostRuntime) -> Result<(), Fail> {
    let row = stepped(rt.alloc(), ROW, 1)?;
    let mut judge = thinning_of(rt.alloc(), &row)?;
    assert!(rt; judge.event(P2::origin(), false, &mut NoEnds)?);
    assert!(rt; !judge.finished() && judge.left() == 2);
    Ok(())
}
