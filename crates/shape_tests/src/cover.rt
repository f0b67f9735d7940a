//! The segments of a cover as they were grown: each ends in its last point. What else a cover is, cases of `outlines.cases` ask.
ghost use Rattle.std.specs.Prelude.{◌<◌, length};

use crate::shared::{at, of_marks};
use shape_crack::{Contour, contours};
use shape_line::{Cover, cover};
use std::test::Fail;

// Whether a segment as it was grown ends in its last point.
fn is_grown(contour: &Contour, found: &Cover, k: u32) -> bool
    requires { k < length found.now }
{
    found.grown(k).last() == contour.point(found.segment(k).last % contour.len())
}

// Two rows of points, .### over ####: the three segments of their contour have three and four points, and the last ends beyond the first place.
#[test]
fn segments_as_they_were_grown(rt: HostRuntime) -> Result<(), Fail> {
    let grid = of_marks(rt.alloc(), at(4, 2), b".#######")?;
    let all = contours(rt.alloc(), &grid)?;
    assert!(rt; all.len() == 1);
    let contour = all.contour(0);
    let found = cover(rt.alloc(), contour)?;
    assert!(rt; found.len() == 3);
    for k in 0..found.len() {
        assert!(rt; is_grown(contour, &found, k));
    }
    Ok(())
}
