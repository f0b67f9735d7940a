//! The object points of a report, each with its depth.
//! What counts as deep is told in `depth` and its definition alone.
ghost use Rattle.std.specs.Prelude.{◌≡◌, ◌==◌, ◌++◌, ◌∷◌, [], map, filter, IfOk, OnOk};
ghost use Rattle.shape_terms.specs.Points.{sides_of};
ghost use Rattle.report_lines.specs.Seen.{flat_line};
ghost use Rattle.drawing.specs.Seen.{flat, all_pixels};
ghost use Rattle.drawing.specs.Object.{depth, pixels};

use shape_report::Line;
use shape_space::{NoMemory, P2, Sides};
use std::alloc::Global;

/// An object point and its depth.
#[derive(Clone, Copy)]
pub struct Pixel {
    /// The point.
    pub point: P2,
    /// How many of the distances 2, 4, 8, 16 and 32 it reaches.
    pub depth: u8,
}

// The depth of a point with a squared distance.
fn depth(square: u64) -> u8
    ensures { result ≡ depth square }
{
    if square < 4 {
        0
    } else if square < 16 {
        1
    } else if square < 64 {
        2
    } else if square < 256 {
        3
    } else if square < 1024 {
        4
    } else {
        5
    }
}

/// Takes of a line the pixel that it gives.
pub fn take_pixel(found: &mut Vec<Pixel>, sides: Sides<P2>, line: &Line<P2>) -> Result<(), NoMemory>
    ensures { OnOk result (all_pixels found.new.items ≡ all_pixels found.old.items
        ++ pixels (sides_of (flat sides.lengths)) (flat_line line.now ∷ [])) }
{
    if let Line::Near { p, s, .. } = line {
        if sides.inside(*p) {
            found.push(Pixel {
                point: *p,
                depth: depth(*s),
            })?;
        }
    }
    Ok(())
}

/// The points of a depth.
pub(crate) fn points_at(alloc: Global, found: &[Pixel], depth: u8) -> Result<Vec<P2>, NoMemory>
    ensures { IfOk result (λ ps. ps.items
        ≡ map (λ x. x.point) (filter (λ x. x.depth == depth) found.now)) }
{
    let points = found
        .iter()
        .filter(|pixel| pixel.depth == depth)
        .map(|pixel| pixel.point)
        .collect(alloc)?;
    Ok(points)
}
