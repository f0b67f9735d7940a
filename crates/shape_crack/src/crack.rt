//! Cracks of a flat picture, and which crack follows which along the edge of the object.
//! Nothing here takes memory or looks at more than two pixels beside the crack's own.
ghost use Rattle.std.specs.Prelude.{◌≡◌, ◌<◌, ◌≤◌, ◌-ℤ◌, nat_abs};
ghost use Rattle.shape_terms.specs.Adjacency.{moved};
ghost use Rattle.shape_terms.specs.Contours.{normal, IsCrack, successor as successor_of};
ghost use Rattle.shape_crack.specs.Terms.{point_of, crack_of, LeavesRoom};

use shape_grid::Grid;
use shape_space::P2;

/// An object pixel and one of its sides at which the neighbour is background.
///
/// Cracks are ordered by the raster order of their pixels, and those of one pixel by their sides.
#[derive(Clone, Copy, Debug, PartialEq, Eq, PartialOrd, Ord)]
pub struct Crack {
    /// The object pixel.
    pub p: P2,
    /// The side, from 0 to 3: the upper, the right, the lower and the left one.
    pub side: u8,
}

// The pixel over a side.
fn neighbour(p: P2, side: u8) -> P2
    requires { LeavesRoom p }
    ensures value { point_of result ≡ moved (point_of p) (normal side) }
    ensures x_near { nat_abs (result.x -ℤ p.x) ≤ 1 }
    ensures y_near { nat_abs (result.y -ℤ p.y) ≤ 1 }
{
    match side {
        0 => P2 { x: p.x, y: p.y - 1 },
        1 => P2 { x: p.x + 1, y: p.y },
        2 => P2 { x: p.x, y: p.y + 1 },
        _ => P2 { x: p.x - 1, y: p.y },
    }
}

/// The crack that follows along the edge of the object, which lies to the right of one who walks it.
///
/// Pixels that touch at a corner alone belong together, so the edge goes on from one to the other.
pub fn successor(grid: &Grid<P2>, c: Crack) -> Crack
    requires { IsCrack grid.now (crack_of c) }
    ensures { crack_of result ≡ successor_of grid.now (crack_of c) }
{
    grid.is_picture();
    let right = (c.side + 1) % 4;
    let ahead = neighbour(c.p, right);
    let across = neighbour(neighbour(c.p, c.side), right);
    if grid.has(across) {
        Crack {
            p: across,
            side: (c.side + 3) % 4,
        }
    } else if grid.has(ahead) {
        Crack {
            p: ahead,
            side: c.side,
        }
    } else {
        Crack {
            p: c.p,
            side: right,
        }
    }
}
