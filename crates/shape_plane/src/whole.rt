//! The slopes of a list of pairs that is given whole.
//! How a pair more is met belongs elsewhere.
ghost use Rattle.std.specs.Prelude.{◌≡◌, ◌<◌, length, map, take, IfOk};
ghost use Rattle.shape_plane.specs.Pairs.{ArePairs, AreInside};
ghost use Rattle.shape_plane.specs.Solved.{IsSolved};

use crate::answer::Solved;
use crate::known::Known;
use crate::pair::Pair;
use shape_space::{NoMemory, Point};
use std::alloc::Global;

/// Finds proper slopes of an axis that meet all pairs, or the weights of the pairs and of steps that exclude all slopes.
///
/// It takes time by the square of the number of pairs, and none by the number of points.
pub fn solve<P: Point>(
    alloc: Global,
    points: &[P],
    axis: usize,
    pairs: &[Pair],
) -> Result<Solved, NoMemory>
    requires axis { axis < P.DIM }
    requires pairs { ArePairs (length points.now) pairs.now }
    requires inside { AreInside P.MAX_SIDE (map P.coords points.now) }
    ensures { IfOk result (IsSolved P.DIM axis (map P.coords points.now) pairs.now) }
{
    let mut known = Known::new(alloc, axis)?;
    for i in 0..pairs.len() {
        known.add(points, axis, pairs[i])?;
    }
    Ok(known.solve(points, axis))
}
