//! The points of one contour, twice round, so that each arc of it is a part of one list.
//! Nothing here knows of lines.
ghost use Rattle.std.specs.Prelude.{◌≡◌, ◌<◌, ◌≤◌, ◌+◌, ◌-◌, ◌*◌, length, map, take, drop, vec_len, vec_capacity, All};
ghost use Rattle.shape_terms.specs.Limits.{most_round};
ghost use Rattle.shape_terms.specs.Covers.{arc};
ghost use Rattle.shape_crack.specs.Terms.{point_of};

use shape_crack::{Contour, Contours};
use shape_space::P2;

// Puts the points of a contour into the buffer, twice round.
pub(crate) fn load(round: &mut Vec<P2>, contour: &Contour)
    requires { 2 * length contour.now.points ≤ vec_capacity round.old }
    ensures twice { map point_of round.new.items ≡ arc contour.now.points 0
        (2 * length contour.now.points - 1) }
    ensures capacity { vec_capacity round.new ≡ vec_capacity round.old }
{
    let n = contour.len();
    round.clear();
    for i in 0..2 * n {
        round.push_reserved(contour.point(i % n));
    }
}

// The points from place to place.
pub(crate) fn part(round: &[P2], first: u32, last: u32) -> &[P2]
    requires order { first ≤ last }
    requires within { last < length round.now }
    ensures { result.now ≡ take (last + 1 - first) (drop first round.now) }
{
    &round[first as usize..last as usize + 1]
}

// The greatest number of points of a contour.
pub(crate) fn greatest(contours: &Contours) -> u32
    ensures each { All (λ k. length k.points ≤ result) contours.now }
    ensures few { result ≤ most_round }
{
    let mut greatest: u32 = 0;
    for k in 0..contours.len() {
        greatest = greatest.max(contours.contour(k).len());
    }
    greatest
}
