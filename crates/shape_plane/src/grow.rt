//! The growth of one patch from its first point, by near neighbours of its points that are left.
//! Which points there are to be taken, and where a patch begins, belongs elsewhere.
ghost use Rattle.std.specs.Prelude.{◌≡◌, ◌<◌, ◌^◌, ◌+◌, ◌-◌, IsTrue, IfOk, Contains, ℕ, length, pos, ◌-ℤ◌};
ghost use Rattle.shape_terms.specs.FramedBox.{IsWithin};
ghost use Rattle.shape_terms.specs.Points.{Point as Place, sides_of, in_box};
ghost use Rattle.shape_terms.specs.Pictures.{Picture, at};
ghost use Rattle.shape_terms.specs.Adjacency.{near_point};
ghost use Rattle.shape_plane.specs.Trials.{spread_of, IsTried, IsLater, IsSettled, IsSpreading};
ghost use Rattle.shape_plane.specs.Rounds.{IsGoing};

use crate::around::Around;
use crate::growing::Growing;
use crate::refusals::{Refusals, Refused};
use crate::weights::nothing;
use shape_adj::{NearNumbers, Pairing};
use shape_grid::Grid;
use shape_refute::Refutation;
use shape_space::{NoMemory, Point};
use std::alloc::Global;

// Tries a point that is left. Weights of a refusal are written into `why`.
fn try_point<P: Point>(
    growing: &mut Growing<P>,
    left: &mut Grid<P>,
    tried: &mut Grid<P>,
    refused: &mut Refusals<P>,
    q: P,
    why: &mut Refutation,
) -> Result<(), NoMemory>
    requires inside { IsWithin (pos 0) (P.MAX_SIDE -ℤ pos 1) (P.coords q) }
    requires few { length growing.old.points < 2 ^ 31 - 1 }
    requires left { IsTrue (in_box left.old.sides (P.coords q)) }
    requires tried { IsTrue (in_box tried.old.sides (P.coords q)) }
    ensures axis { IfOk result (λ _. growing.new.axis ≡ growing.old.axis) }
    ensures tried { IfOk result (λ _. IsTried P.DIM growing.old.axis
        (spread_of growing.old.points left.old tried.old refused.old) (P.coords q)
        (spread_of growing.new.points left.new tried.new refused.new)) }
{
    if growing.add_or_refute(q, why)? {
        left.clear(q);
    } else {
        tried.set(q);
        refused.push(Refused {
            point: q,
            number: left.sides().raster(q),
            why: *why,
            count: growing.len(),
        })?;
    }
    Ok(())
}

// Tries the near neighbour with a number of a point of the patch, where it is left and was not tried yet.
fn try_neighbour<P: Pairing>(
    growing: &mut Growing<P>,
    left: &mut Grid<P>,
    tried: &mut Grid<P>,
    refused: &mut Refusals<P>,
    around: &Around<'_, P>,
    n: usize,
    why: &mut Refutation,
) -> Result<(), NoMemory>
    requires below { n < P.NEAR_COUNT }
    requires point { Contains growing.old.points (P.coords around.now.point) }
    requires near { sides_of (P.coords around.now.near.now.sides.lengths) ≡ left.old.sides }
    requires sides { left.old.sides ≡ tried.old.sides }
    requires spreading { (first : Picture) × IsSpreading P.DIM growing.old.axis first
        (spread_of growing.old.points left.old tried.old refused.old) }
    ensures axis { IfOk result (λ _. growing.new.axis ≡ growing.old.axis) }
    ensures sides { IfOk result (λ _. left.new.sides ≡ tried.new.sides) }
    ensures later { IfOk result (λ _. IsLater
        (spread_of growing.old.points left.old tried.old refused.old)
        (spread_of growing.new.points left.new tried.new refused.new)) }
    ensures settled { IfOk result (λ _. IsSettled
        (spread_of growing.new.points left.new tried.new refused.new)
        (near_point (P.coords around.now.point) n)) }
    ensures spreads { (first : Picture)
        → IsSpreading P.DIM growing.old.axis first
        (spread_of growing.old.points left.old tried.old refused.old)
        → IfOk result (λ _. IsSpreading P.DIM growing.old.axis first
        (spread_of growing.new.points left.new tried.new refused.new)) }
{
    left.is_picture();
    tried.is_picture();
    if !around.is_open(left, tried, n) {
        return Ok(());
    }
    try_point(growing, left, tried, refused, around.point.near(n), why)?;
    Ok(())
}

// Tries the near neighbours of a point of the patch that are left and were not tried yet.
fn spread<P: Pairing>(
    growing: &mut Growing<P>,
    left: &mut Grid<P>,
    tried: &mut Grid<P>,
    refused: &mut Refusals<P>,
    around: &Around<'_, P>,
    why: &mut Refutation,
) -> Result<(), NoMemory>
    requires point { Contains growing.old.points (P.coords around.now.point) }
    requires near { sides_of (P.coords around.now.near.now.sides.lengths) ≡ left.old.sides }
    requires sides { left.old.sides ≡ tried.old.sides }
    requires spreading { (first : Picture) × IsSpreading P.DIM growing.old.axis first
        (spread_of growing.old.points left.old tried.old refused.old) }
    ensures axis { IfOk result (λ _. growing.new.axis ≡ growing.old.axis) }
    ensures sides { IfOk result (λ _. left.new.sides ≡ tried.new.sides) }
    ensures later { IfOk result (λ _. IsLater
        (spread_of growing.old.points left.old tried.old refused.old)
        (spread_of growing.new.points left.new tried.new refused.new)) }
    ensures settled { IfOk result (λ _. (n : ℕ) → n < P.NEAR_COUNT → IsSettled
        (spread_of growing.new.points left.new tried.new refused.new)
        (near_point (P.coords around.now.point) n)) }
    ensures spreads { (first : Picture)
        → IsSpreading P.DIM growing.old.axis first
        (spread_of growing.old.points left.old tried.old refused.old)
        → IfOk result (λ _. IsSpreading P.DIM growing.old.axis first
        (spread_of growing.new.points left.new tried.new refused.new)) }
{
    let mut rest = around.candidates(left);
    while rest != 0 {
        let n = rest.trailing_zeros() as usize;
        rest &= !(1u32 << n);
        try_neighbour(growing, left, tried, refused, around, n, why)?;
    }
    Ok(())
}

/// The points of a patch that has grown, and the points that it refused.
#[derive(Drop)]
pub struct Grown<P: Point> {
    pub growing: Growing<P>,
    pub refused: Refusals<P>,
}

// Tries the neighbours of the point at a place.
fn spread_from<P: Pairing>(
    growing: &mut Growing<P>,
    left: &mut Grid<P>,
    tried: &mut Grid<P>,
    refused: &mut Refusals<P>,
    near: &NearNumbers<P>,
    k: u32,
    why: &mut Refutation,
) -> Result<(), NoMemory>
    requires place { k < length growing.old.points }
    requires near { sides_of (P.coords near.now.sides.lengths) ≡ left.old.sides }
    requires going { (t : ℕ) × (first : Picture) × (p : Place) × IsGoing P.DIM P.NEAR_COUNT
        t first p k growing.old left.old tried.old refused.old }
    ensures going { (t : ℕ) (first : Picture) (p : Place)
        → IsGoing P.DIM P.NEAR_COUNT t first p k growing.old left.old tried.old refused.old
        → IfOk result (λ _. IsGoing P.DIM P.NEAR_COUNT
        t first p (k + 1) growing.new left.new tried.new refused.new) }
{
    left.is_picture();
    let around = Around::new(near, growing.point(k));
    spread(growing, left, tried, refused, &around, why)?;
    Ok(())
}

/// Grows a patch from a point that is left, which is the first of it; the points that it takes are left no more.
///
/// The points that it refuses stay marked in `tried`, where no point is marked before.
pub fn grow<P: Pairing>(
    alloc: Global,
    axis: usize,
    p: P,
    left: &mut Grid<P>,
    tried: &mut Grid<P>,
    near: &NearNumbers<P>,
) -> Result<Grown<P>, NoMemory>
    requires axis { axis < P.DIM }
    requires left { IsTrue (at left.old (P.coords p)) }
    requires near { sides_of (P.coords near.now.sides.lengths) ≡ left.old.sides }
    requires sides { tried.old.sides ≡ left.old.sides }
    requires none { (q : Place) → IsTrue (at tried.old q) → ⊥ }
    ensures { IfOk result (λ s. IsGoing P.DIM P.NEAR_COUNT axis left.old (P.coords p)
        (length s.growing.points) s.growing left.new tried.new s.refused) }
{
    left.is_picture();
    let mut growing = Growing::first(alloc, p, axis)?;
    left.clear(p);
    let mut refused = Refusals::new(alloc)?;
    let mut why = nothing();
    let mut k = 0;
    while k < growing.len() {
        spread_from(&mut growing, left, tried, &mut refused, near, k, &mut why)?;
        k += 1;
    }
    Ok(Grown { growing, refused })
}
