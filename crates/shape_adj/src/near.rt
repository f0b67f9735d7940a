//! The near neighbours of the points of one box by raster numbers: each is as far from its point as from any other.
//! What is asked of the neighbours belongs elsewhere.
ghost use Rattle.std.specs.Prelude.{◌≡◌, ℕ, ◌+◌, ◌*◌, ◌^◌, ◌<◌, ◌≤◌, IsTrue, IfOk, IfSome, length};
ghost use Rattle.std.specs.Int.{bit_at};
ghost use Rattle.shape_terms.specs.Points.{sides_of, in_box, box_count, raster_number, raster_point};
ghost use Rattle.shape_terms.specs.Adjacency.{near_point};
ghost use Rattle.shape_adj.specs.Gaps.{AreGaps};
ghost use Rattle.shape_adj.specs.NearMasks.{IsNearMask, IsCubeMask, IsRowMask};

use crate::number::{is_inner, near_number};
use crate::pairing::Pairing;
use shape_grid::Bits;
use shape_space::{NoMemory, Sides};
use std::alloc::Global;

/// The sides of a box, and how far the near neighbours are behind a point in raster order: none where the box is too thin.
#[derive(Drop)]
pub struct NearNumbers<P: Pairing> {
    /// The sides of the box.
    pub sides: Sides<P>,
    /// How far each near neighbour is behind its point. The numbers wrap round, since a neighbour may come before its point.
    pub gaps: Vec<u32>,
    pub ghost fit: { AreGaps (sides_of (P.coords sides.lengths)) near_point gaps.items },
}

// The raster number of a point that has all near neighbours in the box, if any has: the last but one on each axis.
pub(crate) fn inner_place<P: Pairing>(sides: &Sides<P>) -> Option<u32>
    ensures { IfSome result (λ i. (i < box_count (sides_of (P.coords sides.now.lengths)))
        × ((k : ℕ) → k < P.NEAR_COUNT → IsTrue (in_box (sides_of (P.coords sides.now.lengths))
        (near_point (raster_point (sides_of (P.coords sides.now.lengths)) i) k)))) }
{
    let p = sides.unraster(sides.count() - 1).near(0);
    if is_inner(sides, p) {
        Some(sides.raster(p))
    } else {
        None
    }
}

// How far the near neighbours are behind a point that has them all in the box.
fn gaps_at<P: Pairing>(alloc: Global, sides: &Sides<P>, i: u32) -> Result<Vec<u32>, NoMemory>
    requires point { i < box_count (sides_of (P.coords sides.now.lengths)) }
    requires inner { (k : ℕ) → k < P.NEAR_COUNT
        → IsTrue (in_box (sides_of (P.coords sides.now.lengths))
        (near_point (raster_point (sides_of (P.coords sides.now.lengths)) i) k)) }
    ensures { IfOk result
        (λ v. AreGaps (sides_of (P.coords sides.now.lengths)) near_point v.items) }
{
    let mut gaps = Vec::new(alloc);
    for k in 0..P::NEAR_COUNT {
        gaps.push(near_number(sides, i, k).wrapping_sub(i))?;
    }
    Ok(gaps)
}

// The number of the near neighbour that begins row r of the cube around a point: the centre of the cube has no number.
fn row_start(r: usize, half: usize) -> usize
    requires { r < 2 ^ 16 }
    ensures before { 3 * r ≤ half → result ≡ 3 * r }
    ensures behind { half < 3 * r → result + 1 ≡ 3 * r }
{
    if 3 * r <= half { 3 * r } else { 3 * r - 1 }
}

// The bits of a cube but for that of its centre, before which there are so many.
fn without_centre(cube: u32, half: usize) -> u32
    requires { half < 31 }
    ensures before { (k : ℕ) → k < half → bit_at result k ≡ bit_at cube k }
    ensures behind { (k : ℕ) → half ≤ k → bit_at result k ≡ bit_at cube (k + 1) }
{
    let below = (1u32 << half) - 1;
    (cube & below) | ((cube >> (half + 1)) << half)
}

impl<P: Pairing> NearNumbers<P> {
    /// Those of a box.
    pub fn new(alloc: Global, sides: Sides<P>) -> Result<NearNumbers<P>, NoMemory>
        ensures { IfOk result (λ n. n.sides ≡ sides) }
    {
        let gaps = match inner_place(&sides) {
            Some(i) => gaps_at(alloc, &sides, i)?,
            None => Vec::new(alloc),
        };
        Ok(NearNumbers { sides, gaps })
    }

    /// Whether the distances of all near neighbours are known.
    pub fn all_known(&self) -> bool
        ensures { IsTrue result → P.NEAR_COUNT ≤ length self.now.gaps.items }
    {
        self.gaps.len() >= P::NEAR_COUNT
    }

    /// The raster number of a near neighbour that is in the box, where its distance is known.
    pub fn known(&self, i: u32, k: usize) -> u32
        requires known { k < length self.now.gaps.items }
        requires point { i < box_count (sides_of (P.coords self.now.sides.lengths)) }
        requires inside { IsTrue (in_box (sides_of (P.coords self.now.sides.lengths))
            (near_point (raster_point (sides_of (P.coords self.now.sides.lengths)) i) k)) }
        ensures { result ≡ raster_number (sides_of (P.coords self.now.sides.lengths))
            (near_point (raster_point (sides_of (P.coords self.now.sides.lengths)) i) k) }
    {
        i.wrapping_add(self.gaps[k])
    }

    /// The near neighbours whose value is true, of a point that has them all in the box, where their distances are known:
    /// bit k is set where near neighbour k has it.
    pub fn mask(&self, values: &Bits, i: u32) -> u32
        requires known { P.NEAR_COUNT ≤ length self.now.gaps.items }
        requires filled { length values.now
            ≡ box_count (sides_of (P.coords self.now.sides.lengths)) }
        requires point { i < box_count (sides_of (P.coords self.now.sides.lengths)) }
        requires inner { (k : ℕ) → k < P.NEAR_COUNT
            → IsTrue (in_box (sides_of (P.coords self.now.sides.lengths))
            (near_point (raster_point (sides_of (P.coords self.now.sides.lengths)) i) k)) }
        ensures { let sides = sides_of (P.coords self.now.sides.lengths) in
            IsNearMask (record { sides = sides; values = values.now }) (raster_point sides i) result }
    {
        without_centre(self.cube(values, i), P::NEAR_COUNT / 2)
    }

    // The points of row r of the cube around such a point whose value is true.
    fn row(&self, values: &Bits, i: u32, r: usize) -> u32
        requires known { P.NEAR_COUNT ≤ length self.now.gaps.items }
        requires filled { length values.now
            ≡ box_count (sides_of (P.coords self.now.sides.lengths)) }
        requires point { i < box_count (sides_of (P.coords self.now.sides.lengths)) }
        requires inner { (k : ℕ) → k < P.NEAR_COUNT
            → IsTrue (in_box (sides_of (P.coords self.now.sides.lengths))
            (near_point (raster_point (sides_of (P.coords self.now.sides.lengths)) i) k)) }
        requires row { 3 * r ≤ P.NEAR_COUNT }
        ensures { let sides = sides_of (P.coords self.now.sides.lengths) in
            IsRowMask (record { sides = sides; values = values.now }) (raster_point sides i) r result }
    {
        let k = row_start(r, P::NEAR_COUNT / 2);
        values.three(self.known(i, k) as usize)
    }

    // The points of the cube around such a point whose value is true.
    fn cube(&self, values: &Bits, i: u32) -> u32
        requires known { P.NEAR_COUNT ≤ length self.now.gaps.items }
        requires filled { length values.now
            ≡ box_count (sides_of (P.coords self.now.sides.lengths)) }
        requires point { i < box_count (sides_of (P.coords self.now.sides.lengths)) }
        requires inner { (k : ℕ) → k < P.NEAR_COUNT
            → IsTrue (in_box (sides_of (P.coords self.now.sides.lengths))
            (near_point (raster_point (sides_of (P.coords self.now.sides.lengths)) i) k)) }
        ensures { let sides = sides_of (P.coords self.now.sides.lengths) in
            IsCubeMask (record { sides = sides; values = values.now }) (raster_point sides i) result }
    {
        let mut cube = 0;
        for r in 0..(P::NEAR_COUNT + 1) / 3 {
            cube |= self.row(values, i, r) << (3 * r);
        }
        cube
    }

    /// The raster number of a near neighbour that is in the box.
    pub fn number(&self, i: u32, k: usize) -> u32
        requires below { k < P.NEAR_COUNT }
        requires point { i < box_count (sides_of (P.coords self.now.sides.lengths)) }
        requires inside { IsTrue (in_box (sides_of (P.coords self.now.sides.lengths))
            (near_point (raster_point (sides_of (P.coords self.now.sides.lengths)) i) k)) }
        ensures { result ≡ raster_number (sides_of (P.coords self.now.sides.lengths))
            (near_point (raster_point (sides_of (P.coords self.now.sides.lengths)) i) k) }
    {
        if k < self.gaps.len() {
            self.known(i, k)
        } else {
            near_number(&self.sides, i, k)
        }
    }
}
