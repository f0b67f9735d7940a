//! Points, as lists of their coordinates: a further dimension is one more `impl` of `Point`.
ghost use Rattle.std.specs.Prelude.{◌≡◌, ◌⊎◌, ◌<◌, ◌∷◌, [], ℕ, ℤ, pos, ◌≤ℤ◌, List, length, replicate, slice_set, true};
ghost use Rattle.std.proofs.Common.{rules, arith, inl, refl};
ghost use Rattle.std.proofs.lemmas.Int.{ints};
ghost use Rattle.shape_terms.specs.Limits.{most_flat, most_solid};
ghost use Rattle.shape_terms.specs.Points.{coordinate, raster_cmp};
ghost use Rattle.shape_space.specs.Laws.{same_flat, equal_flat};

use crate::limits::MOST_FLAT;

/// A point of the plane or of space. The axes are numbered 0 for x, 1 for y and 2 for z.
///
/// The order of points is raster order: they compare by their last axis first.
pub trait Point: Copy + Eq + Ord {
    /// The number of axes, 2 or 3.
    ghost DIM: { ℕ };

    const DIM: usize;

    /// The greatest side of a box of such points: at most most_flat in the plane and most_solid in space.
    ghost MAX_SIDE: { ℤ };

    const MAX_SIDE: i32;

    /// The coordinates, one for each axis. A point is seen as this list.
    ghost coords: { Self → List ℤ };

    /// The point whose coordinates are all 0.
    fn origin() -> Self
        ensures { coords result ≡ replicate DIM (pos 0) };

    /// The coordinate on an axis.
    fn coord(&self, k: usize) -> i32
        requires { k < DIM }
        ensures { result ≡ coordinate (coords self.now) k };

    /// The point with another coordinate on an axis.
    fn with(&self, k: usize, v: i32) -> Self
        requires { k < DIM }
        ensures { coords result ≡ slice_set (coords self.now) k v };

    ghost two_or_three: { (DIM ≡ 2) ⊎ (DIM ≡ 3) };

    ghost some_side: { pos 1 ≤ℤ MAX_SIDE };

    ghost flat_side: { MAX_SIDE ≤ℤ pos most_flat };

    ghost solid_side: { DIM ≡ 3 → MAX_SIDE ≤ℤ pos most_solid };

    ghost axes: { (p : Self) → length (coords p) ≡ DIM };

    ghost same: { (p q : Self) → coords p ≡ coords q → p ≡ q };

    ghost equal: { (p q : Self) → Self.eq p q ≡ true → p ≡ q };

    ghost in_raster_order: { (p q : Self) → Self.cmp p q ≡ raster_cmp (coords p) (coords q) };
}

/// A point of the plane: x grows to the right, y grows downwards.
///
/// The fields stand with the last axis first, since the derived order compares them in turn.
#[derive(Clone, Copy, Debug, PartialEq, Eq, PartialOrd, Ord)]
pub struct P2 {
    pub y: i32,
    pub x: i32,
}

impl Point for P2 {
    ghost DIM = { 2 };

    const DIM: usize = 2;

    ghost MAX_SIDE = { pos most_flat };

    const MAX_SIDE: i32 = MOST_FLAT;

    ghost coords = { λ p. p.x ∷ p.y ∷ [] };

    ghost two_or_three = { inl refl };

    ghost some_side = { Prim.omega (arith, ints) };

    ghost flat_side = { Prim.omega (arith, ints) };

    ghost solid_side = { λ e. Prim.omega (arith, ints) };

    ghost axes = { λ p. refl };

    ghost same = { same_flat };

    ghost equal = { equal_flat };

    ghost in_raster_order = { Prim.search rules };

    fn origin() -> P2 {
        P2 { x: 0, y: 0 }
    }

    fn coord(&self, k: usize) -> i32 {
        if k == 0 { self.x } else { self.y }
    }

    fn with(&self, k: usize, v: i32) -> P2 {
        if k == 0 {
            P2 { x: v, y: self.y }
        } else {
            P2 { x: self.x, y: v }
        }
    }
}
