//! The points of space.
//! What a point is, `point.rt` says; nothing but the number of axes is this file's own.
ghost use Rattle.std.specs.Prelude.{◌∷◌, [], pos};
ghost use Rattle.std.proofs.Common.{rules, arith, inr, refl};
ghost use Rattle.std.proofs.lemmas.Int.{ints};
ghost use Rattle.shape_terms.specs.Limits.{most_solid};
ghost use Rattle.shape_space.specs.Laws.{same_solid, equal_solid};

use crate::limits::MOST_SOLID;
use crate::point::Point;

/// A point of space: x grows to the right, y downwards, and z with the layer.
///
/// The fields stand with the last axis first, since the derived order compares them in turn.
#[derive(Clone, Copy, Debug, PartialEq, Eq, PartialOrd, Ord)]
pub struct P3 {
    pub z: i32,
    pub y: i32,
    pub x: i32,
}

impl Point for P3 {
    ghost DIM = { 3 };

    const DIM: usize = 3;

    ghost MAX_SIDE = { pos most_solid };

    const MAX_SIDE: i32 = MOST_SOLID;

    ghost coords = { λ p. p.x ∷ p.y ∷ p.z ∷ [] };

    ghost two_or_three = { inr refl };

    ghost some_side = { Prim.omega (arith, ints) };

    ghost flat_side = { Prim.omega (arith, ints) };

    ghost solid_side = { λ e. Prim.omega (arith, ints) };

    ghost axes = { λ p. refl };

    ghost same = { same_solid };

    ghost equal = { equal_solid };

    ghost in_raster_order = { Prim.search rules };

    fn origin() -> P3 {
        P3 { x: 0, y: 0, z: 0 }
    }

    fn coord(&self, k: usize) -> i32 {
        match k {
            0 => self.x,
            1 => self.y,
            _ => self.z,
        }
    }

    fn with(&self, k: usize, v: i32) -> P3 {
        match k {
            0 => P3 {
                x: v,
                y: self.y,
                z: self.z,
            },
            1 => P3 {
                x: self.x,
                y: v,
                z: self.z,
            },
            _ => P3 {
                x: self.x,
                y: self.y,
                z: v,
            },
        }
    }
}
