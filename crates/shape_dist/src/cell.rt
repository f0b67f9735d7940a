//! What a cell keeps of a nearest background point: the square of its distance, with the point or without it.
//! A further kind of cell is one more `impl`.
ghost use Rattle.std.specs.Prelude.{◌≡◌, ◌+◌, ◌<◌, ◌^◌, ℕ, refl};
ghost use Rattle.shape_dist.specs.Keepings.{Keeping, square_keeping, point_keeping};

use crate::found::Found;
use shape_cells::Cell;

/// A cell that a transform of distances fills: it keeps the square of a distance, and what else is wanted of the nearest point.
pub trait Spreading: Cell {
    /// What is kept, and how it changes with a way.
    ghost keeping: { Keeping Self };

    /// What is kept of the framed point with a number at a squared distance.
    fn of(q: u32, s: u32) -> Self
        ensures { result ≡ keeping.of q s };

    /// The square that is kept.
    fn square(self) -> u32
        ensures { result ≡ keeping.square self };

    /// What is kept of the same point where so much is added to the square.
    fn moved(self, more: u32) -> Self
        requires { keeping.square self + more < 2 ^ 32 }
        ensures { result ≡ keeping.moved self more };

    ghost itself: { (i : ℕ) → Self.bare i ≡ keeping.of i 0 };
}

// The square alone, of a distance transform.
impl Spreading for u32 {
    ghost keeping = { square_keeping };

    ghost itself = { λ i. refl };

    fn of(_q: u32, s: u32) -> u32 {
        s
    }

    fn square(self) -> u32 {
        self
    }

    fn moved(self, more: u32) -> u32 {
        self + more
    }
}

// The square and the point, of a feature transform.
impl Spreading for Found {
    ghost keeping = { point_keeping };

    ghost itself = { λ i. refl };

    fn of(q: u32, s: u32) -> Found {
        Found { q, s }
    }

    fn square(self) -> u32 {
        self.s
    }

    fn moved(self, more: u32) -> Found {
        Found {
            q: self.q,
            s: self.s + more,
        }
    }
}
