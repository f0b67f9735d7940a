//! The moments of one object.
//! A further sum is one more field here and of `MomentsTold`; its bound stands in `MomentsFitting`.
ghost use Rattle.measuring.specs.MomentsFitting.{Fitting};

use std::alloc::AllocError;

/// How many points an object has, the sums of their coordinates, and the sums of the products of two coordinates. In the plane
/// the sums with z are 0.
pub struct Moments {
    /// How many points it has.
    pub count: u32,
    /// The sum of x.
    pub x: u64,
    /// The sum of y.
    pub y: u64,
    /// The sum of z.
    pub z: u64,
    /// The sum of x * x.
    pub xx: u64,
    /// The sum of x * y.
    pub xy: u64,
    /// The sum of y * y.
    pub yy: u64,
    /// The sum of x * z.
    pub xz: u64,
    /// The sum of y * z.
    pub yz: u64,
    /// The sum of z * z.
    pub zz: u64,
    ghost fits: { Fitting count x y z xx xy yy xz yz zz },
}

impl Clone for Moments {
    ghost use Rattle.std.specs.Prelude.{◌≡◌, ⊤};

    ghost is_clone = { λ m n. n ≡ m };

    ghost is_infallible = { λ _. ⊤ };

    fn clone(&self) -> Result<Moments, AllocError> {
        Ok(*self)
    }
}

impl Copy for Moments {}
