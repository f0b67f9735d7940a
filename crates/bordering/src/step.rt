//! How a step of a contour changes the coordinates.
//! How the step between two points is found is told in `steps`.
ghost use Rattle.std.specs.Prelude.{◌≤◌, nat_abs};

/// How a step changes x and y: each by at most 1.
#[derive(Clone, Copy)]
pub(crate) struct Step {
    /// How it changes x.
    pub(crate) x: i64,
    /// How it changes y.
    pub(crate) y: i64,
    pub(crate) ghost small_x: { nat_abs x ≤ 1 },
    pub(crate) ghost small_y: { nat_abs y ≤ 1 },
}
