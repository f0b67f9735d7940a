//! A run of a contour's steps along a line, as the program keeps it.
//! Which runs are kept, and what steps weigh along them, is told in `runs`.
ghost use Rattle.std.specs.Prelude.{◌≤◌, nat_abs};
ghost use Rattle.measure_terms.specs.Runs.{most_coefficient};

/// A run of steps along a line: the places of its first and last points, and the coefficients of x and y.
#[derive(Clone, Copy)]
pub(crate) struct Run {
    /// The first place.
    pub(crate) first: u32,
    /// The last place.
    pub(crate) last: u32,
    /// The coefficient of x.
    pub(crate) a: i32,
    /// The coefficient of y.
    pub(crate) b: i32,
    pub(crate) ghost small_a: { nat_abs a ≤ most_coefficient },
    pub(crate) ghost small_b: { nat_abs b ≤ most_coefficient },
}
