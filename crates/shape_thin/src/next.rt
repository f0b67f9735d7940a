//! The next point of a thinning, with what a rule is told of it.
//! Which point this is belongs to `thinner.rt`.

use shape_rules::Facts;

/// The next point of a thinning.
#[derive(Clone, Copy, Debug)]
pub struct Next<P> {
    /// The point.
    pub point: P,
    /// Its raster number.
    pub place: u32,
    /// What a rule is told of it.
    pub facts: Facts,
    // Its near neighbours that are left: bit k is set for neighbour k.
    pub(crate) mask: u32,
}
