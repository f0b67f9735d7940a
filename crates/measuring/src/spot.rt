//! Spots: points of a box of the plane.
//! What is made of them stands elsewhere.

/// A point of a box of the plane, by its coordinates.
#[derive(Clone, Copy, Debug, PartialEq, Eq)]
pub(crate) struct Spot {
    /// How far it lies to the right.
    pub(crate) x: u16,
    /// How far it lies down.
    pub(crate) y: u16,
}
