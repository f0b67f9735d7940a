//! A row of an object of the plane: where its first and its last point lie.
//! What lies between them does not matter here: the hull of an object is that of the ends of its rows.

/// A row of an object, from its first to its last spot.
#[derive(Clone, Copy)]
pub(crate) struct Row {
    /// How far it lies down.
    pub(crate) y: u16,
    /// Where its first spot lies.
    pub(crate) left: u16,
    /// Where its last spot lies.
    pub(crate) right: u16,
}
