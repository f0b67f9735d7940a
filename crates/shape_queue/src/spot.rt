//! Spots: what a queue knows of each place from its beginning on.
//! How ranks are told stands in `specs/Ranks`.

/// Where a place stands in the order of all keys.
#[derive(Clone, Copy, Debug)]
pub(crate) struct Spot {
    /// How many places have a smaller key.
    pub(crate) rank: u32,
    /// The squared distance of the place.
    pub(crate) distance: u32,
}
