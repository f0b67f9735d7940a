//! The events of a thinning.
//! How a list of them is kept stands in `thinning.rt`.

/// What happens to the next point of a thinning.
#[derive(Clone, Copy, Debug, PartialEq, Eq)]
pub enum Event<P> {
    /// The point is deleted.
    Del(P),
    /// The point is marked as an end, and kept.
    Tip(P),
}
