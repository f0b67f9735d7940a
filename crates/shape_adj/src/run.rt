//! Runs of places.
//! What stands at the places belongs elsewhere.

/// The places from one up to before another.
#[derive(Clone, Copy)]
pub struct Run {
    /// The first place.
    pub from: u32,
    /// The first place behind.
    pub until: u32,
}
