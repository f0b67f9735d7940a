//! Keys with their ranks.
//! How ranks are told stands in `specs/Ranks`.
use crate::key::Key;

/// A key with its rank.
#[derive(Clone, Copy, Debug)]
pub(crate) struct RankedKey {
    /// How many places have a smaller key.
    pub(crate) rank: u32,
    /// The key.
    pub(crate) key: Key,
}
