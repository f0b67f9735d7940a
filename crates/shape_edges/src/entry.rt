//! What a cover keeps of one arc.
//! How arcs are found belongs elsewhere.
use judge_edges::{Arc, EdgeGap};

/// An arc, and why the gap after it is not straight.
#[derive(Clone, Copy)]
pub struct Entry {
    /// The arc.
    pub arc: Arc,
    /// Why the gap after it is not straight.
    pub gap: EdgeGap,
}
