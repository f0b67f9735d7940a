//! The segments that the judge keeps of a contour: their places, and the lines that hold their points.
//! What places may come next, and whether a line holds a segment, is told in `shape_refute`.
use shape_refute::{Naive, Places};

/// A segment: its places, and a line that holds its points.
#[derive(Clone, Copy)]
pub struct Segment {
    /// The places.
    pub places: Places,
    /// The line.
    pub line: Naive,
}
