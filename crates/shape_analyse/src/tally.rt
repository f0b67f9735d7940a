//! The numbers of a picture and of its thinning, which its findings give beside their report.
//! A further number is a field here and a clause of `specs/Tallies.antt`.
use shape_adj::Parts;

/// How much outline a picture has.
#[derive(Clone, Copy, Debug, PartialEq, Eq)]
pub enum Extent {
    /// The contours of a flat picture, and the maximal segments of all of them.
    Contours { contours: u32, segments: u64 },
    /// The exposed points of the six faces of a volume; a point counts once for each face that it is exposed in.
    Faces { exposed: u64 },
}

/// The numbers of a picture and of its thinning by a rule.
#[derive(Clone, Copy, Debug, PartialEq, Eq)]
pub struct Tally {
    /// The object points.
    pub points: u32,
    /// The components of the object and of the background.
    pub parts: Parts,
    /// How much outline there is.
    pub extent: Extent,
    /// The events of the thinning.
    pub events: u32,
    /// The points that it leaves.
    pub kept: u32,
}
