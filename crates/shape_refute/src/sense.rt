//! The sense of a face of a volume.
//! Which points are exposed there, and how they fall into patches, belongs elsewhere.

/// Towards which coordinates of its axis a face looks: the smaller ones or the greater ones.
#[derive(Clone, Copy, Debug, PartialEq, Eq)]
pub enum Sense {
    Minus,
    Plus,
}
