//! How long the sides of a voxel are along each axis.
//! The greatest side stands with the other bounds; how words spell a spacing, in `spelled.rt`.
ghost use Rattle.measure_terms.specs.Spacing.{IsSpacing};

/// The sides of a voxel along x, y and z, in one unit of length: each is at least 1 and at most the greatest.
#[derive(Clone, Copy, Debug, PartialEq, Eq)]
pub struct Spacing {
    /// The side along x.
    pub x: u16,
    /// The side along y.
    pub y: u16,
    /// The side along z.
    pub z: u16,
    ghost sides: { IsSpacing (record { x = x; y = y; z = z }) },
}
