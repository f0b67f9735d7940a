//! The groups of columns that a table has where they are asked for.
//! A further group is one more field here and one more word in `wanted`; what stands in its columns is told in a module of its own.

ghost use Rattle.std.specs.Prelude.{◌≡◌};
ghost use Rattle.measure_report.specs.FurtherColumns.{tells_distances};

use measuring::Spacing;

/// The groups of columns that few tables need, and the unit of those of volumes.
#[derive(Clone, Copy, Debug, PartialEq, Eq)]
pub struct Groups {
    /// The second moments of each object, and in the plane the axes of its ellipse.
    pub moments: bool,
    /// The local thickness of each object.
    pub thickness: bool,
    /// How long the sides of a voxel are, where volumes and surfaces are told by them.
    pub spacing: Option<Spacing>,
}

impl Groups {
    // Whether the table of a volume tells distances.
    pub(crate) fn tells_distances(&self) -> bool
        ensures { result ≡ tells_distances self.now 3 }
    {
        match self.spacing {
            Some(_) => false,
            None => true,
        }
    }
}
