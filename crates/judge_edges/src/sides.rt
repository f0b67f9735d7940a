//! The sides of a flat picture, as a report tells them.
//! How a picture is read belongs elsewhere.
ghost use Rattle.std.specs.Prelude.{◌≡◌, [], ◌∷◌};

use shape_grid::Grid;
use shape_space::P2;

/// The sides of a flat picture.
#[derive(Clone, Copy, Debug, PartialEq, Eq)]
pub struct FlatSides {
    /// The number of columns.
    pub width: u32,
    /// The number of rows.
    pub height: u32,
}

/// The sides of a picture.
pub fn flat_sides(grid: &Grid<P2>) -> FlatSides
    ensures { grid.now.sides ≡ result.width ∷ result.height ∷ [] }
{
    let sides = grid.sides();
    FlatSides {
        width: sides.side(0) as u32,
        height: sides.side(1) as u32,
    }
}
