//! What a place of the sheet shows.
ghost use Rattle.std.specs.Prelude.{◌≡◌};
ghost use Rattle.drawing.specs.Canvas.{nearer};

/// The nearest voxel that a place of the sheet shows.
#[derive(Clone, Copy)]
pub struct Cell {
    /// How many voxels it lies behind the face of the box.
    pub depth: u16,
    /// The number of its colour.
    pub colour: u8,
    /// The quarter of the box in which it lies, from 0, the nearest one, to 3.
    pub shade: u8,
}

/// What is shown where one more cell is laid on what was shown before.
pub(crate) fn nearer(before: Option<Cell>, cell: Cell) -> Option<Cell>
    ensures { result ≡ nearer before cell }
{
    match before {
        None => Some(cell),
        Some(b) => {
            if cell.depth < b.depth {
                Some(cell)
            } else {
                Some(b)
            }
        }
    }
}
