//! A label for each point of a box, as the pass over its points asks for it.
//! What the labels mean is known to the caller; another source of labels is one more `impl`.
ghost use Rattle.std.specs.Prelude.{◌≡◌, ◌<◌, ℕ, List, length, slice_index};

use shape_adj::Labels;
use shape_grid::Grid;
use shape_space::Point;

/// A label for each point of a box.
pub(crate) trait Labelling {
    /// The labels in raster order.
    ghost labels: { Self → List ℕ };

    /// The label of the point with a raster number.
    fn label_at(&self, i: u32) -> u32
        requires { i < length (labels self.now) }
        ensures { result ≡ slice_index (labels self.now) i };
}

/// The labels of components.
impl Labelling for Labels {
    ghost labels = { λ l. l };

    fn label_at(&self, i: u32) -> u32 {
        self.label(i)
    }
}

/// One label for the whole object.
impl<P: Point> Labelling for Grid<P> {
    ghost use Rattle.measuring.specs.Marks.{one_label};

    ghost labels = { λ g. one_label g };

    fn label_at(&self, i: u32) -> u32 {
        self.values().get(i as usize) as u32
    }
}
