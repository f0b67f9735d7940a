//! What is told of the components of a picture: their numbers, and a label for each point.
//! How the components are found does not show here.
ghost use Rattle.std.specs.Prelude.{◌≡◌, ◌<◌, length, slice_index};

use std::marker::Model;

/// How many components a picture's object and background have.
#[derive(Clone, Copy, Debug, PartialEq, Eq)]
pub struct Parts {
    /// The components of the object, adjacent by near neighbours.
    pub object: u32,
    /// The components of the background in the framed box, adjacent by side neighbours.
    pub background: u32,
}

/// A label for each point of a picture's box: the number of its component, or 0 for background.
///
/// Contracts see it as the list of the labels in raster order.
#[derive(Drop)]
pub struct Labels {
    values: Vec<u32>,
}

impl Model for Labels {
    ghost use Rattle.std.specs.Prelude.{List, ℕ};

    ghost Value = { List ℕ };

    ghost view = { λ l. l.values.items };
}

impl Labels {
    // The labels in raster order of the box.
    pub(crate) fn of(values: Vec<u32>) -> Labels
        ensures { result ≡ values.items }
    {
        Labels { values }
    }

    /// The label of the point with a raster number.
    pub fn label(&self, i: u32) -> u32
        requires { i < length self.now }
        ensures { result ≡ slice_index self.now i }
    {
        self.values[i as usize]
    }
}
