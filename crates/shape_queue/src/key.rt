//! Keys of points: a squared distance and a raster number.
//! How keys are ordered stands in `specs/Keys`.

/// A point in a queue: its squared distance and its raster number. The least key is taken first.
#[derive(Clone, Copy, Debug)]
pub struct Key {
    /// The squared distance to the background of the opening picture.
    pub distance: u32,
    /// The raster number.
    pub place: u32,
}
