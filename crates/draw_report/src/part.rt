//! What the lines of further reports give to a drawing.
//! A further thing to draw is a variant of `Mark` here, one of the definitions, and a layer that draws it.
use shape_space::P2;

/// What is drawn of a line.
#[derive(Clone, Copy)]
pub enum Mark {
    /// A ball: its centre, and the square of its radius.
    Ball { centre: P2, square: u64 },
    /// The next border begins.
    Border,
    /// A stretch of the border that was begun last: the places of its ends.
    Along { first: u32, last: u32 },
}

/// A line as far as a drawing goes.
#[derive(Clone, Copy)]
pub enum Part {
    /// The heading, with the sides of the picture.
    Heading { width: i64, height: i64 },
    /// A line that gives a mark.
    Gives(Mark),
    /// A line that gives nothing.
    Quiet,
    /// The last line.
    End,
}
