//! Cells: what is kept of each place of a box, for the places of an object alone where these are few; and the squared distances of the points of a box.
//! What a cell holds, and where distances come from, belongs to who fills them.
#![tactic(auto)]

mod cell;
mod cells;
mod counts;
mod few;
mod numbering;
mod squares;

pub use cell::Cell;
pub use cells::Cells;
pub use numbering::Numbering;
pub use squares::Squares;
