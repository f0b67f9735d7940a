//! The lower envelope of a row of parabolas, in time linear in the number of its cells, and the lines of an axis that rows are made of.
//! It knows rows and no pictures, so the finder of distances and the checker of them both stand on it.
#![tactic(auto)]

mod axis;
mod block;
mod lowest;

pub use axis::{line_count, line_start};
pub use block::{block_room, lines_beside, put_lines, take_lines};
pub use lowest::envelope;
