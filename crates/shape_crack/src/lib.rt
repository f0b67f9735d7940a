//! Cracks of flat pictures and the contours that they make: each contour once, from its least crack.
//! Contracts see contours as the definitions of `shape_terms` do, and nothing of how they are found.
#![tactic(auto)]

mod contour;
mod crack;
mod cycles;
mod list;
mod marks;

pub use contour::{Contour, GREATEST_SIDE};
pub use crack::{Crack, successor};
pub use cycles::contours;
pub use list::Contours;
