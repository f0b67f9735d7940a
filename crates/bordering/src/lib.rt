//! The borders of a report of a flat picture: the length of each by the segments of its contour, and what those of each object add up to.
//! It judges no claim and labels no object: lines and labels come from the caller.
#![tactic(auto)]

mod along;
mod border;
mod cells;
mod contours;
mod holes;
mod law;
mod length;
mod objects;
mod quotient;
mod run;
mod runs;
mod step;
mod steps;
mod total;
mod totals;

pub use border::{Border, Start};
pub use contours::Contours;
pub use holes::{contours_bound_components, holes_are_those_of_the_component};
pub use law::{borders_depend_on_the_picture, holding_tells_borders, shares_are_rounded_down};
pub use objects::{Bounds, object_bounds};
pub use total::Total;
pub use totals::thousandths;
