//! Local thickness: for each point the greatest ball of the object that holds it.
//! Contracts see the squares of these balls, and nothing of how they are found.
#![tactic(auto)]

mod canvas;
mod centres;
mod depths;
mod laws;
mod paint;
mod thickness;

pub use laws::{greatest_are_thicknesses, no_thinner, one_list, one_thickness};
pub use thickness::greatest;
