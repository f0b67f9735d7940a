//! Analysis: finds what the report of a picture tells, and tells it; the report holds of the picture.
//! One function adds the lines of each section; what the lines claim is found by the crates below.
#![tactic(auto)]

mod begin;
mod contour;
mod faces;
mod findings;
mod outline;
mod tally;
mod thinning;

pub use findings::{Findings, find_flat, find_solid};
pub use tally::{Extent, Tally};
