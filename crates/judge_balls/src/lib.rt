//! Checking ball reports line by line: their lines, the judge of each, and what an answer means.
//! It finds nothing by itself but least distances, by the scans of the judge of fields, and stands on no crate that finds balls.
#![tactic(auto)]

mod check;
mod course;
mod judge;
pub mod law;
mod line;

pub use check::check_balls;
pub use line::{Ball, BallLine};
