//! The judges of the lines of an outline: contours with their segments, and faces with their planes. Each tells whether the next line is good after those taken.
//! They trace contours and find exposed points by themselves, and stand on no crate that finds segments or patches.
#![tactic(auto)]

mod beside;
mod contour_round;
mod cover_judge;
mod face;
mod lately;
mod listed;
mod numbered;
mod patch_round;
mod plane_judge;
mod recent;
mod segment;

pub use cover_judge::CoverJudge;
pub use plane_judge::PlaneJudge;
