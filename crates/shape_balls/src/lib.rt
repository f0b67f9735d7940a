//! The ball report of a picture: its object as a union of balls, none of them needless.
//! Contracts see the text and the balls that it lists, and nothing of how they are found.
#![tactic(auto)]

mod keep;
mod list;
mod make;
mod order;
mod report;
mod spell;

pub use judge_balls::Ball;
pub use make::balls;
pub use report::BallReport;
