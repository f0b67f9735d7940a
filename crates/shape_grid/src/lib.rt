//! A picture that is changed in place, as a set of object points in a box; below it rows of truth values and sets of numbers as bits; above it the picture of a seed.
//! Contracts see a grid as the picture of `shape_terms`, and nothing of how it is kept; what numbers and places of bits stand for belongs to who fills them.
#![tactic(auto)]

mod ball;
mod bits;
mod draws;
mod grid;
mod levels;
mod numbers;
mod paint;
mod picture;
mod runs;
mod stretches;
mod words;

pub use bits::Bits;
pub use grid::{Grid, Objects};
pub use numbers::Numbers;
pub use picture::make_picture;
