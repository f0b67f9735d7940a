//! Standard segments of the crack paths of a flat picture: exactly the maximal runs of corners that standard lines hold, with the evidence that none is missing.
//! Contracts see corners, runs of them and standard lines, and nothing of how these are found.
#![tactic(auto)]

mod back;
mod edge;
mod entry;
mod fold;
mod grow;
mod line;
mod list;
mod push;
mod reach;
mod report;
mod start;
mod walk;

pub use judge_edges::{Arc, EdgeGap, Standard};
pub use list::EdgeCover;
pub use report::edges;
pub use walk::edge_cover;
