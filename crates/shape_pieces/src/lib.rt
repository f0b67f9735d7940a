//! Splits of a contour, read as an open path, into the fewest straight pieces, and the report of them, which proves that no split has fewer.
//! Contracts see a split as a list of pieces and a report as its text, and nothing of how either is found.
#![tactic(auto)]

mod entry;
mod list;
mod piece;
mod push;
mod report;
mod walk;

pub use list::Split;
pub use report::pieces;
pub use walk::split;
