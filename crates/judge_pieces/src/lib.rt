//! The lines of a report of straight pieces, the judge of them, and the check of such a report.
//! It traces the contours of the picture once, tests what the lines say of them, and stands on no crate that finds pieces.
#![tactic(auto)]

mod check;
mod judge;
mod law;
mod line;
mod lister;
mod phase;
mod put;
mod read;
mod stand;

pub use check::check_pieces;
pub use law::pieces_holding_shows;
pub use line::PieceLine;
