//! The checker: whether a report holds of a picture, and else which of its lines is the first bad one.
//! It goes through the report line by line, follows the thinning by the steps of `shape_thin`, and asks nothing that analyses pictures or lists events.
#![tactic(auto)]

mod check;
mod counts;
mod distances;
mod end;
mod events;
mod heading;
mod judged;
mod judges;
pub mod law;
mod outline;
mod sections;
mod then;
mod thinned;
mod uncounted;
mod whole;

pub use check::{check_flat, check_solid};
pub use distances::distances_of;
pub use events::ThinJudge;
pub use report_text::{CheckFault, Judgement};
