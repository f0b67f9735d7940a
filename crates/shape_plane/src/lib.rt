//! Naive lines and planes that hold lists of points, or the weights that show that none does; and faces of volumes, in patches.
//! Slopes are eliminated one after the other, and each inequality keeps the two rows that it came from. Everything is exact, and one body serves each dimension.
#![tactic(auto)]

mod answer;
mod around;
mod bound;
mod combination;
mod eliminate;
mod exact;
mod extreme;
mod face;
mod grow;
mod growing;
mod held;
mod known;
mod pair;
mod parts;
mod patch;
mod products;
mod range;
mod refusals;
mod row;
mod span;
mod system;
mod told;
mod values;
mod verdict;
mod weights;
mod whole;

pub use answer::{Slopes, Solved};
pub use face::patches;
pub use growing::{Added, Growing};
pub use known::{Known, Mark};
pub use pair::Pair;
pub use parts::Parting;
pub use patch::Patch;
pub use verdict::{Verdict, decide};
pub use whole::solve;
