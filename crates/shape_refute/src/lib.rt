//! Naive lines and planes, the weights that refute them, the turns of runs, the places of stretches, the pairs that show a line to be least, and the sense of a face.
//! Everything is exact for every value of every field, and takes no memory.
#![tactic(auto)]

mod bound;
mod bounds;
mod exact;
mod naive;
mod places;
mod range;
mod refusal;
mod refutation;
mod segment;
mod sense;
mod share;
mod slopes;
mod turn;

pub use bounds::{Bounds, is_least};
pub use naive::{Naive, holds, is_proper};
pub use places::{Places, come_next};
pub use refusal::{Refusal, refuses};
pub use refutation::{Refutation, refutation_excludes, refutes};
pub use segment::holds_segment;
pub use sense::Sense;
pub use share::{Share, Shares, Step, StepShare, StepShares};
pub use turn::{Turn, turns};
