//! Masks of a report: the points left, the object, the distances, their squares or the thickness, as raw pictures that other tools read.
//! No claim is judged; what is masked is what `report_lines` sees of the report.
#![tactic(auto)]

mod bits;
mod distances;
mod header;
mod law;
mod mask;
mod squares;
mod thickness;
mod top;
mod voxels;

pub use law::{masks_are_pictures, masks_of_what_holds};
pub use mask::Mask;
pub use report_lines::Outcome;
pub use thickness::greatest_balls;
pub use top::{USAGE, run};
