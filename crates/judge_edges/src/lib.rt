//! The corner paths of the cracks of a flat picture, standard lines, arcs, their evidence and the lines of an edge report; and the judge of these lines.
//! The judge stands on the definitions and on small tests, and on nothing that finds arcs; makers and drawings share the forms.
#![tactic(auto)]

mod arc;
mod begins;
mod bend;
mod check;
mod corners;
mod cycles;
mod evidence;
mod fold;
mod gap;
mod holding;
mod judge;
mod law;
mod line;
mod put;
mod read;
mod shear;
mod sides;
mod stage;
mod standard;
mod ways;
mod whole;

pub use arc::Arc;
pub use begins::corner;
pub use check::check_edges;
pub use corners::{Corners, corner_path};
pub use cycles::{Cycle, Cycles, all_cycles};
pub use gap::EdgeGap;
pub use law::edges_holding_shows;
pub use line::{EdgeLine, SeenEdgeLine};
pub use shear::sheared;
pub use sides::{FlatSides, flat_sides};
pub use standard::Standard;
pub use ways::{Step, Way, Ways, sign, step_between};
