//! The table of the objects that a report speaks of: what `measuring` makes of what it says of the points of its box, `bordering` of
//! its contours, and `measuring` again of the labels of its objects; and the numbers of the whole object.
//! No claim of the report is judged.
#![tactic(auto)]

mod borders;
mod columns;
mod ferets;
mod further;
mod groups;
mod hulls;
mod law;
mod minkowski;
mod moment_columns;
mod outlined;
mod ratios;
mod tables;
mod thickness;
mod top;
mod wanted;
mod wholes;

pub use groups::Groups;
pub use law::{holding_measures, tables_are_one, tables_of_what_holds};
pub use outlined::Outlined;
pub use report_lines::Outcome;
pub use tables::Tables;
pub use top::{USAGE, run};
pub use wanted::Wanted;
pub use wholes::Wholes;
