//! The lines of a report in order, as they are read one after another, a sketch of what they say of the points of a box, and bytes that are made of them.
//! No claim is judged; a program that makes something of a report is a further sketch, and one more `impl` of `Making`.
#![tactic(auto)]

mod fault;
mod heading;
mod law;
mod make;
mod making;
mod making_law;
mod opening;
mod ordered;
mod outcome;
mod read;
mod seen;
mod sketch;
mod top;

pub use fault::ReportFault;
pub use heading::read_opening;
pub use law::{holding_tells, one_reading};
pub use making::Making;
pub use making_law::{
    bounded_products_are_complete, flat_products_are_complete, one_making, products_are_complete,
    reports_are_made, solid_products_are_complete,
};
pub use opening::{Heading, Opening};
pub use outcome::Outcome;
pub use read::read_lines;
pub use seen::Seen;
pub use sketch::Sketch;
pub use top::{run_flat, run_named, run_solid, run_up_to};
