//! The drawing of a report: of a flat picture the layers of `drawing`, with the numbers of its objects on top where they are
//! wanted, or the contours alone, or a further report over the object; and of a volume its unfolded box.
//! No claim of a report is judged; a further kind of report is an `impl` of `OverLine`, a variant of `Kind`, and a layer of its own.
#![tactic(auto)]

mod analysis;
mod axes;
mod balls;
mod borders;
mod drawings;
mod edges;
mod fault;
mod further;
mod gatherer;
mod kind;
mod law;
mod measure_drawing;
mod measure_layer;
mod measure_lines;
mod measured;
mod numbered;
mod numbers;
mod over;
mod over_layers;
mod over_line;
mod overlay;
mod part;
mod pieces;
mod read;
mod top;

pub use drawings::{ContourDrawings, Drawings, NumberedDrawings};
pub use fault::OverFault;
pub use kind::Kind;
pub use law::{
    holding_is_drawn, holding_is_measured, holding_is_numbered, large_drawings_are_refused,
    measures_are_drawn,
};
pub use measure_drawing::MeasureDrawings;
pub use numbered::Numbered;
pub use overlay::overlaid;
pub use report_lines::Outcome;
pub use top::{USAGE, run};
