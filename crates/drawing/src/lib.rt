//! The drawing of a report, as an SVG: the layers of a flat picture, and the sheet of a volume, its box unfolded with three views of its skeleton.
//! A drawing judges no claim; a further layer is one more file, and a further part of the sheet is one more `Panel`.
#![tactic(auto)]

mod canvas;
mod cell;
mod contour_sketch;
mod dabs;
mod layers;
mod layout;
mod outlines;
mod pen;
mod pixels;
mod runs;
mod sheet;
mod sheet_law;
mod sheet_layers;
mod skeleton;
mod sketch;
mod svg;

pub use contour_sketch::ContourSketch;
pub use layers::{put_contours, put_head, put_object, scale_of, side};
pub use outlines::{Stroke, point_at};
pub use pixels::{Pixel, take_pixel};
pub use runs::put_runs;
pub use sheet::Sheet;
pub use sheet_law::{nearest_is_shown, voxels_have_places};
pub use sketch::FlatSketch;
pub use svg::Svg;
