//! The readers of PBM pictures and of raw volumes: the grid that each gives is the picture that the bytes spell.
//! Callers need `read_pbm`, `read_raw`, their errors and the laws; everything else is the readers' own.
#![tactic(auto)]

mod bytes;
mod fault;
mod header;
mod laws;
mod pbm;
mod raster;
mod rows;
mod volume;

pub use fault::{PictureError, PictureFault};
pub use laws::{one_answer, one_volume};
pub use pbm::{MOST_SIDE, read_pbm};
pub use volume::read_raw;
