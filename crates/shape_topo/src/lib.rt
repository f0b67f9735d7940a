//! Topological numbers and simple points, by masks of near neighbours.
//! Everything here is generic over the dimension; the grid that tells masks takes memory, and nothing else.
#![tactic(auto)]

mod count;
mod joined;
mod links;
mod mask;
mod masked;
mod number;
mod simple;
mod spread;
mod table;

pub use mask::mask_of;
pub use masked::MaskedGrid;
pub use number::{background_number, object_number};
pub use simple::{SimpleMask, is_simple};
