//! Pairings of adjacency, and the components of a picture's object and background.
//! Everything here is generic over the dimension.
#![tactic(auto)]

mod answers;
mod count;
mod exposed;
mod flood;
mod framed;
mod near;
mod number;
mod pairing;
mod picture;
mod places;
mod rows;
mod run;
mod solid;
mod store;

pub use answers::{Labels, Parts};
pub use exposed::expose;
pub use framed::end_in_row;
pub use near::NearNumbers;
pub use number::{is_inner, near_number};
pub use pairing::Pairing;
pub use picture::{labels, parts};
