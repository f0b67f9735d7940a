//! Points of the plane and of space, and the boxes that pictures stand in.
//! A row of cells is the one thing here that takes memory; nothing here knows of pictures.
#![tactic(auto)]

mod counter;
mod crossing;
mod frac;
mod frame;
mod limits;
mod memory;
mod point;
mod row;
mod sides;
mod solid;
mod vector;

pub use counter::Steps;
pub use frac::Frac;
pub use frame::squared_distance;
pub use limits::{
    FAR, MOST_BYTES, MOST_COORDINATE, MOST_FLAT, MOST_FLAT_TRIAL, MOST_SOLID, MOST_SOLID_TRIAL,
    MOST_SPACING, MOST_WAY, are_limits,
};
pub use memory::NoMemory;
pub use point::{P2, Point};
pub use row::Row;
pub use sides::Sides;
pub use solid::P3;
pub use vector::dot;
