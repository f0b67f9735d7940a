//! End rules of thinnings: what a rule is, the rules of the program, their names, and shelves of them.
//! Rules are boxed objects that the caller makes; nothing here takes memory.
#![tactic(auto)]

mod boxed;
mod ends;
mod name;
mod rule;
mod shelf;

pub use boxed::{ask, begin};
pub use ends::{CurveEnds, FewEnds, NoEnds};
pub use name::Name;
pub use rule::{EndRule, Facts};
pub use shelf::{Entry, Shelf};
