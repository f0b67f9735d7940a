//! The top call of the program: it does what the words of a command line say.
//! Everything that a user sees is an `Outcome`, or what was written to the desk.
#![tactic(auto)]

mod analysis;
mod balls;
mod command;
mod further;
mod kind;
mod laws;
mod making;
mod names;
mod numbers;
mod outcome;
mod output;
mod picture;
mod rules;
mod source;
mod top;
mod trial;
mod verdict;

pub use laws::{runs_are_complete, verdicts_are_right, words_are_of_one_command};
pub use outcome::Outcome;
pub use rules::shelf;
pub use shape_grid::make_picture;
pub use top::{is_no_form, run};
