//! Reports: their lines, the spelling of a line, and the writing of a whole report.
//! Spelling and lines are one to one; what a line claims of a picture is judged elsewhere.
#![tactic(auto)]

mod claim;
mod field;
mod front;
mod law;
mod line;
mod read;
mod spell;

pub use front::read_front;
pub use law::one_spelling;
pub use line::{Line, SeenLine};
pub use read::read_claim;
pub use report_text::{ReadFault, Report, WriteFault, write_report};
