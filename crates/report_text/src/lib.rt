//! Texts of lines as programs read and write them: words and fields, the next line, a report as it is built, and its check.
//! Which lines a kind of report has and which are good is told by its `impl` of `ReportLine` and of `ReportJudge`.
#![tactic(auto)]

mod answer;
mod check;
pub mod field;
mod front;
mod front_why;
mod judge;
mod kinds;
pub mod law;
mod line;
mod next;
mod page;
mod put_weights;
mod report;
mod table;
mod text;
mod why;
mod words;

pub use answer::{CheckFault, Judgement};
pub use check::{check_by, check_from};
pub use front::{Field, short_count, short_flat_axis, short_point, short_signed};
pub use front_why::short_why;
pub use judge::ReportJudge;
pub use kinds::kind;
pub use line::ReportLine;
pub use next::{Next, ReadFault, next_line};
pub use page::Page;
pub use put_weights::put_why;
pub use report::{Report, WriteFault, write_report};
pub use table::{TableLine, read_line, spell_line};
pub use text::Text;
pub use why::read_why;
pub use words::Words;
