//! Why the lines of a report were not read to their end.
use thiserror::Error;

/// Why the lines of a report were not read to their end.
#[derive(Clone, Copy, Debug, PartialEq, Eq, Error)]
pub enum ReportFault {
    /// The text is no report: this line, from 1 on, is the first one that is missing, misspelt, longer than 1024 bytes or without
    /// LF, of an earlier section than one before it, behind `end`, or no heading though it comes first.
    #[error("line {line} is no line of a report here")]
    NotReport { line: u64 },
    /// A call of the desk failed.
    #[error("the report could not be read")]
    ReadFault,
    /// Memory was wanted and there was none, or there were more than 2^61 lines.
    #[error("there was not enough memory")]
    NoMemory,
}
