//! Why the one report was not drawn over the other.
use report_lines::ReportFault;
use thiserror::Error;

/// Why a further report was not drawn over an analysis.
#[derive(Clone, Copy, Debug, PartialEq, Eq, Error)]
pub enum OverFault {
    /// The analysis was not read. That of a volume is no report from its line 1 on.
    #[error("the analysis: {0}")]
    Analysis(ReportFault),
    /// The further report is none: this line, from 1 on, is the first one that is missing, misspelt, longer than 1024 bytes or
    /// without LF, a further heading, or behind `end`; or it is the first of all, and no heading of a kind with the sides of the
    /// analysis.
    #[error("line {line} is no line of a further report here")]
    NotOver { line: u64 },
    /// A call of the desk failed while the further report was read, or its file is missing.
    #[error("the further report could not be read")]
    ReadFault,
    /// Memory was wanted and there was none, or there were more than 2^61 lines.
    #[error("there was not enough memory")]
    NoMemory,
}
