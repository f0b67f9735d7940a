//! The outcomes of a run, with the status, the text and the number that the program shows of each.
//! A further outcome is one more case of each `match`.
ghost use Rattle.std.specs.Prelude.{◌≡◌};
ghost use Rattle.report_lines.specs.Outcomes.{status_of, message_of, number_of, refusal_of};

use crate::fault::ReportFault;

/// How a run ended.
#[derive(Clone, Copy, Debug, PartialEq, Eq)]
pub enum Outcome {
    /// All that is made was written.
    Done,
    /// The words are none that the program takes.
    Usage,
    /// The file is no report, from this line on.
    NotReport { line: u64 },
    /// The file of the second report is none that goes with the first, from this line on.
    NotOver { line: u64 },
    /// What is made of the report has more bytes than are written of a flat picture. Nothing was written.
    TooLarge,
    /// The report is that of a flat picture, and what is wanted is made of volumes alone. Nothing was written.
    NotSolid,
    /// The report is one of a volume, and only of a flat picture something is made. Nothing was written.
    NotFlat,
    /// A read failed, or the file is missing.
    ReadFault,
    /// A write failed. A front of what is made was written.
    WriteFault,
    /// Memory was wanted and there was none. Nothing was written.
    NoMemory,
}

impl Outcome {
    /// The exit status of the program.
    pub fn status(&self) -> u8
        ensures { result ≡ status_of self.now }
    {
        match self {
            Outcome::Done => 0,
            Outcome::Usage => 2,
            Outcome::NotReport { line: _ } => 3,
            Outcome::NotOver { line: _ } => 3,
            Outcome::TooLarge => 3,
            Outcome::NotSolid => 3,
            Outcome::NotFlat => 3,
            Outcome::ReadFault => 4,
            Outcome::WriteFault => 5,
            Outcome::NoMemory => 6,
        }
    }

    /// What a program with this usage says of a refusal, and nothing of a success.
    pub fn text(&self, usage: &'static str) -> &'static str
        ensures { result.now ≡ message_of usage.now self.now }
    {
        match self {
            Outcome::Done => "",
            Outcome::Usage => usage,
            Outcome::NotReport { line: _ } => "not a report at",
            Outcome::NotOver { line: _ } => "the second is no report over the first at",
            Outcome::TooLarge => {
                "the drawing is too large; draw contours draws the contours alone"
            }
            Outcome::NotSolid => "the report is of a flat picture; spacing is for volumes",
            Outcome::NotFlat => {
                "the report is one of a volume; draw measures draws flat pictures alone"
            }
            Outcome::ReadFault => "read failed",
            Outcome::WriteFault => "write failed",
            Outcome::NoMemory => "no memory",
        }
    }

    /// The number that goes with the text: that of a line.
    pub fn number(&self) -> Option<u64>
        ensures { result ≡ number_of self.now }
    {
        match self {
            Outcome::NotReport { line } => Some(*line),
            Outcome::NotOver { line } => Some(*line),
            _ => None,
        }
    }
}

// The outcome where nothing is made.
pub(crate) fn refused(fault: ReportFault) -> Outcome
    ensures { result ≡ refusal_of fault }
{
    match fault {
        ReportFault::NotReport { line } => Outcome::NotReport { line },
        ReportFault::ReadFault => Outcome::ReadFault,
        ReportFault::NoMemory => Outcome::NoMemory,
    }
}
