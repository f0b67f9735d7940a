//! The outcomes of the top call, with the status, the text and the number that the program shows of each.
//! A further outcome or fault is one more case of each `match`.
ghost use Rattle.std.specs.Prelude.{◌≡◌};
ghost use Rattle.shape_cli.specs.Outcomes.{status_of, message_of, number_of, fault_message, fault_place, refusal_of};

use crate::further::usage;
use shape_picture::{PictureError, PictureFault};

/// How a run ended.
#[derive(Clone, Copy, Debug, PartialEq, Eq)]
pub enum Outcome {
    /// The whole report was written.
    Done,
    /// The report holds of the picture, and `yes` was written.
    Yes,
    /// The report does not hold: this is its first bad line, from 1 on, and `no` and its number were written.
    No { line: u64 },
    /// The words are of no form.
    Usage,
    /// The file spells no picture.
    Picture(PictureFault),
    /// A read failed, or a file is missing.
    ReadFault,
    /// A write failed. A front of the output was written.
    WriteFault,
    /// Memory was wanted and there was none. Nothing was written.
    NoMemory,
}

impl Outcome {
    /// The exit status of the program.
    pub fn status(&self) -> u8
        ensures { result ≡ status_of self.now }
    {
        match self {
            Outcome::Done => 0,
            Outcome::Yes => 0,
            Outcome::No { line: _ } => 1,
            Outcome::Usage => 2,
            Outcome::Picture(_) => 3,
            Outcome::ReadFault => 4,
            Outcome::WriteFault => 5,
            Outcome::NoMemory => 6,
        }
    }

    /// What the program says of a refusal, and nothing of a success.
    pub fn text(&self) -> &'static str
        ensures { result.now ≡ message_of self.now }
    {
        match self {
            Outcome::Done => "",
            Outcome::Yes => "",
            Outcome::No { line: _ } => "",
            Outcome::Usage => usage(),
            Outcome::Picture(fault) => fault_text(*fault),
            Outcome::ReadFault => "read failed",
            Outcome::WriteFault => "write failed",
            Outcome::NoMemory => "no memory",
        }
    }

    /// The number that goes with the text: the place of a byte in the file, or a side.
    pub fn number(&self) -> Option<u64>
        ensures { result ≡ number_of self.now }
    {
        match self {
            Outcome::Picture(fault) => fault_number(*fault),
            _ => None,
        }
    }
}

fn fault_text(fault: PictureFault) -> &'static str
    ensures { result.now ≡ fault_message fault }
{
    match fault {
        PictureFault::NotPlain => "not a PBM",
        PictureFault::BadNumber { at: _ } => "bad header byte at",
        PictureFault::ZeroSide => "a side is zero",
        PictureFault::SideTooLarge { value: _ } => "a side is too large:",
        PictureFault::BadByte { at: _ } => "bad pixel at",
        PictureFault::Short { at: _ } => "picture ends early at",
        PictureFault::TooLong => "picture is too long",
        PictureFault::Trailing => "bytes after the volume",
    }
}

fn fault_number(fault: PictureFault) -> Option<u64>
    ensures { result ≡ fault_place fault }
{
    match fault {
        PictureFault::BadNumber { at } => Some(at),
        PictureFault::BadByte { at } => Some(at),
        PictureFault::Short { at } => Some(at),
        PictureFault::SideTooLarge { value } => Some(u64::from(value)),
        _ => None,
    }
}

// The outcome where there is no picture.
pub(crate) fn refused(error: PictureError) -> Outcome
    ensures { result ≡ refusal_of error }
{
    match error {
        PictureError::Bad(fault) => Outcome::Picture(fault),
        PictureError::ReadFault => Outcome::ReadFault,
        PictureError::NoMemory => Outcome::NoMemory,
    }
}
