//! What can be wrong with the bytes of a picture, and why a call gave none.
//! A further format brings its own faults; the exact place of each is said in `specs/Pbm.antt` and `specs/Raw.antt`.
ghost use Rattle.std.specs.Prelude.{◌≡◌};
ghost use Rattle.shape_picture.specs.declared.fault.PictureError.TheVariants.{NoMemory, ReadFault};

use shape_desk::Failed;
use shape_space::NoMemory;
use thiserror::Error;

/// What is wrong with the bytes of a picture. The first byte that decides, in file order, decides the fault.
///
/// Places of bytes count from 0.
#[derive(Clone, Copy, Debug, PartialEq, Eq)]
pub enum PictureFault {
    /// One of the first three bytes is not `P`, `1` or `4`, and white space or the `#` of a comment, in turn.
    NotPlain,
    /// The byte at this place can follow in no header.
    BadNumber { at: u64 },
    /// A side is 0.
    ZeroSide,
    /// The digits of a side so far have this value, the first that passes the greatest side.
    SideTooLarge { value: u32 },
    /// The byte at this place of a raster of the form `P1` is neither a pixel nor white space.
    BadByte { at: u64 },
    /// The file ends before the last pixel, or the last byte of the last row: this is its length.
    Short { at: u64 },
    /// The picture is not complete after the greatest number of bytes.
    TooLong,
    /// Bytes follow the last point of a volume.
    Trailing,
}

/// Why there is no picture.
#[derive(Clone, Copy, Debug, PartialEq, Eq, Error)]
pub enum PictureError {
    /// The bytes spell no picture.
    #[error("the bytes spell no picture: {0:?}")]
    Bad(PictureFault),
    /// A read failed.
    #[error("the picture could not be read")]
    ReadFault,
    /// There was no memory for the reader or the grid.
    #[error("there is no memory for the picture")]
    NoMemory,
}

impl From<NoMemory> for PictureError {
    ghost from_gives = { λ _ e. e ≡ NoMemory };

    fn from(_e: NoMemory) -> PictureError {
        PictureError::NoMemory
    }
}

impl From<Failed> for PictureError {
    ghost from_gives = { λ _ e. e ≡ ReadFault };

    fn from(_e: Failed) -> PictureError {
        PictureError::ReadFault
    }
}
