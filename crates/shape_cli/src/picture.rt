//! The first step of every command: the picture at its source.
//! A further source is one more arm of `read_image`.
ghost use Rattle.std.specs.Prelude.{◌≡◌, IfOk, true};
ghost use Rattle.shape_desk.specs.Desk.{OnlyReads, OnlyReadsAt};
ghost use Rattle.shape_desk.specs.declared.desk.Place.TheVariants.{Picture};
ghost use Rattle.shape_picture.specs.Answers.{PictureAnswer};
ghost use Rattle.shape_cli.specs.Sources.{IsFlat, file_of, format_of, kind_at, read_source};
ghost use Rattle.shape_cli.specs.Parts.{Opened, image_kind, picture_of, seen};

use crate::source::Source;
use shape_desk::{Desk, Place};
use shape_grid::Grid;
use shape_picture::{PictureError, read_pbm, read_raw};
use shape_space::{P2, P3};
use std::alloc::Global;

/// The picture that was read.
#[derive(Drop)]
pub enum Image {
    Flat(Grid<P2>),
    Solid(Grid<P3>),
}

impl Image {
    /// The flat picture.
    pub(crate) fn flat(&self) -> &Grid<P2>
        requires { IsFlat (image_kind self.now) }
        ensures { result.now ≡ picture_of self.now }
    {
        match self {
            Image::Flat(grid) => grid,
            Image::Solid(_) => unreachable!(),
        }
    }
}

// Reads the picture whose file is begun.
fn read_image<D: Desk>(
    alloc: Global,
    source: Source<'_>,
    desk: &mut D,
) -> Result<Image, PictureError>
    requires { (D.state desk.old).begun Picture ≡ true }
    ensures answer { PictureAnswer (format_of (read_source source.entry))
        ((D.state desk.old).left Picture) ((D.state desk.new).left Picture)
        (D.state desk.old).read_faults (D.state desk.new).read_faults (seen result) }
    ensures kind { IfOk result (λ image. image_kind image ≡ kind_at (read_source source.entry)) }
    ensures reads { OnlyReadsAt Picture (D.state desk.old) (D.state desk.new) }
{
    match source {
        Source::Pbm { .. } => Ok(Image::Flat(read_pbm(alloc, desk)?)),
        Source::Raw { sides, .. } => Ok(Image::Solid(read_raw(alloc, desk, sides)?)),
    }
}

// Reads the picture at a source.
pub(crate) fn open_picture<D: Desk>(
    alloc: Global,
    source: Source<'_>,
    desk: &mut D,
) -> Result<Image, PictureError>
    ensures opened { Opened (format_of (read_source source.entry))
        (file_of (read_source source.entry)) (D.state desk.old) (D.state desk.new) (seen result) }
    ensures kind { IfOk result (λ image. image_kind image ≡ kind_at (read_source source.entry)) }
    ensures only { OnlyReads (D.state desk.old) (D.state desk.new) }
{
    match desk.begin(Place::Picture, source.file()) {
        Ok(()) => read_image(alloc, source, desk),
        Err(_) => Err(PictureError::ReadFault),
    }
}
