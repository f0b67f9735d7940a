//! The word for the kind of picture.
//! A further dimension is a further word here.
ghost use Rattle.std.specs.Prelude.{◌≡◌};
ghost use Rattle.text_terms.specs.PictureKinds.{kind_word};

use shape_space::Point;

/// The word for the kind of picture.
pub fn kind<P: Point>() -> &'static [u8]
    ensures { result.now ≡ kind_word P.DIM }
{
    if P::DIM == 2 { b"pbm" } else { b"raw" }
}
