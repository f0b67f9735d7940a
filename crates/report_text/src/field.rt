//! Reading one field of a line from its words.
//! A further kind of field is one more function here; which fields a line has, its kind of report says.
ghost use Rattle.std.specs.Prelude.{◌≡◌, [], ◌∷◌, pos, take, drop, IfSome};
ghost use Rattle.std.specs.Int.{w32, w64};
ghost use Rattle.text_terms.specs.Forms.{natural, signed, letter};
ghost use Rattle.text_terms.specs.Fields.{count, weight, point, row};
ghost use Rattle.report_text.specs.Reading.{ReadsForm};

use crate::words::Words;
use shape_space::Point;

/// Reads a coordinate.
#[inline(always)]
pub fn coordinate(words: &mut Words) -> Option<i32>
    ensures { ReadsForm (λ z. z) (signed w32 31) words.old words.new result }
{
    i32::try_from(words.next_number()?).ok()
}

/// Reads a count.
#[inline(always)]
pub fn count(words: &mut Words) -> Option<u32>
    ensures { ReadsForm (λ n. n) count words.old words.new result }
{
    u32::try_from(words.next_number()?).ok()
}

// A pixel has so many sides.
const SIDES: u32 = 4;

/// Reads the number of a side of a pixel.
pub fn side(words: &mut Words) -> Option<u8>
    ensures { ReadsForm (λ n. n) (natural 4) words.old words.new result }
{
    let side = count(words)?;
    if side < SIDES { Some(side as u8) } else { None }
}

/// Reads a weight or a squared distance.
#[inline(always)]
pub fn weight(words: &mut Words) -> Option<u64>
    ensures { ReadsForm (λ n. n) weight words.old words.new result }
{
    u64::try_from(words.next_number()?).ok()
}

/// Reads a signed number of 64 bits.
pub fn signed(words: &mut Words) -> Option<i64>
    ensures { ReadsForm (λ z. z) (signed w64 63) words.old words.new result }
{
    words.next_number()
}

/// Reads the letter of an axis of the plane.
pub fn flat_axis(words: &mut Words) -> Option<u8>
    ensures { ReadsForm (λ t. t) (letter 2) words.old words.new result }
{
    match words.next_word()? {
        b"x" => Some(0),
        b"y" => Some(1),
        _ => None,
    }
}

/// Reads the letter of an axis of space.
pub fn solid_axis(words: &mut Words) -> Option<u8>
    ensures { ReadsForm (λ t. t) (letter 3) words.old words.new result }
{
    match words.next_word()? {
        b"x" => Some(0),
        b"y" => Some(1),
        b"z" => Some(2),
        _ => None,
    }
}

/// Reads the coefficients of a line of the plane.
pub fn flat_coefficients(words: &mut Words) -> Option<[i64; 3]>
    ensures form { ReadsForm (λ a. take 2 a) (row 2) words.old words.new result }
    ensures third { IfSome result (λ a. drop 2 a ≡ pos 0 ∷ []) }
{
    let x = signed(words)?;
    let y = signed(words)?;
    Some([x, y, 0])
}

/// Reads the coefficients of a plane.
pub fn solid_coefficients(words: &mut Words) -> Option<[i64; 3]>
    ensures { ReadsForm (λ a. take 3 a) (row 3) words.old words.new result }
{
    let x = signed(words)?;
    let y = signed(words)?;
    let z = signed(words)?;
    Some([x, y, z])
}

/// Reads the coordinates of a point.
#[inline(always)]
pub fn point<P: Point>(words: &mut Words) -> Option<P>
    ensures { ReadsForm P.coords (point P.DIM) words.old words.new result }
{
    let mut point = P::origin();
    for axis in 0..P::DIM {
        point = point.with(axis, coordinate(words)?);
    }
    Some(point)
}
