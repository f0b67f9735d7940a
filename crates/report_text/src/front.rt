//! Reading one short field where it stands among bytes, behind a blank: no word is looked for, and no end of the bytes.
//! A further kind of short field is one more function here; what is not short, `field` reads.
ghost use Rattle.std.specs.Prelude.{◌≡◌, ◌≤◌, ◌<◌, ◌+◌, ◌-◌, negsuc, FitsSigned, length, IfSome};
ghost use Rattle.std.specs.Int.{w32, w64};
ghost use Rattle.text_terms.specs.Forms.{signed, letter};
ghost use Rattle.text_terms.specs.Fields.{count, point};
ghost use Rattle.report_text.specs.Front.{StandsAt};

use shape_desk::read_short;
use shape_space::Point;

/// A field that stands at a place of bytes: its value, and the place behind it.
#[derive(Clone, Copy)]
pub struct Field<T> {
    /// Its value.
    pub value: T,
    /// The place behind it.
    pub end: usize,
}

/// Reads a blank and a number without sign of at most six digits at a place.
#[inline(always)]
pub fn short_count(bytes: &[u8], at: usize) -> Option<Field<u32>>
    requires { at + 8 ≤ length bytes.now }
    ensures stands { IfSome result (λ f. StandsAt bytes.now at f.end 7 (count.words f.value)) }
    ensures fits { IfSome result (λ f. f.value < 1000000) }
{
    if bytes[at] != b' ' {
        return None;
    }
    match read_short(&bytes[at + 1..]) {
        Some(short) => Some(Field {
            value: short.value,
            end: at + 1 + short.len,
        }),
        None => None,
    }
}

// The negative number of a size.
#[inline(always)]
fn negative(size: u32) -> i64
    requires { 0 < size }
    ensures { result ≡ negsuc (size - 1) }
{
    -1 - i64::from(size - 1)
}

// Reads a blank, a minus sign and a number of at most six digits at a place.
#[inline(always)]
fn short_negative(bytes: &[u8], at: usize) -> Option<Field<i64>>
    requires { at + 9 ≤ length bytes.now }
    ensures stands { IfSome result
        (λ f. StandsAt bytes.now at f.end 8 ((signed w64 63).words f.value)) }
    ensures fits { IfSome result (λ f. FitsSigned w64 f.value) }
    ensures narrow { IfSome result (λ f. FitsSigned w32 f.value) }
{
    if bytes[at] != b' ' || bytes[at + 1] != b'-' {
        return None;
    }
    match read_short(&bytes[at + 2..]) {
        Some(short) => {
            if short.value > 0 {
                Some(Field {
                    value: negative(short.value),
                    end: at + 2 + short.len,
                })
            } else {
                None
            }
        }
        None => None,
    }
}

/// Reads a blank and a whole number of at most six digits at a place.
#[inline(always)]
pub fn short_signed(bytes: &[u8], at: usize) -> Option<Field<i64>>
    requires { at + 9 ≤ length bytes.now }
    ensures stands { IfSome result
        (λ f. StandsAt bytes.now at f.end 8 ((signed w64 63).words f.value)) }
    ensures fits { IfSome result (λ f. FitsSigned w64 f.value) }
    ensures narrow { IfSome result (λ f. FitsSigned w32 f.value) }
{
    match short_count(bytes, at) {
        Some(field) => Some(Field {
            value: i64::from(field.value),
            end: field.end,
        }),
        None => short_negative(bytes, at),
    }
}

/// Reads a blank and the letter of an axis of the plane at a place.
#[inline(always)]
pub fn short_flat_axis(bytes: &[u8], at: usize) -> Option<Field<u8>>
    requires { at + 2 ≤ length bytes.now }
    ensures stands { IfSome result (λ f. StandsAt bytes.now at f.end 2 ((letter 2).words f.value)) }
    ensures fits { IfSome result (λ f. f.value < 2) }
{
    if bytes[at] != b' ' {
        return None;
    }
    let end = at + 2;
    match bytes[at + 1] {
        b'x' => Some(Field { value: 0, end }),
        b'y' => Some(Field { value: 1, end }),
        _ => None,
    }
}

/// Reads the coordinates of a point at a place, each a whole number of at most six digits behind a blank.
#[inline(always)]
pub fn short_point<P: Point>(bytes: &[u8], at: usize) -> Option<Field<P>>
    requires { at + 25 ≤ length bytes.now }
    ensures stands { IfSome result
        (λ f. StandsAt bytes.now at f.end 24 ((point P.DIM).words (P.coords f.value))) }
    ensures fits { IfSome result (λ f. (point P.DIM).InRange (P.coords f.value)) }
{
    let mut value = P::origin();
    let mut end = at;
    for axis in 0..P::DIM {
        match short_signed(bytes, end) {
            Some(field) => {
                value = value.with(axis, field.value as i32);
                end = field.end;
            }
            None => return None,
        }
    }
    Some(Field { value, end })
}
