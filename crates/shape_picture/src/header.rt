//! The header of a PBM as a machine that takes one byte after another, and knows the form from the second on.
//! Its steps are those of `specs/Header.antt`; what they mean for the grammar is proved in `proofs/HeaderSteps.antt`.
ghost use Rattle.std.specs.Prelude.{◌≡◌, ◌≤◌, ◌^◌, true};
ghost use Rattle.shape_picture.specs.Pbm.{is_white, is_line_end};
ghost use Rattle.shape_picture.specs.Header.{is_digit, opened, gap_of, comment_end, before_side, after_side, digit_step, form_step, header_step, IsSmall};

use crate::fault::PictureFault;

/// The form of a PBM: `P1`, a byte for each pixel, or `P4`, a bit for each.
#[derive(Clone, Copy, Debug, PartialEq, Eq)]
pub enum Form {
    Plain,
    Packed,
}

/// A side whose digits are read.
#[derive(Clone, Copy, Debug, PartialEq, Eq)]
pub enum Side {
    Width,
    Height(u32),
}

/// What comes after white space or a comment.
#[derive(Clone, Copy, Debug, PartialEq, Eq)]
pub enum Coming {
    Width,
    Height(u32),
    Raster(u32, u32),
}

/// How far a header has come.
#[derive(Clone, Copy, Debug, PartialEq, Eq)]
pub enum Header {
    Start,
    Letter,
    Magic(Form),
    Gap(Form, Side),
    Comment(Form, Coming),
    Digits(Form, Side, u32),
    /// Behind a comment that follows the height, by the form `P4`.
    Closing(u32, u32),
}

/// A header that goes on, or the form and the sides of one that is done.
#[derive(Clone, Copy, Debug, PartialEq, Eq)]
pub enum Progress {
    More(Header),
    Done(Form, u32, u32),
}

/// White space: blank, tab, CR or LF.
pub fn is_white(c: u8) -> bool
    ensures { result ≡ is_white c }
{
    c == b' ' || c == b'\t' || c == b'\r' || c == b'\n'
}

/// CR or LF, which end a comment.
pub fn is_line_end(c: u8) -> bool
    ensures { result ≡ is_line_end c }
{
    c == b'\r' || c == b'\n'
}

fn is_digit(c: u8) -> bool
    ensures { result ≡ is_digit c }
{
    b'0' <= c && c <= b'9'
}

fn before(side: Side) -> Coming
    ensures { result ≡ before_side side }
{
    match side {
        Side::Width => Coming::Width,
        Side::Height(width) => Coming::Height(width),
    }
}

fn after(side: Side, value: u32) -> Coming
    ensures { result ≡ after_side side value }
{
    match side {
        Side::Width => Coming::Height(value),
        Side::Height(width) => Coming::Raster(width, value),
    }
}

fn gap(form: Form, coming: Coming) -> Progress
    ensures { result ≡ gap_of form coming }
{
    match coming {
        Coming::Width => Progress::More(Header::Gap(form, Side::Width)),
        Coming::Height(width) => Progress::More(Header::Gap(form, Side::Height(width))),
        Coming::Raster(width, height) => Progress::Done(form, width, height),
    }
}

// What follows the end of a comment.
fn after_comment(form: Form, coming: Coming) -> Progress
    ensures { result ≡ comment_end form coming }
{
    match (form, coming) {
        (Form::Packed, Coming::Raster(width, height)) => {
            Progress::More(Header::Closing(width, height))
        }
        _ => gap(form, coming),
    }
}

// A byte where white space or a comment may follow.
fn open(form: Form, coming: Coming, c: u8, other: PictureFault) -> Result<Progress, PictureFault>
    ensures { result ≡ opened form coming c other }
{
    if is_white(c) {
        Ok(gap(form, coming))
    } else if c == b'#' {
        Ok(Progress::More(Header::Comment(form, coming)))
    } else {
        Err(other)
    }
}

// The digit that names the form.
fn form_of(c: u8) -> Result<Progress, PictureFault>
    ensures { result ≡ form_step c }
{
    match c {
        b'1' => Ok(Progress::More(Header::Magic(Form::Plain))),
        b'4' => Ok(Progress::More(Header::Magic(Form::Packed))),
        _ => Err(PictureFault::NotPlain),
    }
}

// A digit of a side.
fn digit(form: Form, limit: u32, side: Side, value: u32, c: u8) -> Result<Progress, PictureFault>
    requires limit { limit ≤ 2 ^ 20 }
    requires value { value ≤ limit }
    requires digit { is_digit c ≡ true }
    ensures { result ≡ digit_step form limit side value c }
{
    let more = value * 10 + u32::from(c - b'0');
    if limit < more {
        Err(PictureFault::SideTooLarge { value: more })
    } else {
        Ok(Progress::More(Header::Digits(form, side, more)))
    }
}

/// The header after one byte more, which stands at this place.
pub fn step(limit: u32, at: u64, header: Header, c: u8) -> Result<Progress, PictureFault>
    requires limit { limit ≤ 2 ^ 20 }
    requires small { IsSmall limit header }
    ensures { result ≡ header_step limit at header c }
{
    let bad = PictureFault::BadNumber { at };
    match header {
        Header::Start if c == b'P' => Ok(Progress::More(Header::Letter)),
        Header::Start => Err(PictureFault::NotPlain),
        Header::Letter => form_of(c),
        Header::Magic(form) => open(form, Coming::Width, c, PictureFault::NotPlain),
        Header::Gap(form, side) if is_digit(c) => digit(form, limit, side, 0, c),
        Header::Gap(form, side) => open(form, before(side), c, bad),
        Header::Comment(form, coming) if is_line_end(c) => Ok(after_comment(form, coming)),
        Header::Comment(form, coming) => Ok(Progress::More(Header::Comment(form, coming))),
        Header::Digits(form, side, value) if is_digit(c) => digit(form, limit, side, value, c),
        Header::Digits(_, _, 0) if is_white(c) || c == b'#' => Err(PictureFault::ZeroSide),
        Header::Digits(form, side, value) => open(form, after(side, value), c, bad),
        Header::Closing(width, height) => open(Form::Packed, Coming::Raster(width, height), c, bad),
    }
}
