//! The lines of measures of an object: the axes of its ellipse, and its least and its greatest Feret diameter.
//! Another look is a change of the texts here and of the same texts in `specs/MeasureLines.antt`.
ghost use Rattle.std.specs.Prelude.{◌≡◌, ◌≤◌, ◌^◌, ◌++◌, codes, OnOk};
ghost use Rattle.std.specs.Fmt.{signed_decimal};
ghost use Rattle.measuring.specs.MomentsTold.{moments_told, turn_told};
ghost use Rattle.measuring.specs.FeretsTold.{point_of, feret_told};
ghost use Rattle.measuring.specs.Sizes.{hull_told};
ghost use Rattle.draw_report.specs.MeasureLines.{nearest, middle, half_width, goes_down, after, vector_text, middle_text, name_text, title_text, turn_text, axes_opening, minor_line, major_line, axes_text, left_end, right_end, ends_text, width_opening, width_line, from_text, to_text, feret_line};
ghost use Rattle.draw_report.specs.Circles.{thousandths};
ghost use Rattle.draw_report.specs.MeasuresTold.{axes_told};

use crate::axes::Axes;
use crate::balls::{put_number, put_thousandths};
use drawing::Svg;
use itoa::Buffer;
use measuring::{Feret, HullSize, Moments, Site, Turn, root};
use shape_space::NoMemory;

// A quotient, rounded to nearest and a half up.
fn nearest(a: u128, n: u64) -> u128
    requires { a ≤ 2 ^ 126 }
    ensures { result ≡ nearest a n }
{
    (2 * a + n as u128) / (2 * n.max(1) as u128)
}

// Where the middle of so many points lies along an axis.
fn middle(count: u32, sum: u64) -> u128
    ensures { result ≡ middle count sum }
{
    nearest(2000 * sum as u128, count as u64)
}

// How far half of the least width reaches to the right.
fn half_right(z: &HullSize) -> u128
    ensures { result ≡ half_width (hull_told z.now) z.now.dy }
{
    nearest(
        1000 * (z.across as u128 * z.dy.unsigned_abs() as u128),
        z.length,
    )
}

// And how far down or up.
fn half_down(z: &HullSize) -> u128
    ensures { result ≡ half_width (hull_told z.now) z.now.dx }
{
    nearest(
        1000 * (z.across as u128 * z.dx.unsigned_abs() as u128),
        z.length,
    )
}

// Whether the least width goes down to the right.
fn goes_down(z: &HullSize) -> bool
    ensures { result ≡ goes_down (hull_told z.now) }
{
    let rises = z.dy < 0;
    if z.dx < 0 { !rises } else { rises }
}

// Puts a number behind a text.
fn put_after(text: &[u8], n: u128, svg: &mut Svg) -> Result<(), NoMemory>
    ensures { OnOk result (svg.new ≡ svg.old ++ after text.now n) }
{
    svg.put(text)?;
    put_number(n, svg)
}

// Puts a whole number with its sign.
fn put_signed(n: i64, svg: &mut Svg) -> Result<(), NoMemory>
    ensures { OnOk result (svg.new ≡ svg.old ++ signed_decimal n) }
{
    let mut digits = Buffer::new();
    svg.put(digits.format(n).as_bytes())
}

// Puts two coordinates.
fn put_vector(x: i64, y: i64, svg: &mut Svg) -> Result<(), NoMemory>
    ensures { OnOk result (svg.new ≡ svg.old ++ vector_text x y) }
{
    put_signed(x, svg)?;
    svg.put(b" ")?;
    put_signed(y, svg)
}

// Puts the middle of an object.
fn put_middle(m: &Moments, svg: &mut Svg) -> Result<(), NoMemory>
    ensures { OnOk result (svg.new ≡ svg.old ++ middle_text (moments_told m.now)) }
{
    put_number(middle(m.count, m.x), svg)?;
    put_after(b" ", middle(m.count, m.y), svg)
}

// Puts the name of a measure.
fn put_name(name: &[u8], svg: &mut Svg) -> Result<(), NoMemory>
    ensures { OnOk result (svg.new ≡ svg.old ++ name_text name.now) }
{
    svg.put(b", ")?;
    svg.put(name)?;
    svg.put(b" ")
}

// Puts a length, and closes a line.
fn put_length(length: u128, svg: &mut Svg) -> Result<(), NoMemory>
    ensures { OnOk result (svg.new
        ≡ svg.old ++ (thousandths length ++ codes "</title></line>\n")) }
{
    put_thousandths(length, svg)?;
    svg.put(b"</title></line>\n")
}

// Puts the end of a line, with its title.
fn put_title(name: &[u8], number: usize, length: u128, svg: &mut Svg) -> Result<(), NoMemory>
    ensures { OnOk result (svg.new ≡ svg.old ++ title_text name.now number length) }
{
    svg.put(b"\"><title>object ")?;
    svg.count(number)?;
    put_name(name, svg)?;
    put_length(length, svg)?;
    Ok(())
}

// Puts how far axes are turned.
fn put_turn(t: Turn, svg: &mut Svg) -> Result<(), NoMemory>
    ensures { OnOk result (svg.new ≡ svg.old ++ turn_text (turn_told t)) }
{
    let (cosine, sine) = (t.cosine as i64, t.sine as i64);
    put_vector(cosine, sine, svg)?;
    svg.put(b" ")?;
    put_vector(-sine, cosine, svg)
}

// Opens the system of the axes of an object.
fn open_axes(t: Turn, m: &Moments, svg: &mut Svg) -> Result<(), NoMemory>
    ensures { OnOk result (svg.new
        ≡ svg.old ++ axes_opening (turn_told t) (moments_told m.now)) }
{
    svg.put(b"<g transform=\"matrix(")?;
    put_turn(t, svg)?;
    svg.put(b" ")?;
    put_middle(m, svg)?;
    svg.put(b") scale(.00002)\">\n")
}

// Puts the minor axis.
fn put_minor(number: usize, minor: u128, svg: &mut Svg) -> Result<(), NoMemory>
    ensures { OnOk result (svg.new ≡ svg.old ++ minor_line number minor) }
{
    put_after(
        b"<line class=\"minor\" stroke=\"#56B4E9\" y1=\"-",
        minor,
        svg,
    )?;
    put_after(b"\" y2=\"", minor, svg)?;
    put_title(b"minor", number, minor, svg)
}

// Puts the major axis.
fn put_major(number: usize, major: u128, svg: &mut Svg) -> Result<(), NoMemory>
    ensures { OnOk result (svg.new ≡ svg.old ++ major_line number major) }
{
    put_after(
        b"<line class=\"major\" stroke=\"#009E73\" x1=\"-",
        major,
        svg,
    )?;
    put_after(b"\" x2=\"", major, svg)?;
    put_title(b"major", number, major, svg)
}

/// Puts the axes of the object with a number.
pub(crate) fn put_axes(number: usize, a: &Axes, m: &Moments, svg: &mut Svg) -> Result<(), NoMemory>
    ensures { OnOk result (svg.new
        ≡ svg.old ++ axes_text number (axes_told a.now) (moments_told m.now)) }
{
    open_axes(a.turn, m, svg)?;
    put_minor(number, a.ellipse.minor as u128, svg)?;
    put_major(number, a.ellipse.major as u128, svg)?;
    svg.put(b"</g>\n")
}

// What stands before the coordinate y of the left end of the least width.
fn left_end(down: bool) -> &'static [u8]
    ensures { result.now ≡ left_end down }
{
    if down { b"\" y1=\"-" } else { b"\" y1=\"" }
}

// And before that of the right end.
fn right_end(down: bool) -> &'static [u8]
    ensures { result.now ≡ right_end down }
{
    if down { b"\" y2=\"" } else { b"\" y2=\"-" }
}

// Puts the ends of the least width.
fn put_ends(down: bool, u: u128, v: u128, svg: &mut Svg) -> Result<(), NoMemory>
    ensures { OnOk result (svg.new ≡ svg.old ++ ends_text down u v) }
{
    put_after(b")\" x1=\"-", u, svg)?;
    put_after(left_end(down), v, svg)?;
    put_after(b"\" x2=\"", u, svg)?;
    put_after(right_end(down), v, svg)
}

// Opens the line of the least width.
fn open_width(m: &Moments, svg: &mut Svg) -> Result<(), NoMemory>
    ensures { OnOk result (svg.new ≡ svg.old ++ width_opening (moments_told m.now)) }
{
    svg.put(b"<line class=\"min_feret\" stroke=\"#882255\" transform=\"translate(")?;
    put_middle(m, svg)
}

/// Puts the least Feret diameter of the object with a number.
pub(crate) fn put_width(
    number: usize,
    z: &HullSize,
    m: &Moments,
    svg: &mut Svg,
) -> Result<(), NoMemory>
    ensures { OnOk result (svg.new
        ≡ svg.old ++ width_line number (hull_told z.now) (moments_told m.now)) }
{
    open_width(m, svg)?;
    put_ends(goes_down(z), half_right(z), half_down(z), svg)?;
    put_title(b"min_feret", number, z.min_feret as u128, svg)?;
    Ok(())
}

// Puts the first point of the greatest Feret diameter.
fn put_from(p: Site, svg: &mut Svg) -> Result<(), NoMemory>
    ensures { OnOk result (svg.new ≡ svg.old ++ from_text (point_of 2 p)) }
{
    put_after(
        b"<line class=\"feret\" stroke=\"#CC79A7\" x1=\"",
        2000 * p.x as u128,
        svg,
    )?;
    put_after(b"\" y1=\"", 2000 * p.y as u128, svg)
}

// Puts its other point.
fn put_to(p: Site, svg: &mut Svg) -> Result<(), NoMemory>
    ensures { OnOk result (svg.new ≡ svg.old ++ to_text (point_of 2 p)) }
{
    put_after(b"\" x2=\"", 2000 * p.x as u128, svg)?;
    put_after(b"\" y2=\"", 2000 * p.y as u128, svg)
}

/// Puts the greatest Feret diameter of the object with a number.
pub(crate) fn put_feret(number: usize, f: Feret, svg: &mut Svg) -> Result<(), NoMemory>
    ensures { OnOk result (svg.new ≡ svg.old ++ feret_line number (feret_told 2 f)) }
{
    put_from(f.from, svg)?;
    put_to(f.to, svg)?;
    put_title(b"feret", number, root(f.square), svg)
}
