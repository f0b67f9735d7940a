//! The layers of a drawing, one function each.
//! Another look is a change of the texts here and of the same texts in `specs/Svg.antt`.
ghost use Rattle.std.specs.Prelude.{◌≡◌, ◌<◌, ◌≤◌, ◌++◌, true, false, not, if◌then◌else◌, OnOk, nat_abs};
ghost use Rattle.shape_terms.specs.Limits.{most_flat};
ghost use Rattle.shape_terms.specs.Points.{coordinate, sides_of};
ghost use Rattle.drawing.specs.Seen.{flat, flats, stroke, all_pixels, all_strokes};
ghost use Rattle.drawing.specs.Svg.{layers, scale, size_text, view_text, head, stroke_text, ends_text, of_parity, depth_opening, depth_path, object_layer, contour_layer, stroke_path, ends_path, skeleton_layer};
ghost use Rattle.std.specs.List.{flat_map};

use crate::outlines::Stroke;
use crate::pixels::{Pixel, points_at};
use crate::runs::put_runs;
use crate::svg::Svg;
use shape_space::{NoMemory, P2, Sides};
use std::alloc::Global;

// A picture is shown with so many points of the screen along its greater side at most, where it is scaled up.
const SHOWN: usize = 1024;

// So many points of the screen a pixel takes.
fn scale(width: usize, height: usize) -> usize
    requires { 1 ≤ width }
    ensures value { result ≡ scale width height }
    ensures some { 1 ≤ result }
    ensures most { result ≤ 1024 }
{
    (SHOWN / width.max(height)).max(1)
}

// Puts the sides of the drawing on a screen.
fn put_size(width: usize, height: usize, svg: &mut Svg) -> Result<(), NoMemory>
    requires some { 1 ≤ width }
    requires width { width ≤ most_flat }
    requires height { height ≤ most_flat }
    ensures { OnOk result (svg.new ≡ svg.old ++ size_text width height) }
{
    let scale = scale(width, height);
    svg.put(b"<svg xmlns=\"http://www.w3.org/2000/svg\" width=\"")?;
    svg.count(width * scale)?;
    svg.put(b"\" height=\"")?;
    svg.count(height * scale)?;
    Ok(())
}

// Puts the part of the plane that is shown.
fn put_view(width: usize, height: usize, svg: &mut Svg) -> Result<(), NoMemory>
    ensures { OnOk result (svg.new ≡ svg.old ++ view_text width height) }
{
    svg.put(b"\" viewBox=\"-.5 -.5 ")?;
    svg.count(width)?;
    svg.put(b" ")?;
    svg.count(height)
}

/// A side of the picture, on the axis x or y.
pub fn side(sides: Sides<P2>, axis: usize) -> usize
    requires { axis < 2 }
    ensures value { result ≡ nat_abs (coordinate (flat sides.lengths) axis) }
    ensures some { 1 ≤ result }
    ensures most { result ≤ most_flat }
{
    sides.side(axis) as usize
}

/// So many points of the screen a pixel of a picture with these sides takes.
pub fn scale_of(sides: Sides<P2>) -> usize
    ensures value { result ≡ scale (nat_abs sides.lengths.x) (nat_abs sides.lengths.y) }
    ensures some { 1 ≤ result }
    ensures most { result ≤ 1024 }
{
    scale(side(sides, 0), side(sides, 1))
}

/// Puts the front of the drawing.
pub fn put_head(sides: Sides<P2>, svg: &mut Svg) -> Result<(), NoMemory>
    ensures { OnOk result (svg.new
        ≡ svg.old ++ head (nat_abs sides.lengths.x) (nat_abs sides.lengths.y)) }
{
    let width = side(sides, 0);
    let height = side(sides, 1);
    put_size(width, height, svg)?;
    put_view(width, height, svg)?;
    svg.put(
        b"\" fill=\"none\">\n<title>Drawn from a report, which `shape check` can check</title>\n<rect x=\"-.5\" y=\"-.5\" width=\"100%\" height=\"100%\" fill=\"#fff\"/>\n",
    )?;
    Ok(())
}

// Opens the path of the pixels of a depth.
fn open_depth(depth: u8, svg: &mut Svg) -> Result<(), NoMemory>
    ensures { OnOk result (svg.new ≡ svg.old ++ depth_opening depth) }
{
    svg.put(b"<path stroke-opacity=\".")?;
    svg.count(depth as usize + 2)?;
    svg.put(b"\" d=\"")?;
    Ok(())
}

// Puts the pixels of a depth.
fn put_depth(alloc: Global, found: &[Pixel], depth: u8, svg: &mut Svg) -> Result<(), NoMemory>
    ensures { OnOk result (svg.new ≡ svg.old ++ depth_path (all_pixels found.now) depth) }
{
    let points = points_at(alloc, found, depth)?;
    open_depth(depth, svg)?;
    put_runs(&points, svg)?;
    svg.put(b"\"/>\n")?;
    Ok(())
}

/// Puts the object.
pub fn put_object(alloc: Global, found: &[Pixel], svg: &mut Svg) -> Result<(), NoMemory>
    ensures { OnOk result (svg.new ≡ svg.old ++ object_layer (all_pixels found.now)) }
{
    svg.put(b"<g transform=\"translate(-.5)\" stroke=\"#666\" shape-rendering=\"crispEdges\">\n")?;
    for depth in 0..6 {
        put_depth(alloc, found, depth, svg)?;
    }
    svg.put(b"</g>\n")?;
    Ok(())
}

// Puts a stroke.
fn put_stroke(s: Stroke, svg: &mut Svg) -> Result<(), NoMemory>
    ensures { OnOk result (svg.new ≡ svg.old ++ stroke_text (stroke s)) }
{
    svg.put(b"M")?;
    svg.place(s.from)?;
    svg.put(b"L")?;
    svg.place(s.to)
}

// Whether a stroke is even, or whether it is not.
fn is_of(even: bool, s: Stroke) -> bool
    ensures { result ≡ (if even then s.even else not s.even) }
{
    if even { s.even } else { !s.even }
}

// Puts the strokes that are even, or those that are not.
fn put_strokes(strokes: &[Stroke], even: bool, svg: &mut Svg) -> Result<(), NoMemory>
    ensures { OnOk result (svg.new
        ≡ svg.old ++ flat_map stroke_text (of_parity even (all_strokes strokes.now))) }
{
    for s in strokes {
        if is_of(even, *s) {
            put_stroke(*s, svg)?;
        }
    }
    Ok(())
}

// Puts the path of the even strokes.
fn put_even(strokes: &[Stroke], svg: &mut Svg) -> Result<(), NoMemory>
    ensures { OnOk result (svg.new ≡ svg.old ++ stroke_path (all_strokes strokes.now) true) }
{
    svg.put(b"<path stroke=\"#0072B2\" stroke-width=\".25\" d=\"")?;
    put_strokes(strokes, true, svg)?;
    svg.put(b"\"/>\n")?;
    Ok(())
}

// Puts the path of the other strokes.
fn put_odd(strokes: &[Stroke], svg: &mut Svg) -> Result<(), NoMemory>
    ensures { OnOk result (svg.new ≡ svg.old ++ stroke_path (all_strokes strokes.now) false) }
{
    svg.put(b"<path stroke=\"#E69F00\" stroke-width=\".25\" d=\"")?;
    put_strokes(strokes, false, svg)?;
    svg.put(b"\"/>\n")?;
    Ok(())
}

// Puts the two ends of a stroke.
fn put_ends_of(s: Stroke, svg: &mut Svg) -> Result<(), NoMemory>
    ensures { OnOk result (svg.new ≡ svg.old ++ ends_text (stroke s)) }
{
    svg.run(s.from, 1)?;
    svg.run(s.to, 1)
}

// Puts the path of the ends of the strokes.
fn put_ends(strokes: &[Stroke], svg: &mut Svg) -> Result<(), NoMemory>
    ensures { OnOk result (svg.new ≡ svg.old ++ ends_path (all_strokes strokes.now)) }
{
    svg.put(
        b"<path transform=\"translate(-.2)\" stroke=\"#D55E00\" stroke-width=\".4\" stroke-dasharray=\".4 .6\" d=\"",
    )?;
    for s in strokes {
        put_ends_of(*s, svg)?;
    }
    svg.put(b"\"/>\n")?;
    Ok(())
}

/// Puts the segments of the contours.
pub fn put_contours(strokes: &[Stroke], svg: &mut Svg) -> Result<(), NoMemory>
    ensures { OnOk result (svg.new ≡ svg.old ++ contour_layer (all_strokes strokes.now)) }
{
    put_even(strokes, svg)?;
    put_odd(strokes, svg)?;
    put_ends(strokes, svg)
}

/// Puts the skeleton.
pub(crate) fn put_skeleton(points: &[P2], svg: &mut Svg) -> Result<(), NoMemory>
    ensures { OnOk result (svg.new ≡ svg.old ++ skeleton_layer (flats points.now)) }
{
    svg.put(
        b"<path transform=\"translate(-.25)\" stroke=\"#000\" stroke-width=\".5\" stroke-dasharray=\".5\" d=\"",
    )?;
    put_runs(points, svg)?;
    svg.put(b"\"/>\n")?;
    Ok(())
}

/// Puts all layers.
pub(crate) fn put_layers(
    alloc: Global,
    sides: Sides<P2>,
    found: &[Pixel],
    strokes: &[Stroke],
    left: &[P2],
    svg: &mut Svg,
) -> Result<(), NoMemory>
    ensures { OnOk result (svg.new ≡ svg.old ++ layers (sides_of (flat sides.lengths))
        (all_pixels found.now) (all_strokes strokes.now) (flats left.now)) }
{
    put_head(sides, svg)?;
    put_object(alloc, found, svg)?;
    put_contours(strokes, svg)?;
    put_skeleton(left, svg)?;
    Ok(())
}
