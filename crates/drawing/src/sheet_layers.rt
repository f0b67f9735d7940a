//! The layers of a sheet, one function each.
//! Another look is a change of the texts here and of the same texts in `specs/Sheets.antt`.
ghost use Rattle.std.specs.Prelude.{◌≡◌, ◌++◌, ◌<◌, ◌≤◌, OnOk, length};
ghost use Rattle.std.specs.List.{flat_map};
ghost use Rattle.drawing.specs.Layout.{IsBox};
ghost use Rattle.drawing.specs.Sheets.{corner_text, edges_text, part_text, ground, ink_text, shade_opening, shade_path, colour_opening, colour_layer, faces, object_layer, skeleton_layer, inks, sheet_text};

use crate::canvas::Canvas;
use crate::layers::put_head;
use crate::layout::{Panel, Triple, high, left, sheet_sides, top, wide};
use crate::runs::put_runs;
use crate::svg::Svg;
use shape_space::NoMemory;
use std::alloc::Global;

// Puts the corner in which a part begins.
fn put_corner(s: Triple, panel: Panel, svg: &mut Svg) -> Result<(), NoMemory>
    requires { IsBox s }
    ensures { OnOk result (svg.new ≡ svg.old ++ corner_text s panel) }
{
    svg.put(b"M")?;
    svg.count(left(s, panel))?;
    svg.put(b" ")?;
    svg.count(top(s, panel))
}

// Puts the upper and right sides of a part.
fn put_edges(s: Triple, panel: Panel, svg: &mut Svg) -> Result<(), NoMemory>
    ensures { OnOk result (svg.new ≡ svg.old ++ edges_text s panel) }
{
    svg.put(b"h")?;
    svg.count(wide(s, panel))?;
    svg.put(b"v")?;
    svg.count(high(s, panel))
}

// Puts the rectangle of a part.
fn put_part(s: Triple, panel: Panel, svg: &mut Svg) -> Result<(), NoMemory>
    requires { IsBox s }
    ensures { OnOk result (svg.new ≡ svg.old ++ part_text s panel) }
{
    put_corner(s, panel, svg)?;
    put_edges(s, panel, svg)?;
    svg.put(b"h-")?;
    svg.count(wide(s, panel))?;
    svg.put(b"z")
}

// Puts the rectangles of some parts.
fn put_parts(s: Triple, panels: &[Panel], svg: &mut Svg) -> Result<(), NoMemory>
    requires { IsBox s }
    ensures { OnOk result (svg.new ≡ svg.old ++ flat_map (part_text s) panels.now) }
{
    for panel in panels {
        put_part(s, *panel, svg)?;
    }
    Ok(())
}

// Puts the ground of all parts.
fn put_ground(s: Triple, svg: &mut Svg) -> Result<(), NoMemory>
    requires { IsBox s }
    ensures { OnOk result (svg.new ≡ svg.old ++ ground s) }
{
    let parts = [
        Panel::Left,
        Panel::Right,
        Panel::Top,
        Panel::Bottom,
        Panel::Front,
        Panel::Back,
        Panel::AlongX,
        Panel::AlongY,
        Panel::AlongZ,
    ];
    svg.put(b"<path transform=\"translate(-.5 -.5)\" fill=\"#eee\" d=\"")?;
    put_parts(s, &parts, svg)?;
    svg.put(b"\"/>\n")?;
    Ok(())
}

// Puts the places that show an ink.
fn put_ink(
    alloc: Global,
    canvas: &Canvas,
    colour: u8,
    shade: u8,
    svg: &mut Svg,
) -> Result<(), NoMemory>
    ensures { OnOk result (svg.new ≡ svg.old ++ ink_text canvas.now colour shade) }
{
    let points = canvas.points_with(alloc, colour, shade)?;
    put_runs(&points, svg)
}

// Opens the path of a shade.
fn open_shade(shade: u8, svg: &mut Svg) -> Result<(), NoMemory>
    requires { shade < 4 }
    ensures { OnOk result (svg.new ≡ svg.old ++ shade_opening shade) }
{
    svg.put(b"<path stroke-opacity=\".")?;
    svg.count(9 - 2 * shade as usize)?;
    svg.put(b"\" d=\"")?;
    Ok(())
}

// Puts the path of a colour in a shade.
fn put_shade(
    alloc: Global,
    canvas: &Canvas,
    colour: u8,
    shade: u8,
    svg: &mut Svg,
) -> Result<(), NoMemory>
    requires { shade < 4 }
    ensures { OnOk result (svg.new ≡ svg.old ++ shade_path canvas.now colour shade) }
{
    open_shade(shade, svg)?;
    put_ink(alloc, canvas, colour, shade, svg)?;
    svg.put(b"\"/>\n")?;
    Ok(())
}

// Opens the group of a colour.
fn open_colour(colour: u8, svg: &mut Svg) -> Result<(), NoMemory>
    requires { colour < 6 }
    ensures { OnOk result (svg.new ≡ svg.old ++ colour_opening colour) }
{
    match colour {
        0 => svg.put(b"<g stroke=\"#E69F00\">\n"),
        1 => svg.put(b"<g stroke=\"#56B4E9\">\n"),
        2 => svg.put(b"<g stroke=\"#009E73\">\n"),
        3 => svg.put(b"<g stroke=\"#D55E00\">\n"),
        4 => svg.put(b"<g stroke=\"#0072B2\">\n"),
        _ => svg.put(b"<g stroke=\"#CC79A7\">\n"),
    }
}

// Puts a colour in all its shades.
fn put_colour(alloc: Global, canvas: &Canvas, colour: u8, svg: &mut Svg) -> Result<(), NoMemory>
    requires { colour < 6 }
    ensures { OnOk result (svg.new ≡ svg.old ++ colour_layer canvas.now colour) }
{
    open_colour(colour, svg)?;
    for shade in 0..4 {
        put_shade(alloc, canvas, colour, shade, svg)?;
    }
    svg.put(b"</g>\n")?;
    Ok(())
}

// Puts the faces.
fn put_faces(alloc: Global, canvas: &Canvas, svg: &mut Svg) -> Result<(), NoMemory>
    ensures { OnOk result (svg.new ≡ svg.old ++ faces canvas.now) }
{
    for colour in 0..6 {
        put_colour(alloc, canvas, colour, svg)?;
    }
    Ok(())
}

// Puts the object in the views.
fn put_object(alloc: Global, canvas: &Canvas, svg: &mut Svg) -> Result<(), NoMemory>
    ensures { OnOk result (svg.new ≡ svg.old ++ object_layer canvas.now) }
{
    svg.put(b"<path stroke=\"#bbb\" d=\"")?;
    put_ink(alloc, canvas, 6, 0, svg)?;
    svg.put(b"\"/>\n")?;
    Ok(())
}

// Puts the points that are left in the views.
fn put_skeleton(alloc: Global, canvas: &Canvas, svg: &mut Svg) -> Result<(), NoMemory>
    ensures { OnOk result (svg.new ≡ svg.old ++ skeleton_layer canvas.now) }
{
    svg.put(b"<path stroke=\"#000\" d=\"")?;
    put_ink(alloc, canvas, 7, 0, svg)?;
    svg.put(b"\"/>\n")?;
    Ok(())
}

// Puts all inks.
fn put_inks(alloc: Global, canvas: &Canvas, svg: &mut Svg) -> Result<(), NoMemory>
    ensures { OnOk result (svg.new ≡ svg.old ++ inks canvas.now) }
{
    svg.put(b"<g transform=\"translate(-.5)\" shape-rendering=\"crispEdges\">\n")?;
    put_faces(alloc, canvas, svg)?;
    put_object(alloc, canvas, svg)?;
    put_skeleton(alloc, canvas, svg)?;
    svg.put(b"</g>\n")?;
    Ok(())
}

/// Puts the whole sheet of a box.
pub(crate) fn put_sheet(
    alloc: Global,
    s: Triple,
    canvas: &Canvas,
    svg: &mut Svg,
) -> Result<(), NoMemory>
    requires { IsBox s }
    ensures { OnOk result (svg.new ≡ svg.old ++ sheet_text s canvas.now) }
{
    put_head(sheet_sides(s), svg)?;
    put_ground(s, svg)?;
    put_inks(alloc, canvas, svg)?;
    svg.put(b"</svg>\n")?;
    Ok(())
}
