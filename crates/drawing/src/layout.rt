//! Where each face of the box, and each view, stands on the sheet.
//! Another layout is a change of the tables here and of the same tables in `specs/Layout.antt`.
ghost use Rattle.std.specs.Prelude.{◌≡◌, ◌<◌, ◌≤◌, ◌+◌, ◌*◌, IfSome, IsTrue};
ghost use Rattle.shape_terms.specs.Limits.{most_solid};
ghost use Rattle.shape_terms.specs.Points.{sides_of};
ghost use Rattle.drawing.specs.Seen.{flat};
ghost use Rattle.drawing.specs.SolidSeen.{solid};
ghost use Rattle.drawing.specs.Layout.{IsBox, IsIn, extent, voxel_in, gap, widest_gap, column, row, left, top, wide, high, across, down, place, depth, far, quarter, sheet_width, sheet_height, sheet_sides};

use shape_space::{P2, P3, Sides};

/// A number for each axis: the sides of a box, or the coordinates of one of its voxels.
#[derive(Clone, Copy)]
pub struct Triple {
    pub x: usize,
    pub y: usize,
    pub z: usize,
}

/// A part of the sheet: one of the six faces, or a view along an axis.
#[derive(Clone, Copy)]
pub enum Panel {
    /// The face x -.
    Left,
    /// The face x +.
    Right,
    /// The face y -.
    Top,
    /// The face y +.
    Bottom,
    /// The face z -.
    Front,
    /// The face z +.
    Back,
    /// The view along x, from the face x -.
    AlongX,
    /// The view along y, from the face y -.
    AlongY,
    /// The view along z, from the face z -.
    AlongZ,
}

// The sides of a box.
pub(crate) fn extent(sides: Sides<P3>) -> Triple
    ensures value { result ≡ extent (sides_of (solid sides.lengths)) }
    ensures bounds { IsBox result }
{
    Triple {
        x: sides.side(0) as usize,
        y: sides.side(1) as usize,
        z: sides.side(2) as usize,
    }
}

// The coordinates of a point, where it is a voxel of the box.
pub(crate) fn voxel_in(sides: Sides<P3>, p: P3) -> Option<Triple>
    ensures value { result ≡ voxel_in (sides_of (solid sides.lengths)) (solid p) }
    ensures inside { IfSome result (IsIn (extent (sides_of (solid sides.lengths)))) }
{
    if !sides.inside(p) {
        return None;
    }
    Some(Triple {
        x: p.x.unsigned_abs() as usize,
        y: p.y.unsigned_abs() as usize,
        z: p.z.unsigned_abs() as usize,
    })
}

// The gap between two parts.
fn gap(s: Triple) -> usize
    requires { IsBox s }
    ensures value { result ≡ gap s }
    ensures most { result ≤ widest_gap }
{
    1 + s.x.max(s.y.max(s.z)) / 16
}

// Where a column begins, from 0 to 3.
fn column(s: Triple, k: usize) -> usize
    requires { IsBox s }
    ensures value { result ≡ column s k }
    ensures most { result ≤ 3 * (most_solid + widest_gap) }
{
    let gap = gap(s);
    match k {
        0 => 0,
        1 => s.z + gap,
        2 => s.z + gap + s.x + gap,
        _ => s.z + gap + s.x + gap + s.z + gap,
    }
}

// Where a row begins, from 0 to 3.
fn row(s: Triple, k: usize) -> usize
    requires { IsBox s }
    ensures value { result ≡ row s k }
    ensures most { result ≤ 3 * (most_solid + widest_gap) }
{
    let gap = gap(s);
    match k {
        0 => 0,
        1 => s.z + gap,
        2 => s.z + gap + s.y + gap,
        _ => s.z + gap + s.y + gap + s.z + gap,
    }
}

/// The column in which a part begins.
pub(crate) fn left(s: Triple, panel: Panel) -> usize
    requires { IsBox s }
    ensures value { result ≡ left s panel }
    ensures most { result ≤ 3 * (most_solid + widest_gap) }
{
    match panel {
        Panel::Left => column(s, 0),
        Panel::Front => column(s, 1),
        Panel::Right => column(s, 2),
        Panel::Back => column(s, 3),
        Panel::Top => column(s, 1),
        Panel::Bottom => column(s, 1),
        Panel::AlongX => column(s, 0),
        Panel::AlongY => column(s, 1),
        Panel::AlongZ => column(s, 2),
    }
}

/// The row in which a part begins.
pub(crate) fn top(s: Triple, panel: Panel) -> usize
    requires { IsBox s }
    ensures value { result ≡ top s panel }
    ensures most { result ≤ 3 * (most_solid + widest_gap) }
{
    match panel {
        Panel::Left => row(s, 1),
        Panel::Front => row(s, 1),
        Panel::Right => row(s, 1),
        Panel::Back => row(s, 1),
        Panel::Top => row(s, 0),
        Panel::Bottom => row(s, 2),
        Panel::AlongX => row(s, 3),
        Panel::AlongY => row(s, 3),
        Panel::AlongZ => row(s, 3),
    }
}

/// How wide a part is.
pub(crate) fn wide(s: Triple, panel: Panel) -> usize
    ensures { result ≡ wide s panel }
{
    match panel {
        Panel::Left | Panel::Right | Panel::AlongX => s.z,
        _ => s.x,
    }
}

/// How high a part is.
pub(crate) fn high(s: Triple, panel: Panel) -> usize
    ensures { result ≡ high s panel }
{
    match panel {
        Panel::Top | Panel::Bottom | Panel::AlongY => s.z,
        _ => s.y,
    }
}

// How many columns right of its part's first one a voxel stands.
fn across(s: Triple, panel: Panel, v: Triple) -> usize
    requires small { IsBox s }
    requires inside { IsIn s v }
    ensures value { result ≡ across s panel v }
    ensures most { result < most_solid }
{
    match panel {
        Panel::Left => s.z - 1 - v.z,
        Panel::Right => v.z,
        Panel::Back => s.x - 1 - v.x,
        Panel::AlongX => s.z - 1 - v.z,
        _ => v.x,
    }
}

// How many rows below its part's first one a voxel stands.
fn down(s: Triple, panel: Panel, v: Triple) -> usize
    requires small { IsBox s }
    requires inside { IsIn s v }
    ensures value { result ≡ down s panel v }
    ensures most { result < most_solid }
{
    match panel {
        Panel::Top => s.z - 1 - v.z,
        Panel::Bottom => v.z,
        Panel::AlongY => s.z - 1 - v.z,
        _ => v.y,
    }
}

/// The place of the sheet at which a part shows a voxel.
pub(crate) fn place(s: Triple, panel: Panel, v: Triple) -> P2
    requires small { IsBox s }
    requires inside { IsIn s v }
    ensures { flat result ≡ place s panel v }
{
    P2 {
        x: (left(s, panel) + across(s, panel, v)) as i32,
        y: (top(s, panel) + down(s, panel, v)) as i32,
    }
}

/// How many voxels behind the face of the box a voxel lies.
pub(crate) fn depth(s: Triple, panel: Panel, v: Triple) -> usize
    requires small { IsBox s }
    requires inside { IsIn s v }
    ensures value { result ≡ depth s panel v }
    ensures most { result < most_solid }
{
    match panel {
        Panel::Right => s.x - 1 - v.x,
        Panel::Bottom => s.y - 1 - v.y,
        Panel::Back => s.z - 1 - v.z,
        Panel::Left => v.x,
        Panel::AlongX => v.x,
        Panel::Top => v.y,
        Panel::AlongY => v.y,
        Panel::Front => v.z,
        Panel::AlongZ => v.z,
    }
}

// The side along which a part is looked at.
fn far(s: Triple, panel: Panel) -> usize
    ensures { result ≡ far s panel }
{
    match panel {
        Panel::Left | Panel::Right | Panel::AlongX => s.x,
        Panel::Top | Panel::Bottom | Panel::AlongY => s.y,
        _ => s.z,
    }
}

/// In which quarter of the box a voxel lies, from 0, the nearest one, to 3.
pub(crate) fn quarter(s: Triple, panel: Panel, v: Triple) -> u8
    requires small { IsBox s }
    requires inside { IsIn s v }
    ensures { result ≡ quarter s panel v }
{
    let depth = 4 * depth(s, panel, v);
    let side = far(s, panel);
    if depth < side {
        0
    } else if depth < 2 * side {
        1
    } else if depth < 3 * side {
        2
    } else {
        3
    }
}

// How many columns the sheet has.
fn sheet_width(s: Triple) -> usize
    requires { IsBox s }
    ensures value { result ≡ sheet_width s }
    ensures some { 1 ≤ result }
    ensures most { result ≤ 4 * most_solid + 3 * widest_gap }
{
    column(s, 3) + s.x
}

// How many rows the sheet has.
fn sheet_height(s: Triple) -> usize
    requires { IsBox s }
    ensures value { result ≡ sheet_height s }
    ensures some { 1 ≤ result }
    ensures most { result ≤ 4 * most_solid + 3 * widest_gap }
{
    row(s, 3) + s.y.max(s.z)
}

/// The sides of the sheet.
pub(crate) fn sheet_sides(s: Triple) -> Sides<P2>
    requires { IsBox s }
    ensures { sides_of (flat result.lengths) ≡ sheet_sides s }
{
    let lengths = P2 {
        x: sheet_width(s) as i32,
        y: sheet_height(s) as i32,
    };
    Sides { lengths }
}
