//! The contours of a report, as strokes along their segments.
//! Points and stretches of the contour that was begun last are kept until the next one begins.
ghost use Rattle.std.specs.Prelude.{◌≡◌, ◌++◌, ◌∷◌, [], List, true, filter, IfOk, OnOk};
ghost use Rattle.std.specs.Option.{option_map, option_to_list};
ghost use Rattle.shape_terms.specs.Points.{sides_of};
ghost use Rattle.report_terms.specs.Lines as Terms;
ghost use Rattle.report_lines.specs.Seen.{flat_line};
ghost use Rattle.drawing.specs.Seen.{flat, flats, stretch, all_stretches, all_strokes};
ghost use Rattle.drawing.specs.Outlines.{point_at, stroke_of, strokes_along, is_inside, strokes as strokes_of, closed, with_point, with_stretch};
ghost use Rattle.drawing.specs.Standing.{HasOutlines};

use shape_report::Line;
use shape_space::{NoMemory, P2, Sides};
use std::alloc::Global;
use std::marker::Model;

/// A stroke from point to point. Of the strokes along a contour every second one is even, the first of them.
#[derive(Clone, Copy)]
pub struct Stroke {
    /// Where it begins.
    pub from: P2,
    /// Where it ends.
    pub to: P2,
    /// Whether it is even.
    pub even: bool,
}

/// The places of a segment's ends.
#[derive(Clone, Copy)]
pub struct Stretch {
    /// The place of its first point.
    pub first: u32,
    /// The place of its last point.
    pub last: u32,
}

/// The strokes of the contours before the last, and what is known of the last.
#[derive(Drop)]
pub struct Outlines {
    strokes: Vec<Stroke>,
    begun: bool,
    points: Vec<P2>,
    stretches: Vec<Stretch>,
}

impl Model for Outlines {
    ghost use Rattle.drawing.specs.Outlines.{Kept};
    ghost use Rattle.drawing.specs.Seen.{flats, all_stretches, all_strokes};

    ghost Value = { Kept };

    ghost view = { λ o. record {
      strokes = all_strokes o.strokes.items;
      begun = o.begun;
      points = flats o.points.items;
      stretches = all_stretches o.stretches.items;
    } };
}

/// The point at a place of a contour, whose points come round again behind the last.
pub fn point_at(points: &[P2], place: u32) -> Option<P2>
    ensures { option_map flat result ≡ point_at (flats points.now) place }
{
    if points.is_empty() {
        return None;
    }
    Some(points[place as usize % points.len()])
}

// Puts the stroke of a stretch behind those before, where its ends are in the box.
fn add_stroke(
    strokes: &mut Vec<Stroke>,
    sides: Sides<P2>,
    points: &[P2],
    even: bool,
    s: Stretch,
) -> Result<(), NoMemory>
    ensures { OnOk result (all_strokes strokes.new.items ≡ all_strokes strokes.old.items
        ++ filter (is_inside (sides_of (flat sides.lengths)))
        (option_to_list (stroke_of (flats points.now) even (stretch s)))) }
{
    let (Some(from), Some(to)) = (point_at(points, s.first), point_at(points, s.last)) else {
        return Ok(());
    };
    if sides.inside(from) && sides.inside(to) {
        strokes.push(Stroke { from, to, even })?;
    }
    Ok(())
}

// Puts the strokes along a contour behind those before.
fn add_strokes(
    strokes: &mut Vec<Stroke>,
    sides: Sides<P2>,
    points: &[P2],
    stretches: &[Stretch],
) -> Result<(), NoMemory>
    ensures { OnOk result (all_strokes strokes.new.items ≡ all_strokes strokes.old.items
        ++ filter (is_inside (sides_of (flat sides.lengths)))
        (strokes_along (flats points.now) true (all_stretches stretches.now))) }
{
    let mut even = true;
    for s in stretches {
        add_stroke(strokes, sides, points, even, *s)?;
        even = !even;
    }
    Ok(())
}

impl Outlines {
    /// No contour.
    pub fn new(alloc: Global) -> Outlines
        ensures { (sides : List _) → HasOutlines sides [] result }
    {
        Outlines {
            strokes: Vec::new(alloc),
            begun: false,
            points: Vec::new(alloc),
            stretches: Vec::new(alloc),
        }
    }

    // Puts the strokes of the contour that was begun last, and forgets it.
    fn close(&mut self, sides: Sides<P2>) -> Result<(), NoMemory>
        ensures { OnOk result (self.new ≡ closed (sides_of (flat sides.lengths)) self.old) }
    {
        add_strokes(&mut self.strokes, sides, &self.points, &self.stretches)?;
        self.points.clear();
        self.stretches.clear();
        Ok(())
    }

    // Puts a point of the contour that was begun last.
    fn add_point(&mut self, p: P2) -> Result<(), NoMemory>
        ensures { OnOk result (self.new ≡ with_point self.old (flat p)) }
    {
        if self.begun {
            self.points.push(p)?;
        }
        Ok(())
    }

    // Puts a stretch of the contour that was begun last.
    fn add_stretch(&mut self, s: Stretch) -> Result<(), NoMemory>
        ensures { OnOk result (self.new ≡ with_stretch self.old (stretch s)) }
    {
        if self.begun {
            self.stretches.push(s)?;
        }
        Ok(())
    }

    /// Takes of a line what it gives of a contour.
    pub fn take(&mut self, sides: Sides<P2>, line: &Line<P2>) -> Result<(), NoMemory>
        ensures { (lines : List Terms.Line)
            → HasOutlines (sides_of (flat sides.lengths)) lines self.old
            → OnOk result (HasOutlines (sides_of (flat sides.lengths))
            (lines ++ flat_line line.now ∷ []) self.new) }
    {
        match line {
            Line::Contour { .. } => {
                self.close(sides)?;
                self.begun = true;
                Ok(())
            }
            Line::At { p } => {
                self.add_point(*p)?;
                Ok(())
            }
            Line::Seg { first, last, .. } => {
                self.add_stretch(Stretch {
                    first: *first,
                    last: *last,
                })?;
                Ok(())
            }
            _ => Ok(()),
        }
    }

    /// The strokes of all contours.
    pub fn into_strokes(mut self, sides: Sides<P2>) -> Result<Vec<Stroke>, NoMemory>
        ensures { (lines : List Terms.Line)
            → HasOutlines (sides_of (flat sides.lengths)) lines self
            → IfOk result (λ ss. all_strokes ss.items
            ≡ strokes_of (sides_of (flat sides.lengths)) lines) }
    {
        self.close(sides)?;
        Ok(self.strokes)
    }
}
