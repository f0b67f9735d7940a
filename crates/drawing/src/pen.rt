//! The face and the colour in which the next voxel of a report is drawn.
//! Which lines change it is told in `specs/Dabs.antt`.
ghost use Rattle.std.specs.Prelude.{◌≡◌};
ghost use Rattle.shape_refute.specs.Senses.{sense_of};
ghost use Rattle.shape_report.specs.LineOf.{line_of};
ghost use Rattle.drawing.specs.SolidSeen.{solid};
ghost use Rattle.drawing.specs.Dabs.{face_panel, next_colour, no_pen, pen_after};

use crate::layout::Panel;
use shape_refute::Sense;
use shape_report::Line;
use shape_space::P3;

/// The part of the sheet that shows the face that was begun last, and the colour of the patch that was begun last in it.
#[derive(Clone, Copy)]
pub struct Pen {
    pub panel: Option<Panel>,
    pub colour: Option<u8>,
}

// The part of the sheet that shows a face.
fn face_panel(axis: u8, sense: Sense) -> Option<Panel>
    ensures { result ≡ face_panel axis (sense_of sense) }
{
    match (axis, sense) {
        (0, Sense::Minus) => Some(Panel::Left),
        (0, Sense::Plus) => Some(Panel::Right),
        (1, Sense::Minus) => Some(Panel::Top),
        (1, Sense::Plus) => Some(Panel::Bottom),
        (2, Sense::Minus) => Some(Panel::Front),
        (2, Sense::Plus) => Some(Panel::Back),
        _ => None,
    }
}

// The colour of the next patch of a face.
fn next_colour(colour: Option<u8>) -> u8
    ensures { result ≡ next_colour colour }
{
    match colour {
        None => 0,
        Some(c) => { if c < 5 { c + 1 } else { 0 } }
    }
}

impl Pen {
    /// Before the first line.
    pub(crate) fn new() -> Pen
        ensures { result ≡ no_pen }
    {
        Pen {
            panel: None,
            colour: None,
        }
    }

    /// Behind one more line.
    pub(crate) fn after(self, line: &Line<P3>) -> Pen
        ensures { result ≡ pen_after self (line_of solid line.now) }
    {
        match line {
            Line::Face { axis, sense, .. } => Pen {
                panel: face_panel(*axis, *sense),
                colour: None,
            },
            Line::Patch { .. } => Pen {
                panel: self.panel,
                colour: Some(next_colour(self.colour)),
            },
            _ => self,
        }
    }
}
