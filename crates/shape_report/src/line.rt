//! The lines of the analysis, as those of a kind of report: one variant for each kind of line, and the rank of its section.
//! A further kind of line is a variant and an arm here, a constructor of the definitions' line, and a case of `line_of`.
ghost use Rattle.std.specs.Prelude.{◌≡◌};
ghost use Rattle.report_terms.specs.Sections.{rank, section_of};

use crate::front::read_front;
use crate::read::{Frequent, at, del, near, on, read_claim, told_by};
use crate::spell::spell;
use report_text::{ReportLine, Text, Words};
use shape_refute::{Bounds, Naive, Refusal, Refutation, Sense};
use shape_rules::Name;
use shape_space::Point;
use std::alloc::AllocError;
use std::marker::Model;

/// A line of a report of a picture whose points are of type `P`.
pub enum Line<P> {
    /// The heading: the number of the report, which is 1, or 2 for a flat picture, the sides of the picture, and the rule of the thinning.
    Shape {
        number: u8,
        sides: P,
        rule: Name,
    },
    /// The numbers of object points, of components of the object, and of components of the background in the framed box.
    Parts {
        points: u32,
        object: u32,
        background: u32,
    },
    /// An object point, a nearest background point, and the square of their distance.
    Near {
        p: P,
        q: P,
        s: u64,
    },
    /// A contour of a flat picture: its first crack (a pixel, and the side of it, 0 to 3: up, right, down, left), the number
    /// of its points, and the number of its segments.
    Contour {
        p: P,
        side: u8,
        points: u32,
        segments: u32,
    },
    /// The next point of the contour of a flat picture.
    At {
        p: P,
    },
    /// The next segment of the contour of a flat picture: the places of its first and last points, counted from 0 at the contour's
    /// first point and on past its last (there the points come round again), and a naive line that holds its points. The line's
    /// third coefficient does not count, and is 0 in a line that was read.
    Seg {
        first: u32,
        last: u32,
        line: Naive,
    },
    /// Two pairs of places, counted from 0 at the first point of the segment right before, that show its line to be least: no
    /// proper line of its axis with a smaller main coefficient meets both. It is a line of reports with the number 2.
    Least {
        bounds: Bounds,
    },
    /// Why the run of the next gap between segments of the contour of a flat picture is not straight for an axis (0 for x,
    /// 1 for y): a turn of it, or weights that refute it.
    Gap {
        axis: u8,
        refusal: Refusal,
    },
    /// The next face of a volume: its axis (0 for x, 1 for y, 2 for z), its sense, and the number of its exposed points.
    Face {
        axis: u8,
        sense: Sense,
        points: u32,
    },
    /// The next patch of the face: the number of its points, and the coefficients and the lower bound of a plane that holds
    /// them.
    Patch {
        points: u32,
        a: [i64; 3],
        mu: i64,
    },
    /// The next point of the patch.
    On {
        p: P,
    },
    /// The next point, in raster order, that touches the patch and is none of it, and weights that refute the points of the
    /// patch with this one put last.
    Off {
        p: P,
        why: Refutation,
    },
    /// The next point that the thinning deletes.
    Del {
        p: P,
    },
    /// The next point that the thinning marks as an end.
    Tip {
        p: P,
    },
    /// The counts of the points that the thinning leaves, as `Parts` gives those of all points.
    Kept {
        points: u32,
        object: u32,
        background: u32,
    },
    /// The last line.
    End,
}

impl<P: Copy> Clone for Line<P> {
    ghost use Rattle.std.specs.Prelude.{⊤};

    ghost is_clone = { λ old new. new ≡ old };

    ghost is_infallible = { λ _. ⊤ };

    fn clone(&self) -> Result<Line<P>, AllocError> {
        Ok(*self)
    }
}

impl<P: Copy> Copy for Line<P> {}

impl<P: Point> Line<P> {
    ghost use Rattle.shape_report.specs.LineOf.{line_of};

    /// The number of the line's section in the order of a report, from 0 on.
    pub fn rank(&self) -> u8
        ensures { result ≡ rank (section_of (line_of P.coords self.now)) }
    {
        match self {
            Line::Shape { .. } => 0,
            Line::Parts { .. } => 1,
            Line::Near { .. } => 2,
            Line::Contour { .. } => 3,
            Line::At { .. } => 3,
            Line::Seg { .. } => 3,
            Line::Least { .. } => 3,
            Line::Gap { .. } => 3,
            Line::Face { .. } => 4,
            Line::Patch { .. } => 4,
            Line::On { .. } => 4,
            Line::Off { .. } => 4,
            Line::Del { .. } => 5,
            Line::Tip { .. } => 5,
            Line::Kept { .. } => 5,
            Line::End => 6,
        }
    }
}

/// What a line is seen as: a line of the definitions.
pub struct SeenLine<P: Point> {
    line: Line<P>,
}

impl<P: Point> Model for SeenLine<P> {
    ghost use Rattle.report_terms.specs.Lines as Terms;
    ghost use Rattle.shape_report.specs.LineOf.{line_of};

    ghost Value = { Terms.Line };

    ghost view = { λ s. line_of P.coords s.line };
}

impl<P: Point> ReportLine for Line<P> {
    ghost use Rattle.report_terms.specs.Lines as Terms;
    ghost use Rattle.report_terms.proofs.Spelled.{are_spelled};
    ghost use Rattle.shape_report.specs.LineOf.{line_of};

    type Seen = SeenLine<P>;

    ghost seen = { λ l. line_of P.coords l };

    ghost form = { Terms.spelled P.DIM };

    ghost last = { Terms.Line.End };

    fn end() -> Line<P> {
        Line::End
    }

    // A line of a kind of which reports have most lines is read here, where its words stay at hand; any other is read by a call.
    fn read(bytes: &[u8]) -> Option<Line<P>> {
        let mut words = Words::new(bytes);
        let word = words.next_word()?;
        match told_by(word) {
            Frequent::Near => near(&mut words),
            Frequent::At => at(&mut words),
            Frequent::On => on(&mut words),
            Frequent::Del => del(&mut words),
            Frequent::Other => read_claim(bytes),
        }
    }

    #[inline(always)]
    fn read_front(&mut self, bytes: &[u8]) -> Option<usize> {
        read_front(bytes, self)
    }

    #[inline(always)]
    fn spell(&self, text: &mut Text) {
        spell(self, text)
    }

    ghost laws = { are_spelled P.DIM };
}
