//! The judge: it goes through the contours of the picture, and through the lines of each.
//! Which places a segment goes from and to is tested in `places`.
ghost use Rattle.std.specs.Prelude.{◌≡◌, ◌+◌, ◌-◌, ◌*◌, ◌/◌, ◌%◌, ◌<◌, ◌≤◌, ◌^◌, ◌↔◌, [], ◌∷◌, ◌++◌, List, length, map, take, slice_index_or, All, IsTrue, IfOk};
ghost use Rattle.std.specs.Bool.{OnTrue};
ghost use Rattle.shape_terms.specs.Points.{coordinate};
ghost use Rattle.shape_terms.specs.Pictures.{Picture};
ghost use Rattle.shape_terms.specs.Covers.{IsEvidence, arc, next_first, gap_run};
ghost use Rattle.shape_terms.specs.Least.{ShowsLeast};
ghost use Rattle.report_terms.specs.Lines as Terms;
ghost use Rattle.report_terms.specs.ContourLines.{open_contour, HasAllLines, IsFull, WantsNone, IsContourHead, IsNextPoint, IsNextSegment, IsNextLeast, IsNextGap};
ghost use Rattle.report_terms.specs.Sections.{FlatClaim, AllContours};
ghost use Rattle.shape_report.specs.LineOf.{line_of};
ghost use Rattle.shape_refute.specs.Terms.{naive_of};
ghost use Rattle.shape_refute.specs.PairTerms.{IsSmall, pairs_of};
ghost use Rattle.shape_crack.specs.Terms.{point_of, crack_of};
ghost use Rattle.judge_outline.specs.CoverState.{StandsFor, IsTaken, LastIsTaken, room_of, open_points, with_contour, with_point, with_segment, with_least, with_gap};
ghost use Rattle.judge_outline.specs.Segments.{segment_of};
ghost use Rattle.shape_refute.specs.Evidences.{evidence_of};

use crate::contour_round::{greatest, load, part};
use crate::segment::Segment;
use shape_crack::{Contour, Contours, Crack, contours};
use shape_grid::Grid;
use shape_refute::{Bounds, Naive, Places, Refusal, come_next, holds_segment, is_least, refuses};
use shape_report::Line;
use shape_space::{NoMemory, P2};
use std::alloc::Global;
use std::marker::Model;

/// A judge of the lines of the contours of one flat picture, as they come.
///
/// It keeps the contours of the picture, and of the one that was begun last the places of its
/// segments and its points; it keeps no line. After `take` has answered false it says nothing more,
/// and is only dropped.
#[derive(Drop)]
pub struct CoverJudge {
    // The number of the report.
    number: u8,
    contours: Contours,
    // How many contours were begun; and of the last of them:
    begun: u32,
    // how many points it was given,
    points: u32,
    // how many segments its line gives,
    declared: u32,
    // the places of those it was given,
    segments: Vec<Places>,
    // the segment of the last line, where that is a `seg` line,
    last: Option<Segment>,
    // how many gap lines it has,
    gaps: u32,
    // and its points, twice round.
    round: Vec<P2>,
}

impl Model for CoverJudge {
    ghost use Rattle.std.specs.Prelude.{map, vec_capacity};
    ghost use Rattle.shape_crack.specs.Terms.{point_of};
    ghost use Rattle.judge_outline.specs.CoverState.{CoverState, IsInStep, HasRound, standing_of, state_of};

    ghost Value = { CoverState };

    ghost view = { λ j. state_of j.number j.contours j.begun j.points j.declared j.segments.items
        j.last j.gaps };

    ghost invariant = { λ j. IsInStep j.contours
        (standing_of j.begun j.points j.declared j.segments.items j.last j.gaps)
        × HasRound j.contours
        (standing_of j.begun j.points j.declared j.segments.items j.last j.gaps)
        (map point_of j.round.items) (vec_capacity j.round) (vec_capacity j.segments) };
}

impl CoverJudge {
    /// A judge of a report with this number that has taken no line. It takes all its memory here.
    pub fn new(alloc: Global, grid: &Grid<P2>, number: u8) -> Result<CoverJudge, NoMemory>
        ensures stands { IfOk result (λ j. StandsFor grid.now j []) }
        ensures number { IfOk result (λ j. j.number ≡ number) }
        ensures room { IfOk result (λ j. room_of j < 2 ^ 60) }
    {
        grid.is_picture();
        let contours = contours(alloc, grid)?;
        let greatest = greatest(&contours) as usize;
        let segments = Vec::with_capacity(alloc, greatest)?;
        let round = Vec::with_capacity(alloc, 2 * greatest)?;
        Ok(CoverJudge {
            number,
            contours,
            begun: 0,
            points: 0,
            declared: 0,
            segments,
            last: None,
            gaps: 0,
            round,
        })
    }

    // The contour that was begun last.
    fn open(&self) -> &Contour
        requires { 0 < self.now.standing.begun }
        ensures { result.now ≡ open_contour self.now.contours self.now.standing }
    {
        self.contours.contour(self.begun - 1)
    }

    // Whether the contour that was begun last has all its points and segments.
    fn is_covered(&self) -> bool
        requires { 0 < self.now.standing.begun }
        ensures { IsTrue result ↔ ((self.now.standing.points ≡ length (open_points self.now))
            × (length self.now.standing.stretches ≡ self.now.standing.declared)) }
    {
        self.points == self.open().len() && self.segments.len() as u32 == self.declared
    }

    // Whether no contour is begun and without all its lines.
    fn is_full(&self) -> bool
        ensures { IsTrue result ↔ IsFull self.now.contours self.now.standing }
    {
        self.begun == 0 || self.is_covered() && self.gaps == 2 * self.declared
    }

    // Whether a `contour` line is the one to come next.
    fn begins_next(&self, start: Crack, points: u32, segments: u32) -> bool
        ensures { IsTrue result ↔ IsContourHead self.now.contours self.now.standing
            (crack_of start) points segments }
    {
        if !self.is_full() || self.begun == self.contours.len() {
            return false;
        }
        let next = self.contours.contour(self.begun);
        next.start() == start && next.len() == points && 1 <= segments && segments <= points
    }

    // Takes a `contour` line.
    fn begin(&mut self, start: Crack, points: u32, segments: u32) -> bool
        ensures answer { IsTrue result
            ↔ IsContourHead self.old.contours self.old.standing (crack_of start) points segments }
        ensures number { self.new.number ≡ self.old.number }
        ensures contours { self.new.contours ≡ self.old.contours }
        ensures next { OnTrue result (self.new.standing ≡ with_contour self.old.standing segments) }
    {
        if !self.begins_next(start, points, segments) {
            return false;
        }
        let _ = self.contours.len();
        let next = self.contours.contour(self.begun);
        next.is_closed_path();
        load(&mut self.round, next);
        self.segments.clear();
        self.begun += 1;
        self.points = 0;
        self.declared = segments;
        self.last = None;
        self.gaps = 0;
        true
    }

    // Takes an `at` line.
    fn go_on(&mut self, p: P2) -> bool
        ensures answer { IsTrue result
            ↔ IsNextPoint self.old.contours self.old.standing (point_of p) }
        ensures number { self.new.number ≡ self.old.number }
        ensures contours { self.new.contours ≡ self.old.contours }
        ensures next { OnTrue result (self.new.standing ≡ with_point self.old.standing) }
    {
        if self.begun == 0 || !self.segments.is_empty() {
            return false;
        }
        let open = self.open();
        if self.points == open.len() || open.point(self.points) != p {
            return false;
        }
        self.points += 1;
        self.last = None;
        true
    }

    // The points of the contour that was begun last from place to place.
    fn arc(&self, first: u32, last: u32) -> &[P2]
        requires begun { 0 < self.now.standing.begun }
        requires order { first ≤ last }
        requires within { last < 2 * length (open_points self.now) }
        ensures value { map point_of result.now ≡ arc (open_points self.now) first last }
        ensures few { length result.now < 2 ^ 32 }
        ensures small { All IsSmall result.now }
    {
        self.open().is_closed_path();
        part(self.round.as_slice(), first, last)
    }

    // Whether no `least` line is wanted next.
    fn wants_none(&self) -> bool
        ensures { IsTrue result ↔ WantsNone self.now.number self.now.standing }
    {
        self.number != 2 || self.last.is_none()
    }

    // Takes a `seg` line.
    fn take_segment(&mut self, next: Places, line: &Naive) -> bool
        ensures answer { IsTrue result
            ↔ IsNextSegment self.old.number self.old.contours self.old.standing
            next.first next.last line.now.axis (naive_of 2 line.now) }
        ensures number { self.new.number ≡ self.old.number }
        ensures contours { self.new.contours ≡ self.old.contours }
        ensures next { OnTrue result
            (self.new.standing ≡ with_segment self.old.standing
            (segment_of (record { places = next; line = line.now }))) }
    {
        if self.segments.len() as u32 >= self.declared || self.gaps != 0 || !self.wants_none() {
            return false;
        }
        let n = self.open().len();
        if self.points != n || !come_next(self.segments.as_slice(), self.declared, n, next) {
            return false;
        }
        if !holds_segment(self.arc(next.first, next.last), line) {
            return false;
        }
        self.segments.push_reserved(next);
        self.last = Some(Segment {
            places: next,
            line: *line,
        });
        true
    }

    // Whether the pairs show the line of the segment of the last line to be least.
    fn is_shown(&self, segment: &Segment, bounds: &Bounds) -> bool
        requires { IsTaken self.now.contours self.now.standing (segment_of segment.now) }
        ensures { IsTrue result ↔ ShowsLeast segment.now.line.axis
            (arc (open_points self.now) segment.now.places.first segment.now.places.last)
            (coordinate (take 2 segment.now.line.a) segment.now.line.axis) (pairs_of bounds.now) }
    {
        let places = segment.places;
        is_least(self.arc(places.first, places.last), &segment.line, bounds)
    }

    // Takes a `least` line.
    fn take_least(&mut self, bounds: &Bounds) -> bool
        ensures answer { IsTrue result ↔ IsNextLeast self.old.number self.old.contours
            self.old.standing (pairs_of bounds.now) }
        ensures number { self.new.number ≡ self.old.number }
        ensures contours { self.new.contours ≡ self.old.contours }
        ensures next { OnTrue result (self.new.standing ≡ with_least self.old.standing) }
        ensures taken { LastIsTaken self.old.contours self.old.standing self.old.standing.last }
    {
        let Some(segment) = self.last else {
            return false;
        };
        if self.number != 2 || !self.is_shown(&segment, bounds) {
            return false;
        }
        self.last = None;
        true
    }

    // The first place of the segment after one, which is one round on after the last.
    fn next_first(&self, k: usize) -> u32
        requires begun { 0 < self.now.standing.begun }
        requires place { k < length self.now.standing.stretches }
        ensures value { result ≡ next_first (open_points self.now) self.now.standing.stretches k }
    {
        let count = self.segments.len();
        if k + 1 < count {
            self.segments[k + 1].first
        } else {
            self.segments[0].first + self.open().len()
        }
    }

    // The place after the last one of a segment.
    fn end(&self, k: usize) -> u32
        requires begun { 0 < self.now.standing.begun }
        requires place { k < length self.now.standing.stretches }
        ensures value { result
            ≡ (slice_index_or self.now.standing.stretches k (record { first = 0; last = 0 })).last + 1 }
        ensures within { result < 2 * length (open_points self.now) }
    {
        self.open().is_closed_path();
        self.segments[k].last + 1
    }

    // Whether the run of the gap after a segment is refused for an axis.
    fn is_refused(&self, k: usize, axis: usize, refusal: &Refusal) -> bool
        requires begun { 0 < self.now.standing.begun }
        requires place { k < length self.now.standing.stretches }
        requires axis { axis < 2 }
        ensures { IsTrue result
            ↔ IsEvidence axis (gap_run (open_points self.now) self.now.standing.stretches k)
            (evidence_of refusal.now) }
    {
        let first = self.next_first(k).saturating_sub(1);
        let last = self.end(k);
        first <= last && refuses(self.arc(first, last), axis, refusal)
    }

    // Takes a gap line.
    fn take_gap(&mut self, axis: u8, refusal: &Refusal) -> bool
        ensures answer { IsTrue result
            ↔ IsNextGap self.old.number self.old.contours self.old.standing axis
            (evidence_of refusal.now) }
        ensures number { self.new.number ≡ self.old.number }
        ensures contours { self.new.contours ≡ self.old.contours }
        ensures next { OnTrue result (self.new.standing ≡ with_gap self.old.standing) }
    {
        if self.gaps >= 2 * self.declared || !self.is_covered() || !self.wants_none() {
            return false;
        }
        let k = self.gaps as usize / 2;
        if axis as u32 != self.gaps % 2 || !self.is_refused(k, axis as usize, refusal) {
            return false;
        }
        self.last = None;
        self.gaps += 1;
        true
    }

    /// Takes the next line: whether it is a line of a contour that is good after those that were taken.
    ///
    /// A `contour` line gives the first crack, the number of points and that of segments of the next
    /// contour, once the one before has all its lines; an `at` line gives the next point, a `seg` line
    /// the next segment with a line that holds it, in a report with the number 2 a `least` line behind it two
    /// pairs of places that show this line to be least, and the line of a gap why the run of the next gap is
    /// not straight for the next axis. A line of another kind is not good here.
    pub fn take(&mut self, line: &Line<P2>) -> bool
        ensures answer { (X : Picture) (lines : List Terms.Line) → StandsFor X self.old lines
            → (IsTrue result ↔ FlatClaim self.old.number X lines (line_of point_of line.now)) }
        ensures stands { (X : Picture) (lines : List Terms.Line) → StandsFor X self.old lines
            → OnTrue result (StandsFor X self.new (lines ++ line_of point_of line.now ∷ [])) }
        ensures number { self.new.number ≡ self.old.number }
        ensures room { OnTrue result (room_of self.new < room_of self.old) }
    {
        match line {
            Line::Contour {
                p,
                side,
                points,
                segments,
            } => self.begin(Crack { p: *p, side: *side }, *points, *segments),
            Line::At { p } => self.go_on(*p),
            Line::Seg { first, last, line } => self.take_segment(
                Places {
                    first: *first,
                    last: *last,
                },
                line,
            ),
            Line::Least { bounds } => self.take_least(bounds),
            Line::Gap { axis, refusal } => self.take_gap(*axis, refusal),
            _ => false,
        }
    }

    /// Whether each contour of the picture has its lines.
    pub fn done(&self) -> bool
        ensures { (X : Picture) (lines : List Terms.Line) → StandsFor X self.now lines
            → (IsTrue result ↔ AllContours X lines) }
    {
        self.begun == self.contours.len() && self.is_full()
    }
}
