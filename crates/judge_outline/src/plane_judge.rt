//! The judge: it goes through the six faces of the volume, and through the patches of each.
//! Exposed points are told in `face`, and touching ones in `patch_round`.
ghost use Rattle.std.specs.Prelude.{◌≡◌, ◌+◌, ◌-◌, ◌*◌, ◌<◌, ◌≤◌, ◌^◌, ◌↔◌, [], ◌∷◌, ◌++◌, List, length, take, drop, IsTrue, IfOk, vec_capacity};
ghost use Rattle.std.specs.Bool.{OnTrue};
ghost use Rattle.shape_terms.specs.Limits.{most_points};
ghost use Rattle.shape_terms.specs.Points.{in_box, box_count};
ghost use Rattle.shape_terms.specs.Pictures.{Picture};
ghost use Rattle.shape_terms.specs.Naive.{IsProper};
ghost use Rattle.shape_terms.specs.Patches.{IsFirstLeft};
ghost use Rattle.report_terms.specs.Lines as Terms;
ghost use Rattle.report_terms.specs.FaceLines.{open_exposed, PatchIsFull, FacesAreFull, IsNextOn, IsNextTouching, IsFaceHead, IsPatchHead, IsOnLine, IsOffLine};
ghost use Rattle.report_terms.specs.Sections.{SolidClaim, AllFaces};
ghost use Rattle.shape_report.specs.LineOf.{line_of};
ghost use Rattle.shape_refute.specs.Senses.{sense_of};
ghost use Rattle.shape_refute.specs.Terms.{naive_of};
ghost use Rattle.shape_refute.specs.Weights.{refutation_of};
ghost use Rattle.judge_outline.specs.Terms.{point_of};
ghost use Rattle.report_terms.specs.FaceFacts.{face_axis, face_sense};
ghost use Rattle.judge_outline.specs.Exposure.{exposed_at, AreTouching, IsNearTo};
ghost use Rattle.judge_outline.specs.PlaneState.{StandsFor, room_of, with_face, with_patch, with_on, with_off};

use crate::face::{FACES, axis_of, expose_all, sense_in};
use crate::lately::touches_last;
use crate::listed::Listed;
use crate::patch_round::{find_round, touches};
use crate::recent::{mark, unmark};
use shape_adj::NearNumbers;
use shape_grid::Grid;
use shape_refute::{Naive, Refutation, Sense, holds, is_proper};
use shape_report::Line;
use shape_space::{NoMemory, P3};
use std::alloc::Global;
use std::marker::Model;

/// A judge of the lines of the faces of one volume, as they come.
///
/// It keeps the volume, the points that were given of the face that was begun last, and the points
/// that touch its last patch once that has all its points; it keeps no line. After `take` has
/// answered false it says nothing more, and is only dropped.
#[derive(Drop)]
pub struct PlaneJudge {
    grid: Grid<P3>,
    // how its points are numbered,
    near: NearNumbers<P3>,
    // How many faces were begun; and of the last of them:
    begun: u32,
    // how many exposed points it has,
    exposed: u32,
    // the points that were given, and as a grid those that were not,
    taken: Listed,
    left: Grid<P3>,
    // the raster number below which each exposed point was given,
    cursor: u32,
    // how many were given before its last patch,
    start: u32,
    // how many points that patch is to have, and its plane,
    declared: u32,
    plane: Naive,
    // and the points of it that were given, as a grid;
    recent: Grid<P3>,
    // once it has them, the numbers of the points that touch it in order, found with marks that are taken away again,
    marks: Grid<P3>,
    touching: Vec<u32>,
    // and how many of these it refused.
    refused: u32,
}

impl Model for PlaneJudge {
    ghost use Rattle.std.specs.Prelude.{vec_capacity};
    ghost use Rattle.shape_terms.specs.Points.{sides_of};
    ghost use Rattle.judge_outline.specs.Terms.{point_of};
    ghost use Rattle.judge_outline.specs.PlaneState.{PlaneState, IsKept, state_of};

    ghost Value = { PlaneState };

    ghost view = { λ j. state_of j.grid (record {
      begun = j.begun;
      exposed = j.exposed;
      start = j.start;
      declared = j.declared;
      cursor = j.cursor;
      refused = j.refused;
    }) j.plane j.taken.points j.touching.items };

    ghost invariant = { λ j. IsKept j.grid (record {
      begun = j.begun;
      exposed = j.exposed;
      start = j.start;
      declared = j.declared;
      cursor = j.cursor;
      refused = j.refused;
    }) j.plane (sides_of (point_of j.near.sides.lengths)) j.left j.recent j.taken j.marks
        j.touching.items (vec_capacity j.touching) };
}

impl PlaneJudge {
    /// A judge that has taken no line. It takes all its memory here: four bits for each point of the box, and 16 bytes for each
    /// object point.
    pub fn new(alloc: Global, grid: &Grid<P3>) -> Result<PlaneJudge, NoMemory>
        ensures stands { IfOk result (λ j. StandsFor grid.now j []) }
        ensures room { IfOk result (λ j. room_of j < 7 * ((most_points + 1) * (most_points + 2))) }
    {
        grid.is_picture();
        let sides = grid.sides();
        let touching = Vec::with_capacity(alloc, grid.count() as usize)?;
        Ok(PlaneJudge {
            grid: grid.copy(alloc)?,
            near: NearNumbers::new(alloc, sides)?,
            begun: 0,
            exposed: 0,
            taken: Listed::new(alloc, sides, grid.count())?,
            left: Grid::new(alloc, sides)?,
            cursor: 0,
            start: 0,
            declared: 0,
            plane: Naive {
                a: [0, 0, 0],
                mu: 0,
                axis: 0,
            },
            recent: Grid::new(alloc, sides)?,
            marks: Grid::new(alloc, sides)?,
            touching,
            refused: 0,
        })
    }

    // Whether the patch that was begun last has all its points.
    fn has_points(&self) -> bool
        ensures { IsTrue result
            ↔ length self.now.standing.patch.points ≡ self.now.standing.patch.declared }
    {
        self.taken.len() == self.start + self.declared
    }

    // Whether the patch that was begun last has all its points, and refused all that touch it.
    fn is_patch_full(&self) -> bool
        ensures { IsTrue result
            ↔ PatchIsFull (open_exposed self.now.picture self.now.standing) self.now.standing }
    {
        self.grid.is_picture();
        self.has_points() && self.refused == self.touching.len() as u32
    }

    // Whether no face is begun and without all its lines.
    fn is_full(&self) -> bool
        ensures { IsTrue result ↔ FacesAreFull self.now.picture self.now.standing }
    {
        self.begun == 0 || self.taken.len() == self.exposed && self.is_patch_full()
    }

    // Takes a `face` line.
    fn begin(&mut self, axis: u8, sense: Sense, points: u32) -> bool
        ensures answer { IsTrue result
            ↔ IsFaceHead self.old.picture self.old.standing axis (sense_of sense) points }
        ensures picture { self.new.picture ≡ self.old.picture }
        ensures next { OnTrue result (self.new.standing ≡ with_face self.old.standing) }
    {
        let face = self.begun;
        if face == FACES || !self.is_full() || axis != axis_of(face) || sense != sense_in(face) {
            return false;
        }
        unmark(&self.taken, self.start, &mut self.recent);
        expose_all(&self.grid, face, &mut self.left);
        self.begun += 1;
        self.exposed = self.left.count();
        self.taken.clear();
        self.cursor = 0;
        self.start = 0;
        self.declared = 0;
        self.plane.axis = axis;
        self.touching.clear();
        self.refused = 0;
        points == self.exposed
    }

    // Takes a `patch` line.
    fn begin_patch(&mut self, points: u32, a: [i64; 3], mu: i64) -> bool
        ensures answer { IsTrue result ↔ IsPatchHead self.old.picture self.old.standing points
            (record { a = take 3 a; mu = mu }) }
        ensures picture { self.new.picture ≡ self.old.picture }
        ensures next { OnTrue result (self.new.standing
            ≡ with_patch self.old.standing points (record { a = take 3 a; mu = mu })) }
    {
        if self.begun == 0 || !self.is_patch_full() || points == 0 {
            return false;
        }
        let plane = Naive {
            a,
            mu,
            axis: self.plane.axis,
        };
        let start = self.taken.len();
        if points > self.exposed - start || !is_proper::<P3>(&plane) {
            return false;
        }
        unmark(&self.taken, self.start, &mut self.recent);
        self.start = start;
        self.declared = points;
        self.plane = plane;
        self.refused = 0;
        true
    }

    // Whether a point is the first of the face that is left. It goes on in raster order from the one that was the first before.
    fn is_first(&mut self, p: P3) -> bool
        requires { 0 < self.old.standing.begun }
        ensures answer { IsTrue result
            ↔ IsFirstLeft (open_exposed self.old.picture self.old.standing) self.old.standing.taken
            (point_of p) }
        ensures same { self.new ≡ self.old }
    {
        match self.left.first_from(self.cursor) {
            Some(i) => {
                self.cursor = i;
                self.grid.sides().unraster(i) == p
            }
            None => false,
        }
    }

    // Whether a point of the box is near one of the patch that was begun last.
    fn is_beside(&self, p: P3) -> bool
        requires { IsTrue (in_box self.now.picture.sides (point_of p)) }
        ensures { IsTrue result ↔ IsNearTo self.now.standing.patch.points (point_of p) }
    {
        touches_last(&self.taken, self.start, p) || touches(&self.near, &self.recent, p)
    }

    // Whether a point is the next of the patch that was begun last.
    fn is_next(&mut self, p: P3) -> bool
        requires { 0 < self.old.standing.begun }
        ensures answer { IsTrue result
            ↔ IsNextOn (open_exposed self.old.picture self.old.standing) self.old.standing.taken
            self.old.standing.patch.points (point_of p) }
        ensures same { self.new ≡ self.old }
    {
        if self.taken.len() == self.start {
            return self.is_first(p);
        }
        self.left.has(p) && self.is_beside(p)
    }

    // Takes an `on` line.
    fn take_on(&mut self, p: P3) -> bool
        ensures answer { IsTrue result
            ↔ IsOnLine self.old.picture self.old.standing (point_of p) }
        ensures picture { self.new.picture ≡ self.old.picture }
        ensures next { OnTrue result (self.new.standing ≡ with_on self.old.standing (point_of p)) }
        ensures left { OnTrue result (length self.old.standing.taken
            < length (open_exposed self.old.picture self.old.standing)) }
    {
        if self.has_points() || !holds(&self.plane, p) || !self.is_next(p) {
            return false;
        }
        self.left.clear(p);
        mark(&mut self.recent, p);
        self.taken.push(p);
        if self.taken.len() == self.start + self.declared {
            find_round(
                &self.left,
                &self.near,
                &self.taken,
                self.start,
                &mut self.marks,
                &mut self.touching,
            );
        }
        true
    }

    // Whether a point is the next that touches the patch.
    fn is_next_touching(&self, p: P3) -> bool
        requires { length self.now.standing.patch.points ≡ self.now.standing.patch.declared }
        ensures { IsTrue result
            ↔ IsNextTouching (open_exposed self.now.picture self.now.standing)
            self.now.standing.taken self.now.standing.patch.points
            self.now.standing.patch.refused (point_of p) }
    {
        self.grid.is_picture();
        self.refused < self.touching.len() as u32
            && self
                .grid
                .sides()
                .unraster(self.touching[self.refused as usize])
                == p
    }

    // Takes an `off` line.
    fn take_off(&mut self, p: P3, why: &Refutation) -> bool
        ensures answer { IsTrue result
            ↔ IsOffLine self.old.picture self.old.standing (point_of p) (refutation_of why.now) }
        ensures picture { self.new.picture ≡ self.old.picture }
        ensures next { OnTrue result (self.new.standing ≡ with_off self.old.standing (point_of p)) }
        ensures left { OnTrue result (length self.old.standing.patch.refused
            < box_count self.old.picture.sides) }
    {
        if !self.has_points() || !self.is_next_touching(p) {
            return false;
        }
        self.grid.is_picture();
        let axis = self.plane.axis as usize;
        if !self.taken.are_refuted(self.start, p, axis, why) {
            return false;
        }
        self.refused += 1;
        true
    }

    /// Takes the next line: whether it is a line of a face that is good after those that were taken.
    ///
    /// A `face` line gives the next of the six faces and the number of its exposed points, once the
    /// one before has all its lines; a `patch` line the number of points of the next patch and a
    /// proper plane; an `on` line the next point of the patch; and once it has all, an `off` line the
    /// next of the points that touch it, with weights that refute the patch with this point put last.
    /// A line of another kind is not good here.
    pub fn take(&mut self, line: &Line<P3>) -> bool
        ensures answer { (X : Picture) (lines : List Terms.Line) → StandsFor X self.old lines
            → (IsTrue result ↔ SolidClaim X lines (line_of point_of line.now)) }
        ensures stands { (X : Picture) (lines : List Terms.Line) → StandsFor X self.old lines
            → OnTrue result (StandsFor X self.new (lines ++ line_of point_of line.now ∷ [])) }
        ensures room { OnTrue result (room_of self.new < room_of self.old) }
    {
        match line {
            Line::Face {
                axis,
                sense,
                points,
            } => self.begin(*axis, *sense, *points),
            Line::Patch { points, a, mu } => self.begin_patch(*points, *a, *mu),
            Line::On { p } => self.take_on(*p),
            Line::Off { p, why } => self.take_off(*p, why),
            _ => false,
        }
    }

    /// Whether each of the six faces has its lines.
    pub fn done(&self) -> bool
        ensures { (X : Picture) (lines : List Terms.Line) → StandsFor X self.now lines
            → (IsTrue result ↔ AllFaces X lines) }
    {
        self.begun == FACES && self.is_full()
    }
}
