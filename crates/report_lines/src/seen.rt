//! What a report says of the points of its box, as a sketch of its lines.
//! It is the part that masks and tables have in common.
ghost use Rattle.std.specs.Prelude.{◌≡◌, [], ◌∷◌, IfOk, OnOk, length};
ghost use Rattle.shape_terms.specs.Points.{sides_of, box_count};
ghost use Rattle.shape_report.specs.LineOf.{line_of};
ghost use Rattle.report_lines.specs.Said.{said};
ghost use Rattle.report_lines.specs.Kept.{AreOf, with_near, with_deleted};

use crate::opening::Heading;
use crate::sketch::Sketch;
use shape_cells::Squares;
use shape_grid::Grid;
use shape_report::Line;
use shape_space::{NoMemory, Point, Sides};
use std::alloc::Global;
use std::marker::Model;

/// What a report says of the points of its box: which are object, how far each is from the background, which were deleted,
/// and which object points are left.
///
/// It takes four bytes and three bits for each point of the box, and four bytes more once there was a square that four cannot hold.
#[derive(Drop)]
pub struct Seen<P: Point> {
    sides: Sides<P>,
    object: Grid<P>,
    squares: Squares,
    deleted: Grid<P>,
    left: Grid<P>,
}

impl<P: Point> Model for Seen<P> {
    ghost use Rattle.std.specs.Prelude.{◌≡◌};
    ghost use Rattle.shape_terms.specs.Points.{sides_of, box_count};
    ghost use Rattle.report_lines.specs.Said.{Said};
    ghost use Rattle.report_lines.specs.Kept.{AreOf};

    ghost Value = { Said };

    ghost view = { λ s. record {
      object = s.object;
      squares = s.squares;
      deleted = s.deleted;
      left = s.left;
    } };

    ghost invariant = { λ s. AreOf (sides_of (P.coords s.sides.lengths)) (record {
      object = s.object;
      squares = s.squares;
      deleted = s.deleted;
      left = s.left;
    }) };
}

impl<P: Point> Seen<P> {
    /// What a heading says: no point is object.
    pub fn new(alloc: Global, heading: &Heading<P>) -> Result<Seen<P>, NoMemory>
        ensures { IfOk result (λ s. s ≡ said (line_of P.coords heading.now.line ∷ [])) }
    {
        let sides = heading.sides;
        let object = Grid::new(alloc, sides)?;
        let count = sides.count() as usize;
        let squares = Squares::new(alloc, count)?;
        let deleted = Grid::new(alloc, sides)?;
        let left = Grid::new(alloc, sides)?;
        Ok(Seen {
            sides,
            object,
            squares,
            deleted,
            left,
        })
    }

    /// The sides of the box.
    pub fn sides(&self) -> Sides<P>
        ensures { sides_of (P.coords result.lengths) ≡ self.now.object.sides }
    {
        self.sides
    }

    /// The pictures stand in one box, and each point of the box has a number.
    pub fn is_of_box(&self)
        ensures { AreOf self.now.object.sides self.now }
    {
        let _ = &self.sides;
    }

    /// The object points.
    pub fn object(&self) -> &Grid<P>
        ensures { result.now ≡ self.now.object }
    {
        &self.object
    }

    /// The squared distance of each point of the box in raster order, as the last line about it gives it, and 0 where no line
    /// does.
    pub fn squares(&self) -> &Squares
        ensures value { result.now ≡ self.now.squares }
        ensures count { length result.now ≡ box_count self.now.object.sides }
    {
        &self.squares
    }

    /// The object points that no line deletes.
    pub fn left(&self) -> &Grid<P>
        ensures value { result.now ≡ self.now.left }
        ensures sides { result.now.sides ≡ self.now.object.sides }
    {
        &self.left
    }

    // Takes a `near` line about a point.
    fn near(&mut self, p: P, square: u64) -> Result<(), NoMemory>
        ensures { OnOk result (self.new ≡ with_near self.old (P.coords p) square) }
    {
        if self.sides.inside(p) {
            self.object.set(p);
            self.squares.set(self.sides.raster(p) as usize, square)?;
            if !self.deleted.has(p) {
                self.left.set(p);
            }
        }
        Ok(())
    }

    // Takes a `del` line about a point.
    fn delete(&mut self, p: P)
        ensures { self.new ≡ with_deleted self.old (P.coords p) }
    {
        if self.sides.inside(p) {
            self.deleted.set(p);
            self.left.clear(p);
        }
    }
}

impl<P: Point> Sketch<P> for Seen<P> {
    ghost use Rattle.report_lines.specs.Said.{said};

    ghost IsOf = { λ lines s. s ≡ said lines };

    fn take(&mut self, line: &Line<P>) -> Result<(), NoMemory> {
        self.object.is_picture();
        match line {
            Line::Near { p, s, .. } => self.near(*p, *s)?,
            Line::Del { p } => self.delete(*p),
            _ => {}
        }
        Ok(())
    }
}
