//! Pairs of points that are known, as rows, and the bounds of the first slope by all of them.
//! A row more is met with each row before it, once; a pair that leads nowhere is forgotten by a mark.
ghost use Rattle.std.specs.Prelude.{◌≡◌, ◌⊎◌, ◌<◌, ◌+◌, ◌++◌, [], ◌∷◌, List, length, map, take, IfOk};
ghost use Rattle.shape_plane.specs.Rows.{row_at, IsGap, IsSystem};
ghost use Rattle.shape_plane.specs.Pairs.{IsPair, ArePairs, AreInside, pair_row};
ghost use Rattle.shape_plane.specs.Ranges.{HasWhole};
ghost use Rattle.shape_plane.specs.Systems.{bounding_rows as bounding, rows_for};
ghost use Rattle.shape_plane.specs.Solved.{IsSolved, IsFound};
ghost use Rattle.shape_plane.specs.Knowing.{IsMark};

use crate::answer::{Slopes, Solved, find_slopes, solved_by};
use crate::pair::{Pair, row_of};
use crate::range::{Narrowed, all_slopes, cleared};
use crate::row::Row;
use crate::system::bounding_rows;
use crate::weights::nothing;
use shape_refute::Refutation;
use shape_space::{NoMemory, Point};
use std::alloc::Global;
use std::marker::Model;

// What is left of the first slopes by the row at a place and by those before it.
fn narrowed(rows: &[Row], j: usize, old: Narrowed) -> Narrowed
    requires place { j < length rows.now }
    requires pair { IsGap (row_at rows.now j).cause }
    requires system { IsSystem rows.now }
    requires before { HasWhole rows.now j old }
    ensures { HasWhole rows.now (j + 1) result }
{
    match old {
        Narrowed::Room(r) => cleared(rows, j, r),
        Narrowed::Clash(c) => Narrowed::Clash(c),
    }
}

/// What was known at a time, to come back to.
#[derive(Clone, Copy)]
pub struct Mark {
    count: usize,
    first: Narrowed,
}

/// Pairs of places of a list of points, and what they say of the slopes for an axis. Contracts see the rows of the pairs.
#[derive(Drop)]
pub struct Known {
    rows: Vec<Row>,
    first: Narrowed,
}

impl Model for Known {
    ghost use Rattle.std.specs.Prelude.{List};
    ghost use Rattle.shape_plane.specs.declared.row.Row.{Row};
    ghost use Rattle.shape_plane.specs.Knowing.{IsKnown};

    ghost Value = { List Row };

    ghost view = { λ k. k.rows.items };

    ghost invariant = { λ k. IsKnown k.rows.items k.first };
}

impl Known {
    /// No pair.
    pub fn new(alloc: Global, axis: usize) -> Result<Known, NoMemory>
        ensures { IfOk result (λ k. k ≡ bounding axis) }
    {
        let rows = bounding_rows(alloc, axis)?;
        let first = Narrowed::Room(all_slopes(&rows));
        Ok(Known { rows, first })
    }

    /// Puts a pair last. It takes time by the number of pairs before it.
    pub fn add<P: Point>(&mut self, points: &[P], axis: usize, pair: Pair) -> Result<(), NoMemory>
        requires axis { axis < P.DIM }
        requires pair { IsPair (length points.now) pair }
        requires inside { AreInside P.MAX_SIDE (map P.coords points.now) }
        ensures added { IfOk result (λ _. self.new
            ≡ self.old ++ pair_row axis (map P.coords points.now) pair ∷ []) }
        ensures either { (self.new ≡ self.old)
            ⊎ (self.new ≡ self.old ++ pair_row axis (map P.coords points.now) pair ∷ []) }
    {
        let j = self.rows.len();
        self.rows.push(row_of(points, axis, pair))?;
        self.first = narrowed(&self.rows, j, self.first);
        Ok(())
    }

    /// Finds proper slopes of an axis that meet all pairs, or the weights of the pairs and of steps that exclude all slopes.
    ///
    /// It takes time by the number of pairs, and none by the number of points.
    pub fn solve<P: Point>(&self, points: &[P], axis: usize) -> Solved
        requires axis { axis < P.DIM }
        ensures { (pairs : List Pair) → ArePairs (length points.now) pairs
            → self.now ≡ rows_for axis (map P.coords points.now) pairs
            → IsSolved P.DIM axis (map P.coords points.now) pairs result }
    {
        let mut why = nothing();
        let slopes = self.find(points, axis, &mut why);
        solved_by(slopes, why)
    }

    /// The same, as the slopes alone; where there are none, the weights stand in `why`.
    pub fn find<P: Point>(&self, points: &[P], axis: usize, why: &mut Refutation) -> Option<Slopes>
        requires axis { axis < P.DIM }
        ensures { (pairs : List Pair) → ArePairs (length points.now) pairs
            → self.now ≡ rows_for axis (map P.coords points.now) pairs
            → IsFound P.DIM axis (map P.coords points.now) pairs result why.new }
    {
        let _ = points;
        find_slopes::<P>(&self.rows, axis, self.first, why)
    }

    /// What is known now.
    pub fn mark(&self) -> Mark
        ensures { IsMark result self.now }
    {
        Mark {
            count: self.rows.len(),
            first: self.first,
        }
    }

    /// Forgets the pairs that were put behind a mark.
    pub fn reset(&mut self, mark: Mark)
        requires { IsMark mark (take mark.count self.old) }
        ensures { self.new ≡ take mark.count self.old }
    {
        self.rows.truncate(mark.count);
        self.first = mark.first;
    }
}
