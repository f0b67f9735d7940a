//! Cells of places: which places have one of their own is told when they are made.
//! How the cells are kept changes nothing outside this file.
ghost use Rattle.std.specs.Prelude.{◌≡◌, ◌+◌, ◌*◌, ◌<◌, ◌≤◌, ℕ, IfOk, MatchOption, Some, true, false, length, map, slice_get, slice_index_or};
ghost use Rattle.std.specs.List.{range_with_len};
ghost use Rattle.shape_terms.specs.Limits.{most_framed, most_coordinate};
ghost use Rattle.shape_grid.specs.Runs.{IsRunEnd};
ghost use Rattle.shape_grid.specs.Truths.{IsFirstTrue};
ghost use Rattle.shape_cells.specs.Counting.{trues};
ghost use Rattle.shape_cells.specs.Held.{HasCell, IsBareElsewhere, with_value, all_kept};

use crate::cell::Cell;
use crate::counts::count;
use crate::few;
use crate::numbering::Numbering;
use shape_grid::Bits;
use shape_space::NoMemory;
use std::alloc::Global;
use std::marker::Model;

/// What each place holds. A place of the object has a cell of its own, and so may others; those without one hold what their number tells.
///
/// Where the object is a quarter of the places or less, its places alone have a cell, and each place takes a bit and a half beside. Else each
/// place has a cell, and nothing is kept beside.
#[derive(Drop)]
pub struct Cells<T: Cell> {
    objects: Option<Numbering>,
    cells: Vec<T>,
}

impl<T: Cell> Model for Cells<T> {
    ghost use Rattle.shape_cells.specs.Held.{Held, held, AreCells};

    ghost Value = { Held T };

    ghost view = { λ c. held T.bare c.objects c.cells.items };

    ghost invariant = { λ c. AreCells c.objects c.cells.items };
}

impl<T: Cell> Cells<T> {
    /// Cells of places: a place with the value true is one of the object. Each holds what its number tells, so far.
    pub fn new(alloc: Global, objects: Bits) -> Result<Cells<T>, NoMemory>
        requires { length objects ≤ most_framed }
        ensures long { IfOk result (λ c. length c.values ≡ length objects) }
        ensures object { IfOk result
            (λ c. (i : ℕ) → slice_index_or objects i false ≡ true → HasCell c i) }
        ensures few { IfOk result (λ c. 4 * trues objects ≤ length objects → c.kept ≡ objects) }
        ensures bare { IfOk result
            (λ c. (i : ℕ) → i < length objects → slice_get c.values i ≡ Some (T.bare i)) }
    {
        if 4 * count(&objects) as usize <= objects.len() {
            return Cells::of_trues(alloc, objects);
        }
        let places = objects.len() as u32;
        drop(objects);
        Cells::of_all(alloc, places)
    }

    // Cells of the true values alone.
    fn of_trues(alloc: Global, objects: Bits) -> Result<Cells<T>, NoMemory>
        requires { length objects ≤ most_framed }
        ensures values { IfOk result
            (λ c. c.values ≡ map T.bare (range_with_len 0 (length objects))) }
        ensures kept { IfOk result (λ c. c.kept ≡ objects) }
    {
        let numbering = Numbering::of(alloc, objects)?;
        let cells = few::bare_cells(alloc, &numbering)?;
        Ok(Cells {
            objects: Some(numbering),
            cells,
        })
    }

    // A cell for each place.
    fn of_all(alloc: Global, places: u32) -> Result<Cells<T>, NoMemory>
        requires { places ≤ most_framed }
        ensures { IfOk result
            (λ c. c ≡ all_kept (map T.bare (range_with_len 0 places))) }
    {
        let mut cells = Vec::with_capacity(alloc, places as usize)?;
        for place in 0..places {
            cells.push(T::bare(place))?;
        }
        Ok(Cells {
            objects: None,
            cells,
        })
    }

    /// The number of places.
    pub fn len(&self) -> u32
        ensures places { result ≡ length self.now.values }
        ensures few { length self.now.values ≤ most_framed }
        ensures marks { length self.now.kept ≡ length self.now.values }
    {
        match &self.objects {
            Some(objects) => objects.len(),
            None => self.cells.len() as u32,
        }
    }

    /// What counts is the clause: a place without a cell of its own holds what its number tells.
    pub fn is_bare_elsewhere(&self)
        ensures { IsBareElsewhere T.bare self.now }
    {
        let _ = &self.cells;
    }

    /// The first place from a place on that has a cell of its own.
    #[inline]
    pub fn first_from(&self, from: u32) -> Option<u32>
        ensures { MatchOption result
            ((k : ℕ) → from ≤ k → slice_index_or self.now.kept k false ≡ false)
            (λ k. IsFirstTrue self.now.kept from k) }
    {
        match &self.objects {
            Some(objects) => objects.first_from(from),
            None => ((from as usize) < self.cells.len()).then_some(from),
        }
    }

    /// The first place from a place on that has a cell of its own, and `until` where there is none before it.
    #[inline]
    pub fn first_before(&self, from: u32, until: u32) -> u32
        requires ordered { from ≤ until }
        requires within { until ≤ length self.now.values }
        ensures { IsRunEnd self.now.kept false from until result }
    {
        match &self.objects {
            Some(objects) => objects.first_before(from, until),
            None => from,
        }
    }

    /// A numbering of the places that have a cell of their own, unless each place has one.
    pub fn numbering(&self, alloc: Global) -> Result<Option<Numbering>, NoMemory>
        ensures { IfOk result (λ o. MatchOption o
            ((i : ℕ) → i < length self.now.values → HasCell self.now i)
            (λ n. n ≡ self.now.kept)) }
    {
        match &self.objects {
            Some(objects) => Ok(Some(objects.copy(alloc)?)),
            None => Ok(None),
        }
    }

    /// What a place holds.
    #[inline]
    pub fn get(&self, place: u32) -> T
        requires { place < length self.now.values }
        ensures { slice_get self.now.values place ≡ Some result }
    {
        match &self.objects {
            Some(objects) => few::value(objects, self.cells.as_slice(), place),
            None => self.cells[place as usize],
        }
    }

    /// Has a place hold another value, if it has a cell of its own.
    #[inline]
    pub fn set(&mut self, place: u32, value: T)
        requires { place < length self.old.values }
        ensures { self.new ≡ with_value self.old place value }
    {
        match &self.objects {
            Some(objects) => few::put(objects, &mut self.cells, place, value),
            None => self.cells[place as usize] = value,
        }
    }

    /// Copies so many lines of `side` places, the first from `start` on with places `step` apart and each beside the one before, one after
    /// the other into a block.
    pub fn take_lines(&self, block: &mut [T], start: usize, step: usize, side: u32, lines: u32)
        requires inside { (y : ℕ) → y < side → start + y * step + lines ≤ length self.now.values }
        requires near { side ≤ most_coordinate }
        requires beside { lines ≤ most_coordinate }
        requires room { lines * side ≤ length block.old }
        ensures taken { (d : T) (j y : ℕ) → j < lines → y < side
            → slice_index_or block.new (j * side + y) d
            ≡ slice_index_or self.now.values (start + y * step + j) d }
        ensures long { length block.new ≡ length block.old }
    {
        match &self.objects {
            Some(objects) => {
                few::take_lines(
                    objects,
                    self.cells.as_slice(),
                    block,
                    start,
                    step,
                    side,
                    lines,
                );
            }
            None => {
                shape_envelope::take_lines(block, self.cells.as_slice(), start, step, side, lines);
            }
        }
    }

    /// Copies the lines of a block back to where `take_lines` finds them: to each place that has a cell of its own.
    pub fn put_lines(&mut self, block: &[T], start: usize, step: usize, side: u32, lines: u32)
        requires inside { (y : ℕ) → y < side → start + y * step + lines ≤ length self.old.values }
        requires apart { lines ≤ step }
        requires near { side ≤ most_coordinate }
        requires beside { lines ≤ most_coordinate }
        requires room { lines * side ≤ length block.now }
        ensures put { (d : T) (j y : ℕ) → j < lines → y < side
            → HasCell self.old (start + y * step + j)
            → slice_index_or self.new.values (start + y * step + j) d
            ≡ slice_index_or block.now (j * side + y) d }
        ensures others { (d : T) (i : ℕ)
            → ((j y : ℕ) → j < lines → y < side → i ≡ start + y * step + j → HasCell self.old i → ⊥)
            → slice_index_or self.new.values i d ≡ slice_index_or self.old.values i d }
        ensures long { length self.new.values ≡ length self.old.values }
        ensures kept { self.new.kept ≡ self.old.kept }
    {
        match &self.objects {
            Some(objects) => {
                few::put_lines(objects, &mut self.cells, block, start, step, side, lines);
            }
            None => shape_envelope::put_lines(&mut self.cells, block, start, step, side, lines),
        }
    }
}
