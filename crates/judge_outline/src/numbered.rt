//! The raster numbers of marked points, each once: a point is marked when its number is put down.
//! Nothing here knows of faces, nor of the order of the numbers.
ghost use Rattle.std.specs.Prelude.{◌≡◌, ◌⊎◌, ◌<◌, ◌↔◌, [], IsTrue, false, length, vec_capacity};
ghost use Rattle.shape_terms.specs.Points.{Point as Where, box_count, raster_point};
ghost use Rattle.shape_terms.specs.Pictures.{at};
ghost use Rattle.judge_outline.specs.Exposure.{AreMarked};
ghost use Rattle.judge_outline.specs.Listings.{AreNumbered};

use shape_grid::Grid;
use shape_space::P3;

/// Puts down the number of a point of the box and marks the point, unless that was done before.
pub(crate) fn put(i: u32, marks: &mut Grid<P3>, numbers: &mut Vec<u32>)
    requires place { i < box_count marks.old.sides }
    requires numbered { AreNumbered marks.old numbers.old.items }
    requires room { at marks.old (raster_point marks.old.sides i) ≡ false
        → length numbers.old.items < vec_capacity numbers.old }
    ensures box_ { marks.new.sides ≡ marks.old.sides }
    ensures numbered { AreNumbered marks.new numbers.new.items }
    ensures capacity { vec_capacity numbers.new ≡ vec_capacity numbers.old }
    ensures points { (q : Where) → IsTrue (at marks.new q)
        ↔ (IsTrue (at marks.old q) ⊎ (raster_point marks.old.sides i ≡ q)) }
{
    marks.is_picture();
    if marks.has_number(i) {
        return;
    }
    marks.set_number(i);
    numbers.push_reserved(i);
}

/// Takes the marks from all points whose numbers were put down.
pub(crate) fn unmark_all(marks: &mut Grid<P3>, numbers: &Vec<u32>)
    requires { AreNumbered marks.old numbers.now.items }
    ensures box_ { marks.new.sides ≡ marks.old.sides }
    ensures none { AreMarked [] marks.new }
{
    for k in 0..numbers.len() {
        marks.clear_number(numbers[k]);
    }
}
