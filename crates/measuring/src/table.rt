//! The table of a picture: the measures of each component of its object, counted in one pass over the box.
//! What is known of a point stands in `fact`, what a point adds to its object in `count`.
ghost use Rattle.std.specs.Prelude.{◌≡◌, ◌<◌, ◌≤◌, ◌+◌, [], map, length, IfOk};
ghost use Rattle.shape_terms.specs.Points.{box_count};
ghost use Rattle.measure_terms.specs.Facts.{facts, facts_below};
ghost use Rattle.measure_terms.specs.Measures.{greatest};
ghost use Rattle.measure_terms.specs.Tables.{rows};
ghost use Rattle.measuring.specs.Told.{measures_told, AreEmptyRows};
ghost use Rattle.measuring.specs.TellsTable.{TellsTable};

use crate::fact::fact_of;
use crate::row::Measures;
use shape_adj::{Labels, Pairing, labels};
use shape_cells::Squares;
use shape_grid::Grid;
use shape_space::NoMemory;
use std::alloc::Global;

/// The table of a picture's objects.
#[derive(Drop)]
pub struct Table {
    /// The label of each point: the number of its object, from 1 on, or 0 for background.
    pub labels: Labels,
    /// How many objects there are.
    pub count: u32,
    /// The measures of each object.
    pub rows: Vec<Measures>,
}

// The greatest label: the number of the objects.
fn greatest_label(labels: &Labels, count: u32) -> u32
    requires { count ≡ length labels.now }
    ensures { result ≡ greatest labels.now }
{
    let mut most = 0;
    for i in 0..count {
        most = labels.label(i).max(most);
    }
    most
}

// So many rows without a point.
fn empty_rows(alloc: Global, count: u32) -> Result<Vec<Measures>, NoMemory>
    ensures { IfOk result (λ all. AreEmptyRows count all.items) }
{
    let mut all = Vec::new(alloc);
    for i in 0..count {
        all.push(Measures::none())?;
    }
    Ok(all)
}

// Adds the point with a raster number to the row of its object, where it has one.
fn add_point<P: Pairing>(
    all: &mut [Measures],
    object: &Grid<P>,
    squares: &Squares,
    left: &Grid<P>,
    labels: &Labels,
    i: u32,
)
    requires below { i < box_count left.now.sides }
    requires squares { length squares.now ≡ box_count left.now.sides }
    requires labels { length labels.now ≡ box_count left.now.sides }
    requires enough { greatest labels.now ≤ length all.old }
    requires so_far { map (measures_told left.now.sides) all.old
        ≡ rows (length all.old) (facts_below object.now squares.now left.now labels.now i) }
    ensures { map (measures_told left.now.sides) all.new
        ≡ rows (length all.old) (facts_below object.now squares.now left.now labels.now (i + 1)) }
{
    let part = labels.label(i);
    if part != 0 {
        let fact = fact_of(object, left, part, squares.get(i as usize), i);
        let row = part as usize - 1;
        all[row] = all[row].with(left.sides(), &fact);
    }
}

// Adds all points of the box to the rows of their objects.
fn add_points<P: Pairing>(
    all: &mut [Measures],
    object: &Grid<P>,
    squares: &Squares,
    left: &Grid<P>,
    labels: &Labels,
)
    requires squares { length squares.now ≡ box_count left.now.sides }
    requires labels { length labels.now ≡ box_count left.now.sides }
    requires enough { greatest labels.now ≤ length all.old }
    requires empty { map (measures_told left.now.sides) all.old ≡ rows (length all.old) [] }
    ensures { map (measures_told left.now.sides) all.new
        ≡ rows (length all.old) (facts object.now squares.now left.now labels.now) }
{
    for i in 0..left.sides().count() {
        add_point(all, object, squares, left, labels, i);
    }
}

/// Measures the components of a picture's object, in the order of their first points in raster order.
///
/// `squares` has the squared distance of each point of the box, in raster order, and `left` is the picture of the points that
/// are left of the object. Neither is checked. It takes memory for a few bytes a point and about a hundred an object.
pub fn measure<P: Pairing>(
    alloc: Global,
    object: &Grid<P>,
    squares: &Squares,
    left: &Grid<P>,
) -> Result<Table, NoMemory>
    requires sides { left.now.sides ≡ object.now.sides }
    requires squares { length squares.now ≡ box_count object.now.sides }
    ensures { IfOk result (TellsTable object.now squares.now left.now) }
{
    let labels = labels(alloc, object)?;
    let count = greatest_label(&labels, object.sides().count());
    let mut all = empty_rows(alloc, count)?;
    add_points(all.as_mut_slice(), object, squares, left, &labels);
    Ok(Table {
        labels,
        count,
        rows: all,
    })
}
