//! The columns of Feret diameters: the greatest distance of two points of an object, and the two points.
//! A further column is one more piece in both methods, in the same place as in `specs/FeretColumns.antt`.
ghost use Rattle.std.specs.Prelude.{◌≡◌, ◌++◌, Bool, cond, OnOk, slice_index_or};
ghost use Rattle.measuring.specs.FeretsTold.{point_of, feret_told, ferets_told};
ghost use Rattle.measure_report.specs.FeretColumns.{axes, coordinate_cells, point_cells, feret_cells, no_feret};

use measuring::{Columns, Csv, Feret, Site, root};
use shape_space::NoMemory;

/// The columns of the Feret diameter of each object of the plane.
#[derive(Drop)]
pub(crate) struct FlatFerets {
    pub(crate) ferets: Vec<Feret>,
}

/// The columns of the Feret diameter of each object of space.
#[derive(Drop)]
pub(crate) struct SolidFerets {
    pub(crate) ferets: Vec<Feret>,
}

// The Feret diameter of the object in a row with a place, and none where there is no such object.
fn feret_at(all: &[Feret], i: usize) -> Feret
    ensures { (solid : Bool) → feret_told (axes solid) result
        ≡ slice_index_or (ferets_told (axes solid) all.now) i (no_feret solid) }
{
    if i < all.len() {
        all[i]
    } else {
        let origin = Site {
            number: 0,
            x: 0,
            y: 0,
            z: 0,
        };
        Feret {
            square: 0,
            from: origin,
            to: origin,
        }
    }
}

// Puts two coordinates or three.
fn put_coordinates(solid: bool, p: Site, csv: &mut Csv) -> Result<(), NoMemory>
    ensures { OnOk result (csv.new ≡ csv.old ++ coordinate_cells solid p.x p.y p.z) }
{
    csv.whole(p.x as u128)?;
    csv.whole(p.y as u128)?;
    if solid {
        csv.whole(p.z as u128)?;
    }
    Ok(())
}

// Puts the coordinates of a point.
fn put_point(solid: bool, p: Site, csv: &mut Csv) -> Result<(), NoMemory>
    ensures { OnOk result (csv.new ≡ csv.old ++ point_cells solid (point_of (axes solid) p)) }
{
    put_coordinates(solid, p, csv)
}

// Puts the cells of an object's Feret diameter.
fn put_feret(solid: bool, f: Feret, csv: &mut Csv) -> Result<(), NoMemory>
    ensures { OnOk result (csv.new ≡ csv.old ++ feret_cells solid (feret_told (axes solid) f)) }
{
    csv.thousandths(root(f.square))?;
    put_point(solid, f.from, csv)?;
    put_point(solid, f.to, csv)?;
    Ok(())
}

impl Columns for FlatFerets {
    ghost use Rattle.std.specs.Prelude.{false};
    ghost use Rattle.measuring.specs.FeretsTold.{ferets_told};
    ghost use Rattle.measure_report.specs.FeretColumns.{feret_columns};

    ghost columns = { λ c. feret_columns false (ferets_told 2 c.ferets.items) };

    fn put_names(&self, csv: &mut Csv) -> Result<(), NoMemory> {
        csv.put(b",feret,from_x,from_y,to_x,to_y")
    }

    fn put_cells(&self, i: usize, csv: &mut Csv) -> Result<(), NoMemory> {
        put_feret(false, feret_at(self.ferets.as_slice(), i), csv)
    }
}

impl Columns for SolidFerets {
    ghost use Rattle.std.specs.Prelude.{true};
    ghost use Rattle.measuring.specs.FeretsTold.{ferets_told};
    ghost use Rattle.measure_report.specs.FeretColumns.{feret_columns};

    ghost columns = { λ c. feret_columns true (ferets_told 3 c.ferets.items) };

    fn put_names(&self, csv: &mut Csv) -> Result<(), NoMemory> {
        csv.put(b",feret,from_x,from_y,from_z,to_x,to_y,to_z")
    }

    fn put_cells(&self, i: usize, csv: &mut Csv) -> Result<(), NoMemory> {
        put_feret(true, feret_at(self.ferets.as_slice(), i), csv)
    }
}
