//! The columns of Euler numbers, and in space of surfaces.
//! A further column is one more piece in both methods, in the same place as in `specs/MinkowskiColumns.antt`.
ghost use Rattle.std.specs.Prelude.{◌≡◌, ◌++◌, OnOk, slice_index, slice_index_or};
ghost use Rattle.measure_terms.specs.SpacedSurface.{volume};
ghost use Rattle.measuring.specs.Spaced.{spacing_told};
ghost use Rattle.measuring.specs.MinkowskiTold.{told, all_told};
ghost use Rattle.measure_report.specs.MinkowskiColumns.{minkowski_cells, no_minkowski};
ghost use Rattle.measure_report.specs.KeptSurfaces.{kept_cells};

use crate::further::area_at;
use measuring::{Columns, Csv, Minkowski, Spacing, surface, voxel_volume};
use shape_space::NoMemory;

/// The columns of the numbers of each object of the plane.
#[derive(Drop)]
pub(crate) struct FlatNumbers {
    pub(crate) numbers: Vec<Minkowski>,
}

/// The columns of the numbers of each object of space, by a spacing where there is one.
#[derive(Drop)]
pub(crate) struct SolidNumbers {
    pub(crate) spacing: Option<Spacing>,
    /// How many voxels each object has.
    pub(crate) areas: Vec<u32>,
    pub(crate) numbers: Vec<Minkowski>,
    /// The surface of each object, where there is a spacing.
    pub(crate) surfaces: Vec<u128>,
}

// The numbers of the object in a row with a place, and zeros where there is no such object.
fn numbers_at(all: &[Minkowski], i: usize) -> Minkowski
    ensures { told result ≡ slice_index_or (all_told all.now) i no_minkowski }
{
    if i < all.len() {
        all[i]
    } else {
        Minkowski {
            euler: 0,
            x: 0,
            y: 0,
            z: 0,
            xy: 0,
            xz: 0,
            yz: 0,
            xyz: 0,
        }
    }
}

// Puts the cells of an object.
fn put_numbers(has_surface: bool, m: &Minkowski, csv: &mut Csv) -> Result<(), NoMemory>
    ensures { OnOk result (csv.new ≡ csv.old ++ minkowski_cells has_surface (told m.now)) }
{
    csv.signed(m.euler as i128)?;
    if has_surface {
        csv.thousandths(surface(m))?;
    }
    Ok(())
}

// The number of a list in a row with a place, and 0 where there is none.
fn surface_at(surfaces: &[u128], i: usize) -> u128
    ensures { result ≡ slice_index surfaces.now i }
{
    if i < surfaces.len() { surfaces[i] } else { 0 }
}

// The volume of so many voxels.
fn volume_of(spacing: Spacing, voxels: u32) -> u128
    ensures { result ≡ volume (spacing_told spacing) voxels }
{
    voxels as u128 * voxel_volume(spacing) as u128
}

impl SolidNumbers {
    // Puts the cells of the object in a row with a place, by a spacing.
    fn put_spaced(&self, spacing: Spacing, i: usize, csv: &mut Csv) -> Result<(), NoMemory>
        ensures { OnOk result (csv.new ≡ csv.old ++ kept_cells (spacing_told spacing) self.now i) }
    {
        let numbers = numbers_at(self.numbers.as_slice(), i);
        csv.signed(numbers.euler as i128)?;
        csv.thousandths(surface_at(self.surfaces.as_slice(), i))?;
        csv.whole(volume_of(spacing, area_at(self.areas.as_slice(), i)))?;
        Ok(())
    }
}

impl Columns for FlatNumbers {
    ghost use Rattle.std.specs.Prelude.{false};
    ghost use Rattle.measuring.specs.MinkowskiTold.{all_told};
    ghost use Rattle.measure_report.specs.MinkowskiColumns.{minkowski_columns};

    ghost columns = { λ c. minkowski_columns false (all_told c.numbers.items) };

    fn put_names(&self, csv: &mut Csv) -> Result<(), NoMemory> {
        csv.put(b",euler")
    }

    fn put_cells(&self, i: usize, csv: &mut Csv) -> Result<(), NoMemory> {
        put_numbers(false, &numbers_at(self.numbers.as_slice(), i), csv)
    }
}

impl Columns for SolidNumbers {
    ghost use Rattle.measure_report.specs.KeptSurfaces.{kept_columns};

    ghost columns = { kept_columns };

    fn put_names(&self, csv: &mut Csv) -> Result<(), NoMemory> {
        match self.spacing {
            Some(_) => csv.put(b",euler,surface,volume"),
            None => csv.put(b",euler,surface"),
        }
    }

    fn put_cells(&self, i: usize, csv: &mut Csv) -> Result<(), NoMemory> {
        match self.spacing {
            Some(spacing) => self.put_spaced(spacing, i, csv),
            None => put_numbers(true, &numbers_at(self.numbers.as_slice(), i), csv),
        }
    }
}
