//! The columns of a table behind those of the measures, in their order.
//! What each kind puts is told in its own module; a further kind is one more field and one more piece of both methods.
ghost use Rattle.std.specs.Prelude.{◌≡◌, ◌++◌, OnOk, slice_index};
ghost use Rattle.bordering.specs.Told.{all_bounds};
ghost use Rattle.measuring.specs.Sizes.{hulls_told};
ghost use Rattle.measure_report.specs.FurtherColumns.{where_asked};
ghost use Rattle.measure_report.specs.ThicknessColumns.{thickness_columns};
ghost use Rattle.measure_report.specs.FurtherTold.{sizes_told};
ghost use Rattle.measure_report.specs.RatioColumns.{sizes_at, ratio_cells};

use crate::borders::{BorderColumns, bounds_at};
use crate::ferets::{FlatFerets, SolidFerets};
use crate::groups::Groups;
use crate::hulls::{HullColumns, hull_at};
use crate::minkowski::{FlatNumbers, SolidNumbers};
use crate::moment_columns::{FlatMoments, SolidMoments};
use crate::ratios::{Sizes, put_ratio_names, put_ratios};
use crate::thickness::ThicknessColumns;
use bordering::thousandths;
use measuring::{Columns, Csv};
use shape_space::NoMemory;

/// The further columns of a flat picture's objects.
#[derive(Drop)]
pub(crate) struct FlatColumns {
    pub(crate) groups: Groups,
    /// How many pixels each object has.
    pub(crate) areas: Vec<u32>,
    pub(crate) borders: BorderColumns,
    pub(crate) ferets: FlatFerets,
    pub(crate) numbers: FlatNumbers,
    pub(crate) hulls: HullColumns,
    pub(crate) moments: FlatMoments,
    pub(crate) thickness: ThicknessColumns,
}

/// The further columns of a volume's objects.
#[derive(Drop)]
pub(crate) struct SolidColumns {
    pub(crate) groups: Groups,
    pub(crate) numbers: SolidNumbers,
    pub(crate) ferets: SolidFerets,
    pub(crate) moments: SolidMoments,
    pub(crate) thickness: ThicknessColumns,
}

// Puts the names of columns where they are asked for.
fn put_names_where<C: Columns>(asked: bool, columns: &C, csv: &mut Csv) -> Result<(), NoMemory>
    ensures { OnOk result (csv.new ≡ csv.old ++ (where_asked asked (C.columns columns.now)).names) }
{
    if asked {
        columns.put_names(csv)?;
    }
    Ok(())
}

// Puts the cells of columns where they are asked for.
fn put_cells_where<C: Columns>(
    asked: bool,
    columns: &C,
    i: usize,
    csv: &mut Csv,
) -> Result<(), NoMemory>
    ensures { OnOk result (csv.new
        ≡ csv.old ++ (where_asked asked (C.columns columns.now)).cells i) }
{
    if asked {
        columns.put_cells(i, csv)?;
    }
    Ok(())
}

// Puts the names of the columns of thickness where they are asked for.
fn put_thickness_names(
    asked: bool,
    told: bool,
    columns: &ThicknessColumns,
    csv: &mut Csv,
) -> Result<(), NoMemory>
    ensures { OnOk result (csv.new ≡ csv.old
        ++ (where_asked asked (thickness_columns told columns.now.sums.items)).names) }
{
    if asked {
        columns.put_names(told, csv)?;
    }
    Ok(())
}

// Puts the cells of the columns of thickness where they are asked for.
fn put_thickness_cells(
    asked: bool,
    told: bool,
    columns: &ThicknessColumns,
    i: usize,
    csv: &mut Csv,
) -> Result<(), NoMemory>
    ensures { OnOk result (csv.new ≡ csv.old
        ++ (where_asked asked (thickness_columns told columns.now.sums.items)).cells i) }
{
    if asked {
        columns.put_cells(told, i, csv)?;
    }
    Ok(())
}

// The area of the object in a row with a place, and 0 where there is no such object.
pub(crate) fn area_at(areas: &[u32], i: usize) -> u32
    ensures { result ≡ slice_index areas.now i }
{
    if i < areas.len() { areas[i] } else { 0 }
}

impl FlatColumns {
    // What the ratios of the object in a row go by.
    fn sizes(&self, i: usize) -> Sizes
        ensures { sizes_told result ≡ sizes_at self.now.areas.items
            (hulls_told self.now.hulls.hulls.items)
            (all_bounds self.now.borders.bounds.items) i }
    {
        let bounds = bounds_at(self.borders.bounds.as_slice(), i);
        Sizes {
            area: area_at(self.areas.as_slice(), i),
            double_area: hull_at(self.hulls.hulls.as_slice(), i).double_area,
            border: thousandths(bounds.border),
        }
    }
}

impl Columns for FlatColumns {
    ghost use Rattle.bordering.specs.Told.{all_bounds};
    ghost use Rattle.measure_report.specs.FurtherTold.{flat_told};
    ghost use Rattle.measure_report.specs.FurtherColumns.{flat_columns};

    ghost columns = { λ c. flat_columns c.groups c.borders.told c.areas.items (all_bounds c.borders.bounds.items) (flat_told c) };

    fn put_names(&self, csv: &mut Csv) -> Result<(), NoMemory> {
        self.borders.put_names(csv)?;
        self.ferets.put_names(csv)?;
        self.numbers.put_names(csv)?;
        self.hulls.put_names(csv)?;
        put_ratio_names(csv)?;
        put_names_where(self.groups.moments, &self.moments, csv)?;
        put_thickness_names(self.groups.thickness, true, &self.thickness, csv)?;
        Ok(())
    }

    fn put_cells(&self, i: usize, csv: &mut Csv) -> Result<(), NoMemory> {
        self.borders.put_cells(i, csv)?;
        self.ferets.put_cells(i, csv)?;
        self.numbers.put_cells(i, csv)?;
        self.hulls.put_cells(i, csv)?;
        put_ratios(self.borders.told, &self.sizes(i), csv)?;
        put_cells_where(self.groups.moments, &self.moments, i, csv)?;
        put_thickness_cells(self.groups.thickness, true, &self.thickness, i, csv)?;
        Ok(())
    }
}

impl Columns for SolidColumns {
    ghost use Rattle.std.specs.Prelude.{true};
    ghost use Rattle.measuring.specs.FeretsTold.{ferets_told};
    ghost use Rattle.measure_report.specs.FurtherTold.{solid_told};
    ghost use Rattle.measure_report.specs.FeretColumns.{feret_columns};
    ghost use Rattle.measure_report.specs.KeptSurfaces.{kept_columns};
    ghost use Rattle.measure_report.specs.FurtherColumns.{beside, group_columns};

    ghost columns = { λ c. beside (kept_columns c.numbers) (beside (feret_columns true (ferets_told 3 c.ferets.ferets.items)) (group_columns c.groups 3 (solid_told c))) };

    fn put_names(&self, csv: &mut Csv) -> Result<(), NoMemory> {
        let told = self.groups.tells_distances();
        self.numbers.put_names(csv)?;
        self.ferets.put_names(csv)?;
        put_names_where(self.groups.moments, &self.moments, csv)?;
        put_thickness_names(self.groups.thickness, told, &self.thickness, csv)?;
        Ok(())
    }

    fn put_cells(&self, i: usize, csv: &mut Csv) -> Result<(), NoMemory> {
        let told = self.groups.tells_distances();
        self.numbers.put_cells(i, csv)?;
        self.ferets.put_cells(i, csv)?;
        put_cells_where(self.groups.moments, &self.moments, i, csv)?;
        put_thickness_cells(self.groups.thickness, told, &self.thickness, i, csv)?;
        Ok(())
    }
}
