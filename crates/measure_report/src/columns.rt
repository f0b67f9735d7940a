//! Making the further columns of a table, each kind by its own crate.
//! A further kind is one more call in both spaces, and one more field of `AreFurther`.
ghost use Rattle.std.specs.Prelude.{◌≡◌, [], IfOk, IfSome, IsTrue, List, length, map};
ghost use Rattle.shape_terms.specs.Points.{sides_of, box_count};
ghost use Rattle.measure_terms.specs.Feret.{AreFerets};
ghost use Rattle.measure_terms.specs.Spacing.{spaced_distance};
ghost use Rattle.measure_terms.specs.Moments.{AreMoments};
ghost use Rattle.measure_terms.specs.Objects.{object_bounds as object_bounds_of};
ghost use Rattle.measuring.specs.TellsTable.{TellsTable};
ghost use Rattle.bordering.specs.Told.{flat, all_borders, all_bounds};
ghost use Rattle.measuring.specs.FeretsTold.{ferets_told};
ghost use Rattle.measuring.specs.MomentsTold.{all_told, ellipse_told};
ghost use Rattle.measure_report.specs.Further.{AreFurther, AreThick};
ghost use Rattle.measure_report.specs.FurtherTold.{flat_told, solid_told};
ghost use Rattle.measure_report.specs.MomentColumns.{AreEllipses};
ghost use Rattle.measure_report.specs.KeptSurfaces.{surfaces_of};
ghost use Rattle.measuring.specs.Spaced.{spacing_told, told_or_unit};
ghost use Rattle.measure_terms.specs.SpacedSurface.{spaced_surface};
ghost use Rattle.measuring.specs.Fan.{AreFew};
ghost use Rattle.measuring.specs.MinkowskiTold.{told as number_told};

use crate::borders::BorderColumns;
use crate::ferets::{FlatFerets, SolidFerets};
use crate::further::{FlatColumns, SolidColumns};
use crate::groups::Groups;
use crate::hulls::HullColumns;
use crate::minkowski::{FlatNumbers, SolidNumbers};
use crate::moment_columns::{FlatMoments, SolidMoments, ellipses};
use crate::thickness::ThicknessColumns;
use bordering::{Border, object_bounds};
use masking::greatest_balls;
use measuring::{
    Feret, Measures, Minkowski, Moments, Spacing, Table, ThicknessSum, ferets, hulls,
    minkowski_numbers, second_moments, spaced_surfaces, thickness_sums,
};
use report_lines::Seen;
use shape_adj::Labels;
use shape_space::{NoMemory, P2, P3, Point, Sides};
use std::alloc::Global;

// How many points each object has.
fn areas(alloc: Global, rows: &[Measures]) -> Result<Vec<u32>, NoMemory>
    ensures { IfOk result (λ v. v.items ≡ map (λ m. m.area) rows.now) }
{
    let mut found = Vec::new(alloc);
    for i in 0..rows.len() {
        found.push(rows[i].area)?;
    }
    Ok(found)
}

// The moments of the objects where they are asked for, and none where they are not.
fn moments_where<P: Point>(
    alloc: Global,
    asked: bool,
    sides: Sides<P>,
    labels: &Labels,
    count: u32,
) -> Result<Vec<Moments>, NoMemory>
    requires { length labels.now ≡ box_count (sides_of (P.coords sides.lengths)) }
    ensures all { IsTrue asked → IfOk result
        (λ ms. AreMoments (sides_of (P.coords sides.lengths)) labels.now count (all_told ms.items)) }
    ensures count { IsTrue asked → IfOk result (λ ms. length ms.items ≡ count) }
{
    if asked {
        second_moments(alloc, sides, labels, count)
    } else {
        Ok(Vec::new(alloc))
    }
}

// The Feret diameters of the objects by a spacing where there is one, and else by sides of one.
fn ferets_by<P: Point>(
    alloc: Global,
    spacing: Option<Spacing>,
    sides: Sides<P>,
    labels: &Labels,
    count: u32,
) -> Result<Vec<Feret>, NoMemory>
    requires { length labels.now ≡ box_count (sides_of (P.coords sides.lengths)) }
    ensures all { IfOk result (λ fs. AreFerets (spaced_distance (told_or_unit spacing))
        (sides_of (P.coords sides.lengths)) labels.now count (ferets_told P.DIM fs.items)) }
    ensures count { IfOk result (λ fs. length fs.items ≡ count) }
{
    ferets(alloc, sides, Spacing::or_unit(spacing), labels, count)
}

// How thick the objects are where that is asked for, and nothing where it is not.
fn sums_where<P: Point>(
    alloc: Global,
    asked: bool,
    seen: &Seen<P>,
    labels: &Labels,
    count: u32,
) -> Result<Vec<ThicknessSum>, NoMemory>
    requires { length labels.now ≡ box_count seen.now.object.sides }
    ensures { IsTrue asked → IfOk result
        (λ ss. AreThick seen.now.object seen.now.squares labels.now count ss.items) }
{
    if !asked {
        return Ok(Vec::new(alloc));
    }
    let balls = greatest_balls(alloc, seen.object(), seen.squares())?;
    thickness_sums(alloc, seen.sides(), labels, count, balls.as_slice())
}

// The surfaces of the objects by a spacing where there is one, and none where there is none.
fn surfaces_where(
    alloc: Global,
    spacing: Option<Spacing>,
    numbers: &[Minkowski],
) -> Result<Vec<u128>, NoMemory>
    requires { AreFew numbers.now }
    ensures { IfSome spacing (λ s. IfOk result (λ v. v.items
        ≡ map (λ m. spaced_surface (spacing_told s) (number_told m)) numbers.now)) }
{
    match spacing {
        Some(spacing) => spaced_surfaces(alloc, spacing, numbers),
        None => Ok(Vec::new(alloc)),
    }
}

/// The further columns of the objects of a flat picture's table, with or without lengths of borders.
pub(crate) fn flat_columns(
    alloc: Global,
    seen: &Seen<P2>,
    table: &Table,
    groups: Groups,
    told: bool,
    borders: &[Border],
) -> Result<FlatColumns, NoMemory>
    requires { TellsTable seen.now.object seen.now.squares seen.now.left table.now }
    ensures groups { IfOk result (λ c. c.groups ≡ groups) }
    ensures told { IfOk result (λ c. c.borders.told ≡ told) }
    ensures areas { IfOk result (λ c. c.areas.items ≡ map (λ m. m.area) table.now.rows.items) }
    ensures bounds { IfOk result (λ c. all_bounds c.borders.bounds.items
        ≡ object_bounds_of seen.now.object.sides table.now.labels table.now.count
        (all_borders borders.now)) }
    ensures further { IfOk result (λ c. AreFurther groups 2 seen.now.object seen.now.squares
        table.now.labels table.now.count (flat_told c)) }
{
    let (sides, labels, count) = (seen.sides(), &table.labels, table.count);
    let areas = areas(alloc, table.rows.as_slice())?;
    let bounds = object_bounds(alloc, sides, labels, count, borders)?;
    let ferets = ferets_by(alloc, groups.spacing, sides, labels, count)?;
    let numbers = minkowski_numbers(alloc, sides, labels, count)?;
    let hulls = hulls(alloc, sides, labels, count)?;
    let moments = moments_where(alloc, groups.moments, sides, labels, count)?;
    let ellipses = ellipses(alloc, moments.as_slice())?;
    let sums = sums_where(alloc, groups.thickness, seen, labels, count)?;
    Ok(FlatColumns {
        groups,
        areas,
        borders: BorderColumns { told, bounds },
        ferets: FlatFerets { ferets },
        numbers: FlatNumbers { numbers },
        hulls: HullColumns { hulls },
        moments: FlatMoments { moments, ellipses },
        thickness: ThicknessColumns { sums },
    })
}

/// The further columns of the objects of a volume's table.
pub(crate) fn solid_columns(
    alloc: Global,
    seen: &Seen<P3>,
    table: &Table,
    groups: Groups,
) -> Result<SolidColumns, NoMemory>
    requires { TellsTable seen.now.object seen.now.squares seen.now.left table.now }
    ensures groups { IfOk result (λ c. c.groups ≡ groups) }
    ensures spacing { IfOk result (λ c. c.numbers.spacing ≡ groups.spacing) }
    ensures areas { IfOk result (λ c. c.numbers.areas.items
        ≡ map (λ m. m.area) table.now.rows.items) }
    ensures surfaces { IfOk result (λ c. IfSome groups.spacing
        (λ s. c.numbers.surfaces.items ≡ surfaces_of s c.numbers)) }
    ensures further { IfOk result (λ c. AreFurther groups 3 seen.now.object seen.now.squares
        table.now.labels table.now.count (solid_told c)) }
{
    let (sides, labels, count) = (seen.sides(), &table.labels, table.count);
    let areas = areas(alloc, table.rows.as_slice())?;
    let numbers = minkowski_numbers(alloc, sides, labels, count)?;
    let surfaces = surfaces_where(alloc, groups.spacing, numbers.as_slice())?;
    let ferets = ferets_by(alloc, groups.spacing, sides, labels, count)?;
    let moments = moments_where(alloc, groups.moments, sides, labels, count)?;
    let sums = sums_where(alloc, groups.thickness, seen, labels, count)?;
    Ok(SolidColumns {
        groups,
        numbers: SolidNumbers {
            spacing: groups.spacing,
            areas,
            numbers,
            surfaces,
        },
        ferets: SolidFerets { ferets },
        moments: SolidMoments { moments },
        thickness: ThicknessColumns { sums },
    })
}
