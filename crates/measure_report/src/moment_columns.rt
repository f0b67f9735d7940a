//! The columns of second moments: sums of coordinates and of their products, and in the plane the ellipse that has them.
//! A further column is one more piece of both spaces, in the same place as in `specs/MomentColumns.antt`.
ghost use Rattle.std.specs.Prelude.{◌≡◌, ◌≤◌, ◌++◌, IfOk, OnOk, List, length, map, slice_index_or};
ghost use Rattle.measuring.specs.MomentsTold.{moments_told, all_told, ellipse_told};
ghost use Rattle.measure_report.specs.MomentColumns.{plane_sums, plane_products, space_products, ellipse_cells, flat_cells, solid_cells, no_moments, no_ellipse, IsEllipseOf, AreEllipses};

use measuring::{Columns, Csv, Ellipse, Moments};
use shape_space::NoMemory;
use std::alloc::Global;

/// The columns of the moments of each object of the plane.
#[derive(Drop)]
pub(crate) struct FlatMoments {
    pub(crate) moments: Vec<Moments>,
    pub(crate) ellipses: Vec<Ellipse>,
}

/// The columns of the moments of each object of space.
#[derive(Drop)]
pub(crate) struct SolidMoments {
    pub(crate) moments: Vec<Moments>,
}

// The ellipse of no object.
fn no_ellipse() -> Ellipse
    ensures { ellipse_told result ≡ no_ellipse }
{
    Ellipse {
        major: 0,
        minor: 0,
        double_x: 0,
        double_y: 0,
    }
}

// The ellipse of an object, and zeros where it has no point.
fn ellipse_of(m: &Moments) -> Ellipse
    ensures { IsEllipseOf (moments_told m.now) (ellipse_told result) }
{
    match m.ellipse() {
        Some(ellipse) => ellipse,
        None => no_ellipse(),
    }
}

// The moments of the object in a row with a place, and zeros where there is no such object.
fn moments_at(all: &[Moments], i: usize) -> Moments
    ensures { moments_told result ≡ slice_index_or (all_told all.now) i no_moments }
{
    if i < all.len() {
        all[i]
    } else {
        Moments::none()
    }
}

// The ellipse of the object in a row with a place, and zeros where there is no such object.
fn ellipse_at(all: &[Ellipse], i: usize) -> Ellipse
    ensures { ellipse_told result ≡ slice_index_or (map ellipse_told all.now) i no_ellipse }
{
    if i < all.len() { all[i] } else { no_ellipse() }
}

/// The ellipses of objects with these moments.
pub(crate) fn ellipses(alloc: Global, all: &[Moments]) -> Result<Vec<Ellipse>, NoMemory>
    ensures { IfOk result (λ es. AreEllipses (length all.now) (all_told all.now)
        (map ellipse_told es.items)) }
{
    let mut found = Vec::new(alloc);
    for i in 0..all.len() {
        found.push(ellipse_of(&all[i]))?;
    }
    Ok(found)
}

// Puts the sums of the coordinates of the plane.
fn put_plane_sums(m: &Moments, csv: &mut Csv) -> Result<(), NoMemory>
    ensures { OnOk result (csv.new ≡ csv.old ++ plane_sums (moments_told m.now)) }
{
    csv.whole(m.x as u128)?;
    csv.whole(m.y as u128)
}

// Puts the sums of the products of two of them.
fn put_plane_products(m: &Moments, csv: &mut Csv) -> Result<(), NoMemory>
    ensures { OnOk result (csv.new ≡ csv.old ++ plane_products (moments_told m.now)) }
{
    csv.whole(m.xx as u128)?;
    csv.whole(m.xy as u128)?;
    csv.whole(m.yy as u128)
}

// Puts the sums of the products with z.
fn put_space_products(m: &Moments, csv: &mut Csv) -> Result<(), NoMemory>
    ensures { OnOk result (csv.new ≡ csv.old ++ space_products (moments_told m.now)) }
{
    csv.whole(m.xz as u128)?;
    csv.whole(m.yz as u128)?;
    csv.whole(m.zz as u128)
}

// Puts an ellipse.
fn put_ellipse(e: &Ellipse, csv: &mut Csv) -> Result<(), NoMemory>
    ensures { OnOk result (csv.new ≡ csv.old ++ ellipse_cells (ellipse_told e.now)) }
{
    csv.thousandths(e.major as u128)?;
    csv.thousandths(e.minor as u128)?;
    csv.signed(e.double_x)?;
    csv.signed(e.double_y)
}

// Puts the sums and the ellipse of an object of the plane.
fn put_flat(m: &Moments, e: &Ellipse, csv: &mut Csv) -> Result<(), NoMemory>
    ensures { OnOk result (csv.new
        ≡ csv.old ++ flat_cells (moments_told m.now) (ellipse_told e.now)) }
{
    put_plane_sums(m, csv)?;
    put_plane_products(m, csv)?;
    put_ellipse(e, csv)?;
    Ok(())
}

// Puts the sums of an object of space.
fn put_solid(m: &Moments, csv: &mut Csv) -> Result<(), NoMemory>
    ensures { OnOk result (csv.new ≡ csv.old ++ solid_cells (moments_told m.now)) }
{
    put_plane_sums(m, csv)?;
    csv.whole(m.z as u128)?;
    put_plane_products(m, csv)?;
    put_space_products(m, csv)?;
    Ok(())
}

impl Columns for FlatMoments {
    ghost use Rattle.std.specs.Prelude.{map};
    ghost use Rattle.measuring.specs.MomentsTold.{all_told, ellipse_told};
    ghost use Rattle.measure_report.specs.MomentColumns.{flat_moment_columns};

    ghost columns = { λ c. flat_moment_columns (all_told c.moments.items) (map ellipse_told c.ellipses.items) };

    fn put_names(&self, csv: &mut Csv) -> Result<(), NoMemory> {
        csv.put(b",sum_x,sum_y,sum_xx,sum_xy,sum_yy,major,minor,axis_x,axis_y")
    }

    fn put_cells(&self, i: usize, csv: &mut Csv) -> Result<(), NoMemory> {
        let moments = moments_at(self.moments.as_slice(), i);
        put_flat(&moments, &ellipse_at(self.ellipses.as_slice(), i), csv)
    }
}

impl Columns for SolidMoments {
    ghost use Rattle.measuring.specs.MomentsTold.{all_told};
    ghost use Rattle.measure_report.specs.MomentColumns.{solid_moment_columns};

    ghost columns = { λ c. solid_moment_columns (all_told c.moments.items) };

    fn put_names(&self, csv: &mut Csv) -> Result<(), NoMemory> {
        csv.put(b",sum_x,sum_y,sum_z,sum_xx,sum_xy,sum_yy,sum_xz,sum_yz,sum_zz")
    }

    fn put_cells(&self, i: usize, csv: &mut Csv) -> Result<(), NoMemory> {
        put_solid(&moments_at(self.moments.as_slice(), i), csv)
    }
}
