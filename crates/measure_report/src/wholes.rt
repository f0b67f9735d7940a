//! The numbers of the whole object of a report: its points and pieces, the pieces of its background, its Euler number, and in space
//! its tunnels and its surface. What the numbers are, and how they are spelled, stands in `measure_terms`.
ghost use Rattle.std.specs.Prelude.{◌≡◌, ◌++◌, IfOk, OnOk};
ghost use Rattle.measure_terms.specs.Whole.{IsWholeText, tunnels, flat_whole, solid_numbers, solid_whole};
ghost use Rattle.measuring.specs.MinkowskiTold.{told};

use measuring::{Csv, Minkowski, surface, whole_minkowski};
use report_lines::{Heading, Making, Seen};
use shape_adj::{Pairing, Parts, parts};
use shape_grid::Grid;
use shape_space::{NoMemory, P2, P3};
use std::alloc::Global;

/// Makes the numbers of the whole object.
#[derive(Clone, Copy, Debug, PartialEq, Eq)]
pub struct Wholes;

// The tunnels of an object of space with so many pieces and pores.
fn tunnels(pieces: u32, pores: u32, euler: i64) -> i128
    ensures { result ≡ tunnels pieces pores euler }
{
    pieces as i128 + pores as i128 - euler as i128
}

// The text of a flat picture's object.
fn flat_text(alloc: Global, points: u32, counted: Parts, m: &Minkowski) -> Result<Vec<u8>, NoMemory>
    ensures { IfOk result (λ v. v.items
        ≡ flat_whole points counted.object counted.background (told m.now)) }
{
    let mut csv = Csv::new(alloc);
    csv.put(b"pixels,pieces,holes,euler\n")?;
    csv.number(points as u128)?;
    csv.whole(counted.object as u128)?;
    csv.whole(counted.background.saturating_sub(1) as u128)?;
    csv.signed(m.euler as i128)?;
    csv.put(b"\n")?;
    Ok(csv.into_text())
}

// Puts the numbers of a volume's object that stand behind its points.
fn put_solid(counted: Parts, m: &Minkowski, csv: &mut Csv) -> Result<(), NoMemory>
    ensures { OnOk result (csv.new
        ≡ csv.old ++ solid_numbers counted.object counted.background (told m.now)) }
{
    let pores = counted.background.saturating_sub(1);
    csv.whole(counted.object as u128)?;
    csv.whole(pores as u128)?;
    csv.signed(tunnels(counted.object, pores, m.euler))?;
    csv.signed(m.euler as i128)?;
    csv.thousandths(surface(m))
}

// The text of a volume's object.
fn solid_text(
    alloc: Global,
    points: u32,
    counted: Parts,
    m: &Minkowski,
) -> Result<Vec<u8>, NoMemory>
    ensures { IfOk result (λ v. v.items
        ≡ solid_whole points counted.object counted.background (told m.now)) }
{
    let mut csv = Csv::new(alloc);
    csv.put(b"voxels,pieces,pores,tunnels,euler,surface\n")?;
    csv.number(points as u128)?;
    put_solid(counted, m, &mut csv)?;
    csv.put(b"\n")?;
    Ok(csv.into_text())
}

// The text of a picture's object.
fn object_text<P: Pairing>(alloc: Global, grid: &Grid<P>) -> Result<Vec<u8>, NoMemory>
    ensures { IfOk result (λ v. IsWholeText P.DIM grid.now v.items) }
{
    let counted = parts(alloc, grid)?;
    let numbers = whole_minkowski(alloc, grid)?;
    if P::DIM == 2 {
        flat_text(alloc, grid.count(), counted, &numbers)
    } else {
        solid_text(alloc, grid.count(), counted, &numbers)
    }
}

impl Making for Wholes {
    ghost use Rattle.measure_report.specs.Wholes.{IsWholeMade};

    type Flat = Seen<P2>;

    type Solid = Seen<P3>;

    ghost makes = { λ _. IsWholeMade };

    fn begin_flat(&self, alloc: Global, heading: &Heading<P2>) -> Result<Seen<P2>, NoMemory> {
        Seen::new(alloc, heading)
    }

    fn make_flat(&self, alloc: Global, kept: Seen<P2>) -> Result<Vec<u8>, NoMemory> {
        object_text(alloc, kept.object())
    }

    fn begin_solid(&self, alloc: Global, heading: &Heading<P3>) -> Result<Seen<P3>, NoMemory> {
        Seen::new(alloc, heading)
    }

    fn make_solid(&self, alloc: Global, kept: Seen<P3>) -> Result<Vec<u8>, NoMemory> {
        object_text(alloc, kept.object())
    }
}
