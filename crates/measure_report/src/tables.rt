//! What is made of a report: the table of the objects that its lines tell.
//! What the rows are, and how they are spelled, is known to `measuring`; the columns behind them are made in `columns`.
ghost use Rattle.std.specs.Prelude.{◌≡◌, List, IfOk};
ghost use Rattle.report_terms.specs.Lines.{Line};
ghost use Rattle.report_terms.specs.Sections.{number_of};
ghost use Rattle.report_lines.specs.Said.{said};
ghost use Rattle.measure_terms.specs.Borders.{borders as borders_of};
ghost use Rattle.measuring.specs.TellsTable.{TellsTable};
ghost use Rattle.bordering.specs.Told.{all_borders};
ghost use Rattle.bordering.specs.Kept.{HasBorders};
ghost use Rattle.measure_report.specs.BorderColumns.{tells_lengths as told_by};
ghost use Rattle.measure_report.specs.Outlined.{IsOutlined};
ghost use Rattle.measure_report.specs.TableTexts.{IsTableText};

use crate::columns::{flat_columns, solid_columns};
use crate::groups::Groups;
use crate::outlined::Outlined;
use bordering::{Border, Contours};
use measuring::{Table, measure, table_text};
use report_lines::{Heading, Making, Seen};
use shape_adj::Pairing;
use shape_space::{NoMemory, P2, P3};
use std::alloc::Global;

/// Makes the table of the objects.
#[derive(Clone, Copy, Debug, PartialEq, Eq)]
pub struct Tables {
    /// The groups of columns that it has beside those of every table.
    pub groups: Groups,
}

// The table of the objects that lines tell.
fn table_of<P: Pairing>(alloc: Global, seen: &Seen<P>) -> Result<Table, NoMemory>
    ensures { IfOk result (TellsTable seen.now.object seen.now.squares seen.now.left) }
{
    let table = measure(alloc, seen.object(), seen.squares(), seen.left())?;
    Ok(table)
}

// The table of the objects that lines tell, with these borders, with or without lengths.
fn bordered_table(
    alloc: Global,
    seen: &Seen<P2>,
    table: &Table,
    groups: Groups,
    told: bool,
    borders: &[Border],
) -> Result<Vec<u8>, NoMemory>
    requires { TellsTable seen.now.object seen.now.squares seen.now.left table.now }
    ensures { (lines : List Line) → told ≡ told_by (number_of lines) → seen.now ≡ said lines
        → all_borders borders.now ≡ borders_of lines
        → IfOk result (λ csv. IsTableText groups 2 lines csv.items) }
{
    let more = flat_columns(alloc, seen, table, groups, told, borders)?;
    table_text(alloc, true, seen.sides(), table.rows.as_slice(), &more)
}

// Whether a report with a number tells lengths of borders: its lines are shown to be least.
fn tells_lengths(number: u8) -> bool
    ensures { result ≡ told_by number }
{
    number == 2
}

// The table of the objects that lines tell, with the borders of contours, with or without lengths.
fn outlined_table(
    alloc: Global,
    seen: &Seen<P2>,
    groups: Groups,
    told: bool,
    contours: Contours,
) -> Result<Vec<u8>, NoMemory>
    ensures { (lines : List Line) → told ≡ told_by (number_of lines) → seen.now ≡ said lines
        → HasBorders lines contours → IfOk result (λ csv. IsTableText groups 2 lines csv.items) }
{
    let table = table_of(alloc, seen)?;
    let borders = contours.into_borders()?;
    bordered_table(alloc, seen, &table, groups, told, borders.as_slice())
}

// The table of a flat picture's objects, with their borders.
fn flat_table(alloc: Global, kept: Outlined, groups: Groups) -> Result<Vec<u8>, NoMemory>
    ensures { (lines : List Line) → IsOutlined lines kept
        → IfOk result (λ csv. IsTableText groups 2 lines csv.items) }
{
    let Outlined {
        number,
        seen,
        contours,
    } = kept;
    outlined_table(alloc, &seen, groups, tells_lengths(number), contours)
}

// The table of a volume's objects.
fn solid_table(alloc: Global, seen: &Seen<P3>, groups: Groups) -> Result<Vec<u8>, NoMemory>
    ensures { (lines : List Line) → seen.now ≡ said lines
        → IfOk result (λ csv. IsTableText groups 3 lines csv.items) }
{
    let table = table_of(alloc, seen)?;
    let more = solid_columns(alloc, seen, &table, groups)?;
    let told = groups.tells_distances();
    table_text(alloc, told, seen.sides(), table.rows.as_slice(), &more)
}

impl Making for Tables {
    ghost use Rattle.measure_report.specs.TableTexts.{IsTableText};

    type Flat = Outlined;

    type Solid = Seen<P3>;

    ghost makes = { λ t. IsTableText t.groups };

    fn begin_flat(&self, alloc: Global, heading: &Heading<P2>) -> Result<Outlined, NoMemory> {
        Outlined::new(alloc, heading)
    }

    fn make_flat(&self, alloc: Global, kept: Outlined) -> Result<Vec<u8>, NoMemory> {
        flat_table(alloc, kept, self.groups)
    }

    fn begin_solid(&self, alloc: Global, heading: &Heading<P3>) -> Result<Seen<P3>, NoMemory> {
        Seen::new(alloc, heading)
    }

    fn make_solid(&self, alloc: Global, kept: Seen<P3>) -> Result<Vec<u8>, NoMemory> {
        solid_table(alloc, &kept, self.groups)
    }
}
