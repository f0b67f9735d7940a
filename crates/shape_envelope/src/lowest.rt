//! The lower envelope of a row of parabolas: at each place of the row a filled place whose parabola is lowest there.
//! The envelope is kept in parts, each with the place that is lowest in it and the first place of the row where it is.
ghost use Rattle.std.specs.Prelude.{◌≡◌, ◌+◌, ◌*◌, ◌<◌, ◌≤◌, ◌↔◌, ℕ, pos, ◌≤ℤ◌, ◌<ℤ◌, true, false, None, Option, List, IsSome, IfOk, length, slice_index, EachIndex, slice_set};
ghost use Rattle.shape_terms.specs.Rows.{cell, IsLowest};
ghost use Rattle.shape_envelope.specs.Parts.{AreBuilt, AreParts, IsCut, IsSettled};

use shape_space::{NoMemory, Row, Steps};
use std::alloc::Global;
use std::sync::ledger::Ledger;

// How many parts stay before a new one, and where that begins.
#[derive(Clone, Copy)]
struct Settled {
    kept: u32,
    start: u32,
}

// A start, or the end of the row where the start lies behind it.
fn within(x: i64, n: u32) -> u32
    requires { pos 0 ≤ℤ x }
    ensures least { pos result ≤ℤ x }
    ensures most { result ≤ n }
    ensures same { result < n → pos result ≡ x }
{
    if x < n as i64 { x as u32 } else { n }
}

// Takes away the last parts where the place j is no higher, and finds where it begins to be.
fn settle<L: Ledger>(
    row: &Row,
    places: &[u32],
    starts: &[u32],
    m: u32,
    j: u32,
    steps: &mut Steps<L>,
) -> Settled
    requires built { AreBuilt row.now places.now starts.now m j (length row.now) }
    requires in_row { j < length row.now }
    requires filled { IsSome (cell row.now j) }
    requires many_places { length places.now ≡ length row.now }
    requires many_starts { length starts.now ≡ length row.now }
    ensures settled { IsSettled row.now places.now starts.now result.kept result.start j
        (length row.now) }
    ensures fewer { result.kept ≤ m }
    ensures count { steps.new + result.kept ≤ steps.old + m + 1 }
{
    let n = row.len();
    let mut kept = m;
    while kept > 0 {
        let last = kept as usize - 1;
        let x = row.first_better(places[last], j, steps);
        if x > starts[last] as i64 {
            return Settled {
                kept,
                start: within(x, n),
            };
        }
        kept -= 1;
    }
    Settled { kept: 0, start: 0 }
}

// Adds a place, where it is filled and lowest somewhere in the row; the new number of parts.
fn add_place<L: Ledger>(
    row: &Row,
    places: &mut [u32],
    starts: &mut [u32],
    m: u32,
    j: u32,
    steps: &mut Steps<L>,
) -> u32
    requires built { AreBuilt row.now places.old starts.old m j (length row.now) }
    requires in_row { j < length row.now }
    requires many_places { length places.old ≡ length row.now }
    requires many_starts { length starts.old ≡ length row.now }
    ensures built { AreBuilt row.now places.new starts.new result (j + 1) (length row.now) }
    ensures count { steps.new + result ≤ steps.old + m + 3 }
{
    if !row.filled(j, steps) {
        return m;
    }
    let settled = settle(row, places, starts, m, j, steps);
    let at = settled.kept as usize;
    if settled.start < row.len() {
        places[at] = j;
        starts[at] = settled.start;
        settled.kept + 1
    } else {
        settled.kept
    }
}

// The parts of the whole row; their number.
fn build<L: Ledger>(row: &Row, places: &mut [u32], starts: &mut [u32], steps: &mut Steps<L>) -> u32
    requires many_places { length places.old ≡ length row.now }
    requires many_starts { length starts.old ≡ length row.now }
    ensures built { AreBuilt row.now places.new starts.new result (length row.now)
        (length row.now) }
    ensures count { steps.new ≤ steps.old + 3 * length row.now }
{
    let mut m: u32 = 0;
    for j in 0..row.len() {
        m = add_place(row, places, starts, m, j, steps);
    }
    m
}

// Writes the place of each part over all that belongs to it, from the last place of the row on.
fn read_out(row: &Row, places: &[u32], starts: &[u32], m: u32, out: &mut [u32])
    requires some { 0 < m }
    requires many_places { length places.now ≡ length row.now }
    requires many_starts { length starts.now ≡ length row.now }
    requires many { length out.old ≡ length row.now }
    requires built { AreBuilt row.now places.now starts.now m (length row.now) (length row.now) }
    ensures { EachIndex out.new (λ x. IsLowest row.now (pos x) (slice_index out.new x)) }
{
    let mut k = m as usize - 1;
    for x in (0..row.len()).rev() {
        out[x as usize] = places[k];
        if starts[k] == x && k > 0 {
            k -= 1;
        }
    }
}

/// Writes the lower envelope of a row: for each place of the row a filled place whose parabola is lowest there.
/// Whether there is one: where every cell is empty, nothing is written.
///
/// A step is a test or a comparison of cells of the row; three for each cell are enough. To write the envelope takes no step.
pub fn envelope<L: Ledger>(
    alloc: Global,
    row: &Row,
    out: &mut [u32],
    steps: &mut Steps<L>,
) -> Result<bool, NoMemory>
    requires { length out.old ≡ length row.now }
    ensures none { IfOk result (λ some. (some ≡ false) ↔ ((i : ℕ) → cell row.now i ≡ None)) }
    ensures unchanged { IfOk result (λ some. some ≡ false → out.new ≡ out.old) }
    ensures lowest { IfOk result (λ some. some ≡ true
        → EachIndex out.new (λ x. IsLowest row.now (pos x) (slice_index out.new x))) }
    ensures count { steps.new ≤ steps.old + 3 * length row.now }
{
    let n = row.len() as usize;
    let mut places = vec![in alloc; 0u32; n]?;
    let mut starts = vec![in alloc; 0u32; n]?;
    let m = build(row, &mut places, &mut starts, steps);
    if m == 0 {
        return Ok(false);
    }
    read_out(row, &places, &starts, m, out);
    Ok(true)
}
