//! The lines of a block: along each of them the cells spread, part by part.
//! A bare place, which has the square 0, stays as it is, and hides the places behind it: parts end at bare places.
ghost use Rattle.std.specs.Prelude.{◌≡◌, ◌+◌, ◌*◌, ◌<◌, ◌≤◌, ◌^◌, ◌↔◌, ℕ, IfOk, IsTrue, length};
ghost use Rattle.shape_terms.specs.Limits.{most_coordinate, far};
ghost use Rattle.shape_dist.specs.Spreads.{found, square_at, IsSpreadAt};

use crate::cell::Spreading;
use crate::part::spread_part;
use shape_space::{NoMemory, Steps};
use std::alloc::Global;
use std::sync::ledger::Ledger;

// So many bare places in a row end a part of a line. To take in fewer of them costs less than to begin another part.
const REST: u32 = 4;

// Whether a cell holds the square 0.
#[inline]
fn is_bare<T: Spreading>(f: T) -> bool
    ensures { IsTrue result ↔ (T.keeping.square f ≡ 0) }
{
    f.square() == 0
}

// The end of the part of a line that goes on at x: a bare place, or the end of the line.
fn part_end<T: Spreading>(cells: &[T], base: usize, n: u32, x: u32) -> u32
    requires there { x < n }
    requires inside { (y : ℕ) → y < n → base + y < length cells.now }
    requires few { length cells.now < 2 ^ 32 }
    ensures later { x ≤ result }
    ensures most { result ≤ n }
    ensures bare { result < n → square_at T.keeping cells.now (base + result) ≡ 0 }
{
    let mut end = x;
    for y in x..n {
        if !is_bare(cells[base + y as usize]) {
            end = y + 1;
        } else if y - end + 1 == REST {
            return end;
        }
    }
    end
}

// Lets the cells of one line spread along it.
fn spread_line<T: Spreading, L: Ledger>(
    alloc: Global,
    cells: &mut [T],
    base: usize,
    n: u32,
    steps: &mut Steps<L>,
) -> Result<(), NoMemory>
    requires some { 1 ≤ n }
    requires near { n ≤ most_coordinate }
    requires inside { (y : ℕ) → y < n → base + y < length cells.old }
    requires few { length cells.old < 2 ^ 32 }
    requires small { (y : ℕ) → y < n → square_at T.keeping cells.old (base + y) ≤ far }
    ensures on_line { IfOk result (λ _. (x : ℕ) → x < n
        → IsSpreadAt T.keeping (λ y. found T.keeping cells.old (base + y)) n x
        (found T.keeping cells.new (base + x))) }
    ensures others { IfOk result (λ _. (i : ℕ) → ((x : ℕ) → x < n → i ≡ base + x → ⊥)
        → found T.keeping cells.new i ≡ found T.keeping cells.old i) }
{
    let mut x: u32 = 0;
    while x < n {
        if is_bare(cells[base + x as usize]) {
            x += 1;
        } else {
            let end = part_end(cells, base, n, x);
            let from = x.saturating_sub(1);
            let to = n.min(end + 1);
            spread_part(alloc, cells, base + from as usize, to - from, steps)?;
            x = to;
        }
    }
    Ok(())
}

/// Lets the cells of each line of a block spread along it.
pub fn spread_lines<T: Spreading, L: Ledger>(
    alloc: Global,
    block: &mut [T],
    side: u32,
    lines: u32,
    steps: &mut Steps<L>,
) -> Result<(), NoMemory>
    requires some { 1 ≤ side }
    requires near { side ≤ most_coordinate }
    requires beside { lines ≤ 8 }
    requires room { lines * side ≤ length block.old }
    requires few { length block.old < 2 ^ 31 }
    requires small { (i y : ℕ) → i < lines → y < side
        → square_at T.keeping block.old (i * side + y) ≤ far }
    ensures { IfOk result (λ _. (i x : ℕ) → i < lines → x < side
        → IsSpreadAt T.keeping (λ y. found T.keeping block.old (i * side + y)) side x
        (found T.keeping block.new (i * side + x))) }
{
    for i in 0..lines {
        spread_line(alloc, block, (i * side) as usize, side, steps)?;
    }
    Ok(())
}
