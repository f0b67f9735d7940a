//! The greatest lower and the least upper bound of the first slope, among the combinations looked at.
//! Bounds are compared as fractions, by cross products.
ghost use Rattle.std.specs.Prelude.{◌≡◌, ◌<◌, ◌↔◌, IsTrue, ◌<ℤ◌, pos, length, ◌≤◌, unsigned_abs};
ghost use Rattle.shape_terms.specs.Limits.{plane_gap};
ghost use Rattle.shape_plane.specs.Rows.{row_at, Meets, IsGap, AreSmall, AreOpposite, IsSystem};
ghost use Rattle.shape_plane.specs.Combinations.{IsCombination};
ghost use Rattle.shape_plane.specs.Ranges.{LeaveRoom, IsClear, IsMet, IsRange, HasNarrower, IsWhole, HasWhole};

use crate::bound::is_tighter;
use crate::combination::{Combination, alone, combined};
use crate::products::product;
use crate::row::{Row, read};

/// A lower and an upper bound of the first slope.
#[derive(Clone, Copy)]
pub struct Range {
    pub lower: Combination,
    pub upper: Combination,
}

/// A range, or a combination that nothing meets.
#[derive(Clone, Copy)]
pub enum Narrowed {
    Room(Range),
    Clash(Combination),
}

// The range without the slopes that do not meet a combination.
fn narrow(rows: &[Row], old: Range, c: Combination) -> Narrowed
    requires range { IsRange rows.now old }
    requires combination { IsCombination rows.now c }
    requires pair { IsGap (row_at rows.now c.second).cause }
    ensures { HasNarrower rows.now old (λ p q. Meets p q c.bound.x c.bound.z) result }
{
    let _ = rows;
    if c.bound.x > 0 {
        if is_tighter(c.bound, old.upper.bound) {
            return Narrowed::Room(Range {
                lower: old.lower,
                upper: c,
            });
        }
        return Narrowed::Room(old);
    }
    if c.bound.x < 0 {
        if is_tighter(c.bound, old.lower.bound) {
            return Narrowed::Room(Range {
                lower: c,
                upper: old.upper,
            });
        }
        return Narrowed::Room(old);
    }
    if c.bound.z >= 0 {
        return Narrowed::Clash(c);
    }
    Narrowed::Room(old)
}

// The coefficient of the second slope in a row.
fn second(rows: &[Row], j: usize) -> i64
    requires place { j < length rows.now }
    requires small { AreSmall rows.now }
    ensures value { result ≡ (row_at rows.now j).y }
    ensures small { unsigned_abs result ≤ plane_gap }
{
    let r = read(rows, j);
    r.y
}

// Whether a number is below 0.
fn is_negative(a: i64) -> bool
    ensures { IsTrue result ↔ a <ℤ pos 0 }
{
    a < 0
}

// Whether two rows bound the second slope from opposite sides: their coefficients have a product below 0 then alone.
fn are_opposite(rows: &[Row], i: usize, j: usize) -> bool
    requires first { i < length rows.now }
    requires second { j < length rows.now }
    requires small { AreSmall rows.now }
    ensures { IsTrue result ↔ AreOpposite (row_at rows.now i).y (row_at rows.now j).y }
{
    is_negative(product(second(rows, i), second(rows, j)))
}

// The range without the slopes at which two rows leave no room.
fn cross(rows: &[Row], i: usize, j: usize, old: Range) -> Narrowed
    requires first { i < length rows.now }
    requires second { j < length rows.now }
    requires pair { IsGap (row_at rows.now j).cause }
    requires small { AreSmall rows.now }
    requires range { IsRange rows.now old }
    ensures { HasNarrower rows.now old
        (λ p q. LeaveRoom p q (row_at rows.now i) (row_at rows.now j)) result }
{
    if are_opposite(rows, i, j) {
        narrow(rows, old, combined(rows, i, j))
    } else {
        Narrowed::Room(old)
    }
}

// The range without the slopes at which a row leaves no room together with an earlier one.
fn crossed(rows: &[Row], j: usize, old: Range) -> Narrowed
    requires place { j < length rows.now }
    requires pair { IsGap (row_at rows.now j).cause }
    requires small { AreSmall rows.now }
    requires range { IsRange rows.now old }
    ensures { HasNarrower rows.now old (IsClear rows.now j j) result }
{
    let mut best = old;
    for i in 2..j {
        match cross(rows, i, j, best) {
            Narrowed::Room(new) => best = new,
            Narrowed::Clash(c) => return Narrowed::Clash(c),
        }
    }
    Narrowed::Room(best)
}

// Whether the second slope does not stand in a row.
fn is_flat(rows: &[Row], j: usize) -> bool
    requires { j < length rows.now }
    ensures { IsTrue result ↔ (row_at rows.now j).y ≡ pos 0 }
{
    let r = read(rows, j);
    r.y == 0
}

/// The range without the slopes that a row excludes, by itself or together with an earlier one.
pub fn cleared(rows: &[Row], j: usize, old: Range) -> Narrowed
    requires place { j < length rows.now }
    requires pair { IsGap (row_at rows.now j).cause }
    requires small { AreSmall rows.now }
    requires range { IsRange rows.now old }
    ensures { HasNarrower rows.now old (IsMet rows.now j) result }
{
    if is_flat(rows, j) {
        narrow(rows, old, alone(rows, j))
    } else {
        crossed(rows, j, old)
    }
}

/// The slopes between -1 and 1.
#[tactic(auto, using(crate::proofs::Narrowing::whole_slopes))]
pub fn all_slopes(rows: &[Row]) -> Range
    requires { IsSystem rows.now }
    ensures { IsWhole rows.now 4 result }
{
    Range {
        lower: alone(rows, 0),
        upper: alone(rows, 1),
    }
}
