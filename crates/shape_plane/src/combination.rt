//! Two rows together, each so often that the second slope is gone; or one row in which it does not stand.
//! Which rows are taken belongs elsewhere.
ghost use Rattle.std.specs.Prelude.{◌≡◌, ◌<◌, length, pos, ◌+ℤ◌, ◌*ℤ◌, unsigned_abs, ◌≤◌};
ghost use Rattle.shape_terms.specs.Limits.{plane_row};
ghost use Rattle.shape_plane.specs.Rows.{row_at, IsGap, AreSmall, AreOpposite, IsSteep};
ghost use Rattle.shape_plane.specs.Combinations.{IsCombination};

use crate::bound::Bound;
use crate::products::{combine, size};
use crate::row::{Row, read};

/// A bound of the first slope, with the places of the two rows that it came from and how often each is taken.
#[derive(Clone, Copy)]
pub struct Combination {
    pub first: usize,
    pub first_weight: i64,
    pub second: usize,
    pub second_weight: i64,
    pub bound: Bound,
}

/// A row in which the second slope does not stand.
pub fn alone(rows: &[Row], j: usize) -> Combination
    requires place { j < length rows.now }
    requires small { AreSmall rows.now }
    requires gone { (row_at rows.now j).y ≡ pos 0 }
    ensures combination { IsCombination rows.now result }
    ensures second { result.second ≡ j }
    ensures x { result.bound.x ≡ (row_at rows.now j).x }
    ensures z { result.bound.z ≡ (row_at rows.now j).z }
{
    let r = read(rows, j);
    Combination {
        first: j,
        first_weight: 0,
        second: j,
        second_weight: 1,
        bound: Bound { x: r.x, z: r.z },
    }
}

// A row in which the second slope stands.
fn steep(rows: &[Row], i: usize) -> Row
    requires place { i < length rows.now }
    requires small { AreSmall rows.now }
    requires steep { (row_at rows.now i).y ≡ pos 0 → ⊥ }
    ensures row { result ≡ row_at rows.now i }
    ensures steep { IsSteep result }
{
    read(rows, i)
}

// What two rows say of the first slope, each as often as the other's coefficient of the second says.
fn bound_by(a: Row, b: Row) -> Bound
    requires first { IsSteep a }
    requires second { IsSteep b }
    ensures x { result.x ≡ pos (unsigned_abs b.y) *ℤ a.x +ℤ pos (unsigned_abs a.y) *ℤ b.x }
    ensures z { result.z ≡ pos (unsigned_abs b.y) *ℤ a.z +ℤ pos (unsigned_abs a.y) *ℤ b.z }
    ensures x_small { unsigned_abs result.x ≤ plane_row }
    ensures z_small { unsigned_abs result.z ≤ plane_row }
{
    let v = size(b.y);
    let w = size(a.y);
    Bound {
        x: combine(v, a.x, w, b.x),
        z: combine(v, a.z, w, b.z),
    }
}

/// Two rows that bound the second slope from opposite sides, each as often as the other's coefficient says.
pub fn combined(rows: &[Row], i: usize, j: usize) -> Combination
    requires first { i < length rows.now }
    requires second { j < length rows.now }
    requires small { AreSmall rows.now }
    requires opposite { AreOpposite (row_at rows.now i).y (row_at rows.now j).y }
    requires pair { IsGap (row_at rows.now j).cause }
    ensures combination { IsCombination rows.now result }
    ensures first { result.first ≡ i }
    ensures first_weight { result.first_weight ≡ pos (unsigned_abs (row_at rows.now j).y) }
    ensures second { result.second ≡ j }
    ensures second_weight { result.second_weight ≡ pos (unsigned_abs (row_at rows.now i).y) }
{
    let a = steep(rows, i);
    let b = steep(rows, j);
    Combination {
        first: i,
        first_weight: size(b.y),
        second: j,
        second_weight: size(a.y),
        bound: bound_by(a, b),
    }
}
