//! Inequalities in two slopes and the coefficient of the main axis, and what each comes from.
//! What pairs and steps say is turned into rows elsewhere.
ghost use Rattle.std.specs.Prelude.{◌≡◌, ◌<◌, length};
ghost use Rattle.shape_plane.specs.Rows.{row_at};

use crate::pair::Pair;
use shape_refute::Step;

/// What a row comes from.
#[derive(Clone, Copy)]
pub enum Cause {
    /// A line or plane is proper: a step bounds one of its slopes by 1 or by -1.
    Proper(Step),
    /// A line or plane holds both points of a pair.
    Gap(Pair),
}

/// The inequality `x*a + y*b + z*c < 0` for the two slopes `a/c` and `b/c`.
#[derive(Clone, Copy)]
pub struct Row {
    pub x: i64,
    pub y: i64,
    pub z: i64,
    pub cause: Cause,
}

/// The row at a place.
pub fn read(rows: &[Row], i: usize) -> Row
    requires { i < length rows.now }
    ensures { result ≡ row_at rows.now i }
{
    rows[i]
}
