//! Lines of the grid, each from its first to its last corner of an object, and those above and below a row.
//! What a list of them is for is told in `bounds`.
ghost use Rattle.std.specs.Prelude.{◌≡◌, ◌⊎◌, ◌≤ℤ◌};
ghost use Rattle.measuring.specs.Lines.{above, below, IsShortLine, IsJoined};

use crate::object_row::Row;

/// A line of the grid, from its first to its last corner of an object.
#[derive(Clone, Copy)]
pub(crate) struct Line {
    /// How far it lies down.
    pub(crate) y: i32,
    /// Where its first corner lies.
    pub(crate) left: i32,
    /// Where its last corner lies.
    pub(crate) right: i32,
}

// The lesser of two numbers.
fn least(a: i32, b: i32) -> i32
    ensures one { (result ≡ a) ⊎ (result ≡ b) }
    ensures left { result ≤ℤ a }
    ensures right { result ≤ℤ b }
{
    if b < a { b } else { a }
}

// The greater of two numbers.
fn greatest(a: i32, b: i32) -> i32
    ensures one { (result ≡ a) ⊎ (result ≡ b) }
    ensures left { a ≤ℤ result }
    ensures right { b ≤ℤ result }
{
    if a < b { b } else { a }
}

// The line with these coordinates.
fn line_of(y: i32, left: i32, right: i32) -> Line
    ensures { result ≡ record { y = y; left = left; right = right } }
{
    Line { y, left, right }
}

impl Line {
    /// The line above a row.
    pub(crate) fn above(row: Row) -> Line
        ensures value { result ≡ above row }
        ensures short { IsShortLine result }
    {
        Line {
            y: row.y as i32,
            left: row.left as i32,
            right: row.right as i32 + 1,
        }
    }

    /// The line below a row.
    pub(crate) fn below(row: Row) -> Line
        ensures value { result ≡ below row }
        ensures short { IsShortLine result }
    {
        Line {
            y: row.y as i32 + 1,
            left: row.left as i32,
            right: row.right as i32 + 1,
        }
    }

    /// The line that reaches over two that lie as far down.
    pub(crate) fn joined(self, other: Line) -> Line
        requires one { IsShortLine self }
        requires two { IsShortLine other }
        ensures joined { IsJoined self other result }
        ensures short { IsShortLine result }
    {
        line_of(
            other.y,
            least(self.left, other.left),
            greatest(self.right, other.right),
        )
    }
}
