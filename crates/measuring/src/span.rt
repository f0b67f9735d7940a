//! Where an object lies along one axis.
//! The bounds under which the sum of coordinates fits stand here.
ghost use Rattle.std.specs.Prelude.{◌≡◌, ◌<◌, ◌≤◌, ◌+◌, ◌*◌, ◌^◌, cond, nat_eq, min};
ghost use Rattle.shape_terms.specs.Limits.{most_points, most_coordinate};
ghost use Rattle.measure_terms.specs.OneMore.{span_with};
ghost use Rattle.measuring.specs.Told.{span_told};

/// The least and the greatest coordinate of an object's points on an axis, and the sum of the coordinates.
#[derive(Clone, Copy, Debug, PartialEq, Eq)]
pub struct Span {
    /// The least coordinate, and 0 where there is no point.
    pub least: u32,
    /// The greatest coordinate, and 0 where there is no point.
    pub greatest: u32,
    /// The sum of the coordinates.
    pub sum: u64,
}

// The lesser of two numbers, and the second where there is no first.
fn lesser(count: u32, old: u32, x: u32) -> u32
    ensures { result ≡ cond (nat_eq count 0) x (min old x) }
{
    if count == 0 { x } else { old.min(x) }
}

impl Span {
    // The span with one more point, after so many.
    pub(crate) fn with(self, count: u32, x: u32) -> Span
        requires small { x < most_coordinate }
        requires few { count < most_points }
        requires sum { self.sum ≤ most_coordinate * count }
        ensures told { span_told result ≡ span_with count (span_told self) x }
        ensures sum { result.sum ≤ most_coordinate * (count + 1) }
    {
        Span {
            least: lesser(count, self.least, x),
            greatest: self.greatest.max(x),
            sum: self.sum + x as u64,
        }
    }
}
