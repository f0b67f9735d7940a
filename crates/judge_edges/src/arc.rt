//! Arcs of a corner path, as the program keeps them: stretches with a standard line.
//! How arcs are found, and how they are judged, belongs elsewhere.
ghost use Rattle.judge_edges.specs.Lines.{IsNatural};

use crate::standard::Standard;

/// A stretch of a corner path, with a standard line.
///
/// Places are counted from 0 at the first corner of the path, and go on rising where the path comes round.
#[derive(Clone, Copy, Debug, PartialEq, Eq)]
pub struct Arc {
    /// The first place.
    pub first: u32,
    /// The last place.
    pub last: u32,
    /// The line, whose coefficients are not negative.
    pub line: Standard,
    pub ghost natural: { IsNatural line },
}
