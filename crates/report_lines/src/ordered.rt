//! Whether the lines of a report come in order, as a sketch of them goes along.
//! No claim is judged; what a line gives is told by the sketch.
ghost use Rattle.std.specs.Prelude.{◌≡◌, ◌≤◌, ◌^◌};

use crate::sketch::Sketch;
use report_text::ReportJudge;
use shape_report::Line;
use shape_space::{NoMemory, Point};
use std::marker::PhantomData;

// The rank of `end`.
const LAST: u8 = 6;

// A report has no more lines.
const MOST: u64 = 1 << 61;

/// A sketch, the rank of the last line's section, and how many lines may still come.
#[derive(Drop)]
pub(crate) struct Ordered<P: Point, S: Sketch<P>> {
    pub(crate) sketch: S,
    rank: u8,
    room: u64,
    points: PhantomData<P>,
}

impl<P: Point, S: Sketch<P>> Ordered<P, S> {
    /// The lines behind the heading are to come.
    pub(crate) fn new(sketch: S) -> Ordered<P, S>
        ensures sketch { result.sketch ≡ sketch }
        ensures rank { result.rank ≡ 0 }
        ensures room { result.room ≤ 2 ^ 61 }
    {
        Ordered {
            sketch,
            rank: 0,
            room: MOST,
            points: PhantomData,
        }
    }

    /// The sketch.
    pub(crate) fn into_sketch(self) -> S
        ensures { result ≡ self.sketch }
    {
        self.sketch
    }
}

impl<P: Point, S: Sketch<P>> ReportJudge<Line<P>> for Ordered<P, S> {
    ghost use Rattle.report_lines.specs.Reports.{ComesInOrder, space};
    ghost use Rattle.report_lines.specs.Standing.{StandsFor};
    ghost use Rattle.report_lines.specs.Ended.{is_report};

    ghost About = { Unit {0} };

    ghost good = { λ _. ComesInOrder P.MAX_SIDE };

    ghost stands = { λ _ o lines. StandsFor S.IsOf o.rank o.sketch lines };

    ghost room = { λ o. o.room };

    fn take(&mut self, line: &Line<P>) -> Result<bool, NoMemory> {
        let rank = line.rank();
        if rank < self.rank || self.rank == LAST {
            return Ok(false);
        }
        let Some(room) = self.room.checked_sub(1) else {
            return Err(NoMemory);
        };
        self.sketch.take(line)?;
        self.rank = rank;
        self.room = room;
        Ok(true)
    }

    fn has_ended(&self) -> bool {
        self.rank == LAST
    }

    ghost ends = { λ _. is_report (space P.DIM P.MAX_SIDE) };
}
