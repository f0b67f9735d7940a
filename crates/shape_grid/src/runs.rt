//! Runs of a row of truth values: where a run ends, where it starts, and a stretch that is filled at once.
//! How runs are found in words belongs elsewhere.
ghost use Rattle.std.specs.Prelude.{◌≤◌, true, false, length};
ghost use Rattle.shape_grid.specs.Runs.{IsRunEnd, IsRunStart, IsFilled};

use crate::bits::Bits;
use crate::stretches::{put_span, span_end, span_start};

impl Bits {
    /// The end of the run of true values that starts at a place: the first place from there on whose value is false, and `until` at the latest.
    pub fn end_of_trues(&self, from: usize, until: usize) -> usize
        requires ordered { from ≤ until }
        requires within { until ≤ length self.now }
        ensures { IsRunEnd self.now true from until result }
    {
        span_end(self.words.as_slice(), true, from, until)
    }

    /// The end of the run of false values that starts at a place: the first place from there on whose value is true, and `until` at the latest.
    pub fn end_of_falses(&self, from: usize, until: usize) -> usize
        requires ordered { from ≤ until }
        requires within { until ≤ length self.now }
        ensures { IsRunEnd self.now false from until result }
    {
        span_end(self.words.as_slice(), false, from, until)
    }

    /// The start of the run of true values that ends before a place: the least place, not before `from`, from which on all values are true.
    pub fn start_of_trues(&self, from: usize, until: usize) -> usize
        requires ordered { from ≤ until }
        requires within { until ≤ length self.now }
        ensures { IsRunStart self.now from until result }
    {
        span_start(self.words.as_slice(), from, until)
    }

    /// Makes the values of a stretch true.
    pub fn set_all(&mut self, from: usize, until: usize)
        requires ordered { from ≤ until }
        requires within { until ≤ length self.old }
        ensures { IsFilled self.old self.new from until true }
    {
        put_span(&mut self.words, from, until, true);
    }

    /// Makes the values of a stretch false.
    pub fn clear_all(&mut self, from: usize, until: usize)
        requires ordered { from ≤ until }
        requires within { until ≤ length self.old }
        ensures { IsFilled self.old self.new from until false }
    {
        put_span(&mut self.words, from, until, false);
    }
}
