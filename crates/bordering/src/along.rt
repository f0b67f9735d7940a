//! The lengths of steps along a run, where the last two that were found are kept.
//! Steps of a straight run are of two kinds, so that each is found once.
ghost use Rattle.std.specs.Prelude.{◌≡◌, ◌*◌, ◌^◌};
ghost use Rattle.measure_terms.specs.Quotients.{root_quotient};
ghost use Rattle.measure_terms.specs.Lengths.{norm, share};
ghost use Rattle.bordering.specs.Told.{run_told, step_told};

use crate::quotient::quotient;
use crate::run::Run;
use crate::step::Step;

/// A run with two weights of steps, and the lengths that steps of these weights have along it.
#[derive(Clone, Copy)]
pub(crate) struct Along {
    pub(crate) run: Run,
    squared: u64,
    last: u64,
    last_share: u64,
    other: u64,
    other_share: u64,
    ghost squared_is: { squared ≡ norm (run_told run) },
    ghost last_is: { last_share ≡ root_quotient (last * 10 ^ 12) squared },
    ghost other_is: { other_share ≡ root_quotient (other * 10 ^ 12) squared },
}

impl Along {
    /// The run, and no step along it yet.
    pub(crate) fn new(run: Run) -> Along
        ensures { result.run ≡ run }
    {
        Along {
            run,
            squared: run.norm(),
            last: 0,
            last_share: 0,
            other: 0,
            other_share: 0,
        }
    }

    /// The length of a step along the run.
    pub(crate) fn share(&mut self, s: Step) -> u64
        ensures value { result ≡ share (run_told self.old.run) (step_told s) }
        ensures same { self.new.run ≡ self.old.run }
    {
        let weight = self.run.weight(s);
        if weight == self.last {
            return self.last_share;
        }
        if weight == self.other {
            return self.other_share;
        }
        let share = quotient(weight, self.squared);
        *self = Along {
            run: self.run,
            squared: self.squared,
            last: weight,
            last_share: share,
            other: self.last,
            other_share: self.last_share,
        };
        share
    }
}
