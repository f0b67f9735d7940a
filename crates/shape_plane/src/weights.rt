//! The weights that two combinations give: of the pairs of points and of the steps that stand in them.
//! How combinations are found belongs elsewhere.
ghost use Rattle.std.specs.Prelude.{◌≡◌, ◌⊎◌, ◌<◌, ◌≤◌, ◌+◌, length, pos, ◌*ℤ◌, ◌≤ℤ◌, unsigned_abs};
ghost use Rattle.shape_terms.specs.Limits.{plane_gap, plane_row};
ghost use Rattle.shape_refute.specs.Shown.{shift_of};
ghost use Rattle.shape_refute.specs.Weights.{refutation_of};
ghost use Rattle.shape_plane.specs.Rows.{row_at, IsGap};
ghost use Rattle.shape_plane.specs.Systems.{no_weights, with_step as step_added, with_pair as pair_added, with_row as row_added, with_up as up_added, with_first as first_added, with_second as second_added, with_multiple as multiple_added, weights_of as weights};
ghost use Rattle.shape_plane.specs.Solutions.{IsMultiple, IsExcluded};

use crate::eliminate::{Excluded, Multiple};
use crate::pair::Pair;
use crate::row::{Cause, Row, read};
use shape_refute::{Refutation, Share, Shares, Step, StepShare, StepShares};

/// No weights.
pub fn nothing() -> Refutation
    ensures { refutation_of result ≡ no_weights }
{
    Refutation {
        low: Shares::new(),
        high: Shares::new(),
        steps: StepShares::new(),
    }
}

// A step more.
fn with_step(into: &mut Refutation, weight: u64, step: Step)
    requires { length (refutation_of into.old).steps < 4 }
    ensures { refutation_of into.new ≡ step_added (refutation_of into.old) weight (shift_of step) }
{
    into.steps.push(StepShare { weight, step });
}

// A pair more.
fn with_pair(into: &mut Refutation, weight: u64, pair: Pair)
    requires low { length (refutation_of into.old).low < 4 }
    requires high { length (refutation_of into.old).high < 4 }
    ensures { refutation_of into.new ≡ pair_added (refutation_of into.old) weight pair }
{
    into.low.push(Share {
        weight,
        place: pair.low,
    });
    into.high.push(Share {
        weight,
        place: pair.high,
    });
}

// A row more, where it is taken at all.
fn with_row(into: &mut Refutation, weight: u64, cause: Cause)
    requires low { length (refutation_of into.old).low < 4 }
    requires high { length (refutation_of into.old).high < 4 }
    requires steps { length (refutation_of into.old).steps < 4 }
    ensures row { refutation_of into.new ≡ row_added (refutation_of into.old) weight cause }
    ensures low { length (refutation_of into.new).low ≤ length (refutation_of into.old).low + 1 }
    ensures high { length (refutation_of into.new).high ≤ length (refutation_of into.old).high + 1 }
    ensures steps { length (refutation_of into.new).steps
        ≤ length (refutation_of into.old).steps + 1 }
    ensures gap { IsGap cause
        → length (refutation_of into.new).steps ≡ length (refutation_of into.old).steps }
    ensures none { weight ≡ 0
        → length (refutation_of into.new).steps ≡ length (refutation_of into.old).steps }
{
    if weight == 0 {
        return;
    }
    match cause {
        Cause::Proper(step) => with_step(into, weight, step),
        Cause::Gap(pair) => with_pair(into, weight, pair),
    }
}

// Steps up, where there are some.
fn with_up(into: &mut Refutation, weight: u64)
    requires { length (refutation_of into.old).steps < 4 }
    ensures { refutation_of into.new ≡ up_added (refutation_of into.old) weight }
{
    if weight == 0 {
        return;
    }
    with_step(into, weight, Step::Up)
}

// How often a row is taken.
fn portion(factor: i64, weight: i64) -> u64
    requires factor_low { pos 0 ≤ℤ factor }
    requires factor_small { unsigned_abs factor ≤ plane_row }
    requires weight_low { pos 0 ≤ℤ weight }
    requires weight_small { unsigned_abs weight ≤ plane_gap }
    ensures value { result ≡ unsigned_abs (factor *ℤ weight) }
{
    factor as u64 * weight as u64
}

// The first row of a combination more, so often as it is taken.
fn with_first(into: &mut Refutation, rows: &[Row], m: Multiple)
    requires multiple { IsMultiple rows.now m }
    requires low { length (refutation_of into.old).low ≤ 2 }
    requires high { length (refutation_of into.old).high ≤ 2 }
    requires steps { length (refutation_of into.old).steps ≤ 1 }
    ensures row { refutation_of into.new ≡ first_added rows.now (refutation_of into.old) m }
    ensures low { length (refutation_of into.new).low ≤ length (refutation_of into.old).low + 1 }
    ensures high { length (refutation_of into.new).high ≤ length (refutation_of into.old).high + 1 }
    ensures steps { length (refutation_of into.new).steps
        ≤ length (refutation_of into.old).steps + 1 }
    ensures none { m.combination.first_weight ≡ pos 0
        → length (refutation_of into.new).steps ≡ length (refutation_of into.old).steps }
{
    let times = portion(m.times, m.combination.first_weight);
    with_row(into, times, read(rows, m.combination.first).cause);
}

// The second row of a combination more, so often as it is taken.
fn with_second(into: &mut Refutation, rows: &[Row], m: Multiple)
    requires multiple { IsMultiple rows.now m }
    requires low { length (refutation_of into.old).low ≤ 3 }
    requires high { length (refutation_of into.old).high ≤ 3 }
    requires steps { length (refutation_of into.old).steps ≤ 2 }
    ensures row { refutation_of into.new ≡ second_added rows.now (refutation_of into.old) m }
    ensures low { length (refutation_of into.new).low ≤ length (refutation_of into.old).low + 1 }
    ensures high { length (refutation_of into.new).high ≤ length (refutation_of into.old).high + 1 }
    ensures steps { length (refutation_of into.new).steps
        ≤ length (refutation_of into.old).steps + 1 }
    ensures gap { IsGap (row_at rows.now m.combination.second).cause
        → length (refutation_of into.new).steps ≡ length (refutation_of into.old).steps }
{
    let times = portion(m.times, m.combination.second_weight);
    with_row(into, times, read(rows, m.combination.second).cause);
}

// The rows of a combination more, so often as it is taken.
fn with_multiple(into: &mut Refutation, rows: &[Row], m: Multiple)
    requires multiple { IsMultiple rows.now m }
    requires low { length (refutation_of into.old).low ≤ 2 }
    requires high { length (refutation_of into.old).high ≤ 2 }
    requires steps { length (refutation_of into.old).steps ≤ 1 }
    ensures rows { refutation_of into.new ≡ multiple_added rows.now (refutation_of into.old) m }
    ensures low { length (refutation_of into.new).low ≤ length (refutation_of into.old).low + 2 }
    ensures high { length (refutation_of into.new).high ≤ length (refutation_of into.old).high + 2 }
    ensures steps { length (refutation_of into.new).steps
        ≤ length (refutation_of into.old).steps + 1 }
{
    with_first(into, rows, m);
    with_second(into, rows, m);
}

// How often the step up is taken.
fn rest_of(k: Excluded) -> u64
    requires { pos 0 ≤ℤ k.rest }
    ensures { result ≡ unsigned_abs k.rest }
{
    k.rest as u64
}

/// Puts the weights of an exclusion in the place of others.
pub fn put_weights(into: &mut Refutation, rows: &[Row], k: Excluded)
    requires { IsExcluded rows.now k }
    ensures { refutation_of into.new ≡ weights rows.now k }
{
    *into = nothing();
    with_multiple(into, rows, k.first);
    with_multiple(into, rows, k.second);
    with_up(into, rest_of(k));
}
