//! Refutations: weights that no proper naive line or plane of an axis survives.
//! How weights are found belongs elsewhere.
ghost use Rattle.std.specs.Prelude.{◌≡◌, ◌<◌, ◌≤◌, ◌^◌, ◌↔◌, ℕ, length, map, unsigned_abs, IsTrue};
ghost use Rattle.shape_terms.specs.Points.{coordinate};
ghost use Rattle.shape_terms.specs.Vectors.{unit};
ghost use Rattle.shape_terms.specs.Refutations.{IsStepOf, step_of, total_weight, Refutes, RefutationsExclude};
ghost use Rattle.shape_refute.specs.Sums.{shares_sum, steps_sum, ArePlaces, AreSteps, axis_value};
ghost use Rattle.shape_refute.specs.Shown.{shift_of};
ghost use Rattle.shape_refute.specs.Weights.{refutation_of, MeetOn};

use crate::exact::{are_equal, minus, plus, sum, weighed};
use crate::share::{Shares, Step, StepShares};
use shape_space::Point;

/// Weights of low points, of high points and of steps.
#[derive(Clone, Copy)]
pub struct Refutation {
    /// Places of points at which `a.p` is at least `mu`.
    pub low: Shares,
    /// Places of points which lie below the line or plane once they are moved one step down.
    pub high: Shares,
    /// Steps along which `a.p` does not fall.
    pub steps: StepShares,
}

// A coordinate of the unit step along an axis.
fn unit_coordinate(axis: usize, k: usize) -> i32
    ensures value { result ≡ coordinate (unit axis) k }
    ensures small { unsigned_abs result ≤ 1 }
{
    if k == axis { 1 } else { 0 }
}

// A coordinate of a step of an axis.
fn step_coordinate(axis: usize, step: Step, k: usize) -> i64
    ensures value { result ≡ coordinate (step_of axis (shift_of step)) k }
    ensures small { unsigned_abs result ≤ 2 ^ 33 }
{
    let main = unit_coordinate(axis, k);
    match step {
        Step::Up => plus(main, 0),
        Step::Plus(u) => plus(main, unit_coordinate(u as usize, k)),
        Step::Minus(u) => minus(main, unit_coordinate(u as usize, k)),
    }
}

// Whether a step is one of an axis in a space of `dim` axes.
fn is_step_of(dim: usize, axis: usize, step: Step) -> bool
    ensures { IsTrue result ↔ IsStepOf dim axis (shift_of step) }
{
    match step {
        Step::Up => true,
        Step::Plus(u) | Step::Minus(u) => (u as usize) < dim && u as usize != axis,
    }
}

// Whether each place is one of a list of `count` points.
fn are_places(shares: &Shares, count: usize) -> bool
    ensures { IsTrue result ↔ ArePlaces count shares.now }
{
    for i in (0..shares.len()).rev() {
        if shares.get(i).place as usize >= count {
            return false;
        }
    }
    true
}

// Whether each step is one of an axis in a space of `dim` axes.
fn are_steps(shares: &StepShares, dim: usize, axis: usize) -> bool
    ensures { IsTrue result ↔ AreSteps dim axis shares.now }
{
    for i in (0..shares.len()).rev() {
        if !is_step_of(dim, axis, shares.get(i).step) {
            return false;
        }
    }
    true
}

// The sum of the weights.
fn total(shares: &Shares) -> u128
    ensures { result ≡ total_weight shares.now }
{
    let mut weight: u128 = 0;
    for i in (0..shares.len()).rev() {
        weight += shares.get(i).weight as u128;
    }
    weight
}

// A coordinate of the sum of the shares' points, each less by `less`.
fn points_sum<P: Point>(points: &[P], shares: &Shares, k: usize, less: i32) -> i128
    requires axis { k < P.DIM }
    requires places { ArePlaces (length points.now) shares.now }
    ensures value { result ≡ shares_sum (axis_value (map P.coords points.now) k less) shares.now }
    ensures small { unsigned_abs result ≤ 2 ^ 99 }
{
    let mut total: i128 = 0;
    for i in (0..shares.len()).rev() {
        let share = shares.get(i);
        total = sum(
            total,
            weighed(
                share.weight,
                minus(points[share.place as usize].coord(k), less),
            ),
        );
    }
    total
}

// A coordinate of the sum of the steps.
fn steps_sum(axis: usize, shares: &StepShares, k: usize) -> i128
    ensures value { result ≡ steps_sum axis k shares.now }
    ensures small { unsigned_abs result ≤ 2 ^ 99 }
{
    let mut total: i128 = 0;
    for i in (0..shares.len()).rev() {
        let share = shares.get(i);
        total = sum(
            total,
            weighed(share.weight, step_coordinate(axis, share.step, k)),
        );
    }
    total
}

// Whether the two sides have the same coordinate on an axis.
fn meets_on<P: Point>(points: &[P], axis: usize, r: &Refutation, k: usize) -> bool
    requires axis { k < P.DIM }
    requires low { ArePlaces (length points.now) r.now.low }
    requires high { ArePlaces (length points.now) r.now.high }
    ensures { IsTrue result ↔ MeetOn axis (map P.coords points.now) r.now k }
{
    let low = points_sum(points, &r.low, k, 0);
    let high = points_sum(points, &r.high, k, unit_coordinate(axis, k));
    are_equal(sum(low, steps_sum(axis, &r.steps, k)), high)
}

// Whether the two sides are equal.
fn meets<P: Point>(points: &[P], axis: usize, r: &Refutation) -> bool
    requires low { ArePlaces (length points.now) r.now.low }
    requires high { ArePlaces (length points.now) r.now.high }
    ensures { IsTrue result
        ↔ ((k : ℕ) → k < P.DIM → MeetOn axis (map P.coords points.now) r.now k) }
{
    for k in 0..P::DIM {
        if !meets_on(points, axis, r, k) {
            return false;
        }
    }
    true
}

/// Whether the weights refute the list for an axis, so that no proper naive line or plane of the axis holds it.
///
/// Each place is one of the list and each step one of the axis; the low weights have the sum of the high ones, at least 1; and the low
/// points with the steps have the sum of the high points, each moved one step down along the axis.
pub fn refutes<P: Point>(points: &[P], axis: usize, r: &Refutation) -> bool
    requires { axis < P.DIM }
    ensures { IsTrue result ↔ Refutes P.DIM axis (map P.coords points.now) (refutation_of r.now) }
{
    if !are_places(&r.low, points.len())
        || !are_places(&r.high, points.len())
        || !are_steps(&r.steps, P::DIM, axis)
    {
        return false;
    }
    let weight = total(&r.low);
    if weight < 1 || weight != total(&r.high) {
        return false;
    }
    meets(points, axis, r)
}

/// The theorem that gives refutations their worth, as the clause of a function that does nothing.
///
/// It holds for each number of axes and of entries. The low points, where `a.p - mu` is not negative, and the steps, where `a` is not
/// negative, have the same sum as high points moved down by one step, where `a.p - mu` is negative.
pub fn refutation_excludes()
    ensures { RefutationsExclude }
{}
