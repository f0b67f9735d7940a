//! Runs of a contour's steps along a line, as segments give them.
//! Another limit of coefficients is a change here and of the definition.
ghost use Rattle.std.specs.Prelude.{◌≡◌, ◌≤◌, ◌*◌, ◌*ℤ◌, ◌-ℤ◌, ◌<◌, nat_abs, take};
ghost use Rattle.std.specs.Option.{option_map};
ghost use Rattle.shape_terms.specs.Points.{coordinate};
ghost use Rattle.measure_terms.specs.Runs.{most_coefficient, fair, run};
ghost use Rattle.measure_terms.specs.Lengths.{weight, norm};
ghost use Rattle.bordering.specs.Told.{run_told, step_told};

use crate::run::Run;
use crate::step::Step;
use shape_refute::Naive;
use shape_space::MOST_FLAT;

// A run has no more steps.
const MOST_STEPS: u64 = MOST_FLAT as u64;

// No coefficient of a run is greater in size.
const MOST: u64 = 1 << 23;

// A number that is no greater in size than the coefficients of a run may be.
fn coefficient(x: i64) -> i32
    requires { nat_abs x ≤ most_coefficient }
    ensures { result ≡ x }
{
    x as i32
}

// The run with these places and coefficients, where it is within the limits.
fn fair_run(first: u32, last: u32, a: i64, b: i64) -> Option<Run>
    ensures { option_map run_told result
        ≡ fair (record { first = first; last = last; a = a; b = b }) }
{
    if last as u64 <= first as u64 + MOST_STEPS
        && a.unsigned_abs() <= MOST
        && b.unsigned_abs() <= MOST
    {
        Some(Run {
            first,
            last,
            a: coefficient(a),
            b: coefficient(b),
        })
    } else {
        None
    }
}

// The coefficient of x or y in a line of the plane.
fn coefficient_of(line: &Naive, axis: usize) -> i64
    requires { axis < 2 }
    ensures { result ≡ coordinate (take 2 line.now.a) axis }
{
    line.a[axis]
}

/// The run from a place to a place along a line of the plane, where it is within the limits.
pub(crate) fn run_along(first: u32, last: u32, line: &Naive) -> Option<Run>
    ensures { option_map run_told result ≡ fair (run first last (take 2 line.now.a)) }
{
    fair_run(
        first,
        last,
        coefficient_of(line, 0),
        coefficient_of(line, 1),
    )
}

// The product of a change of a coordinate with a coefficient.
fn product(x: i64, c: i32) -> i64
    requires x { nat_abs x ≤ 1 }
    requires c { nat_abs c ≤ most_coefficient }
    ensures value { result ≡ x *ℤ c }
    ensures small { nat_abs result ≤ most_coefficient }
{
    x * c as i64
}

// How far two such products are apart.
fn distance(u: i64, v: i64) -> u64
    requires u { nat_abs u ≤ most_coefficient }
    requires v { nat_abs v ≤ most_coefficient }
    ensures value { result ≡ nat_abs (u -ℤ v) }
    ensures small { result ≤ 2 * most_coefficient }
{
    (u - v).unsigned_abs()
}

impl Run {
    /// What a step weighs along the run.
    pub(crate) fn weight(self, s: Step) -> u64
        ensures value { result ≡ weight (run_told self) (step_told s) }
        ensures small { result ≤ 2 * most_coefficient }
    {
        distance(product(s.x, self.b), product(s.y, self.a))
    }

    /// The squared length of the run's direction.
    pub(crate) fn norm(self) -> u64
        ensures { result ≡ norm (run_told self) }
    {
        let a = self.a.unsigned_abs() as u64;
        let b = self.b.unsigned_abs() as u64;
        a * a + b * b
    }
}
