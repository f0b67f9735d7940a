//! The counter of a thinning of a full square, and what it leaves. The events of thinnings stand in `orders.cases`.
//! A rule with a state of its own is run by `shape_tests`.
ghost use Rattle.std.specs.Prelude.{◌≡◌, ◌≤◌};

use crate::shared::square;
use shape_dist::survey;
use shape_grid::Grid;
use shape_rules::{EndRule, NoEnds};
use shape_space::{NoMemory, P2, Steps};
use shape_thin::{Event, Thinning, thin};
use std::alloc::Global;
use std::marker::Brand;
use std::sync::ledger::{Blank, Ledger};
use std::test::Fail;

// What is asked of a counter: that it stands at 73 at most.
fn is_few<L: Ledger>(steps: &Steps<L>)
    requires { steps.now ≤ 73 }
{}

// The thinning of the full square of 9 points by a rule, with a counter of its own. Where it has 8 events, the counter stands at
// 9 + 8 * 8 at most.
fn counted<L: Ledger>(
    alloc: Global,
    blank: Blank,
    grid: &Grid<P2>,
    rule: &mut Box<dyn EndRule>,
) -> Result<Thinning<P2>, NoMemory>
    requires name { blank.name ≡ L.name }
    requires parts { blank.parts ≡ L.parts }
    requires whole { blank.parts ≡ 1 }
{
    let distances = survey(alloc, grid)?.distances;
    let mut steps = Steps::<L>::new(blank);
    let thinning = thin(alloc, grid, distances, rule, &mut steps)?;
    if grid.count() != 9 || thinning.len() != 8 {
        return Err(NoMemory);
    }
    is_few(&steps);
    Ok(thinning)
}

// The number of points left by a thinning, and each event.
fn told(alloc: Global, thinning: &Thinning<P2>) -> Result<String, Fail> {
    let mut text = format!(in alloc; "{}:", thinning.left().count())?;
    for i in 0..thinning.len() {
        match thinning.event(i) {
            Event::Del(p) => write!(text, " del {} {}", p.x, p.y)?,
            Event::Tip(p) => write!(text, " tip {} {}", p.x, p.y)?,
        }
    }
    Ok(text)
}

#[test]
fn a_square_takes_few_steps(rt: HostRuntime) -> Result<(), Fail> {
    let grid = square(rt.alloc())?;
    let mut rule: Box<dyn EndRule> = Box::new(rt.alloc(), NoEnds)?;
    let thinning = counted::<Brand>(rt.alloc(), Blank::new(1), &grid, &mut rule)?;
    let want = "1: del 0 0 del 1 0 del 2 0 del 0 1 del 2 1 del 0 2 del 1 2 del 2 2";
    assert!(rt; told(rt.alloc(), &thinning)?.as_str() == want);
    Ok(())
}
